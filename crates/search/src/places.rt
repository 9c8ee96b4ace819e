ghost use Rattle.std.specs.Prelude.{◌≡◌};
ghost use Rattle.engine.specs.Rows.{Ran};

use crate::bits::assign;
use engine::assignment::{Assignment, BYTES};
use engine::calls::{DecidingEngine, Engine};
use engine::fault::EngineFault;

// The registers that a comparison uses between its start and its end. Between calls all of them are false.
#[derive(Clone, Copy, Debug, PartialEq, Eq)]
pub struct Places {
    // the complement of a register
    pub inverse: u8,
    // the frames in the first register only, and the others
    pub former: u8,
    pub nonformer: u8,
    // the frames in the second register only, and the others
    pub latter: u8,
    pub nonlatter: u8,
    // the frames in both registers or in neither
    pub alike: u8,
    // the frames in one register only, of which the least is sought
    pub differing: u8,
    // those of them with one variable more held
    pub half: u8,
}

// The registers 3 to 10.
pub const PLACES: Places = Places {
    inverse: 3,
    former: 4,
    nonformer: 5,
    latter: 6,
    nonlatter: 7,
    alike: 8,
    differing: 9,
    half: 10,
};

// How the frames in one register only are made.
#[derive(Clone, Copy)]
struct Side {
    // the register that is complemented
    without: u8,
    // the two registers that are then met
    left: u8,
    right: u8,
    // where these frames go, and where the others go
    frames: u8,
    others: u8,
}

impl Places {
    ghost use Rattle.search.specs.Steps.{side_steps, join_steps, differ_steps, take_steps};
    ghost use Rattle.search.specs.Seeks.{Chooses, Hunts};

    // The complement of the frames on one side. It is inlined, so that the registers are constants at both of its calls.
    #[inline(always)]
    fn exclude<E: Engine>(self, e: &mut E, side: Side) -> Result<(), EngineFault>
        ensures { Ran E.Engine.rooms (side_steps self side) (E.Engine.view e.old) (E.Engine.view e.new) result }
    {
        e.negate(self.inverse, side.without)?;
        e.meet(side.frames, side.left, side.right)?;
        e.clear(self.inverse)?;
        e.negate(side.others, side.frames)?;
        e.clear(side.frames)
    }

    // The frames in one of the two registers only.
    fn join<E: Engine>(self, e: &mut E) -> Result<(), EngineFault>
        ensures { Ran E.Engine.rooms (join_steps self) (E.Engine.view e.old) (E.Engine.view e.new) result }
    {
        e.meet(self.alike, self.nonformer, self.nonlatter)?;
        e.clear(self.nonformer)?;
        e.clear(self.nonlatter)?;
        e.negate(self.differing, self.alike)?;
        e.clear(self.alike)
    }

    // The frames that registers a and b judge differently.
    pub(crate) fn differ<E: Engine>(self, e: &mut E, a: u8, b: u8) -> Result<(), EngineFault>
        ensures { Ran E.Engine.rooms (differ_steps self a b) (E.Engine.view e.old) (E.Engine.view e.new) result }
    {
        let former = Side {
            without: b,
            left: a,
            right: self.inverse,
            frames: self.former,
            others: self.nonformer,
        };
        let latter = Side {
            without: a,
            left: self.inverse,
            right: b,
            frames: self.latter,
            others: self.nonlatter,
        };
        self.exclude(e, former)?;
        self.exclude(e, latter)?;
        self.join(e)
    }

    // The half that was chosen takes the place of the whole.
    fn take<E: Engine>(self, e: &mut E) -> Result<(), EngineFault>
        ensures { Ran E.Engine.rooms (take_steps self) (E.Engine.view e.old) (E.Engine.view e.new) result }
    {
        e.copy(self.differing, self.half)?;
        e.clear(self.half)
    }

    // Variable v of the differing frames is fixed at 0, or at 1 where nothing is left so.
    fn choose<E: DecidingEngine>(self, e: &mut E, v: u8) -> Result<bool, EngineFault>
        ensures { Chooses E.Engine.rooms self v (E.Engine.view e.old) (E.Engine.view e.new) result }
    {
        e.fix(self.half, self.differing, v, false)?;
        let none = e.empty(self.half)?;
        if none {
            e.clear(self.half)?;
            e.fix(self.half, self.differing, v, true)?;
        }
        self.take(e)?;
        Ok(none)
    }

    // The least of the differing frames.
    pub(crate) fn hunt<E: DecidingEngine>(self, e: &mut E) -> Result<Assignment, EngineFault>
        ensures { Hunts E.Engine.rooms self (E.Engine.view e.old).vars (E.Engine.view e.old) (E.Engine.view e.new) result }
    {
        let mut bits = [0u8; BYTES];
        for v in 1..=e.variables() {
            let bit = self.choose(e, v)?;
            assign(&mut bits, v, bit);
        }
        Ok(bits)
    }
}
