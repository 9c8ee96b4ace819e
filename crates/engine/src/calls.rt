ghost use Rattle.std.specs.Prelude.{◌≡◌, ℕ, ◌<◌, ◌≤◌, Bool, true, false};
ghost use Rattle.engine.specs.Ops.{Op, Regs, Bits, Agree, within, bit_at};
ghost use Rattle.engine.specs.Does.{Does, Rooms, View, Tests};

use crate::assignment::Assignment;
use crate::fault::EngineFault;

// Sixteen registers, 0 to 15, each a Boolean function of the variables 1 to n. Sources are read before d is
// written, so d may equal one. All but `variables` may change what the engine keeps beside its registers.
pub trait Engine {
    ghost rooms: { Rooms };

    ghost view: { Self → View rooms.Shape };

    // The number n of variables.
    fn variables(&self) -> u8
        ensures { result ≡ (view self.now).vars };

    // Register d becomes false.
    fn clear(&mut self, d: u8) -> Result<(), EngineFault>
        ensures { Does rooms (Op.clear d) tt (view self.old) (view self.new) result };

    // Register d becomes a.
    fn copy(&mut self, d: u8, a: u8) -> Result<(), EngineFault>
        ensures { Does rooms (Op.copy d a) tt (view self.old) (view self.new) result };

    // Register d becomes the complement of a.
    fn negate(&mut self, d: u8, a: u8) -> Result<(), EngineFault>
        ensures { Does rooms (Op.negate d a) tt (view self.old) (view self.new) result };

    // Register d becomes the variable v.
    fn literal(&mut self, d: u8, v: u8) -> Result<(), EngineFault>
        ensures { Does rooms (Op.literal d v) tt (view self.old) (view self.new) result };

    // Register d becomes the conjunction of a and b.
    fn meet(&mut self, d: u8, a: u8, b: u8) -> Result<(), EngineFault>
        ensures { Does rooms (Op.meet d a b) tt (view self.old) (view self.new) result };

    // The value of register a under an assignment.
    fn evaluate(&mut self, a: u8, bits: &Assignment) -> Result<bool, EngineFault>
        ensures { Does rooms (Op.evaluate a (within (view self.old).vars (bit_at bits.now))) ((view self.old).regs a (bit_at bits.now)) (view self.old) (view self.new) result };

    // n is 1 to 144
    ghost some: { (e : Self) → 1 ≤ (view e).vars };

    ghost few: { (e : Self) → (view e).vars ≤ 144 };

    // only variables 1 to n matter
    ghost local: { (e : Self) (r : ℕ) (s t : Bits) → Agree (view e).vars s t → (view e).regs r s ≡ (view e).regs r t };

    // there are sixteen registers
    ghost sixteen: { (e : Self) (r : ℕ) (s : Bits) → 15 < r → (view e).regs r s ≡ false };
}

// An engine that also decides whether a function is false everywhere.
pub trait DecidingEngine: Engine {
    // Register d becomes a with variable v held at this bit.
    fn fix(&mut self, d: u8, a: u8, v: u8, bit: bool) -> Result<(), EngineFault>
        ensures { Does Self.Engine.rooms (Op.fix d a v bit) tt (Self.Engine.view self.old) (Self.Engine.view self.new) result };

    // Register d becomes the conjunction of both fixes of a.
    fn forall(&mut self, d: u8, a: u8, v: u8) -> Result<(), EngineFault>
        ensures { Does Self.Engine.rooms (Op.forall d a v) tt (Self.Engine.view self.old) (Self.Engine.view self.new) result };

    // Whether register a is false under every assignment.
    fn empty(&mut self, a: u8) -> Result<bool, EngineFault>
        ensures { Tests Self.Engine.rooms a (Self.Engine.view self.old) (Self.Engine.view self.new) result };
}
