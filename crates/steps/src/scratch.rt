ghost use Rattle.std.specs.Prelude.{◌≡◌};
ghost use Rattle.engine.specs.Rows.{Ran};

use engine::assignment::bit;
use engine::calls::{DecidingEngine, Engine};
use engine::fault::EngineFault;
use kind::rule::Rule;

// The registers that a call uses between its start and its end. Between calls all of them are false.
#[derive(Clone, Copy, Debug, PartialEq, Eq)]
pub struct Scratch {
    // the frames that the rule matches
    pub rule: u8,
    // a literal, and its complement
    pub literal: u8,
    pub negated: u8,
    // the two complements that are met, and their conjunction
    pub left: u8,
    pub right: u8,
    pub both: u8,
    // the frames that the rule decides
    pub fresh: u8,
    // the frames that the draft matches and blocks with the rule
    pub matched: u8,
    pub blocked: u8,
}

// The registers 3 to 11.
pub const SCRATCH: Scratch = Scratch {
    rule: 3,
    literal: 4,
    negated: 5,
    left: 6,
    right: 7,
    both: 8,
    fresh: 9,
    matched: 10,
    blocked: 11,
};

// The register of the frames that the live book blocks.
pub const LIVE: u8 = 0;

// The register of the frames that the draft blocks.
pub const BLOCKED: u8 = 1;

// The register of the frames that the draft matches.
pub const MATCHED: u8 = 2;

impl Scratch {
    ghost use Rattle.steps.specs.Steps.{bit_steps, rule_steps, join_steps, find_steps, keep_steps};
    ghost use Rattle.steps.specs.Works.{Works};

    // The rule's register is met with its bit v, if that counts.
    fn meet_bit<E: Engine>(self, e: &mut E, rule: &Rule, v: u8) -> Result<(), EngineFault>
        ensures { Ran E.Engine.rooms (bit_steps self rule.now v) (E.Engine.view e.old) (E.Engine.view e.new) result }
    {
        if !bit(&rule.care, v) {
            return Ok(());
        }
        e.literal(self.literal, v)?;
        if bit(&rule.value, v) {
            e.meet(self.rule, self.literal, self.rule)?;
            e.clear(self.literal)
        } else {
            e.negate(self.negated, self.literal)?;
            e.clear(self.literal)?;
            e.meet(self.rule, self.negated, self.rule)?;
            e.clear(self.negated)
        }
    }

    // kept: rule and n are not one, since a list of rules has one n
    // The rule's register becomes the frames that it matches; n is the number of bits.
    #[tactic(auto, using(crate::proofs::Rows::bits_down))]
    fn build<E: Engine>(self, e: &mut E, rule: &Rule, n: u8) -> Result<(), EngineFault>
        ensures { Ran E.Engine.rooms (rule_steps self rule.now n) (E.Engine.view e.old) (E.Engine.view e.new) result }
    {
        e.negate(self.rule, self.literal)?;
        for v in (1..=n).rev() {
            self.meet_bit(e, rule, v)?;
        }
        Ok(())
    }

    // Register `into` becomes a or b, and b becomes false.
    fn join<E: Engine>(self, e: &mut E, into: u8, a: u8, b: u8) -> Result<(), EngineFault>
        ensures { Ran E.Engine.rooms (join_steps self into a b) (E.Engine.view e.old) (E.Engine.view e.new) result }
    {
        e.negate(self.left, a)?;
        e.negate(self.right, b)?;
        e.clear(b)?;
        e.meet(self.both, self.left, self.right)?;
        e.clear(self.left)?;
        e.clear(self.right)?;
        e.negate(into, self.both)?;
        e.clear(self.both)
    }

    // The frames that the rule matches, and those of them that are not in register `earlier`.
    pub(crate) fn find<E: Engine>(
        self,
        e: &mut E,
        rule: &Rule,
        n: u8,
        earlier: u8,
    ) -> Result<(), EngineFault>
        ensures { Ran E.Engine.rooms (find_steps self earlier rule.now n) (E.Engine.view e.old) (E.Engine.view e.new) result }
    {
        self.build(e, rule, n)?;
        e.negate(self.left, earlier)?;
        e.meet(self.fresh, self.rule, self.left)?;
        e.clear(self.left)
    }

    // The frames matched and, for block, blocked with the rule, from those matched and blocked before it.
    #[tactic(auto, using(crate::proofs::Rows::keep_pass))]
    pub(crate) fn keep<E: Engine>(
        self,
        e: &mut E,
        rule: &Rule,
        matched: u8,
        blocked: u8,
    ) -> Result<(), EngineFault>
        ensures { Ran E.Engine.rooms (keep_steps self matched blocked rule.now) (E.Engine.view e.old) (E.Engine.view e.new) result }
    {
        if rule.action.is_block() {
            self.join(e, self.matched, matched, self.rule)?;
            self.join(e, self.blocked, blocked, self.fresh)
        } else {
            e.clear(self.fresh)?;
            self.join(e, self.matched, matched, self.rule)
        }
    }

    // All that an add does before the draft's registers are written; whether the rule decides no frame.
    pub(crate) fn work<E: DecidingEngine>(
        self,
        e: &mut E,
        rule: &Rule,
        n: u8,
    ) -> Result<bool, EngineFault>
        ensures { Works E.Engine.rooms self rule.now n (E.Engine.view e.old) (E.Engine.view e.new) result }
    {
        self.find(e, rule, n, MATCHED)?;
        let idle = e.empty(self.fresh)?;
        self.keep(e, rule, MATCHED, BLOCKED)?;
        Ok(idle)
    }
}
