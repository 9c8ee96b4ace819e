ghost use Rattle.word.specs.Words.{roomy, word_view};
ghost use Rattle.word.specs.Meaning.{same_regs};
ghost use Rattle.std.proofs.Common.{rules};

use super::WordEngine;
use engine::assignment::Assignment;
use engine::calls::Engine;
use engine::fault::EngineFault;
use engine::register::Register;

// No call lacks room.
impl Engine for WordEngine {
    ghost rooms = { roomy };

    ghost view = { λ e. word_view e.n e.words };

    ghost some = { Prim.search rules };

    ghost few = { Prim.search rules };

    ghost local = { λ e r s t h. same_regs e.n e.words r s t h };

    ghost sixteen = { Prim.search rules };

    fn variables(&self) -> u8 {
        self.n
    }

    fn clear(&mut self, d: u8) -> Result<(), EngineFault> {
        let d = Register::try_from(d)?;
        self.put(d, 0);
        Ok(())
    }

    fn copy(&mut self, d: u8, a: u8) -> Result<(), EngineFault> {
        let d = Register::try_from(d)?;
        let a = Register::try_from(a)?;
        self.put(d, self.word_in(a));
        Ok(())
    }

    fn negate(&mut self, d: u8, a: u8) -> Result<(), EngineFault> {
        let d = Register::try_from(d)?;
        let a = Register::try_from(a)?;
        self.put(d, self.full() ^ self.word_in(a));
        Ok(())
    }

    fn literal(&mut self, d: u8, v: u8) -> Result<(), EngineFault> {
        let d = Register::try_from(d)?;
        let variable = self.variable(v)?;
        self.put(d, variable.column());
        Ok(())
    }

    fn meet(&mut self, d: u8, a: u8, b: u8) -> Result<(), EngineFault> {
        let d = Register::try_from(d)?;
        let a = Register::try_from(a)?;
        let b = Register::try_from(b)?;
        self.put(d, self.word_in(a) & self.word_in(b));
        Ok(())
    }

    #[tactic(auto, using(crate::specs::Meaning::evaluates, crate::specs::Meaning::place_below))]
    fn evaluate(&mut self, a: u8, bits: &Assignment) -> Result<bool, EngineFault> {
        let a = Register::try_from(a)?;
        // variables 1 to n are the top bits of the first byte
        let at = bits[0] >> (8 - self.n);
        Ok((self.word_in(a) >> at) % 2 == 1)
    }
}
