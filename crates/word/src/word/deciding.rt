use super::WordEngine;
use engine::calls::DecidingEngine;
use engine::fault::EngineFault;
use engine::register::Register;

impl DecidingEngine for WordEngine {
    fn fix(&mut self, d: u8, a: u8, v: u8, bit: bool) -> Result<(), EngineFault> {
        let d = Register::try_from(d)?;
        let a = Register::try_from(a)?;
        let variable = self.variable(v)?;
        self.put(d, variable.fixed(self.word_in(a), bit));
        Ok(())
    }

    fn forall(&mut self, d: u8, a: u8, v: u8) -> Result<(), EngineFault> {
        let d = Register::try_from(d)?;
        let a = Register::try_from(a)?;
        let variable = self.variable(v)?;
        let word = self.word_in(a);
        let low = variable.fixed(word, false);
        let high = variable.fixed(word, true);
        self.put(d, low & high);
        Ok(())
    }

    #[tactic(auto, using(crate::specs::Meaning::tests))]
    fn empty(&mut self, a: u8) -> Result<bool, EngineFault> {
        let a = Register::try_from(a)?;
        Ok(self.word_in(a) == 0)
    }
}
