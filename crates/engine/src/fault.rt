ghost use Rattle.std.specs.Prelude.{◌≡◌};
ghost use Rattle.engine.specs.Does.{fault_number};

// Why an engine refuses a call.
#[derive(Debug, Clone, Copy, PartialEq, Eq)]
pub enum EngineFault {
    // a register over 15
    Register,
    // a variable that is not 1 to n
    Variable,
    // no room
    Room,
}

impl EngineFault {
    // kept: a refusal is printed by number and place, and `number` names which of them it gives; a From for u8 would not
    // The fault's number.
    pub fn number(self) -> u8
        ensures { result ≡ fault_number self }
    {
        match self {
            EngineFault::Register => 11,
            EngineFault::Variable => 12,
            EngineFault::Room => 17,
        }
    }
}
