ghost use Rattle.std.specs.Prelude.{◌≡◌, ◌≤◌};

use crate::fault::EngineFault;

// The last register.
const LAST: u8 = 15;

// One of the sixteen registers.
#[derive(Debug, Clone, Copy, PartialEq, Eq)]
pub struct Register {
    pub number: u8,
    ghost small: { number ≤ 15 },
}

// A number over 15 names no register.
impl TryFrom<u8> for Register {
    ghost use Rattle.engine.specs.Register.{Names};

    type Error = EngineFault;

    ghost try_from_gives = { Names };

    fn try_from(number: u8) -> Result<Register, EngineFault> {
        if number > LAST {
            return Err(EngineFault::Register);
        }
        Ok(Register { number })
    }
}

impl Register {
    // The place of the register among sixteen.
    pub fn index(self) -> usize
        ensures { result ≡ self.number }
    {
        self.number as usize
    }
}
