ghost use Rattle.std.specs.Prelude.{◌≡◌};
ghost use Rattle.text.specs.Faults.{line_number, line_place};

// What is wrong with a rule line as a whole; places are counted in bytes from 0.
#[derive(Clone, Copy, Debug, PartialEq, Eq)]
pub enum LineFault {
    // empty, or over 80 bytes
    Length,
    // an empty field, or too few or too many fields
    Fields(usize),
    // neither `block` nor `pass`
    Action(usize),
}

impl LineFault {
    // kept: a refusal is printed by number and place, and `number` names which of them it gives; a From for u8 would not
    // The fault's number.
    pub fn number(self) -> u8
        ensures { result ≡ line_number self }
    {
        match self {
            LineFault::Length => 1,
            LineFault::Fields(_) => 2,
            LineFault::Action(_) => 3,
        }
    }

    // kept: the format of a refusal has place 0 where there is none
    // The fault's place in its line.
    pub fn place(self) -> usize
        ensures { result ≡ line_place self }
    {
        match self {
            LineFault::Length => 0,
            LineFault::Fields(at) | LineFault::Action(at) => at,
        }
    }
}
