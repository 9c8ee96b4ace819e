ghost use Rattle.std.specs.Prelude.{◌≡◌};
ghost use Rattle.kind.specs.declared.fault.RuleFault.{RuleFault};
ghost use Rattle.kind.specs.Faults.{rule_number, rule_place, frame_number};

use address::fault::AddressFault;
use text::fault::LineFault;

// What is wrong with a port.
#[derive(Clone, Copy, Debug, PartialEq, Eq)]
pub enum PortFault {
    // not a number 0 to 65535
    Number(usize),
}

// What is wrong with a flat.
#[derive(Clone, Copy, Debug, PartialEq, Eq)]
pub enum FlatFault {
    // neither a digit 0 to 7 nor `*`
    Digit(usize),
}

// Why a line is no rule; a fault passes up whole.
#[derive(Clone, Copy, Debug, PartialEq, Eq)]
pub enum RuleFault {
    Line(LineFault),
    Address(AddressFault),
    Port(PortFault),
    Flat(FlatFault),
}

// Bytes that are no frame, or text that is no hexadecimal.
#[derive(Clone, Copy, Debug, PartialEq, Eq)]
pub enum FrameFault {
    Wrong,
}

impl From<LineFault> for RuleFault {
    ghost from_gives = { λ e b. b ≡ RuleFault.Line e };

    fn from(value: LineFault) -> RuleFault {
        RuleFault::Line(value)
    }
}

impl From<AddressFault> for RuleFault {
    ghost from_gives = { λ e b. b ≡ RuleFault.Address e };

    fn from(value: AddressFault) -> RuleFault {
        RuleFault::Address(value)
    }
}

impl From<PortFault> for RuleFault {
    ghost from_gives = { λ e b. b ≡ RuleFault.Port e };

    fn from(value: PortFault) -> RuleFault {
        RuleFault::Port(value)
    }
}

impl From<FlatFault> for RuleFault {
    ghost from_gives = { λ e b. b ≡ RuleFault.Flat e };

    fn from(value: FlatFault) -> RuleFault {
        RuleFault::Flat(value)
    }
}

impl RuleFault {
    // kept: a refusal is printed by number and place, and `number` names which of them it gives; a From for u8 would not
    // The fault's number.
    pub fn number(self) -> u8
        ensures { result ≡ rule_number self }
    {
        match self {
            RuleFault::Line(fault) => fault.number(),
            RuleFault::Address(fault) => fault.number(),
            RuleFault::Port(PortFault::Number(_)) => 8,
            RuleFault::Flat(FlatFault::Digit(_)) => 9,
        }
    }

    // kept: as `number`
    // The fault's place in its line, counted in bytes from 0.
    pub fn place(self) -> usize
        ensures { result ≡ rule_place self }
    {
        match self {
            RuleFault::Line(fault) => fault.place(),
            RuleFault::Address(fault) => fault.place(),
            RuleFault::Port(PortFault::Number(at)) => at,
            RuleFault::Flat(FlatFault::Digit(at)) => at,
        }
    }
}

impl FrameFault {
    // kept: a refusal is printed by number and place, and `number` names which of them it gives; a From for u8 would not
    // The fault's number; it has no place.
    pub fn number(self) -> u8
        ensures { result ≡ frame_number self }
    {
        match self {
            FrameFault::Wrong => 10,
        }
    }
}
