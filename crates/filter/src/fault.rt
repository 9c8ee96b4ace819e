ghost use Rattle.std.specs.Prelude.{◌≡◌};
ghost use Rattle.filter.specs.declared.fault.FilterFault.{FilterFault};
ghost use Rattle.filter.specs.Faults.{filter_number, filter_place};

use engine::fault::EngineFault;
use kind::fault::{FrameFault, RuleFault};

// Why a filter refuses a call; a fault of a part passes up whole.
#[derive(Clone, Copy, Debug, PartialEq, Eq)]
pub enum FilterFault {
    Rule(RuleFault),
    Frame(FrameFault),
    Engine(EngineFault),
    // the kind's number of bits is not the engine's number of variables
    Mismatch,
    // the draft holds 64 rules
    Full,
    // the draft has no rule of that number
    Missing,
}

impl From<RuleFault> for FilterFault {
    ghost from_gives = { λ e b. b ≡ FilterFault.Rule e };

    fn from(value: RuleFault) -> FilterFault {
        FilterFault::Rule(value)
    }
}

impl From<FrameFault> for FilterFault {
    ghost from_gives = { λ e b. b ≡ FilterFault.Frame e };

    fn from(value: FrameFault) -> FilterFault {
        FilterFault::Frame(value)
    }
}

impl From<EngineFault> for FilterFault {
    ghost from_gives = { λ e b. b ≡ FilterFault.Engine e };

    fn from(value: EngineFault) -> FilterFault {
        FilterFault::Engine(value)
    }
}

impl FilterFault {
    // kept: a refusal is printed by number and place, and `number` names which of them it gives; a From for u8 would not
    // The fault's number.
    pub fn number(self) -> u8
        ensures { result ≡ filter_number self }
    {
        match self {
            FilterFault::Rule(fault) => fault.number(),
            FilterFault::Frame(fault) => fault.number(),
            FilterFault::Engine(fault) => fault.number(),
            FilterFault::Mismatch => 14,
            FilterFault::Full => 15,
            FilterFault::Missing => 16,
        }
    }

    // kept: the format of a refusal has place 0 where there is none
    // The fault's place in its line, counted in bytes from 0; 0 where it has none.
    pub fn place(self) -> usize
        ensures { result ≡ filter_place self }
    {
        match self {
            FilterFault::Rule(fault) => fault.place(),
            _ => 0,
        }
    }
}
