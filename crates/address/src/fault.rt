ghost use Rattle.std.specs.Prelude.{◌≡◌};
ghost use Rattle.address.specs.declared.fault.AddressFault.{AddressFault};
ghost use Rattle.address.specs.Faults.{address_number, address_place, moved};

// A piece of address text that is no group.
#[derive(Debug, Clone, Copy, PartialEq, Eq)]
pub enum GroupFault {
    Piece(usize),
}

// What is wrong with a prefix length.
#[derive(Debug, Clone, Copy, PartialEq, Eq)]
pub enum PrefixFault {
    // not a number 0 to 128
    Length(usize),
    // a bit is set past the length
    Stray(usize),
}

// Why a text is no address or prefix; places are counted in bytes from 0.
#[derive(Debug, Clone, Copy, PartialEq, Eq)]
pub enum AddressFault {
    Group(GroupFault),
    // not eight groups, or over seven beside `::`
    Count(usize),
    Prefix(PrefixFault),
}

impl From<GroupFault> for AddressFault {
    ghost from_gives = { λ e b. b ≡ AddressFault.Group e };

    fn from(value: GroupFault) -> AddressFault {
        AddressFault::Group(value)
    }
}

impl From<PrefixFault> for AddressFault {
    ghost from_gives = { λ e b. b ≡ AddressFault.Prefix e };

    fn from(value: PrefixFault) -> AddressFault {
        AddressFault::Prefix(value)
    }
}

impl AddressFault {
    // kept: a refusal is printed by number and place, and `number` names which of them it gives; a From for u8 would not
    // The fault's number.
    pub fn number(self) -> u8
        ensures { result ≡ address_number self }
    {
        match self {
            AddressFault::Group(GroupFault::Piece(_)) => 4,
            AddressFault::Count(_) => 5,
            AddressFault::Prefix(PrefixFault::Length(_)) => 6,
            AddressFault::Prefix(PrefixFault::Stray(_)) => 7,
        }
    }

    // kept: as `number`
    // The fault's place.
    pub fn place(self) -> usize
        ensures { result ≡ address_place self }
    {
        match self {
            AddressFault::Group(GroupFault::Piece(at)) => at,
            AddressFault::Count(at) => at,
            AddressFault::Prefix(PrefixFault::Length(at) | PrefixFault::Stray(at)) => at,
        }
    }

    // kept: no conversion, but the same fault at another place
    // The fault of a text that begins at `start` of a line, with its place in the line.
    pub fn moved(self, start: usize) -> AddressFault
        ensures { result ≡ moved start self }
    {
        let at = start.saturating_add(self.place());
        match self {
            AddressFault::Group(GroupFault::Piece(_)) => AddressFault::Group(GroupFault::Piece(at)),
            AddressFault::Count(_) => AddressFault::Count(at),
            AddressFault::Prefix(PrefixFault::Length(_)) => AddressFault::Prefix(
                PrefixFault::Length(at),
            ),
            AddressFault::Prefix(PrefixFault::Stray(_)) => AddressFault::Prefix(PrefixFault::Stray(
                at,
            )),
        }
    }
}
