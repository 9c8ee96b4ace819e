ghost use Rattle.std.specs.Prelude.{◌≡◌, ◌≤◌, Ok, Err, MatchResult};
ghost use Rattle.address.specs.Address.{address};
ghost use Rattle.address.specs.Grammar.{Accepts};
ghost use Rattle.address.specs.Refusals.{RefusedAt, Refuses};

use crate::address::read_address;
use crate::fault::{AddressFault, PrefixFault};
use text::fields::Field;
use text::numerals::read_decimal;
use text::split::find_byte;

// What stands between an address and its length.
const SLASH: u8 = b'/';

// The number of bits of an address, which is its greatest length.
const ADDRESS_BITS: u32 = 128;

// An address, and how many of its first bits count; without a length all of them do.
#[derive(Debug, Clone, Copy, PartialEq, Eq)]
pub struct Prefix {
    pub address: u128,
    pub length: Option<u32>,
}

// A prefix length.
#[derive(Clone, Copy)]
struct Length {
    bits: u32,
    ghost most: { bits ≤ 128 },
}

impl Length {
    ghost use Rattle.address.specs.Prefix.{length_at, bits_past_of};

    // The length that digits say.
    fn read(digits: Field<'_>) -> Result<Length, PrefixFault>
        ensures { MatchResult result (λ l. length_at digits.entry.place digits.entry.text.now ≡ Ok l.bits) (λ e. length_at digits.entry.place digits.entry.text.now ≡ Err e) }
    {
        match read_decimal(digits.text) {
            Some(bits) if bits <= ADDRESS_BITS => Ok(Length { bits }),
            _ => Err(PrefixFault::Length(digits.place)),
        }
    }

    // The bits of an address past its first `bits`, as a number.
    fn bits_past(self, address: u128) -> u128
        ensures { result ≡ bits_past_of self.bits address }
    {
        if self.bits == 0 {
            return address;
        }
        address % (1 << (ADDRESS_BITS - self.bits))
    }
}

impl Prefix {
    ghost use Rattle.address.specs.Prefix.{length_at, unstray, sized_prefix, prefix, in_line};
    ghost use Rattle.address.specs.Grammar.{PrefixText};

    // The prefix of an address and a length; no bit may be set past the length.
    fn new(address: u128, length: Length) -> Result<Prefix, PrefixFault>
        ensures { result ≡ unstray address length.bits }
    {
        if length.bits_past(address) != 0 {
            return Err(PrefixFault::Stray(0));
        }
        Ok(Prefix {
            address,
            length: Some(length.bits),
        })
    }

    // The prefix of an address text and the digits of a length.
    fn read_sized(text: &[u8], digits: Field<'_>) -> Result<Prefix, AddressFault>
        ensures { result ≡ sized_prefix (address text.now) (length_at digits.entry.place digits.entry.text.now) }
    {
        let address = read_address(text)?;
        let length = Length::read(digits)?;
        Ok(Prefix::new(address, length)?)
    }

    // The prefix of a text: an address, and a length after its first `/`.
    fn read_text(text: &[u8]) -> Result<Prefix, AddressFault>
        ensures { result ≡ prefix text.now }
    {
        let Some(slash) = find_byte(text, SLASH) else {
            let address = read_address(text)?;
            return Ok(Prefix {
                address,
                length: None,
            });
        };
        let digits = Field {
            text: &text[slash + 1..],
            place: slash + 1,
        };
        Prefix::read_sized(&text[..slash], digits)
    }

    // kept: its three clauses have names; `try_from` would have one relation for them
    // The prefix that a field says. It is accepted exactly if it is prefix text.
    pub fn read(field: Field<'_>) -> Result<Prefix, AddressFault>
        ensures value { result ≡ in_line field.entry.place (prefix field.entry.text.now) }
        ensures grammar { Accepts result (PrefixText field.entry.text.now) }
        ensures refusal { Refuses result (RefusedAt field.entry.place field.entry.text.now) }
    {
        Prefix::read_text(field.text).map_err(|fault| fault.moved(field.place))
    }
}

#[cfg(test)]
mod tests {
    use super::*;

    #[test]
    fn a_length_is_read(rt: HostRuntime) {
        let field = Field {
            text: b"2001:0DB8:0:CD30::/60",
            place: 6,
        };
        let prefix = Prefix {
            address: 0x20010db80000cd300000000000000000,
            length: Some(60),
        };
        assert_eq!(rt; Prefix::read(field), Ok(prefix));
    }

    #[test]
    fn a_fault_has_its_place_in_the_line(rt: HostRuntime) {
        let field = Field {
            text: b"2001:db8::/129",
            place: 6,
        };
        assert_eq!(rt;
            Prefix::read(field).map_err(|fault| (fault.number(), fault.place())),
            Err((6, 17))
        );
    }
}
