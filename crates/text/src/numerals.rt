ghost use Rattle.std.specs.Prelude.{◌≡◌, ◌^◌, ◌<◌, IfSome};
ghost use Rattle.text.specs.Numerals.{number_of, group, padded, decimal};
ghost use Rattle.text.specs.Written.{Group, Decimal, Reads};

use crate::digits::{DecimalDigits, Digits, HexDigits, number};

// The most digits of a group.
const GROUP_MAX: usize = 4;

// The most digits of a decimal number.
const DECIMAL_MAX: usize = 5;

// The number of a text of 1 to `most` digits.
fn sized_number<D: Digits>(text: &[u8], most: usize) -> Option<usize>
    requires { D.BASE ^ most < 2 ^ 64 }
    ensures is { result ≡ number_of D.value D.BASE most text.now }
    ensures within { IfSome result (λ v. v < D.BASE ^ most) }
{
    if text.is_empty() || text.len() > most {
        return None;
    }
    number::<D>(text)
}

// The value of a group: one to four hexadecimal digits in either case.
pub fn read_group(text: &[u8]) -> Option<u16>
    ensures value { result ≡ group text.now }
    ensures grammar { Reads result (Group text.now) }
{
    sized_number::<HexDigits>(text, GROUP_MAX).map(|value| value as u16)
}

// Whether a zero stands before another byte.
fn is_padded(text: &[u8]) -> bool
    ensures { result ≡ padded text.now }
{
    matches!(text, [b'0', _, ..])
}

// The value of a decimal number: one to five digits, with no leading zero but 0 itself.
pub fn read_decimal(text: &[u8]) -> Option<u32>
    ensures value { result ≡ decimal text.now }
    ensures grammar { Reads result (Decimal text.now) }
{
    if is_padded(text) {
        return None;
    }
    sized_number::<DecimalDigits>(text, DECIMAL_MAX).map(|value| value as u32)
}

#[cfg(test)]
mod tests {
    use super::*;

    #[test]
    fn a_group_has_one_to_four_digits(rt: HostRuntime) {
        assert_eq!(rt; read_group(b"Db8"), Some(0xdb8));
        assert!(rt; read_group(b"").is_none());
        assert!(rt; read_group(b"00000").is_none());
    }

    #[test]
    fn a_decimal_has_no_leading_zero(rt: HostRuntime) {
        assert_eq!(rt; read_decimal(b"0"), Some(0));
        assert_eq!(rt; read_decimal(b"65535"), Some(65535));
        assert!(rt; read_decimal(b"01").is_none());
    }
}
