ghost use Rattle.std.specs.Prelude.{◌≡◌, IfOk, Some, vec_items};
ghost use Rattle.std.specs.Option.{option_map};
ghost use Rattle.text.specs.Hexadecimal.{hex_digit, hex_pair, hex_low, hex_bytes, hex_text};

use std::alloc::{AllocError, Global};
use std::fmt;

// kept: the value of a digit is a match on ranges of characters, as the page on kinds has it
// The value of a hexadecimal digit in either case.
pub fn digit(c: u8) -> Option<u8>
    ensures { result ≡ hex_digit c }
{
    match c as char {
        '0'..='9' => Some(c - b'0'),
        'a'..='f' => Some(c - b'a' + 10),
        'A'..='F' => Some(c - b'A' + 10),
        _ => None,
    }
}

// The byte of two hexadecimal digits, the higher first.
fn byte(high: u8, low: u8) -> Option<u8>
    ensures { result ≡ hex_pair (hex_digit high) (hex_digit low) }
{
    Some(digit(high)? * 16 + digit(low)?)
}

// kept: `hex::decode` of the kit tells bad text and want of memory by one enum, which would have to be split again
// The bytes of a text of pairs of hexadecimal digits; none for a lone digit or a byte that is no digit.
pub fn decode(heap: Global, text: &[u8]) -> Result<Option<Vec<u8>>, AllocError>
    ensures { IfOk result (λ o. option_map vec_items o ≡ hex_bytes text.now) }
{
    let mut bytes = Vec::new(heap);
    let mut rest = text;
    while let [high, low, tail @ ..] = rest {
        // kept: bad text is `Ok(None)` here, which no `?` says
        let Some(b) = byte(*high, *low) else {
            return Ok(None);
        };
        bytes.push(b)?;
        rest = tail;
    }
    Ok(rest.is_empty().then_some(bytes))
}

// kept: `char::from_digit` gives an Option that is never none here
// The lower-case hexadecimal digit of the low four bits.
pub fn low_digit(d: u8) -> u8
    ensures { result ≡ hex_low d }
{
    match d % 16 {
        n @ 0..=9 => b'0' + n,
        n => b'a' + (n - 10),
    }
}

// Bytes, shown as two lower-case hexadecimal digits each.
#[derive(Clone, Copy, Debug, PartialEq, Eq)]
pub struct Hex<'a>(pub &'a [u8]);

impl fmt::Display for Hex<'_> {
    ghost output = { λ h. Some (hex_text h.0.now) };

    fn fmt<W: fmt::Write>(&self, f: &mut fmt::Formatter<W>) -> fmt::Result {
        for byte in self.0 {
            let high = low_digit(*byte / 16) as char;
            let low = low_digit(*byte) as char;
            write!(f, "{high}{low}")?;
        }
        Ok(())
    }
}

#[cfg(test)]
mod tests {
    use super::*;
    use std::test::Fail;

    #[test]
    fn either_case_is_read(rt: HostRuntime) -> Result<(), Fail> {
        let bytes = decode(rt.alloc(), b"0aFf")?.ok_or_else(|| Fail::new("refused"))?;
        assert_eq!(rt; bytes.as_slice(), [10, 255].as_slice());
        Ok(())
    }

    #[test]
    fn a_lone_digit_is_refused(rt: HostRuntime) -> Result<(), Fail> {
        assert!(rt; decode(rt.alloc(), b"0a0")?.is_none());
        Ok(())
    }
}
