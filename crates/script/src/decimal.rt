ghost use Rattle.std.specs.Prelude.{◌≡◌};
ghost use Rattle.script.specs.Decimals.{decimal_of};

use text::digits::{DecimalDigits, number};

// The number that a text writes in decimal, with no leading zero but 0 itself; the largest number of the machine where
// it is larger than that.
pub fn decimal(text: &[u8]) -> Option<usize>
    ensures { result ≡ decimal_of text.now }
{
    match text {
        [] | [b'0', _, ..] => None,
        _ => number::<DecimalDigits>(text),
    }
}
