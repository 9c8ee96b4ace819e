ghost use Rattle.std.specs.Prelude.{◌≡◌, ℕ, ◌<◌, Option, Some};
ghost use Rattle.std.specs.Option.{option_map};
ghost use Rattle.std.proofs.Common.{arith};
ghost use Rattle.std.proofs.lemmas.Bool.Decides.{nat_tests};
ghost use Rattle.text.specs.Hexadecimal.{hex_digit};
ghost use Rattle.text.specs.Numerals.{dec_digit_of, number_after, capped};

use crate::hex;

// The digits of a base.
pub trait Digits {
    // how many digits there are
    ghost BASE: { ℕ };

    // the value of a byte that is a digit
    ghost value: { ℕ → Option ℕ };

    const BASE: usize;

    // The value of a digit.
    fn digit(c: u8) -> Option<u8>
        ensures { result ≡ value c };

    ghost positive: { 0 < BASE };

    ghost below: { (c d : ℕ) → value c ≡ Some d → d < BASE };
}

// The digits `0` to `9`.
#[derive(Clone, Copy, Debug, PartialEq, Eq)]
pub struct DecimalDigits;

impl Digits for DecimalDigits {
    ghost BASE = { 10 };

    ghost value = { dec_digit_of };

    ghost positive = { Prim.omega arith };

    ghost below = { λ c d e. Prim.grind (arith, nat_tests) };

    const BASE: usize = 10;

    // kept: the value of a digit is a match on ranges of characters, as the page on kinds has it
    fn digit(c: u8) -> Option<u8> {
        match c as char {
            '0'..='9' => Some(c - b'0'),
            _ => None,
        }
    }
}

// The digits `0` to `9`, and `a` to `f` in either case.
#[derive(Clone, Copy, Debug, PartialEq, Eq)]
pub struct HexDigits;

impl Digits for HexDigits {
    ghost BASE = { 16 };

    ghost value = { hex_digit };

    ghost positive = { Prim.omega arith };

    ghost below = { λ c d e. Prim.grind (arith, nat_tests) };

    const BASE: usize = 16;

    fn digit(c: u8) -> Option<u8> {
        hex::digit(c)
    }
}

// The number that digits write; the largest of the machine where it is larger than that.
pub fn number<D: Digits>(text: &[u8]) -> Option<usize>
    ensures { result ≡ option_map capped (number_after D.value D.BASE 0 text.now) }
{
    let mut value: usize = 0;
    for c in text {
        let digit = D::digit(*c)?;
        value = value
            .saturating_mul(D::BASE)
            .saturating_add(usize::from(digit));
    }
    Some(value)
}
