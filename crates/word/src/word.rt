ghost use Rattle.std.specs.Prelude.{◌≡◌, ℕ, ◌^◌, ◌<◌, ◌≤◌, length, slice_index};

pub mod calls;
pub mod deciding;
mod registers;

// An engine of n variables, 1 to 6. Bit i of a register's word is its value where variables 1 to n, variable 1
// highest, spell i.
#[derive(Drop)]
pub struct WordEngine {
    n: u8,
    words: [u64; 16],
    ghost low: { 1 ≤ n },
    ghost high: { n ≤ 6 },
    ghost sixteen: { length words ≡ 16 },
    // bits from 2^n on are zero
    ghost small: { (r : ℕ) → slice_index words r < 2 ^ 2 ^ n },
}
