ghost use Rattle.std.specs.Prelude.{◌≡◌};
ghost use Rattle.engine.specs.Ops.{bit_at};

// The bytes of an assignment: enough for 144 variables.
pub const BYTES: usize = 18;

// An assignment: variables from the top bit of the first byte.
pub type Assignment = [u8; BYTES];

// The value of variable v; false past the last byte.
pub fn bit(bits: &Assignment, v: u8) -> bool
    ensures { result ≡ bit_at bits.now v }
{
    let i = v.saturating_sub(1);
    bits.get((i / 8) as usize)
        .is_some_and(|byte| (*byte >> (7 - i % 8)) % 2 == 1)
}
