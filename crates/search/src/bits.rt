ghost use Rattle.std.specs.Prelude.{◌≡◌, ◌≤◌, false};
ghost use Rattle.engine.specs.Ops.{bit_at};
ghost use Rattle.search.specs.Assigned.{Assigned};

use engine::assignment::Assignment;

// Variable v, which is 0, becomes this bit.
pub(crate) fn assign(bits: &mut Assignment, v: u8, bit: bool)
    requires from { 1 ≤ v }
    requires to { v ≤ 144 }
    requires unset { bit_at bits.old v ≡ false }
    ensures { Assigned bits.old v bit bits.new }
{
    if bit {
        let i = v - 1;
        bits[(i / 8) as usize] |= 1 << (7 - i % 8);
    }
}
