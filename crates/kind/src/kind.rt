ghost use Rattle.std.specs.Prelude.{◌≡◌, ◌≤◌};
ghost use Rattle.engine.specs.Ops.{bit_at};
ghost use Rattle.kind.specs.Kinds.{Reading, Lawful, over};

use crate::fault::{FrameFault, RuleFault};
use crate::rule::Rule;
use engine::assignment::Assignment;

// A kind of frame: how many bits it has, how rule lines read, and how frames turn into bits and back. What it tells
// depends on nothing but what is asked.
pub trait Kind {
    ghost reading: { Reading };

    // The number n of bits of a frame.
    fn bits(&self) -> u8
        ensures { result ≡ reading.bits };

    // The number of bytes of a frame.
    fn size(&self) -> u8
        ensures { result ≡ reading.size };

    // The rule that a line says.
    fn read(&self, line: &[u8]) -> Result<Rule, RuleFault>
        ensures { result ≡ reading.reads line.now };

    // The bits of a frame.
    fn turn(&self, frame: &[u8]) -> Result<Assignment, FrameFault>
        ensures { result ≡ reading.turns frame.now };

    // The frame of these bits goes into the first bytes of the place; the other bytes stay.
    fn back(&self, bits: &Assignment, place: &mut Assignment)
        ensures { place.new ≡ over (reading.backs (bit_at bits.now)) place.old };

    ghost few: { reading.bits ≤ 144 };

    ghost lawful: { Lawful reading };
}
