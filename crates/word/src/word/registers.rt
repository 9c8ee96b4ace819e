ghost use Rattle.std.specs.Prelude.{◌≡◌, slice_index};
ghost use Rattle.word.specs.Words.{word_view, word_at, written, near, blank, whole};
ghost use Rattle.word.specs.Variable.{NamesVariable};

use super::WordEngine;
use crate::variable::Variable;
use engine::fault::EngineFault;
use engine::register::Register;

impl WordEngine {
    // A new engine of n variables, false in all sixteen registers; an n outside 1 to 6 is taken as the nearest end.
    pub fn new(n: u8) -> WordEngine
        ensures { word_view result.n result.words ≡ blank (near n) }
    {
        WordEngine {
            n: n.clamp(1, 6),
            words: [0; 16],
        }
    }

    // The word of register a.
    #[tactic(auto, using(crate::specs::Meaning::tells))]
    pub fn word(&self, a: u8) -> Result<u64, EngineFault>
        ensures { result ≡ word_at (word_view self.now.n self.now.words) a }
    {
        Ok(self.word_in(Register::try_from(a)?))
    }

    // The word in a register.
    pub(super) fn word_in(&self, a: Register) -> u64
        ensures { result ≡ slice_index self.now.words a.number }
    {
        self.words[a.index()]
    }

    // Register d becomes a word, of which only the bits below 2^n are kept.
    pub(super) fn put(&mut self, d: Register, word: u64)
        ensures { word_view self.new.n self.new.words ≡ written (word_view self.old.n self.old.words) d.number word }
    {
        self.words[d.index()] = word & self.full();
    }

    // The word that is true under every assignment.
    pub(super) fn full(&self) -> u64
        ensures { result ≡ whole self.now.n }
    {
        match self.n {
            1 => 0x3,
            2 => 0xf,
            3 => 0xff,
            4 => 0xffff,
            5 => 0xffff_ffff,
            _ => 0xffff_ffff_ffff_ffff,
        }
    }

    // Variable v, unless it is not 1 to n.
    pub(super) fn variable(&self, v: u8) -> Result<Variable, EngineFault>
        ensures { NamesVariable self.now.n v result }
    {
        if !(1..=self.n).contains(&v) {
            return Err(EngineFault::Variable);
        }
        Ok(Variable { n: self.n, v })
    }
}
