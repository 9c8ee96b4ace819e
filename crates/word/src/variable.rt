ghost use Rattle.std.specs.Prelude.{◌≡◌, ◌-◌, ◌^◌, ◌<◌, ◌≤◌};

// Variable v of n.
#[derive(Clone, Copy)]
pub(crate) struct Variable {
    pub(crate) n: u8,
    pub(crate) v: u8,
    ghost low: { 1 ≤ v },
    ghost high: { v ≤ n },
    ghost few: { n ≤ 6 },
}

impl Variable {
    ghost use Rattle.engine.specs.Ops.{held};
    ghost use Rattle.word.specs.Words.{means};

    // The word of the variable: its bit i is bit n - v of i.
    pub(crate) fn column(self) -> u64
        ensures { means self.n result ≡ (λ s. s self.v) }
    {
        match self.n - self.v {
            0 => 0xaaaa_aaaa_aaaa_aaaa,
            1 => 0xcccc_cccc_cccc_cccc,
            2 => 0xf0f0_f0f0_f0f0_f0f0,
            3 => 0xff00_ff00_ff00_ff00,
            4 => 0xffff_0000_ffff_0000,
            _ => 0xffff_ffff_0000_0000,
        }
    }

    // How far apart two bits are whose assignments differ in this variable alone.
    fn step(self) -> u8
        ensures exact { result ≡ 2 ^ (self.n - self.v) }
        ensures few { result < 64 }
    {
        1 << (self.n - self.v)
    }

    // A word with this variable held.
    pub(crate) fn fixed(self, word: u64, high: bool) -> u64
        ensures { means self.n result ≡ (λ s. means self.n word (held s self.v high)) }
    {
        let column = self.column();
        let step = self.step();
        // where the variable has this value the bit of the word, elsewhere the bit that far away
        if high {
            let other = word >> step;
            other ^ ((word ^ other) & column)
        } else {
            let other = word << step;
            word ^ ((other ^ word) & column)
        }
    }
}
