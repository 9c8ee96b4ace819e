ghost use Rattle.std.specs.Prelude.{◌≡◌};
ghost use Rattle.diagram.specs.Rules.{pick};

// The rewrite rules in their order.
#[derive(Debug, Clone, Copy, PartialEq, Eq)]
pub enum Rule {
    One,
    Two,
    Three,
    Four,
    Five,
    Six,
    Seven,
    Eight,
    Nine,
    Ten,
}

// kept: a truth value for each thing that a rule asks, as in `pick`; a type of parts would allow fewer of them
// What the rules ask of a quadruple (x, a, b, c): which parts are τ or −τ, which are equal, and whether x is negative.
#[derive(Debug, Clone, Copy, PartialEq, Eq)]
pub struct Seen {
    pub a_top: bool,
    pub a_bottom: bool,
    pub b_top: bool,
    pub b_bottom: bool,
    pub c_top: bool,
    pub c_bottom: bool,
    pub a_b: bool,
    pub b_c: bool,
    pub a_c: bool,
    pub negative: bool,
}

impl Seen {
    // The first rule that changes such a quadruple, if any.
    pub fn rule(self) -> Option<Rule>
        ensures { result ≡ pick self.a_top self.a_bottom self.b_top self.b_bottom self.c_top self.c_bottom self.a_b self.b_c self.a_c self.negative }
    {
        if self.a_bottom && self.b_bottom {
            Some(Rule::One)
        } else if self.c_bottom {
            Some(Rule::Two)
        } else if self.a_top && self.b_top {
            Some(Rule::Three)
        } else if self.a_b && self.c_top {
            Some(Rule::Four)
        } else if self.b_bottom && self.c_top && !self.a_top {
            Some(Rule::Five)
        } else if self.a_bottom && self.c_top && !self.b_top {
            Some(Rule::Six)
        } else if self.b_c && !self.b_top {
            Some(Rule::Seven)
        } else if self.a_c && !self.a_top {
            Some(Rule::Eight)
        } else if self.negative && self.a_top && self.c_top {
            Some(Rule::Nine)
        } else if self.negative && self.b_top && self.c_top {
            Some(Rule::Ten)
        } else {
            None
        }
    }
}

#[cfg(test)]
mod tests {
    use super::*;

    // What the rules ask of (x, −τ, τ, τ).
    fn literal(negative: bool) -> Seen {
        Seen {
            a_top: false,
            a_bottom: true,
            b_top: true,
            b_bottom: false,
            c_top: true,
            c_bottom: false,
            a_b: false,
            b_c: true,
            a_c: false,
            negative,
        }
    }

    #[test]
    fn no_rule_changes_a_literal(rt: HostRuntime) {
        assert_eq!(rt; literal(false).rule(), None);
    }

    #[test]
    fn the_tenth_rule_changes_its_negation(rt: HostRuntime) {
        assert_eq!(rt; literal(true).rule(), Some(Rule::Ten));
    }
}
