use engine::assignment::{Assignment, BYTES};
use filter::answer::{Answer, Reply};
use filter::fault::FilterFault;
use kind::rule::Rule;
use std::fmt;
use text::hex::Hex;

// The frame of `size` bytes that a place begins with.
fn frame(place: &Assignment, size: u8) -> Hex<'_> {
    Hex(&place[..usize::from(size).min(BYTES)])
}

// A refusal, by its number and place.
#[derive(Clone, Copy)]
pub struct Refusal(pub FilterFault);

impl fmt::Display for Refusal {
    fn fmt<W: fmt::Write>(&self, f: &mut fmt::Formatter<W>) -> fmt::Result {
        write!(f, "refused {} {}", self.0.number(), self.0.place())
    }
}

// A rule, by its action and the bytes of its value and care.
#[derive(Clone, Copy)]
pub struct Bits(pub Rule);

impl fmt::Display for Bits {
    fn fmt<W: fmt::Write>(&self, f: &mut fmt::Formatter<W>) -> fmt::Result {
        let rule = self.0;
        write!(
            f,
            "{} {} {}",
            rule.action,
            Hex(&rule.value),
            Hex(&rule.care)
        )
    }
}

// kept: a place has 18 bytes for every kind, and only the kind tells how many of them are the frame
// An answer of a filter whose frames have `size` bytes.
#[derive(Clone, Copy)]
pub struct Shown {
    pub answer: Answer,
    pub size: u8,
}

impl fmt::Display for Shown {
    fn fmt<W: fmt::Write>(&self, f: &mut fmt::Formatter<W>) -> fmt::Result {
        match self.answer {
            Ok(Reply::Added(added)) => {
                let word = if added.idle { "idle" } else { "acts" };
                write!(f, "rule {} {word}", added.number)
            }
            Ok(Reply::Committed) => f.write_str("committed"),
            Ok(Reply::Verdict(action)) => write!(f, "{action}"),
            Ok(Reply::Withdrawn) => f.write_str("withdrawn"),
            Ok(Reply::Alike) => f.write_str("alike"),
            Ok(Reply::Differs(place)) => write!(f, "differs {}", frame(&place, self.size)),
            Err(fault) => write!(f, "{}", Refusal(fault)),
        }
    }
}
