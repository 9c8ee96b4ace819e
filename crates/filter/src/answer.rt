use crate::fault::FilterFault;
use engine::assignment::Assignment;
use kind::rule::Action;

// A rule that was added: its number in the draft, and whether it decides no frame there.
#[derive(Clone, Copy, Debug, PartialEq, Eq)]
pub struct Added {
    pub number: usize,
    pub idle: bool,
}

// kept: no Option of a frame, since the frame goes into the caller's place, whose other bytes stay
// What the two books do with all frames.
#[derive(Clone, Copy, Debug, PartialEq, Eq)]
pub enum Comparison {
    // they judge every frame alike
    Alike,
    // the least frame that they judge differently was written
    Differs,
}

// What a call of a filter replies.
#[derive(Clone, Copy, Debug, PartialEq, Eq)]
pub enum Reply {
    Added(Added),
    Committed,
    Verdict(Action),
    Withdrawn,
    Alike,
    // with what the caller's place then holds
    Differs(Assignment),
}

// What a call of a filter answers: a reply, or why it is refused.
pub type Answer = Result<Reply, FilterFault>;
