//! Whole runs of calls, and the law that they keep.

#![tactic(auto)]

pub mod call;
pub mod perform;
pub mod run;
