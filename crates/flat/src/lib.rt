//! The flat kind of frame: one byte, from × 8 + to, each 0 to 7.

#![tactic(auto)]

pub mod flat_kind;
pub mod pick;
