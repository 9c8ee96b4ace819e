//! Kinds of frame: rules, faults, and what each kind of frame has to tell.

#![tactic(auto)]

pub mod fault;
pub mod kind;
pub mod rule;
