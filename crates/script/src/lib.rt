//! The commands of a script, a line each.

#![tactic(auto)]

pub mod command;
pub mod decimal;
