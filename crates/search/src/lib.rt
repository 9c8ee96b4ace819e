//! The search for the least frame that two registers judge differently.

#![tactic(auto)]

mod bits;
pub mod least;
pub mod places;
