//! The filter: a live book that judges frames, and a draft that is edited.

#![tactic(auto)]

pub mod answer;
pub mod book;
pub mod fault;
pub mod filter;
