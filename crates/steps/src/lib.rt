//! The engine calls that each call of a filter makes, in their order.

#![tactic(auto)]

pub mod add;
pub mod rebuild;
pub mod scratch;
pub mod settle;
pub mod wipe;
