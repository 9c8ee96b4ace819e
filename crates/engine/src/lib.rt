//! What an engine is: sixteen registers that hold Boolean functions, and the calls on them.

#![tactic(auto)]

pub mod assignment;
pub mod calls;
pub mod fault;
pub mod register;
