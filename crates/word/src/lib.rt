//! A complete engine of one to six variables that keeps each register as one word.

#![tactic(auto)]

#[cfg(test)]
mod tests;
mod variable;
pub mod word;
