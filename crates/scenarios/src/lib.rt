//! Tests of the whole filter: flat frames on the word engine.

#![tactic(auto)]

#[cfg(test)]
mod tests;
