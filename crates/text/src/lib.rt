//! Rule lines as text: fields with their places, and numbers.

#![tactic(auto)]

pub mod digits;
pub mod fault;
pub mod fields;
pub mod hex;
pub mod line;
pub mod numerals;
pub mod split;
