//! Ternary Boolean diagrams as trees: the rewrite rules, the operations, what they form and what they mean.

#![tactic(auto)]

pub mod rule;
pub mod theorems;
