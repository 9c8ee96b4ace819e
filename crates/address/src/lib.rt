//! Address text and prefixes (RFC 4291, sections 2.2 and 2.3).

#![tactic(auto)]

pub mod address;
pub mod fault;
mod groups;
pub mod prefix;
