//! The IPv6 kind of frame: 16 address bytes and then the port, high byte first.

#![tactic(auto)]

pub mod ipv6_kind;
pub mod line;
pub mod said;
