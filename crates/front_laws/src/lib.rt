//! The laws of legal histories: each is the contract of a function that does nothing.
#![tactic(auto)]

pub mod examples;
pub mod laws;
pub mod parted;
