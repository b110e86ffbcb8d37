//! What keeps records in order, with a written meaning, and a form of it in memory.
//!
//! A keeper counts its faults, and fails only where that count rises.
#![tactic(auto)]

mod error;
mod keeper;
mod memory_keeper;

pub use error::KeeperError;
pub use keeper::Keeper;
pub use memory_keeper::{FailingCall, MemoryKeeper};

#[cfg(test)]
mod tests;
