//! One engine that many seats share: each turn of a seat is one step of the engine, and all turns make one history.
//!
//! The engine lies in the one slot of a table with two words: word 0 counts the entries, word 1 is the lock. What each
//! seat has seen is a view of that table, so that every promise is of a history that all seats share. Views, entries and
//! histories are for proofs alone: no code makes one.
#![tactic(auto)]

mod book;
mod close;
mod desk;
mod engine;
mod join;
pub mod laws;
mod open;
mod rule;
mod seat;
mod split;
mod turn;
mod view;

pub use desk::Desk;
pub use engine::Engine;
pub use open::OpenError;
pub use seat::Seat;
pub use view::{Known, View};
