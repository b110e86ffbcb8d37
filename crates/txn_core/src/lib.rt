//! The transactions of loads: their states, moments, labels and places.
#![tactic(auto)]

mod ages;
mod book;
mod changes;
mod counts;
mod drops;
mod error;
mod expiry;
mod finds;
mod info;
mod inserts;
mod labels_of;
mod refusals;
mod start;
mod waiter;

pub use book::TxnBook;
pub use counts::Sweeping;
pub use error::TxnError;
pub use info::{Held, TxnInfo};
pub use start::TxnStart;
