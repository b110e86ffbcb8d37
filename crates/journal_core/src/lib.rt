//! A journal: records kept in order by a keeper, and read again.
#![tactic(auto)]

mod append;
mod error;
mod read;
mod replaying;

pub use append::append_one;
pub use error::JournalError;
pub use read::read_one;
pub use replaying::replay;
