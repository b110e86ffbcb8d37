//! A keeper of records over a database: one over a connection, and one over a file.
//!
//! All of `sqlite` stands here, and no other crate names it. A keeper here tells no records yet.
#![tactic(auto)]

mod count;
mod file_journal;
mod file_keeper;
mod journal;
mod sqlite_keeper;
mod statements;

pub use file_keeper::FileKeeper;
pub use sqlite_keeper::SqliteKeeper;

#[cfg(test)]
mod tests;
