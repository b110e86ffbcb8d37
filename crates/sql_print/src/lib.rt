//! Statements as texts, which are read again as the statements that they print.
#![tactic(auto)]

mod alter;
mod create;
pub mod laws;
mod lists;
mod parts;
mod select;
mod show;
mod spelled;
mod stmt;
mod tokens;
mod writer;

pub use stmt::print_stmt;
pub use tokens::print_tokens;
pub use writer::TokenWriter;
