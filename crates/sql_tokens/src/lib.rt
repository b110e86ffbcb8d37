//! The tokens of statements: words, names, numbers, strings and signs, each with the place where it begins.
#![tactic(auto)]

mod bytes;
mod integer;
pub mod laws;
mod lexeme;
mod list;
mod read;
mod signs;
mod strings;
mod token;

pub use list::Tokens;
pub use read::tokens;
pub use token::{Sign, Token, TokenKind};
