//! Grammars over the tokens of statements: languages by combinators, readers, and the laws that a reader reads its
//! language and stops at the first token that cannot stand there.
#![tactic(auto)]

mod lists;
mod one_token;
mod piece;
mod separator;
mod stop;
mod words;

pub use lists::{list, list_from};
pub use one_token::{after_sign, after_word, count, heads_name, integer, name, sign, text, word};
pub use piece::Piece;
pub use separator::Separator;
pub use stop::Stop;
pub use words::{is_reserved, same_word};
