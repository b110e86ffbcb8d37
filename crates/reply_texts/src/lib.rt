//! The texts of replies: why something was refused, and the words for states and types.
#![tactic(auto)]

mod piece;
mod refusal;
mod words;

pub use refusal::refusal_text;
pub use words::{job_text, state_text, type_text};
