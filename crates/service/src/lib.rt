//! The public calls of the program: `run`, how a run ends, and what it says on standard error.
#![tactic(auto)]

mod columns;
mod command;
mod dryrun;
mod exit;
mod exit_text;
mod rows_text;
mod serving;
mod type_words;

pub use command::run;
pub use exit::Exit;
