//! The command form that the words of the program name.
#![tactic(auto)]

mod columns;
mod command;
mod form;
mod form_error;
mod matches;
mod options;

pub use columns::Columns;
pub use form::{Form, form_of};
pub use form_error::FormError;
