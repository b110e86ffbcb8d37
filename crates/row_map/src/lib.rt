//! Row maps: how a row of one shape becomes a row of another, column by column.
#![tactic(auto)]

mod admit_error;
pub mod laws;
mod map;

pub use admit_error::AdmitError;
pub use map::{Origin, RowMap};
