//! What a table's definition gives, and what may be wrong with it.
#![tactic(auto)]

mod columns;
mod def_error;
mod definition;
mod keys;
mod literals;
mod parts;

pub use def_error::DefError;
pub use definition::define;
pub use parts::part_of;
