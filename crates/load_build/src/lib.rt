//! Builds loads: puts the rows of a load into the tablets of its table, and folds them there.
//!
//! Main interface: [`build_load`].
#![tactic(auto)]

mod build;
mod folding;
mod part_rows;
mod spreading;

pub use build::build_load;
