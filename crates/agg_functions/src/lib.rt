//! How an old cell and a newer one of the same key and column merge.
#![tactic(auto)]

mod cells;
pub mod laws;
mod merge;

pub use cells::merge_cells;
pub use merge::Merge;
