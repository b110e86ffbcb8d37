//! Reading stored lists of rows as one: what a query reads.
#![tactic(auto)]

mod head;
mod heads;
mod keys;
mod merge;
mod merged_cell;
mod next_heads;
mod present;
mod reading;
mod runs;
mod snapshot;
mod stream;
mod widths;

pub use merge::Merge;
pub use merged_cell::MergedCell;
pub use reading::read_all;
pub use snapshot::Snapshot;
