//! Layouts of tables: partitions by range, and buckets by hash.
#![tactic(auto)]

mod columns;
pub mod examples;
mod faults;
mod hash;
pub mod laws;
mod layout;
mod layout_error;
mod order;
mod part_def;
mod parts_def;
mod positions;
mod ranges;
mod search;

pub use layout::Layout;
pub use layout_error::LayoutError;
pub use part_def::{Bounds, PartDef};
pub use parts_def::PartsDef;
