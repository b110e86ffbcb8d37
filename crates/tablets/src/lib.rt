//! The rowsets of tablets, by version.
#![tactic(auto)]

mod coming;
mod compaction;
mod finding;
mod gone;
mod held;
mod index;
mod named;
mod part;
mod parting;
mod shadow;
mod switching;
mod tablet;
mod tablet_set;

pub use compaction::{Compacted, Compaction};
pub use gone::Gone;
pub use shadow::Shadow;
pub use tablet::Tablet;
pub use tablet_set::TabletSet;
