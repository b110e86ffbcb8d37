//! The least and the greatest cell of cells, and the tests that none of them can pass.
#![tactic(auto)]

pub mod laws;
mod test;
mod zone;
mod zones;

pub use test::{Op, Test};
pub use zone::Zone;
pub use zones::Zones;
