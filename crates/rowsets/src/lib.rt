//! Rowsets: folded rows of one tablet that do not change any more.
#![tactic(auto)]

mod rowset;

pub use rowset::Rowset;

#[cfg(test)]
mod tests;
