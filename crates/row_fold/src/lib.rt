//! The quick fold of rows: a stable sort by key with prefixes, and one merge of the rows that then stand side by side.
#![tactic(auto)]

mod ascending;
mod copies;
mod folds;
mod key_rule;
mod keyed;
mod lists;
mod merging;
mod prefix;
mod present;
mod runs;
mod sorted_rows;
mod sorting;

pub use folds::{fold_rows, fold_rows_of};
pub use lists::{fold, fold_sorted};
pub use prefix::prefix_of_view;
pub use sorted_rows::SortedRows;
