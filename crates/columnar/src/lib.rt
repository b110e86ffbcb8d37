//! Rows by column: blocks of the cells of stored rows, with the marks of their shape.
#![tactic(auto)]

mod block;
mod blocks;
mod marks;
mod row_test;

pub use blocks::Blocks;
pub use marks::{ColumnMark, Marks};
pub use row_test::are_of_shape;

#[cfg(test)]
mod tests;
