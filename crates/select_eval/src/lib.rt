//! What a query answers over stored lists: they are read once, row by row, into groups or rows of the answer.
#![tactic(auto)]

mod asked;
mod block_tests;
mod cells;
mod condition;
mod conditions;
mod first_rows;
mod group;
mod group_key;
mod grouped_rows;
mod grouping;
mod output;
mod output_rows;
mod passing;
mod piece;
mod pieces;
mod selection;

pub use selection::select;
