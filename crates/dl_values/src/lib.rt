//! Values of a table: names, texts, cells, rows, their types, and how cells are read, written and ordered.
#![tactic(auto)]

mod agg_kind;
mod blanks;
mod cell;
mod col_type;
mod day;
pub mod laws;
mod name;
mod no_memory;
mod number;
mod order;
mod plain_int;
mod read;
mod result_set;
mod row;
mod row_view;
mod rows;
mod text;
mod write;

pub use agg_kind::AggKind;
pub use cell::{Cell, copy_cell};
pub use col_type::ColType;
pub use name::Name;
pub use no_memory::NoMemory;
pub use order::{compare_cells, compare_rows, compare_slices};
pub use read::ReadError;
pub use result_set::ResultSet;
pub use row::{Row, copy_row};
pub use row_view::RowView;
pub use rows::Rows;
pub use text::Text;
pub use write::write_cell;
