//! Shapes of tables, which are a model and columns with keys first, and the fold of rows by a shape.
#![tactic(auto)]

mod cell_types;
mod column_def;
mod faults;
mod folds;
mod gathering;
mod keys;
pub mod laws;
mod merges;
mod model;
mod names;
mod role;
mod row_test;
mod shape;
mod shape_error;

pub use cell_types::is_of_type;
pub use column_def::ColumnDef;
pub use folds::fold;
pub use keys::key_of;
pub use merges::{merge_by_role, merge_rows};
pub use model::Model;
pub use names::is_name;
pub use role::Role;
pub use row_test::is_of_shape;
pub use shape::Shape;
pub use shape_error::ShapeError;
