// What is wrong with a table's definition.
use partitions::LayoutError;
use schema_models::ShapeError;
use thiserror::Error;

/// The first thing that is wrong with the definition of a table: of its columns and keys, of its layout, or of its
/// properties.
#[derive(Debug, Drop, Error)]
pub enum DefError {
    #[error("{0}")]
    Shape(ShapeError),
    #[error("{0}")]
    Layout(LayoutError),
    /// A Unique table is asked to merge on write.
    #[error("a property asks for what no table does")]
    BadProperty,
    #[error("there is not enough memory")]
    NoMemory,
}
