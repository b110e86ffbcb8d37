// What is wrong with an alteration.
use dl_values::Name;
use row_map::AdmitError;
use schema_models::ShapeError;
use thiserror::Error;

/// The first thing that is wrong with the columns of an alteration: one that the table does not have, then the shape that
/// they would make, then the map to it.
#[derive(Debug, Drop, Error)]
pub enum AlterError {
    #[error("a column is unknown")]
    NoColumn(Name),
    #[error("{0}")]
    Shape(ShapeError),
    #[error("{0}")]
    Map(AdmitError),
}
