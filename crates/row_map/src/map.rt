// What makes a row of one shape from a row of another.
use dl_values::{Cell, Name};
use schema_models::Shape;
use sqlite_items::Items;

/// Where the cells of a target column come from.
#[derive(Debug, Drop)]
pub enum Origin {
    /// From the source column of that name, cast to the target's type.
    From(Name),
    /// The same cell in each row.
    Constant(Cell),
}

/// A map between two shapes: one origin for each column of the target.
#[derive(Debug, Drop)]
pub struct RowMap {
    pub from: Shape,
    pub to: Shape,
    pub columns: Items<Origin>,
}
