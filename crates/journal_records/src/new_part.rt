// The record of a partition that was added to a table.
use dl_values::{Cell, Name};

/// A partition of a table, by its name and its range. A missing end is no bound on that side.
#[derive(Debug, Drop)]
pub struct NewPart {
    pub table: u64,
    pub name: Name,
    pub low: Option<Cell>,
    pub high: Option<Cell>,
}
