// The answer of a query or of a report.
use crate::{Rows, Text};

/// The columns of a result by name and type, and its rows. Seen as its three parts.
#[derive(Debug, Drop)]
pub struct ResultSet {
    pub names: Vec<Text>,
    pub types: Vec<Text>,
    pub rows: Rows,
}
