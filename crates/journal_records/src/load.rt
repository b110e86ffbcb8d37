// The record of a load whose rows were handed in.
use crate::encoded_rows::EncodedRows;
use dl_values::Name;

/// A load with its rows.
#[derive(Debug, Drop)]
pub struct Load {
    pub txn: u64,
    pub table: u64,
    pub label: Name,
    /// In milliseconds, as each moment of a record.
    pub at: u64,
    pub two_phase: bool,
    /// The number of the schema that the rows are of.
    pub schema: u64,
    /// The job that a row of the load cannot be converted for.
    pub cancelled: Option<u64>,
    pub rows: EncodedRows,
}
