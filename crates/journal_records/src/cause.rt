// Why a job was cancelled.
use dl_values::{Name, Row};

/// What cancelled a job.
#[derive(Debug, Drop)]
pub enum Cause {
    Command,
    /// A row cannot be converted to the new type of a column.
    Data { column: Name, row: Row },
    /// A load has a row that cannot be converted.
    Load(u64),
}
