// Why a query is refused.
use dl_values::Name;
use thiserror::Error;

/// The first fault of a query. A column is told by its name, a key of an order by the name or the position that it is
/// written with.
#[derive(Debug, Drop, Error)]
pub enum SelectError {
    /// The table has no such column, or the select list no such member.
    #[error("NoColumn column={column}")]
    NoColumn { column: Name },
    /// A literal does not fit the column, or a sum is asked of a column that is no integer.
    #[error("BadCompare column={column}")]
    BadCompare { column: Name },
    /// It stands beside groups, and is not grouped by.
    #[error("NotGrouped column={column}")]
    NotGrouped { column: Name },
    #[error("NoMemory")]
    NoMemory,
}
