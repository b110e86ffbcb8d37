// Why columns make no shape.
use thiserror::Error;

/// The first fault of columns. A place counts from 0, in the order in which the columns were given.
#[derive(Clone, Copy, Debug, PartialEq, Eq, Error)]
pub enum ShapeError {
    /// There are more columns than this.
    #[error("there are more than {limit} columns")]
    TooManyColumns { limit: u64 },
    /// It has no name of 1 to 64 bytes, an ASCII letter or `_`, and then letters, digits and `_`.
    #[error("the name of column {column} is no name of a column")]
    BadName { column: u64 },
    /// A column before it has its name.
    #[error("a column before column {column} has its name")]
    DoubleName { column: u64 },
    /// It is a VARCHAR of no byte, or of more than 65533.
    #[error("column {column} has no type of a column")]
    BadType { column: u64 },
    /// It is the first and no key, or there is no column at all.
    #[error("column {column} has to be a key")]
    NoKey { column: u64 },
    /// It is a key, and a column before it is none.
    #[error("column {column} is a key behind a value, or no key where one is asked for")]
    KeyAfterValue { column: u64 },
    /// It is a plain value in the Aggregate model or an aggregated one in another, or a SUM that is not BIGINT.
    #[error("column {column} is aggregated as its model does not allow")]
    BadAgg { column: u64 },
    /// Its default is not of its type, or null where it is not nullable.
    #[error("the default of column {column} is not of its type")]
    BadDefault { column: u64 },
}
