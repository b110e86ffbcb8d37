// The models of tables.

/// How a table treats rows of one key (Apache Doris documentation, "Table Design", "Data Models").
#[derive(Clone, Copy, Debug, PartialEq, Eq)]
pub enum Model {
    /// Every row is kept.
    Duplicate,
    /// The newest row of a key is kept.
    Unique,
    /// The rows of a key merge column by column.
    Aggregate,
}
