// The types of columns.

/// The type of a column (Apache Doris documentation, "Data Types"). A VARCHAR has its greatest length in bytes.
#[derive(Clone, Copy, Debug, PartialEq, Eq)]
pub enum ColType {
    TinyInt,
    SmallInt,
    Int,
    BigInt,
    Date,
    Varchar(u32),
}
