// The definition of a table.
use crate::key_clause::KeyClause;
use crate::part::Part;
use crate::query::Literal;
use dl_values::{AggKind, Name, Text};
use sqlite_items::Items;

/// What CREATE TABLE says after the table's name. Comments and the engine are dropped.
#[derive(Debug, Drop)]
pub struct TableDef {
    pub columns: Items<ColumnText>,
    pub key: Option<KeyClause>,
    pub ranges: Option<Ranges>,
    /// The columns of `DISTRIBUTED BY HASH`.
    pub hash: Items<Name>,
    pub buckets: Option<u64>,
    /// Empty where none are written.
    pub properties: Items<Property>,
}

/// `PARTITION BY RANGE(column) (part, ..)`.
#[derive(Debug, Drop)]
pub struct Ranges {
    pub column: Name,
    pub parts: Items<Part>,
}

/// `'name' = 'value'`.
#[derive(Debug, Drop)]
pub struct Property {
    pub name: Text,
    pub value: Text,
}

/// A column as CREATE TABLE writes it.
#[derive(Debug, Drop)]
pub struct ColumnText {
    pub name: Name,
    pub kind: ColumnType,
    pub agg: Option<AggKind>,
    /// NOT NULL is not written.
    pub nullable: bool,
    pub default: Option<DefaultText>,
}

/// The type of a column, with the length of a VARCHAR as it is written.
#[derive(Clone, Copy, Debug, PartialEq, Eq)]
pub enum ColumnType {
    TinyInt,
    SmallInt,
    Int,
    BigInt,
    Date,
    Varchar(u64),
}

/// What stands after DEFAULT.
#[derive(Debug, Drop)]
pub enum DefaultText {
    Null,
    Value(Literal),
}
