// The clauses of ALTER TABLE.
use crate::table_def::{ColumnType, DefaultText};
use dl_values::{AggKind, Name};
use sqlite_items::Items;

/// A change of a table's columns (Apache Doris documentation, "ALTER TABLE COLUMN").
#[derive(Debug, Drop)]
pub enum Clause {
    /// At the place, or where columns of its kind are added.
    Add(AlteredColumn, Option<ColumnPlace>),
    Drop(Name),
    Modify(AlteredColumn),
    /// `ORDER BY (columns)`.
    Order(Items<Name>),
}

/// A column as ALTER TABLE writes it.
#[derive(Debug, Drop)]
pub struct AlteredColumn {
    pub name: Name,
    pub kind: ColumnType,
    pub key: bool,
    pub agg: Option<AggKind>,
    /// NOT NULL is not written.
    pub nullable: bool,
    pub default: Option<DefaultText>,
}

/// Where an added column stands.
#[derive(Debug, Drop)]
pub enum ColumnPlace {
    First,
    After(Name),
}
