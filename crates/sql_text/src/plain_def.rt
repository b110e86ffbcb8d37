// The definition of a plain table.
use crate::key_clause::KeyClause;
use dl_values::{ColType, Name};
use sqlite_items::Items;

/// What the core takes of CREATE TABLE after the table's name: neither kinds nor defaults, one partition (Apache Doris
/// documentation, "CREATE TABLE").
#[derive(Debug, Drop)]
pub struct PlainDef {
    pub columns: Items<PlainColumn>,
    pub key: Option<KeyClause>,
    /// The columns of `DISTRIBUTED BY HASH`.
    pub hash: Items<Name>,
    pub buckets: Option<u64>,
}

/// One column of it.
#[derive(Debug, Drop)]
pub struct PlainColumn {
    pub name: Name,
    pub kind: ColType,
    pub nullable: bool,
}
