// The statements.
use crate::clause::Clause;
use crate::part::Part;
use crate::query::Query;
use crate::table_def::TableDef;
use dl_values::{Name, Text};
use sqlite_items::Items;

/// A statement, by its parts in the order of the text.
#[derive(Debug, Drop)]
pub enum Stmt {
    CreateDatabase {
        if_not_exists: bool,
        name: Name,
    },
    CreateTable {
        if_not_exists: bool,
        name: Name,
        def: TableDef,
    },
    DropTable {
        if_exists: bool,
        name: Name,
    },
    /// `ALTER TABLE table ADD part`.
    AddPartition {
        table: Name,
        part: Part,
    },
    /// `ALTER TABLE table ADD ROLLUP name (columns)`.
    AddRollup {
        table: Name,
        name: Name,
        columns: Items<Name>,
    },
    /// `ALTER TABLE table clause, ..`.
    Alter {
        table: Name,
        clauses: Items<Clause>,
    },
    CancelAlter {
        kind: AlterKind,
        table: Name,
    },
    ShowTables,
    ShowPartitions {
        table: Name,
    },
    /// `DESC table ALL`.
    Describe {
        table: Name,
    },
    ShowAlter {
        kind: AlterKind,
    },
    ShowTransaction {
        by: TransactionKey,
    },
    Select(Query),
    Admin(AdminTask),
    /// `ADMIN AUDIT DROP place`.
    AuditDrop {
        place: u64,
    },
}

/// The two kinds of alter jobs: of columns, and of rollups.
#[derive(Clone, Copy, Debug, PartialEq, Eq)]
pub enum AlterKind {
    Column,
    Rollup,
}

/// What a transaction is asked for by.
#[derive(Debug, Drop)]
pub enum TransactionKey {
    Id(u64),
    Label(Text),
}

/// The tasks of `ADMIN` that are one word.
#[derive(Clone, Copy, Debug, PartialEq, Eq)]
pub enum AdminTask {
    Publish,
    Advance,
    Convert,
    Sweep,
    Compact,
    Checkpoint,
    Restart,
}
