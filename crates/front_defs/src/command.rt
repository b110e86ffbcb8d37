// What the core of the service is asked.
use crate::ShowWhat;
use alter_core::JobKind;
use dl_values::Name;
use history_convert::Piece;
use shadow_writes::Built;
use sql_text::{Part, Query, TableDef};
use sqlite_items::Items;

/// A command of the core. Moments are in seconds.
#[derive(Drop)]
pub enum Command {
    CreateDb {
        name: Name,
        if_not_exists: bool,
    },
    CreateTable {
        db: Name,
        table: Name,
        def: TableDef,
        if_not_exists: bool,
    },
    DropTable {
        db: Name,
        table: Name,
        if_exists: bool,
        at: u64,
    },
    AddPartition {
        db: Name,
        table: Name,
        part: Part,
    },
    /// Begins a load. Without a label it gets one from its number.
    Begin {
        db: Name,
        table: Name,
        label: Option<Name>,
        two_phase: bool,
        at: u64,
    },
    /// Hands in the rows of a load.
    Submit {
        txn: u64,
        built: Built,
        at: u64,
    },
    /// Makes the committed load of the lowest place visible.
    Publish {
        at: u64,
    },
    /// Commits a two-phase load.
    Commit {
        db: Name,
        txn: TxnKey,
        at: u64,
    },
    Abort {
        db: Name,
        txn: TxnKey,
        at: u64,
    },
    /// Aborts what has expired, and cleans what ended long ago.
    Sweep {
        at: u64,
    },
    /// Adds a job to a table.
    AddAlter {
        db: Name,
        table: Name,
        change: AlterDef,
        at: u64,
    },
    /// Cancels the live job of a table, where it is of that kind.
    CancelAlter {
        db: Name,
        table: Name,
        kind: JobKind,
        at: u64,
    },
    /// Moves the first job that can move.
    Advance {
        at: u64,
    },
    /// Takes the first open task.
    Take,
    /// Gives what came of a task.
    Give {
        piece: Piece,
        at: u64,
    },
    /// Asks for what a query of the table reads.
    Snapshot {
        db: Name,
        table: Name,
        query: Query,
    },
    /// Asks for a report.
    Show {
        db: Name,
        what: ShowWhat,
    },
    /// Opens the service again from its records.
    Restart,
}

/// What an alteration asks for.
#[derive(Debug, Drop)]
pub enum AlterDef {
    /// A rollup of that name and these columns.
    Rollup(Name, Items<Name>),
}

/// A transaction of a database, by its number or as the last one that holds a label.
#[derive(Debug, Drop)]
pub enum TxnKey {
    Id(u64),
    Label(Name),
}
