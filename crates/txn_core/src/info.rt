// A transaction as the book keeps it.
use dl_values::Name;
use journal_format::EncodedRows;
use labels::TxnState;
use shadow_writes::TabletRows;
use sqlite_items::Items;

/// The transaction of one load (Apache Doris documentation, "SHOW TRANSACTION").
#[derive(Drop)]
pub struct TxnInfo {
    pub id: u64,
    pub db: Name,
    pub table: u64,
    pub label: Name,
    pub state: TxnState,
    /// The moment of its state, in seconds: of its begin, its submit, its commit or its end.
    pub since: u64,
    pub two_phase: bool,
    /// The schema number of its table when it was begun.
    pub schema: u64,
    /// Its place among all committed loads, from its commit on.
    pub place: Option<u64>,
    /// Its rows were handed in, so that a journal tells of it.
    pub told: bool,
    /// What it holds between its submit and its end.
    pub held: Option<Held>,
}

/// The rows of a load: for the journal, and folded for the tablets of the base.
#[derive(Drop)]
pub struct Held {
    pub rows: EncodedRows,
    pub sets: Items<TabletRows>,
}
