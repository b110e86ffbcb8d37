// What is stored of a table.
use tablets::TabletSet;

// The tablets of a table, and the visible version of each of its partitions.
#[derive(Drop)]
pub struct StoredTable {
    pub table: u64,
    pub versions: Vec<u64>,
    pub set: TabletSet,
}
