// What a load is built by.
use partitions::Layout;
use row_map::RowMap;
use schema_models::Shape;
use sqlite_items::Items;

/// What a Begin hands to its load: the transaction, the table's schema number, its layout and the shape of its base, and
/// what else gets the rows.
#[derive(Debug, Drop)]
pub struct Plan {
    pub txn: u64,
    pub schema: u64,
    pub layout: Layout,
    pub base: Shape,
    /// The rollups of the table, the oldest first, and then the new indexes of its job. The base is not among them.
    pub targets: Items<Target>,
}

/// An index that gets the converted rows of a load.
#[derive(Debug, Drop)]
pub struct Target {
    /// Its number: the base is 0, and a new index of a job has already the number that it is to keep.
    pub index: u64,
    /// The shape that the map leads to.
    pub shape: Shape,
    pub map: RowMap,
}
