// The state of one index that a query reads.
use schema_models::Shape;
use sqlite_items::Items;

/// The lists of one index of a table at one point, in the order of their versions, with the shapes of the table's base
/// and of the index. Their concatenation folds to the rows of the index.
#[derive(Debug, Drop)]
pub struct Snapshot<R> {
    pub base: Shape,
    pub index: Shape,
    pub lists: Items<R>,
}
