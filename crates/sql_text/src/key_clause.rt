// The key clause of a table.
use dl_values::Name;
use schema_models::Model;
use sqlite_items::Items;

/// `DUPLICATE KEY(..)` and its kin.
#[derive(Debug, Drop)]
pub struct KeyClause {
    pub model: Model,
    pub names: Items<Name>,
}
