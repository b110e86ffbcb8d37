// What a transaction begins with.
use dl_values::Name;

/// What a transaction begins with. Without a label it gets `auto_` and its number.
#[derive(Debug, Drop)]
pub struct TxnStart {
    pub db: Name,
    pub table: u64,
    pub label: Option<Name>,
    pub two_phase: bool,
    /// The schema number of its table.
    pub schema: u64,
    /// The moment, in seconds.
    pub at: u64,
}
