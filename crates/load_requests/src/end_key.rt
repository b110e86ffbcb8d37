// How an end names its transaction.
use dl_values::Name;

/// How the end of a two-phase load names the transaction (Apache Doris documentation, "Stream Load": `txn_id`, `label`).
#[derive(Debug, Drop)]
pub enum EndKey {
    /// By its number.
    Id(u64),
    /// By its label, as the last transaction that has it.
    Label(Name),
}
