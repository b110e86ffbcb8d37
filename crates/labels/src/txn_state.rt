// The states of a transaction.

/// The state of a load's transaction (Apache Doris documentation, "SHOW TRANSACTION": TransactionStatus).
#[derive(Clone, Copy, Debug, PartialEq, Eq)]
pub enum TxnState {
    /// Begun, and its rows are not there yet.
    Prepare,
    /// Its rows are kept, and a two-phase load waits for its commit.
    Precommitted,
    /// It has its place among the committed loads, and no query sees it yet.
    Committed,
    /// Its rows are seen.
    Visible,
    /// It ended without rows, and its label is free again.
    Aborted,
}
