// Why a call of a book is refused.
use labels::TxnState;
use thiserror::Error;

/// Why a call of a book is refused. Nothing has changed.
#[derive(Clone, Copy, Debug, PartialEq, Eq, Error)]
pub enum TxnError {
    /// The label is held by a transaction that is not aborted.
    #[error("the label is used by transaction {txn}, which is {state:?}")]
    Used { txn: u64, state: TxnState },
    #[error("there is no such transaction")]
    NoSuchTxn,
    #[error("the transaction is {state:?}")]
    WrongState { state: TxnState },
    /// The transaction has stood too long since that moment, in seconds.
    #[error("the transaction has expired, since {since}")]
    Expired { since: u64 },
    #[error("no load waits to be published")]
    NothingToPublish,
    #[error("nothing has expired, and nothing is to be forgotten")]
    NothingToSweep,
    #[error("there is not enough memory")]
    NoMemory,
}
