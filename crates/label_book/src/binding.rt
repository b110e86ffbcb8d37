// A label and the transaction that holds it.
use dl_values::{Name, NoMemory};
use labels::TxnState;
use thiserror::Error;

/// A transaction bound to its label in a database.
#[derive(Debug, Drop)]
pub struct Binding {
    pub db: Name,
    pub label: Name,
    pub txn: u64,
    pub state: TxnState,
}

/// Why a label was not bound.
#[derive(Clone, Copy, Debug, PartialEq, Eq, Error)]
pub enum BindError {
    /// The last transaction of the label is not aborted.
    #[error("the label is used by transaction {txn}, which is {state:?}")]
    Used { txn: u64, state: TxnState },
    #[error("there is not enough memory")]
    NoMemory,
}

impl From<NoMemory> for BindError {
    ghost use Rattle.std.specs.Prelude.{◌≡◌};
    ghost use Rattle.label_book.specs.declared.binding.BindError.TheVariants as error;

    ghost from_gives = { λ _ e. e ≡ error.NoMemory };

    fn from(_: NoMemory) -> BindError {
        BindError::NoMemory
    }
}
