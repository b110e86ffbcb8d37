// The reply that tells a refusal of the transactions.
ghost use Rattle.std.specs.Prelude.{◌≡◌};
ghost use Rattle.front_defs.specs.Gives.{Gives};
ghost use Rattle.front_defs.specs.History.{outcome, Refused};
ghost use Rattle.front_core.specs.Refused.{reply_for};

use front_defs::Reply;
use txn_core::TxnError;

pub fn refusal(error: TxnError) -> Reply
    ensures is { result ≡ reply_for error }
    ensures refused { outcome result ≡ Refused }
    ensures gives { Gives result }
{
    match error {
        TxnError::Used { txn, state } => Reply::Used { txn, state },
        TxnError::NoSuchTxn => Reply::NoSuchTxn,
        TxnError::WrongState { state } => Reply::WrongState { state },
        TxnError::Expired { since } => Reply::Expired { since },
        TxnError::NothingToPublish => Reply::NothingToPublish,
        TxnError::NothingToSweep => Reply::NothingToSweep,
        TxnError::NoMemory => Reply::NoMemory,
    }
}
