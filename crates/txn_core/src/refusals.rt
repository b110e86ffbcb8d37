// What refuses a change of a kept transaction.
ghost use Rattle.std.specs.Prelude.{◌≡◌, Some};
ghost use Rattle.txn_core.specs.Refusals.{abort_fault, commit_fault, submit_fault};
ghost use Rattle.txn_core.specs.Seen.{seen};

use crate::error::TxnError;
use crate::info::TxnInfo;
use labels::TxnState;

impl TxnInfo {
    /// Why a submit is refused at a moment: a begun load expires after 600 seconds (this project's own).
    pub fn submit_refusal(&self, at: u64) -> Option<TxnError>
        ensures { result ≡ submit_fault at (Some (seen self.now)) }
    {
        if self.state != TxnState::Prepare {
            return Some(TxnError::WrongState { state: self.state });
        }
        if at.saturating_sub(self.since) >= 600 {
            return Some(TxnError::Expired { since: self.since });
        }
        None
    }

    /// Why a commit is refused at a moment: a submitted load expires after 3,600 seconds (this project's own).
    pub fn commit_refusal(&self, at: u64) -> Option<TxnError>
        ensures { result ≡ commit_fault at (Some (seen self.now)) }
    {
        if self.state != TxnState::Precommitted {
            return Some(TxnError::WrongState { state: self.state });
        }
        if at.saturating_sub(self.since) >= 3600 {
            return Some(TxnError::Expired { since: self.since });
        }
        None
    }

    /// Why an abort is refused.
    pub fn abort_refusal(&self) -> Option<TxnError>
        ensures { result ≡ abort_fault (Some (seen self.now)) }
    {
        match self.state {
            TxnState::Prepare | TxnState::Precommitted => None,
            state => Some(TxnError::WrongState { state }),
        }
    }
}
