// How a kept transaction stands at a moment.
ghost use Rattle.std.specs.Prelude.{◌≡◌};
ghost use Rattle.front_defs.specs.Moves.{is_open as is_open_state};
ghost use Rattle.txn_core.specs.Book as books;

use crate::info::TxnInfo;
use labels::TxnState;

impl TxnInfo {
    // It has expired: begun for 600 seconds, or submitted for 3,600 without a commit (this project's own).
    pub fn is_stale(&self, at: u64) -> bool
        ensures { result ≡ books.is_stale at self.now }
    {
        match self.state {
            TxnState::Prepare => at.saturating_sub(self.since) >= 600,
            TxnState::Precommitted => at.saturating_sub(self.since) >= 3600,
            TxnState::Committed | TxnState::Visible | TxnState::Aborted => false,
        }
    }

    // It ended three days ago (this project's own).
    pub fn is_old(&self, at: u64) -> bool
        ensures { result ≡ books.is_old at self.now }
    {
        match self.state {
            TxnState::Visible | TxnState::Aborted => at.saturating_sub(self.since) >= 259200,
            TxnState::Prepare | TxnState::Precommitted | TxnState::Committed => false,
        }
    }

    // It has not ended.
    pub fn is_open(&self) -> bool
        ensures { result ≡ is_open_state self.now.state }
    {
        match self.state {
            TxnState::Prepare | TxnState::Precommitted | TxnState::Committed => true,
            TxnState::Visible | TxnState::Aborted => false,
        }
    }
}
