// What has expired is aborted, and what ended long ago is forgotten.
ghost use Rattle.std.specs.Prelude.{◌≡◌, IfErr, IfOk, OnErr, OnOk, count_by, false, filter, map, not, true};
ghost use Rattle.std.specs.List.{list_any};
ghost use Rattle.front_defs.specs.Transactions.{is_expired, is_over, sweeps, sweeps_told};
ghost use Rattle.txn_core.specs.declared.error.TxnError.TheVariants as error;
ghost use Rattle.txn_core.specs.Book.{is_old, swept, swept_as, txns_in};

use super::TxnBook;
use crate::counts::{Sweeping, old_of, stale_of, tells};
use crate::error::TxnError;
use crate::expiry::{abort_stale, forget_old};

impl TxnBook {
    /// What a sweep would change, and whether a journal was told of some of it.
    pub fn would_sweep(&self, at: u64) -> Sweeping
        ensures aborted { result.aborted ≡ count_by (is_expired at) (txns_in self.now) }
        ensures forgotten { result.forgotten ≡ count_by (is_over at) (txns_in self.now) }
        ensures told { result.told ≡ list_any (sweeps_told at) (txns_in self.now) }
    {
        Sweeping {
            aborted: stale_of(&self.kept, at),
            forgotten: old_of(&self.kept, at),
            told: tells(&self.kept, at),
        }
    }

    // Forgets what ended long ago.
    fn forget(&mut self, at: u64)
        ensures { self.new ≡ record self.old { kept = filter (λ k. not (is_old at k)) self.old.kept } }
    {
        forget_old(&mut self.kept, &mut self.labels, at);
    }

    // Aborts what has expired.
    fn expire(&mut self, at: u64)
        ensures { self.new ≡ record self.old { kept = map (swept_as at) self.old.kept } }
    {
        abort_stale(&mut self.kept, &mut self.labels, at);
    }

    /// Aborts what has expired, forgets what ended long ago, and answers how many of each. Takes no memory.
    pub fn sweep(&mut self, at: u64) -> Result<(u64, u64), TxnError>
        ensures fits { OnOk result (list_any (sweeps at) (txns_in self.old) ≡ true) }
        ensures aborted { IfOk result (λ n. n.0 ≡ count_by (is_expired at) (txns_in self.old)) }
        ensures forgotten { IfOk result (λ n. n.1 ≡ count_by (is_over at) (txns_in self.old)) }
        ensures ok { OnOk result (self.new ≡ swept at self.old) }
        ensures refused { IfErr result (λ e. e ≡ error.NothingToSweep) }
        ensures none { OnErr result (list_any (sweeps at) (txns_in self.old) ≡ false) }
        ensures err { OnErr result (self.new ≡ self.old) }
    {
        let found = self.would_sweep(at);
        if found.is_nothing() {
            return Err(TxnError::NothingToSweep);
        }
        self.forget(at);
        self.expire(at);
        Ok((found.aborted, found.forgotten))
    }
}
