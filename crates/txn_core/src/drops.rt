// Where its table goes, a transaction keeps no rows, and one that is not committed is aborted.
ghost use Rattle.std.specs.Prelude.{◌≡◌, cond, map, nat_eq, true};
ghost use Rattle.front_defs.specs.Transactions.{dropped_state};
ghost use Rattle.label_book.specs.Labels.{finished, is_bound};
ghost use Rattle.txn_core.specs.Book.{drop_as, dropped_in};
ghost use Rattle.txn_core.specs.Queue.{binding};
ghost use Rattle.txn_core.specs.Seen.{Ascending};

use crate::info::TxnInfo;
use label_book::LabelBook;
use labels::TxnState;

impl TxnInfo {
    // Gives up its rows, and aborts it unless it is committed or has ended.
    fn drop_rows(&mut self, at: u64)
        ensures { self.new ≡ drop_as at self.old }
    {
        match self.state {
            TxnState::Prepare | TxnState::Precommitted => self.end(TxnState::Aborted, at),
            TxnState::Committed | TxnState::Visible | TxnState::Aborted => self.held = None,
        }
    }
}

// Gives up the rows of one of the table, and frees its label where it is aborted.
fn drop_if_of(info: &mut TxnInfo, labels: &mut LabelBook, table: u64, at: u64)
    requires { is_bound info.old.id labels.old ≡ true }
    ensures is { info.new ≡ dropped_in table at info.old }
    ensures labels { labels.new ≡ cond (nat_eq info.old.table table) (map (finished info.old.id (dropped_state info.old.state)) labels.old) labels.old }
{
    if info.table == table {
        info.drop_rows(at);
        labels.finish(info.id, info.state);
    }
}

// Gives up the rows of those of the table, and frees the labels of those that are aborted.
pub fn drop_of(kept: &mut Vec<TxnInfo>, labels: &mut LabelBook, table: u64, at: u64)
    requires ascends { Ascending kept.old.items }
    requires labels { labels.old ≡ map binding kept.old.items }
    ensures is { kept.new.items ≡ map (dropped_in table at) kept.old.items }
    ensures labels { labels.new ≡ map binding kept.new.items }
{
    for info in kept.iter_mut() {
        drop_if_of(info, labels, table, at);
    }
}
