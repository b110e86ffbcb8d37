// Aborting what has expired, and forgetting what ended long ago, with the labels.
ghost use Rattle.std.specs.Prelude.{◌≡◌, cond, filter, map, not, true};
ghost use Rattle.label_book.specs.Labels.{cleaned, finished, is_bound};
ghost use Rattle.labels.specs.declared.txn_state.TxnState.TheVariants as states;
ghost use Rattle.txn_core.specs.Book.{is_old as is_old_at, is_stale as is_stale_at, swept_as};
ghost use Rattle.txn_core.specs.Queue.{binding};
ghost use Rattle.txn_core.specs.Seen.{Ascending};

use crate::info::TxnInfo;
use label_book::LabelBook;
use labels::TxnState;

// Forgets the label of one that ended long ago.
fn clean_if_old(info: &TxnInfo, labels: &mut LabelBook, at: u64)
    ensures { labels.new ≡ cond (is_old_at at info.now) (cleaned info.now.id labels.old) labels.old }
{
    if info.is_old(at) {
        labels.clean(info.id);
    }
}

// Forgets the labels of those that ended long ago.
fn clean_old(kept: &[TxnInfo], labels: &mut LabelBook, at: u64)
    requires ascends { Ascending kept.now }
    requires labels { labels.old ≡ map binding kept.now }
    ensures { labels.new ≡ map binding (filter (λ k. not (is_old_at at k)) kept.now) }
{
    for info in kept {
        clean_if_old(info, labels, at);
    }
}

// Forgets those that ended long ago.
pub fn forget_old(kept: &mut Vec<TxnInfo>, labels: &mut LabelBook, at: u64)
    requires ascends { Ascending kept.old.items }
    requires labels { labels.old ≡ map binding kept.old.items }
    ensures is { kept.new.items ≡ filter (λ k. not (is_old_at at k)) kept.old.items }
    ensures labels { labels.new ≡ map binding kept.new.items }
{
    clean_old(kept, labels, at);
    kept.retain(|info| !info.is_old(at));
}

// Aborts one that has expired, and frees its label.
fn abort_if_stale(info: &mut TxnInfo, labels: &mut LabelBook, at: u64)
    requires { is_bound info.old.id labels.old ≡ true }
    ensures is { info.new ≡ swept_as at info.old }
    ensures labels { labels.new ≡ cond (is_stale_at at info.old) (map (finished info.old.id states.Aborted) labels.old) labels.old }
{
    if info.is_stale(at) {
        info.end(TxnState::Aborted, at);
        labels.finish(info.id, TxnState::Aborted);
    }
}

// Aborts those that have expired, and frees their labels.
pub fn abort_stale(kept: &mut Vec<TxnInfo>, labels: &mut LabelBook, at: u64)
    requires ascends { Ascending kept.old.items }
    requires labels { labels.old ≡ map binding kept.old.items }
    ensures is { kept.new.items ≡ map (swept_as at) kept.old.items }
    ensures labels { labels.new ≡ map binding kept.new.items }
{
    for info in kept.iter_mut() {
        abort_if_stale(info, labels, at);
    }
}
