// The rows of a reading that pass the tests of a query.
ghost use Rattle.std.specs.Prelude.{◌≡◌, ◌+◌};
ghost use Rattle.select_eval.specs.Passing.{IsNextPassing};

use crate::condition::{Condition, all_hold};
use dl_outside::Steps;
use merge_read::Merge;
use row_fold::SortedRows;
use std::sync::ledger::Ledger;

// Makes the next row that passes the present one, and is false at the end.
pub fn next_passing<'a, R: SortedRows, L: Ledger>(
    merge: &mut Merge<'a, R>,
    conditions: &[Condition],
    steps: &mut Steps<L>,
) -> bool
    ensures next { IsNextPassing conditions.now result merge.old merge.new }
    ensures counted { steps.new + merge.new.unread ≡ steps.old + merge.old.unread }
{
    'rows: while merge.next(steps) {
        if all_hold(conditions, merge.present()) {
            return true;
        }
    }
    false
}
