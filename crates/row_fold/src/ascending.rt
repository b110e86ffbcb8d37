// Rows that need no folding.
ghost use Rattle.std.specs.Prelude.{◌≡◌, true};
ghost use Rattle.row_fold.specs.Follows.{follows};
ghost use Rattle.schema_models.specs.Folds.{fold_of};

use crate::key_rule::KeyRule;
use crate::keyed::Keyed;
use dl_values::{Cell, Rows};
use std::cmp::Ordering;

// Whether a row may stand behind another in a fold.
fn may_follow(rule: &KeyRule, older: &[Cell], newer: &[Cell]) -> bool
    ensures { result ≡ follows rule.now.shape.now older.now newer.now }
{
    match rule.compare(&Keyed::new(older), &Keyed::new(newer)) {
        Ordering::Less => true,
        Ordering::Equal => rule.keeps_all(),
        Ordering::Greater => false,
    }
}

// Whether rows stand in the order of a fold, with nothing left to merge.
pub fn is_folded(rule: &KeyRule, rows: &Rows) -> bool
    ensures { result ≡ true → fold_of rule.now.shape.now rows.now ≡ rows.now }
{
    let mut place = rows.len();
    while place > 1 {
        place -= 1;
        if !may_follow(rule, rows.row(place - 1), rows.row(place)) {
            return false;
        }
    }
    true
}
