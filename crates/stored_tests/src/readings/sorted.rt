// Whether rows may be stored as lists, tried as the definition says it.
ghost use Rattle.std.specs.Prelude.{◌≡◌, ◌≤◌, drop, length, map, IsTrue};
ghost use Rattle.std.specs.List.{AllByRecursion};
ghost use Rattle.dl_values.specs.Order.{row_cmp};
ghost use Rattle.fold_laws.specs.Fold.{Ascends, From};
ghost use Rattle.merge_read.specs.Lists.{AreSortedLists, IsSortedList};
ghost use Rattle.schema_models.specs.Folds as folds;
ghost use Rattle.schema_models.specs.RowRules.{IsOfShape};

use super::counted::Counted;
use dl_values::{Cell, Rows, compare_slices};
use schema_models::{Shape, is_of_shape, key_of};
use std::cmp::Ordering;

// Whether no row from a place on is below a key.
fn are_from(shape: &Shape, key: &[Cell], rows: &Rows, start: usize) -> bool
    requires { start ≤ length rows.now }
    ensures { IsTrue result → From row_cmp (folds.key_of shape.now) key.now (drop start rows.now) }
{
    let mut place = rows.len();
    while place > start {
        place -= 1;
        match compare_slices(key, key_of(shape, rows.row(place))) {
            Ordering::Greater => return false,
            Ordering::Less | Ordering::Equal => {}
        }
    }
    true
}

fn ascend(shape: &Shape, rows: &Rows) -> bool
    ensures { IsTrue result → Ascends row_cmp (folds.key_of shape.now) rows.now }
{
    let mut place = rows.len();
    while place > 0 {
        place -= 1;
        if !are_from(shape, key_of(shape, rows.row(place)), rows, place + 1) {
            return false;
        }
    }
    true
}

fn are_of_shape(shape: &Shape, rows: &Rows) -> bool
    ensures { IsTrue result → AllByRecursion (IsOfShape shape.now) rows.now }
{
    let mut place = rows.len();
    while place > 0 {
        place -= 1;
        if !is_of_shape(shape, rows.row(place)) {
            return false;
        }
    }
    true
}

fn is_list(shape: &Shape, rows: &Rows) -> bool
    ensures { IsTrue result → IsSortedList shape.now rows.now }
{
    are_of_shape(shape, rows) && ascend(shape, rows)
}

pub fn are_lists(shape: &Shape, lists: &[Counted]) -> bool
    ensures { IsTrue result → AreSortedLists shape.now (map (λ l. l.rows) lists.now) }
{
    let mut place = lists.len();
    while place > 0 {
        place -= 1;
        if !is_list(shape, &lists[place].rows) {
            return false;
        }
    }
    true
}
