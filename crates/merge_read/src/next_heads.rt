// Lists of rows that are read side by side: their heads.
ghost use Rattle.std.specs.Prelude.{◌≡◌, ◌+◌, ◌<◌, ◌≤◌, ◌++◌, [], drop, length, map, option_to_list, IfNone, IfSome};
ghost use Rattle.std.specs.BinaryHeap.{IsUpperBound};
ghost use Rattle.std.specs.List.Sorted.{IsPermutation};
ghost use Rattle.merge_read.specs.HeadOrder.{head_cmp};
ghost use Rattle.merge_read.specs.Keys.{key_width};
ghost use Rattle.merge_read.specs.Lists.{AreSortedLists};
ghost use Rattle.merge_read.specs.Rests.{AreHeads, AreRead, head_if, some_row, unread};

use crate::head::Head;
use crate::heads::Heads;
use dl_outside::Steps;
use row_fold::SortedRows;
use schema_models::Shape;
use std::sync::ledger::Ledger;

// Looks at the first row of a list, where it has one, and puts it among the heads.
fn load_head<'a, R: SortedRows, L: Ledger>(
    width: usize,
    list: usize,
    rows: &'a R,
    others: &mut Heads<'a>,
    steps: &mut Steps<L>,
)
    requires some { 0 < width }
    requires room { length others.old.items < others.old.room }
    ensures read { AreRead width list (R.rows rows.now) others.old.items others.new.items }
    ensures room { others.old.room ≤ others.new.room }
    ensures counted { steps.new ≡ steps.old + some_row (R.rows rows.now) }
{
    if rows.len() == 0 {
        return;
    }
    let row = rows.row(0, steps);
    others.put(Head::new(row, width, list));
}

// Puts the first of other heads, where there is one, in the place of a head whose list has ended.
#[inline(never)]
fn next_list<'a>(first: &mut Head<'a>, others: &mut Heads<'a>) -> bool
    ensures moved { IsPermutation others.old.items (option_to_list (head_if result first.new) ++ others.new.items) }
    ensures first { IfSome (head_if result first.new) (λ x. IsUpperBound head_cmp x others.new.items) }
    ensures none { IfNone (head_if result first.new) (others.new.items ≡ []) }
    ensures room { others.old.room ≤ others.new.room }
{
    match others.take() {
        None => false,
        Some(head) => {
            *first = head;
            true
        }
    }
}

// Looks at the row of a list at a place, where it has one, and puts the first of all heads in the place of a head that was
// taken. Where there is none it is false.
#[inline(always)]
pub fn next_first<'a, R: SortedRows, L: Ledger>(
    width: usize,
    list: usize,
    rows: &'a R,
    place: usize,
    first: &mut Head<'a>,
    others: &mut Heads<'a>,
    steps: &mut Steps<L>,
) -> bool
    requires some { 0 < width }
    requires room { length others.old.items < others.old.room }
    ensures read { AreRead width list (drop place (R.rows rows.now)) others.old.items (option_to_list (head_if result first.new) ++ others.new.items) }
    ensures first { IfSome (head_if result first.new) (λ x. IsUpperBound head_cmp x others.new.items) }
    ensures none { IfNone (head_if result first.new) (others.new.items ≡ []) }
    ensures room { others.old.room ≤ others.new.room }
    ensures counted { steps.new ≡ steps.old + some_row (drop place (R.rows rows.now)) }
{
    if place < rows.len() {
        let row = rows.row(place, steps);
        *first = others.first_of(Head::new(row, width, list));
        return true;
    }
    next_list(first, others)
}

// Looks at the first row of each list. It stands by itself, so that each next row does not make room for it.
#[inline(never)]
pub fn load_heads<'a, R: SortedRows, L: Ledger>(
    shape: &Shape,
    width: usize,
    lists: &'a [R],
    others: &mut Heads<'a>,
    steps: &mut Steps<L>,
)
    requires some { 0 < width }
    requires wide { width ≡ key_width shape.now }
    requires sorted { AreSortedLists shape.now (map (λ l. R.rows l) lists.now) }
    requires empty { others.old.items ≡ [] }
    requires room { length lists.now ≤ others.old.room }
    ensures heads { AreHeads shape.now (length lists.now) (map (λ l. R.rows l) lists.now) others.new.items }
    ensures few { length others.new.items ≤ length lists.now }
    ensures room { others.old.room ≤ others.new.room }
    ensures counted { steps.new + unread (length lists.now) (map (λ l. R.rows l) lists.now) ≡ steps.old + unread 0 (map (λ l. R.rows l) lists.now) }
{
    for list in 0..lists.len() {
        load_head(width, list, &lists[list], others, steps);
    }
}
