// The rows of an answer over stored lists, before they are ordered: one for each row that passes, as far as it may be shown, or for
// each group of them.
ghost use Rattle.std.specs.Prelude.{◌≡◌, ◌*◌, ◌+◌, ◌≤◌, IfOk, IfSome, OnOk, length, map};
ghost use Rattle.std.specs.List.{filter};
ghost use Rattle.merge_read.specs.Lists.{AreSortedLists, joined, stored};
ghost use Rattle.merge_read.specs.Merged.{row_of};
ghost use Rattle.schema_models.specs.Folds.{fold_of};
ghost use Rattle.select_defs.specs.Groups as groups;
ghost use Rattle.select_defs.specs.Items.{items_of};
ghost use Rattle.select_eval.specs.BlockTests.{block_tests as block_tests_of, key_width, tests_in};
ghost use Rattle.select_eval.specs.Conditions.{all_hold};
ghost use Rattle.select_eval.specs.Groupings.{output_rows_of};
ghost use Rattle.select_eval.specs.Looks.{in_blocks, looked_at};
ghost use Rattle.select_eval.specs.Outputs as outputs;
ghost use Rattle.select_eval.specs.Passing.{still_passing};
ghost use Rattle.select_eval.specs.Shown.{shown};

use crate::block_tests::block_tests;
use crate::cells::copy_at;
use crate::condition::Condition;
use crate::conditions::conditions_of;
use crate::first_rows::trim;
use crate::grouped_rows::grouped_rows;
use crate::grouping::Grouping;
use crate::passing::next_passing;
use crate::pieces::pieces_of;
use dl_outside::Steps;
use dl_values::{NoMemory, Row};
use merge_read::{Merge, MergedCell};
use row_fold::SortedRows;
use schema_models::Shape;
use select_defs::is_grouped;
use sql_text::{Item, Query};
use std::alloc::Global;
use std::sync::ledger::Ledger;
use zones::Zones;

fn plain_place(index: &Shape, item: &Item) -> Option<usize>
    ensures { result ≡ outputs.plain_place index.now item.now }
{
    match item {
        Item::Column(name) => index.position(name),
        Item::Agg(..) | Item::CountAll => None,
    }
}

fn plain_places(alloc: Global, index: &Shape, list: &[Item]) -> Result<Vec<Option<usize>>, NoMemory>
    ensures { IfOk result (λ v. v.items ≡ map (outputs.plain_place index.now) list.now) }
{
    let mut all = Vec::with_capacity(alloc, list.len())?;
    for item in list {
        all.push(plain_place(index, item))?;
    }
    Ok(all)
}

// The cells of a row at these places, as a row of its own.
fn plain_row(alloc: Global, places: &[Option<usize>], row: &[MergedCell]) -> Result<Row, NoMemory>
    ensures { IfOk result (λ r. r ≡ outputs.cells_in places.now (row_of row.now)) }
{
    let mut out = Row::with_room(alloc, places.len())?;
    for place in places {
        out.push(copy_at(alloc, row, *place)?)?;
    }
    Ok(out)
}

// The rows still to come of a reading that pass, each as its cells at these places; beneath a limit only the first of them are
// kept.
fn plain_rows<'a, R: SortedRows, L: Ledger>(
    alloc: Global,
    query: &Query,
    list: &[Item],
    places: &[Option<usize>],
    conditions: &[Condition],
    merge: &mut Merge<'a, R>,
    steps: &mut Steps<L>,
) -> Result<Vec<Row>, NoMemory>
    ensures rows { IfOk result (λ v. shown list.now query.now v.items ≡ shown list.now query.now (map (outputs.cells_in places.now) (still_passing conditions.now merge.old))) }
    ensures few { IfOk result (λ v. IfSome query.now.limit (λ n. length v.items ≤ 2 * n + 16)) }
    ensures counted { OnOk result (steps.new ≡ steps.old + merge.old.unread) }
    ensures within { steps.new ≤ steps.old + merge.old.unread }
{
    let mut all = Vec::new(alloc);
    'rows: while next_passing(merge, conditions, steps) {
        all.push(plain_row(alloc, places, merge.present())?)?;
        trim(list, query, &mut all)?;
    }
    Ok(all)
}

// Rows of which the answer of a reading that is not begun shows what it shows of all.
fn output_rows_in<'a, R: SortedRows, L: Ledger>(
    alloc: Global,
    base: &Shape,
    index: &Shape,
    query: &Query,
    list: &[Item],
    conditions: &[Condition],
    merge: &mut Merge<'a, R>,
    steps: &mut Steps<L>,
) -> Result<Vec<Row>, NoMemory>
    requires { list.now ≡ items_of base.now query.now }
    ensures rows { IfOk result (λ v. shown list.now query.now v.items ≡ shown list.now query.now (output_rows_of base.now index.now query.now (still_passing conditions.now merge.old))) }
    ensures counted { OnOk result (steps.new ≡ steps.old + merge.old.unread) }
    ensures within { steps.new ≤ steps.old + merge.old.unread }
{
    if is_grouped(base, query, list) {
        let grouping = Grouping::new(alloc, index, query.group.as_slice(), list)?;
        return grouped_rows(alloc, &grouping, conditions, merge, steps);
    }
    let places = plain_places(alloc, index, list)?;
    plain_rows(
        alloc,
        query,
        list,
        places.as_slice(),
        conditions,
        merge,
        steps,
    )
}

// Rows of which the answer shows what it shows of all that pass of the fold of lists.
fn merged_rows<R: SortedRows, L: Ledger>(
    alloc: Global,
    base: &Shape,
    index: &Shape,
    lists: &[R],
    query: &Query,
    list: &[Item],
    conditions: &[Condition],
    steps: &mut Steps<L>,
) -> Result<Vec<Row>, NoMemory>
    requires sorted { AreSortedLists index.now (map (λ l. R.rows l) lists.now) }
    requires list { list.now ≡ items_of base.now query.now }
    ensures rows { IfOk result (λ v. shown list.now query.now v.items ≡ shown list.now query.now (output_rows_of base.now index.now query.now (filter (all_hold conditions.now) (fold_of index.now (joined (map (λ l. R.rows l) lists.now)))))) }
    ensures counted { OnOk result (steps.new ≡ steps.old + stored (map (λ l. R.rows l) lists.now)) }
    ensures within { steps.new ≤ steps.old + stored (map (λ l. R.rows l) lists.now) }
{
    let mut merge = Merge::open(alloc, index, lists)?;
    output_rows_in(
        alloc, base, index, query, list, conditions, &mut merge, steps,
    )
}

// The same of lists whose rows are looked at only in blocks that each test may match.
fn rows_in_blocks<R: SortedRows + Zones, L: Ledger>(
    alloc: Global,
    base: &Shape,
    index: &Shape,
    lists: &[R],
    query: &Query,
    list: &[Item],
    conditions: &[Condition],
    steps: &mut Steps<L>,
) -> Result<Vec<Row>, NoMemory>
    requires same { map (λ l. R.Zones.rows l) lists.now ≡ map (λ l. R.SortedRows.rows l) lists.now }
    requires sorted { AreSortedLists index.now (map (λ l. R.SortedRows.rows l) lists.now) }
    requires list { list.now ≡ items_of base.now query.now }
    ensures rows { IfOk result (λ v. shown list.now query.now v.items ≡ shown list.now query.now (output_rows_of base.now index.now query.now (filter (all_hold conditions.now) (fold_of index.now (joined (map (λ l. R.SortedRows.rows l) lists.now)))))) }
    ensures counted { OnOk result (steps.new ≡ steps.old + looked_at (tests_in (key_width index.now) conditions.now) (map (λ l. in_blocks (R.SortedRows.rows l) (R.Zones.blocks l) (R.Zones.may l)) lists.now)) }
    ensures within { steps.new ≤ steps.old + looked_at (tests_in (key_width index.now) conditions.now) (map (λ l. in_blocks (R.SortedRows.rows l) (R.Zones.blocks l) (R.Zones.may l)) lists.now) }
{
    let tests = block_tests(alloc, index, conditions)?;
    match tests.as_slice() {
        [] => merged_rows(alloc, base, index, lists, query, list, conditions, steps),
        [_, ..] => {
            let pieces = pieces_of(alloc, lists, tests.as_slice())?;
            merged_rows(
                alloc,
                base,
                index,
                pieces.as_slice(),
                query,
                list,
                conditions,
                steps,
            )
        }
    }
}

// Rows of which the answer over the fold of stored lists shows what it shows of all.
pub fn output_rows<R: SortedRows + Zones, L: Ledger>(
    alloc: Global,
    base: &Shape,
    index: &Shape,
    lists: &[R],
    query: &Query,
    list: &[Item],
    steps: &mut Steps<L>,
) -> Result<Vec<Row>, NoMemory>
    requires same { map (λ l. R.Zones.rows l) lists.now ≡ map (λ l. R.SortedRows.rows l) lists.now }
    requires sorted { AreSortedLists index.now (map (λ l. R.SortedRows.rows l) lists.now) }
    requires list { list.now ≡ items_of base.now query.now }
    ensures rows { IfOk result (λ v. shown list.now query.now v.items ≡ shown list.now query.now (groups.output_rows base.now index.now query.now (fold_of index.now (joined (map (λ l. R.SortedRows.rows l) lists.now))))) }
    ensures counted { OnOk result (steps.new ≡ steps.old + looked_at (block_tests_of base.now index.now query.now) (map (λ l. in_blocks (R.SortedRows.rows l) (R.Zones.blocks l) (R.Zones.may l)) lists.now)) }
    ensures within { steps.new ≤ steps.old + looked_at (block_tests_of base.now index.now query.now) (map (λ l. in_blocks (R.SortedRows.rows l) (R.Zones.blocks l) (R.Zones.may l)) lists.now) }
{
    let conditions = conditions_of(alloc, base, index, query.filters.as_slice())?;
    rows_in_blocks(
        alloc,
        base,
        index,
        lists,
        query,
        list,
        conditions.as_slice(),
        steps,
    )
}
