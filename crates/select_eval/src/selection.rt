// What a query answers over stored lists.
ghost use Rattle.std.specs.Prelude.{◌≡◌, ◌⊎◌, ◌+◌, ◌≤◌, IfOk, OnOk, Ok, Err, map};
ghost use Rattle.dl_values.specs.declared.result_set.ResultSet.{ResultSet};
ghost use Rattle.merge_read.specs.Lists.{AreSortedLists, joined, stored};
ghost use Rattle.schema_models.specs.Folds.{fold_of};
ghost use Rattle.select_defs.specs.Eval.{Answer, Eval, IsAnswer, answer};
ghost use Rattle.select_defs.specs.Items as items;
ghost use Rattle.select_defs.specs.declared.select_error.SelectError.{SelectError};
ghost use Rattle.select_defs.specs.declared.select_error.SelectError.TheVariants as error;
ghost use Rattle.select_eval.specs.BlockTests.{block_tests};
ghost use Rattle.select_eval.specs.Looks.{in_blocks, looked_at};

use crate::output_rows::output_rows;
use dl_outside::Steps;
use dl_values::{NoMemory, ResultSet, Rows};
use row_fold::SortedRows;
use schema_models::Shape;
use select_defs::{SelectError, items_of, limited, output_names, output_types, refusal, sort};
use sql_text::{Item, Query};
use std::alloc::Global;
use std::sync::ledger::Ledger;
use zones::Zones;

// The rows of an answer, in their order and as many as are asked for.
fn answer_rows<R: SortedRows + Zones, L: Ledger>(
    alloc: Global,
    base: &Shape,
    index: &Shape,
    lists: &[R],
    query: &Query,
    list: &[Item],
    steps: &mut Steps<L>,
) -> Result<Rows, NoMemory>
    requires same { map (λ l. R.Zones.rows l) lists.now ≡ map (λ l. R.SortedRows.rows l) lists.now }
    requires sorted { AreSortedLists index.now (map (λ l. R.SortedRows.rows l) lists.now) }
    requires list { list.now ≡ items.items_of base.now query.now }
    ensures rows { IfOk result (λ out. out ≡ (answer base.now index.now query.now (fold_of index.now (joined (map (λ l. R.SortedRows.rows l) lists.now)))).rows) }
    ensures counted { OnOk result (steps.new ≡ steps.old + looked_at (block_tests base.now index.now query.now) (map (λ l. in_blocks (R.SortedRows.rows l) (R.Zones.blocks l) (R.Zones.may l)) lists.now)) }
    ensures within { steps.new ≤ steps.old + looked_at (block_tests base.now index.now query.now) (map (λ l. in_blocks (R.SortedRows.rows l) (R.Zones.blocks l) (R.Zones.may l)) lists.now) }
{
    let mut rows = output_rows(alloc, base, index, lists, query, list, steps)?;
    sort(list, query.order.as_slice(), &mut rows)?;
    limited(alloc, query.limit, rows.as_slice())
}

// The answer of a query that is not refused.
fn answer_of<R: SortedRows + Zones, L: Ledger>(
    alloc: Global,
    base: &Shape,
    index: &Shape,
    lists: &[R],
    query: &Query,
    steps: &mut Steps<L>,
) -> Result<ResultSet, NoMemory>
    requires same { map (λ l. R.Zones.rows l) lists.now ≡ map (λ l. R.SortedRows.rows l) lists.now }
    requires sorted { AreSortedLists index.now (map (λ l. R.SortedRows.rows l) lists.now) }
    ensures answered { IfOk result (λ set. IsAnswer (answer base.now index.now query.now (fold_of index.now (joined (map (λ l. R.SortedRows.rows l) lists.now)))) set) }
    ensures counted { OnOk result (steps.new ≡ steps.old + looked_at (block_tests base.now index.now query.now) (map (λ l. in_blocks (R.SortedRows.rows l) (R.Zones.blocks l) (R.Zones.may l)) lists.now)) }
    ensures within { steps.new ≤ steps.old + looked_at (block_tests base.now index.now query.now) (map (λ l. in_blocks (R.SortedRows.rows l) (R.Zones.blocks l) (R.Zones.may l)) lists.now) }
{
    let list = items_of(alloc, base, query)?;
    let names = output_names(alloc, list.as_slice())?;
    let types = output_types(alloc, base, list.as_slice())?;
    let rows = answer_rows(alloc, base, index, lists, query, list.as_slice(), steps)?;
    Ok(ResultSet { names, types, rows })
}

/// What a query answers over the fold of stored lists, of which the oldest stands first: the base is the shape that the
/// query is written for, the index that of the lists. Blocks that a test of a key cannot match are passed over. A row that
/// passes its tests goes into its group, or becomes a row of the answer, before the next is read; the rows of the answer are
/// then ordered and limited.
pub fn select<R: SortedRows + Zones, L: Ledger>(
    alloc: Global,
    base: &Shape,
    index: &Shape,
    lists: &[R],
    query: &Query,
    steps: &mut Steps<L>,
) -> Result<ResultSet, SelectError>
    requires same { map (λ l. R.Zones.rows l) lists.now ≡ map (λ l. R.SortedRows.rows l) lists.now }
    requires sorted { AreSortedLists index.now (map (λ l. R.SortedRows.rows l) lists.now) }
    // What is answered is the answer of the definition.
    ensures answered { (set : ResultSet) → result ≡ Ok set → (a : Answer) × (Eval base.now index.now query.now (fold_of index.now (joined (map (λ l. R.SortedRows.rows l) lists.now))) ≡ Ok a) × IsAnswer a set }
    // A refusal is that of the definition, but for want of memory.
    ensures refused { (e : SelectError) → result ≡ Err e → (e ≡ error.NoMemory) ⊎ (Eval base.now index.now query.now (fold_of index.now (joined (map (λ l. R.SortedRows.rows l) lists.now))) ≡ Err e) }
    // Each row in a block that may match is looked at once, and no other.
    ensures counted { OnOk result (steps.new ≡ steps.old + looked_at (block_tests base.now index.now query.now) (map (λ l. in_blocks (R.SortedRows.rows l) (R.Zones.blocks l) (R.Zones.may l)) lists.now)) }
    // No stored row is looked at where the query is refused.
    ensures unread { (e : SelectError) → Eval base.now index.now query.now (fold_of index.now (joined (map (λ l. R.SortedRows.rows l) lists.now))) ≡ Err e → steps.new ≡ steps.old }
    ensures passed { steps.new ≤ steps.old + looked_at (block_tests base.now index.now query.now) (map (λ l. in_blocks (R.SortedRows.rows l) (R.Zones.blocks l) (R.Zones.may l)) lists.now) }
    ensures within { steps.new ≤ steps.old + stored (map (λ l. R.SortedRows.rows l) lists.now) }
{
    match refusal(alloc, base, query) {
        Ok(None) => match answer_of(alloc, base, index, lists, query, steps) {
            Ok(set) => Ok(set),
            Err(NoMemory) => Err(SelectError::NoMemory),
        },
        Ok(Some(refused)) => Err(refused),
        Err(NoMemory) => Err(SelectError::NoMemory),
    }
}
