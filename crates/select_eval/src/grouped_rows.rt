// The rows of an answer whose rows are groups.
ghost use Rattle.std.specs.Prelude.{◌≡◌, ◌∷◌, ◌+◌, ◌≤◌, [], IfOk, IsTrue, OnOk, map};
ghost use Rattle.dl_values.specs.declared.cell.Cell.TheVariants as cell;
ghost use Rattle.select_defs.specs.Aggregates.{count_cell};
ghost use Rattle.select_eval.specs.Grouping as growing;
ghost use Rattle.select_eval.specs.Outputs.{begun, grown_by};
ghost use Rattle.select_eval.specs.Passing.{still_passing};
ghost use Rattle.select_eval.specs.declared.output.Output.TheVariants as output;

use crate::condition::Condition;
use crate::group::Group;
use crate::group_key::GroupKey;
use crate::grouping::{Grouping, rows_of};
use crate::output::Output;
use crate::passing::next_passing;
use dl_outside::Steps;
use dl_values::{Cell, NoMemory, Row};
use merge_read::Merge;
use row_fold::SortedRows;
use std::alloc::Global;
use std::collections::BTreeMap;
use std::sync::ledger::Ledger;

// Whether a select list is COUNT(*) alone.
fn counts_alone(outputs: &[Output]) -> bool
    ensures { IsTrue result → outputs.now ≡ output.CountAll ∷ [] }
{
    match outputs {
        [output] => match output {
            Output::CountAll => true,
            Output::Key(_) | Output::Agg(..) => false,
        },
        _ => false,
    }
}

// How many rows still to come of a reading pass.
fn count_in<'a, R: SortedRows, L: Ledger>(
    conditions: &[Condition],
    merge: &mut Merge<'a, R>,
    steps: &mut Steps<L>,
) -> i64
    ensures count { cell.Int result ∷ [] ≡ grown_by (output.CountAll ∷ []) (count_cell 0 ∷ []) (still_passing conditions.now merge.old) }
    ensures counted { steps.new ≡ steps.old + merge.old.unread }
{
    let mut count: i64 = 0;
    'rows: while next_passing(merge, conditions, steps) {
        count = count.wrapping_add(1);
    }
    count
}

// The group of all rows still to come of a reading that pass.
fn one_group<'a, R: SortedRows, L: Ledger>(
    alloc: Global,
    outputs: &[Output],
    conditions: &[Condition],
    merge: &mut Merge<'a, R>,
    steps: &mut Steps<L>,
) -> Result<Group, NoMemory>
    ensures group { IfOk result (λ g. g ≡ grown_by outputs.now (begun outputs.now []) (still_passing conditions.now merge.old)) }
    ensures counted { OnOk result (steps.new ≡ steps.old + merge.old.unread) }
    ensures within { steps.new ≤ steps.old + merge.old.unread }
{
    let mut group = Group::begin(alloc, outputs, &[])?;
    'rows: while next_passing(merge, conditions, steps) {
        group.add(alloc, outputs, merge.present())?;
    }
    Ok(group)
}

// The row of that group. Where rows are only counted, no cell of a group is looked up for them.
fn one_row<'a, R: SortedRows, L: Ledger>(
    alloc: Global,
    outputs: &[Output],
    conditions: &[Condition],
    merge: &mut Merge<'a, R>,
    steps: &mut Steps<L>,
) -> Result<Row, NoMemory>
    ensures row { IfOk result (λ r. r ≡ grown_by outputs.now (begun outputs.now []) (still_passing conditions.now merge.old)) }
    ensures counted { OnOk result (steps.new ≡ steps.old + merge.old.unread) }
    ensures within { steps.new ≤ steps.old + merge.old.unread }
{
    if counts_alone(outputs) {
        let mut row = Row::with_room(alloc, 1)?;
        row.push(Cell::Int(count_in(conditions, merge, steps)))?;
        return Ok(row);
    }
    let group = one_group(alloc, outputs, conditions, merge, steps)?;
    group.into_row(alloc)
}

// The groups of the rows still to come of a reading that pass.
fn groups_in<'a, R: SortedRows, L: Ledger>(
    alloc: Global,
    grouping: &Grouping,
    conditions: &[Condition],
    merge: &mut Merge<'a, R>,
    steps: &mut Steps<L>,
) -> Result<BTreeMap<GroupKey, Group>, NoMemory>
    ensures groups { IfOk result (λ m. m.entries ≡ growing.put_all grouping.now [] (still_passing conditions.now merge.old)) }
    ensures counted { OnOk result (steps.new ≡ steps.old + merge.old.unread) }
    ensures within { steps.new ≤ steps.old + merge.old.unread }
{
    let mut all = BTreeMap::new(alloc);
    let mut key = GroupKey::new(alloc);
    'rows: while next_passing(merge, conditions, steps) {
        grouping.put(alloc, &mut all, &mut key, merge.present())?;
    }
    Ok(all)
}

// The row of each group of the rows still to come of a reading that pass, by ascending key.
pub fn grouped_rows<'a, R: SortedRows, L: Ledger>(
    alloc: Global,
    grouping: &Grouping,
    conditions: &[Condition],
    merge: &mut Merge<'a, R>,
    steps: &mut Steps<L>,
) -> Result<Vec<Row>, NoMemory>
    ensures rows { IfOk result (λ v. v.items ≡ map (λ e. e.1) (growing.put_all grouping.now (growing.first_groups grouping.now) (still_passing conditions.now merge.old))) }
    ensures counted { OnOk result (steps.new ≡ steps.old + merge.old.unread) }
    ensures within { steps.new ≤ steps.old + merge.old.unread }
{
    if grouping.is_one() {
        let mut rows = Vec::with_capacity(alloc, 1)?;
        rows.push(one_row(alloc, grouping.outputs(), conditions, merge, steps)?)?;
        return Ok(rows);
    }
    let all = groups_in(alloc, grouping, conditions, merge, steps)?;
    rows_of(alloc, all)
}
