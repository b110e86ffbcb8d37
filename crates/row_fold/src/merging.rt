// Rows of one key that stand side by side make one row.
ghost use Rattle.std.specs.Prelude.{◌≡◌, ◌++◌, ◌∷◌, [], IfOk, OnOk, List};
ghost use Rattle.dl_values.specs.Order.{row_cmp};
ghost use Rattle.dl_values.specs.declared.cell.Cell.{Cell};
ghost use Rattle.fold_laws.specs.Fold.{Ascends};
ghost use Rattle.row_fold.specs.Sorted.{keyed_key, rows_of};
ghost use Rattle.schema_models.specs.Folds.{fold_of, key_of};
ghost use Rattle.schema_models.specs.declared.model.Model.TheVariants as model;

use crate::key_rule::KeyRule;
use crate::keyed::Keyed;
use crate::present::Present;
use dl_values::{Cell, NoMemory, Row, Rows};
use std::alloc::Global;
use std::cmp::Ordering;

// Takes the next row: it merges into the row that is being made, or ends that and begins the next one. The last row that
// was taken stands for the row that is being made, which has its key, so that no number of a key is found again.
fn take_next<'a>(
    alloc: Global,
    rule: &KeyRule,
    out: &mut Rows,
    room: &mut Row,
    present: &mut Present<'a>,
    last: &Keyed,
    next: &Keyed<'a>,
) -> Result<(), NoMemory>
    requires empty { room.old ≡ [] }
    requires key { key_of rule.now.shape.now last.now.row.now ≡ key_of rule.now.shape.now present.old }
    requires merges { rule.now.shape.now.model ≡ model.Duplicate → ⊥ }
    ensures emptied { OnOk result (room.new ≡ []) }
    ensures key { OnOk result (key_of rule.now.shape.now next.now.row.now ≡ key_of rule.now.shape.now present.new) }
    ensures same { OnOk result ((rest : List (List Cell)) → Ascends row_cmp (key_of rule.now.shape.now) (present.old ∷ next.now.row.now ∷ rest)
        → out.new ++ fold_of rule.now.shape.now (present.new ∷ rest) ≡ out.old ++ fold_of rule.now.shape.now (present.old ∷ next.now.row.now ∷ rest)) }
    ensures ascends { OnOk result ((rest : List (List Cell)) → Ascends row_cmp (key_of rule.now.shape.now) (present.old ∷ next.now.row.now ∷ rest)
        → Ascends row_cmp (key_of rule.now.shape.now) (present.new ∷ rest)) }
{
    match rule.compare(last, next) {
        Ordering::Equal => present.merge(alloc, rule.shape.columns(), next.row),
        _ => {
            present.end(alloc, out, room)?;
            present.begin(next.row);
            Ok(())
        }
    }
}

// One row for each key of rows that ascend, each the merge of the rows of that key.
fn merge_runs(alloc: Global, rule: &KeyRule, sorted: &[Keyed]) -> Result<Rows, NoMemory>
    requires merges { rule.now.shape.now.model ≡ model.Duplicate → ⊥ }
    requires ascends { Ascends row_cmp (key_of rule.now.shape.now) (rows_of sorted.now) }
    ensures { IfOk result (λ out. out ≡ fold_of rule.now.shape.now (rows_of sorted.now)) }
{
    let mut out = Rows::new(alloc);
    if sorted.is_empty() {
        return Ok(out);
    }
    let mut room = Row::new(alloc);
    let mut last = &sorted[0];
    let mut present = Present::new(alloc, last.row);
    for i in 1..sorted.len() {
        let next = &sorted[i];
        take_next(alloc, rule, &mut out, &mut room, &mut present, last, next)?;
        last = next;
    }
    present.end(alloc, &mut out, &mut room)?;
    Ok(out)
}

// The rows as they stand.
fn copy_rows(alloc: Global, sorted: &[Keyed]) -> Result<Rows, NoMemory>
    ensures { IfOk result (λ out. out ≡ rows_of sorted.now) }
{
    let mut out = Rows::new(alloc);
    for i in 0..sorted.len() {
        out.push_copy(alloc, sorted[i].row)?;
    }
    Ok(out)
}

// The fold of rows that ascend by key.
pub fn fold_ascending(alloc: Global, rule: &KeyRule, sorted: &[Keyed]) -> Result<Rows, NoMemory>
    requires { Ascends row_cmp (key_of rule.now.shape.now) (rows_of sorted.now) }
    ensures { IfOk result (λ out. out ≡ fold_of rule.now.shape.now (rows_of sorted.now)) }
{
    if rule.keeps_all() {
        return copy_rows(alloc, sorted);
    }
    merge_runs(alloc, rule, sorted)
}
