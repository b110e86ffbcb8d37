// Sorting rows by key.
ghost use Rattle.std.specs.Prelude.{◌≡◌, IfOk, OnOk, List};
ghost use Rattle.std.specs.List.{filter};
ghost use Rattle.dl_values.specs.Order.{row_cmp};
ghost use Rattle.dl_values.specs.declared.cell.Cell.{Cell};
ghost use Rattle.fold_laws.specs.Fold.{Ascends, has_key};
ghost use Rattle.row_fold.specs.Sorted.{keyed_key, rows_of};

use crate::key_rule::KeyRule;
use crate::keyed::Keyed;
use dl_values::{NoMemory, Rows};
use std::alloc::Global;
use std::cmp::Ordering;

// Each row beside the number of its key.
pub fn with_prefixes<'a>(alloc: Global, rows: &'a Rows) -> Result<Vec<Keyed<'a>>, NoMemory>
    ensures { IfOk result (λ keyed. rows_of keyed.items ≡ rows.now) }
{
    let mut keyed = Vec::with_capacity(alloc, rows.len())?;
    for place in 0..rows.len() {
        keyed.push(Keyed::new(rows.row(place)))?;
    }
    Ok(keyed)
}

// Sorts rows by key. Rows of one key stay in their order, since the newer of them is to merge into the older.
pub fn sort_by_key(rule: &KeyRule, rows: &mut Vec<Keyed>) -> Result<(), NoMemory>
    ensures ascends { OnOk result (Ascends row_cmp (keyed_key rule.now.shape.now) rows.new.items) }
    ensures same { (k : List Cell) → filter (has_key row_cmp (keyed_key rule.now.shape.now) k) rows.new.items ≡ filter (has_key row_cmp (keyed_key rule.now.shape.now) k) rows.old.items }
{
    rows.sort_by(
        |a: &Keyed, b: &Keyed| -> Ordering
            ensures { result ≡ row_cmp (keyed_key rule.entry.now.shape.now a.now) (keyed_key rule.entry.now.shape.now b.now) }
        { rule.compare(a, b) },
    )?;
    Ok(())
}
