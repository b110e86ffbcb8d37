// The fold of rows.
ghost use Rattle.std.specs.Prelude.{◌≡◌, IfOk};
ghost use Rattle.schema_models.specs.Folds.{fold_of};

use crate::ascending::is_folded;
use crate::copies::copy_of;
use crate::key_rule::KeyRule;
use crate::merging::fold_ascending;
use crate::sorting::{sort_by_key, with_prefixes};
use dl_values::{NoMemory, Rows};
use schema_models::Shape;
use std::alloc::Global;

// The fold of rows in any order.
fn fold_unsorted(alloc: Global, rule: &KeyRule, rows: &Rows) -> Result<Rows, NoMemory>
    ensures { IfOk result (λ out. out ≡ fold_of rule.now.shape.now rows.now) }
{
    let mut keyed = with_prefixes(alloc, rows)?;
    sort_by_key(rule, &mut keyed)?;
    fold_ascending(alloc, rule, &keyed)
}

/// The fold of rows by the model of a shape (Apache Doris documentation, "Data Models"), in n log n: the rows are sorted by
/// key, where most comparisons look at one number of each, and rows of one key then stand side by side and merge.
pub fn fold_rows(alloc: Global, shape: &Shape, rows: Rows) -> Result<Rows, NoMemory>
    ensures { IfOk result (λ out. out ≡ fold_of shape.now rows) }
{
    let rule = KeyRule::new(shape);
    if is_folded(&rule, &rows) {
        return Ok(rows);
    }
    fold_unsorted(alloc, &rule, &rows)
}

/// The same of rows that stay with the caller. Rows that are their own fold are copied.
pub fn fold_rows_of(alloc: Global, shape: &Shape, rows: &Rows) -> Result<Rows, NoMemory>
    ensures { IfOk result (λ out. out ≡ fold_of shape.now rows.now) }
{
    let rule = KeyRule::new(shape);
    if is_folded(&rule, rows) {
        return copy_of(alloc, rows);
    }
    fold_unsorted(alloc, &rule, rows)
}
