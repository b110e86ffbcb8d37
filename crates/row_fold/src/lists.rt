// The fold of rows that stand in a list of their own.
ghost use Rattle.std.specs.Prelude.{◌≡◌, IfOk};
ghost use Rattle.dl_values.specs.Order.{row_cmp};
ghost use Rattle.fold_laws.specs.Fold.{Ascends};
ghost use Rattle.schema_models.specs.Folds.{fold_of, key_of};

use crate::folds::fold_rows;
use crate::key_rule::KeyRule;
use crate::merging::fold_ascending;
use crate::sorting::with_prefixes;
use dl_values::{NoMemory, Row, Rows};
use schema_models::Shape;
use std::alloc::Global;

// The rows in one list of cells.
fn gathered(alloc: Global, rows: Vec<Row>) -> Result<Rows, NoMemory>
    ensures { IfOk result (λ out. out ≡ rows.items) }
{
    let mut out = Rows::new(alloc);
    for row in rows {
        out.push(row)?;
    }
    Ok(out)
}

// Each row by itself.
fn listed(alloc: Global, rows: &Rows) -> Result<Vec<Row>, NoMemory>
    ensures { IfOk result (λ out. out.items ≡ rows.now) }
{
    let mut out = Vec::with_capacity(alloc, rows.len())?;
    for place in 0..rows.len() {
        out.push(Row::from_cells(alloc, rows.row(place))?)?;
    }
    Ok(out)
}

/// The fold of rows by the model of a shape (Apache Doris documentation, "Data Models").
pub fn fold(alloc: Global, shape: &Shape, rows: Vec<Row>) -> Result<Vec<Row>, NoMemory>
    ensures { IfOk result (λ out. out.items ≡ fold_of shape.now rows.items) }
{
    let rows = gathered(alloc, rows)?;
    let folded = fold_rows(alloc, shape, rows)?;
    listed(alloc, &folded)
}

/// The same of rows that ascend by key, and in the Duplicate model by whole row: they are not sorted again.
pub fn fold_sorted(alloc: Global, shape: &Shape, rows: Vec<Row>) -> Result<Vec<Row>, NoMemory>
    requires { Ascends row_cmp (key_of shape.now) rows.items }
    ensures { IfOk result (λ out. out.items ≡ fold_of shape.now rows.items) }
{
    let rows = gathered(alloc, rows)?;
    let keyed = with_prefixes(alloc, &rows)?;
    let folded = fold_ascending(alloc, &KeyRule::new(shape), &keyed)?;
    listed(alloc, &folded)
}
