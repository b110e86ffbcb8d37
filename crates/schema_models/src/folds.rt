// The fold of rows, by looking for the rows of each key among all of them.
ghost use Rattle.std.specs.Prelude.{◌≡◌, ◌++◌, IfOk, OnOk};
ghost use Rattle.schema_models.specs.Folds as folds;

use crate::Shape;
use crate::gathering::{gather, rows_of_key};
use crate::keys::distinct_keys;
use dl_values::{NoMemory, Row, Rows};
use std::alloc::Global;

// Adds rows at the end.
fn append(alloc: Global, out: &mut Rows, more: &Rows) -> Result<(), NoMemory>
    ensures { OnOk result (out.new ≡ out.old ++ more.now) }
{
    for place in 0..more.len() {
        out.push(Row::from_cells(alloc, more.row(place))?)?;
    }
    Ok(())
}

/// The fold of rows by the model of a shape (Apache Doris documentation, "Data Models"): one row for each distinct key,
/// by ascending key, with the merge of the rows of that key in list order; in the Duplicate model the rows, sorted, with
/// repeats. It looks at all rows for each key, and is the yardstick for quicker folds.
pub fn fold(alloc: Global, shape: &Shape, rows: &Rows) -> Result<Rows, NoMemory>
    ensures { IfOk result (λ out. out ≡ folds.fold_of shape.now rows.now) }
{
    let keys = distinct_keys(alloc, shape, rows)?;
    let mut out = Rows::new(alloc);
    for key in &keys {
        let own = rows_of_key(alloc, shape, rows, key.cells())?;
        let made = gather(alloc, shape, own)?;
        append(alloc, &mut out, &made)?;
    }
    Ok(out)
}
