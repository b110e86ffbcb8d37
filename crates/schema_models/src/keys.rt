// The distinct keys of rows.
ghost use Rattle.std.specs.Prelude.{◌≡◌, IfOk, OnOk};
ghost use Rattle.std.specs.BTreeSet.{insert_key};
ghost use Rattle.dl_values.specs.Order.{row_cmp};
ghost use Rattle.fold_laws.specs.Fold.{distinct};
ghost use Rattle.schema_models.specs.Folds as folds;

use crate::{Model, Shape};
use dl_values::{Cell, NoMemory, Row, Rows, compare_slices};
use std::alloc::Global;
use std::cmp::Ordering;

/// The key of a row: its first cells, and in the Duplicate model all of them.
pub fn key_of<'a>(shape: &Shape, row: &'a [Cell]) -> &'a [Cell]
    ensures { result.now ≡ folds.key_of shape.now row.now }
{
    match shape.model() {
        Model::Duplicate => row,
        Model::Unique | Model::Aggregate => &row[..shape.keys().min(row.len())],
    }
}

// Puts a key in its place among ascending keys, if it is not there.
fn add_key(alloc: Global, keys: &mut Vec<Row>, key: &[Cell]) -> Result<(), NoMemory>
    ensures { OnOk result (keys.new.items ≡ insert_key row_cmp keys.old.items key.now) }
{
    for i in 0..keys.len() {
        match compare_slices(key, keys[i].cells()) {
            Ordering::Greater => {}
            Ordering::Equal => return Ok(()),
            Ordering::Less => {
                keys.insert(i, Row::from_cells(alloc, key)?)?;
                return Ok(());
            }
        }
    }
    keys.push(Row::from_cells(alloc, key)?)?;
    Ok(())
}

// The distinct keys of rows, ascending.
pub fn distinct_keys(alloc: Global, shape: &Shape, rows: &Rows) -> Result<Vec<Row>, NoMemory>
    ensures { IfOk result (λ keys. keys.items ≡ distinct row_cmp (folds.key_of shape.now) rows.now) }
{
    let mut keys = Vec::new(alloc);
    let mut place = rows.len();
    while place > 0 {
        place -= 1;
        add_key(alloc, &mut keys, key_of(shape, rows.row(place)))?;
    }
    Ok(keys)
}
