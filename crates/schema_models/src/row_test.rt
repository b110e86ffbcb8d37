// Whether a row is of a shape.
ghost use Rattle.std.specs.Prelude.{◌≡◌};
ghost use Rattle.schema_models.specs.RowRules.{fits_columns};

use crate::Shape;
use crate::cell_types::fits_column;
use dl_values::Cell;

/// Whether a row has one cell for each column of a shape, each of its column's type, or null where that is nullable.
pub fn is_of_shape(shape: &Shape, row: &[Cell]) -> bool
    ensures { result ≡ fits_columns shape.now.columns row.now }
{
    let columns = shape.columns();
    if columns.len() != row.len() {
        return false;
    }
    for i in 0..columns.len() {
        if !fits_column(&columns[i], &row[i]) {
            return false;
        }
    }
    true
}
