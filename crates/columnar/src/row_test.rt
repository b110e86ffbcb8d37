// Whether rows may be stored by a shape.
ghost use Rattle.std.specs.Prelude.{◌≡◌, ◌↔◌, IsTrue};
ghost use Rattle.std.specs.List.{AllByRecursion};
ghost use Rattle.schema_models.specs.RowRules.{IsOfShape};

use dl_values::Rows;
use schema_models::{Shape, is_of_shape};

/// Whether each row is of a shape.
pub fn are_of_shape(shape: &Shape, rows: &Rows) -> bool
    ensures { IsTrue result ↔ AllByRecursion (IsOfShape shape.now) rows.now }
{
    let mut place = rows.len();
    while place > 0 {
        place -= 1;
        if !is_of_shape(shape, rows.row(place)) {
            return false;
        }
    }
    true
}
