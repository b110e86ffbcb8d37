// Whether a row has a place.
ghost use Rattle.std.specs.Prelude.{◌≡◌};

use dl_values::Row;

/// What a row has to lie inside of, as the partitions of a table.
pub trait Inside {
    ghost use Rattle.std.specs.Prelude.{List, Bool};
    ghost use Rattle.dl_values.specs.declared.cell.Cell.{Cell};

    ghost inside: { Self → List Cell → Bool };

    /// Whether the row lies inside.
    fn holds(&self, row: &Row) -> bool
        ensures inside { result ≡ inside self.now row.now };
}

/// Holds every row.
impl Inside for () {
    ghost use Rattle.std.specs.Prelude.{true};

    ghost inside = { λ _ _. true };

    fn holds(&self, _row: &Row) -> bool {
        true
    }
}
