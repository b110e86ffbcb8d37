// Lists of rows in the order of their keys.
use dl_outside::Steps;
use dl_values::{RowView, Rows};
use std::sync::Arc;
use std::sync::ledger::Ledger;

/// Rows that are looked at one by one. Who takes them for sorted says so: they then ascend by key, and in the Duplicate
/// model by whole row.
pub trait SortedRows {
    ghost use Rattle.std.specs.Prelude.{◌≡◌, ◌+◌, ◌<◌, [], List, length, slice_index_or};
    ghost use Rattle.dl_values.specs.declared.cell.Cell.{Cell};

    ghost rows: { Self → List (List Cell) };

    /// How many rows there are.
    fn len(&self) -> usize
        ensures length { result ≡ length (rows self.now) };

    /// The row at a place. It is the one way to a row, and counts one step.
    fn row<L: Ledger>(&self, place: usize, steps: &mut Steps<L>) -> RowView<'_>
        requires within { place < length (rows self.now) }
        ensures row { result ≡ slice_index_or (rows self.now) place [] }
        ensures step { steps.new ≡ steps.old + 1 };
}

/// Rows in one list of cells.
impl SortedRows for Rows {
    ghost rows = { λ r. r };

    fn len(&self) -> usize {
        Rows::len(self)
    }

    fn row<L: Ledger>(&self, place: usize, steps: &mut Steps<L>) -> RowView<'_> {
        steps.tick();
        RowView::of_cells(Rows::row(self, place))
    }
}

/// Rows that are shared.
impl<T: SortedRows> SortedRows for Arc<T> {
    ghost rows = { λ a. T.rows a.value };

    fn len(&self) -> usize {
        (**self).len()
    }

    fn row<L: Ledger>(&self, place: usize, steps: &mut Steps<L>) -> RowView<'_> {
        (**self).row(place, steps)
    }
}
