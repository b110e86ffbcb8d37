// A row that is looked at where it stands, which contracts see as the list of its cells.
ghost use Rattle.std.specs.Prelude.{◌≡◌, ◌<◌, ◌+◌, ◌*◌, ◌/◌, ◌%◌, ◌^◌, length, slice_index_or};
ghost use Rattle.dl_values.specs.Views.{every};
ghost use Rattle.dl_values.specs.declared.cell.Cell.TheVariants as cell;

use crate::{Cell, Row};
use std::marker::Model;

/// A look at the cells of one row, whether they stand side by side or column after column.
#[derive(Debug, Drop)]
pub struct RowView<'a> {
    cells: &'a [Cell],
    count: usize,
    step: usize,
    at: usize,
}

impl<'a> Model for RowView<'a> {
    ghost use Rattle.std.specs.Prelude.{◌≡◌, ◌<◌, ◌*◌, List, length};
    ghost use Rattle.dl_values.specs.declared.cell.Cell.{Cell};
    ghost use Rattle.dl_values.specs.Views.{every};

    ghost Value = { List Cell };

    ghost view = { λ v. every v.count v.step v.at v.cells.now };

    ghost invariant = { λ v. (v.at < v.step) × (v.count * v.step ≡ length v.cells.now) };
}

impl<'a> RowView<'a> {
    /// The whole row.
    pub fn of(row: &'a Row) -> RowView<'a>
        ensures { result ≡ row.now }
    {
        RowView::of_cells(row.cells())
    }

    /// The row of these cells.
    pub fn of_cells(cells: &'a [Cell]) -> RowView<'a>
        ensures { result ≡ cells.now }
    {
        RowView {
            cells,
            count: cells.len(),
            step: 1,
            at: 0,
        }
    }

    /// The row at a place of this many rows, whose cells stand column after column: its cell c is the cell at place
    /// `c * rows + at`.
    pub fn across(cells: &'a [Cell], rows: usize, at: usize) -> RowView<'a>
        requires within { at < rows }
        requires whole { length cells.now % rows ≡ 0 }
        ensures { result ≡ every (length cells.now / rows) rows at cells.now }
    {
        RowView {
            cells,
            count: cells.len() / rows,
            step: rows,
            at,
        }
    }

    /// How many cells the row has.
    pub fn len(&self) -> usize
        ensures { result ≡ length self.now }
    {
        self.count
    }

    /// The cell of a column.
    pub fn cell(&self, column: usize) -> &'a Cell
        requires { column < length self.now }
        ensures { result.now ≡ slice_index_or self.now column cell.Null }
    {
        let place = place_in(self.count, self.step, self.at, column);
        &self.cells[place]
    }
}

// The place of the cell of a column.
fn place_in(count: usize, step: usize, at: usize, column: usize) -> usize
    requires within { column < count }
    requires before { at < step }
    requires fits { count * step < 2 ^ 64 }
    ensures is { result ≡ at + column * step }
    ensures within { result < count * step }
{
    at + column * step
}
