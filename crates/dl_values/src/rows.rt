// Rows, which contracts see as the list of their lists of cells. They stand in one list of cells, one after the other.
ghost use Rattle.std.specs.Prelude.{◌≡◌, ◌<◌, ◌++◌, [], length, take, slice_index_or, OnOk, OnErr};
ghost use Rattle.dl_values.specs.Cuts.{cut, start_of, IsCut};

use crate::{Cell, NoMemory, Row, copy_cell};
use std::alloc::Global;
use std::marker::Model;

/// Rows in their order, of any widths.
#[derive(Debug, Drop)]
pub struct Rows {
    ends: Vec<usize>,
    cells: Vec<Cell>,
}

impl Model for Rows {
    ghost use Rattle.std.specs.Prelude.{List};
    ghost use Rattle.dl_values.specs.declared.cell.Cell.{Cell};

    ghost Value = { List (List Cell) };

    ghost use Rattle.dl_values.specs.Cuts.{cut, IsCut};

    ghost view = { λ r. cut 0 r.ends.items r.cells.items };

    ghost invariant = { λ r. IsCut 0 r.ends.items r.cells.items };
}

impl Rows {
    ghost use Rattle.std.specs.Prelude.{◌≡◌, ◌<◌, ◌==◌, OnOk, OnErr, ◌++◌, ◌∷◌, [], length, slice_index_or};

    /// No rows.
    pub fn new(alloc: Global) -> Rows
        ensures { result ≡ [] }
    {
        Rows {
            ends: Vec::new(alloc),
            cells: Vec::new(alloc),
        }
    }

    /// Moves the cells of a row to the end, as a row. The row that is left has no cells, and keeps its room for the next.
    /// After want of memory both stand as before.
    #[inline(always)]
    pub fn append(&mut self, row: &mut Row) -> Result<(), NoMemory>
        ensures ok { OnOk result (self.new ≡ self.old ++ row.old ∷ []) }
        ensures emptied { OnOk result (row.new ≡ []) }
        ensures err { OnErr result (self.new ≡ self.old) }
        ensures kept { OnErr result (row.new ≡ row.old) }
    {
        let end = self.cells.as_slice().len() + row.cells().len();
        self.ends.push(end)?;
        match row.move_to(&mut self.cells) {
            Ok(()) => Ok(()),
            Err(e) => {
                let _end = self.ends.pop();
                Err(e)
            }
        }
    }

    /// Adds a row at the end.
    pub fn push(&mut self, row: Row) -> Result<(), NoMemory>
        ensures ok { OnOk result (self.new ≡ self.old ++ row ∷ []) }
        ensures err { OnErr result (self.new ≡ self.old) }
    {
        let mut row = row;
        self.append(&mut row)
    }

    /// Adds equal cells of their own at the end, as a row. After want of memory the rows stand as before.
    #[inline(always)]
    pub fn push_copy(&mut self, alloc: Global, row: &[Cell]) -> Result<(), NoMemory>
        ensures ok { OnOk result (self.new ≡ self.old ++ row.now ∷ []) }
        ensures err { OnErr result (self.new ≡ self.old) }
    {
        let start = self.cells.as_slice().len();
        self.ends.push(start + row.len())?;
        if let Err(e) = copy_onto(alloc, &mut self.cells, row) {
            let _end = self.ends.pop();
            self.cells.truncate(start);
            return Err(e);
        }
        Ok(())
    }

    /// How many rows there are.
    pub fn len(&self) -> usize
        ensures { result ≡ length self.now }
    {
        self.ends.as_slice().len()
    }

    /// Whether there is no row.
    pub fn is_empty(&self) -> bool
        ensures { result ≡ (length self.now == 0) }
    {
        self.len() == 0
    }

    /// The cells of the row at a place.
    pub fn row(&self, place: usize) -> &[Cell]
        requires { place < length self.now }
        ensures { result.now ≡ slice_index_or self.now place [] }
    {
        row_at(self.ends.as_slice(), self.cells.as_slice(), place)
    }
}

// Adds equal cells of their own at the end. After want of memory some of them may have been added.
fn copy_onto(alloc: Global, list: &mut Vec<Cell>, cells: &[Cell]) -> Result<(), NoMemory>
    ensures ok { OnOk result (list.new.items ≡ list.old.items ++ cells.now) }
    ensures kept { OnErr result (take (length list.old.items) list.new.items ≡ list.old.items) }
{
    for cell in cells {
        match cell {
            // The most frequent case makes no call.
            Cell::Int(value) => list.push(Cell::Int(*value))?,
            cell => list.push(copy_cell(alloc, cell)?)?,
        }
    }
    Ok(())
}

// Where the row at a place starts.
fn start_at(ends: &[usize], place: usize) -> usize
    requires { place < length ends.now }
    ensures { result ≡ start_of 0 ends.now place }
{
    if place == 0 {
        return 0;
    }
    ends[place - 1]
}

// The row at a place.
fn row_at<'a>(ends: &[usize], cells: &'a [Cell], place: usize) -> &'a [Cell]
    requires cut { IsCut 0 ends.now cells.now }
    requires within { place < length ends.now }
    ensures { result.now ≡ slice_index_or (cut 0 ends.now cells.now) place [] }
{
    let (front, _behind) = cells.split_at(ends[place]);
    let (_before, row) = front.split_at(start_at(ends, place));
    row
}
