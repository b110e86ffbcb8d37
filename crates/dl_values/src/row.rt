// A row, which contracts see as the list of its cells.
ghost use Rattle.std.specs.Prelude.{◌≡◌, IfOk, OnOk, OnErr, ◌++◌, ◌∷◌, []};

use crate::{Cell, NoMemory, copy_cell};
use std::alloc::Global;
use std::marker::Model;

/// The cells of one row, in the order of the columns.
#[derive(Debug, Drop)]
pub struct Row {
    cells: Vec<Cell>,
}

impl Model for Row {
    ghost use Rattle.std.specs.Prelude.{List};
    ghost use Rattle.dl_values.specs.declared.cell.Cell.{Cell};

    ghost Value = { List Cell };

    ghost view = { λ r. r.cells.items };
}

impl Row {
    /// A row without cells.
    pub fn new(alloc: Global) -> Row
        ensures { result ≡ [] }
    {
        Row {
            cells: Vec::new(alloc),
        }
    }

    /// A row without cells, with room for this many.
    pub fn with_room(alloc: Global, width: usize) -> Result<Row, NoMemory>
        ensures { IfOk result (λ r. r ≡ []) }
    {
        let cells = Vec::with_capacity(alloc, width)?;
        Ok(Row { cells })
    }

    /// Adds a cell at the end.
    pub fn push(&mut self, cell: Cell) -> Result<(), NoMemory>
        ensures ok { OnOk result (self.new ≡ self.old ++ cell ∷ []) }
        ensures err { OnErr result (self.new ≡ self.old) }
    {
        self.cells.push(cell)?;
        Ok(())
    }

    /// Takes all cells away, and keeps the room for the next ones.
    pub fn clear(&mut self)
        ensures { self.new ≡ [] }
    {
        self.cells.clear();
    }

    // Moves the cells to the end of a list, and keeps the room for the next ones.
    pub(crate) fn move_to(&mut self, list: &mut Vec<Cell>) -> Result<(), NoMemory>
        ensures ok { OnOk result (list.new.items ≡ list.old.items ++ self.old) }
        ensures emptied { OnOk result (self.new ≡ []) }
        ensures err { OnErr result (list.new.items ≡ list.old.items) }
        ensures kept { OnErr result (self.new ≡ self.old) }
    {
        list.append(&mut self.cells)?;
        Ok(())
    }

    /// The cells in their order.
    pub fn cells(&self) -> &[Cell]
        ensures { result.now ≡ self.now }
    {
        self.cells.as_slice()
    }

    /// A row of its own with these cells.
    pub fn from_cells(alloc: Global, cells: &[Cell]) -> Result<Row, NoMemory>
        ensures { IfOk result (λ r. r ≡ cells.now) }
    {
        let mut copies = Vec::with_capacity(alloc, cells.len())?;
        for cell in cells {
            copies.push(copy_cell(alloc, cell)?)?;
        }
        Ok(Row { cells: copies })
    }
}

/// An equal row of its own.
pub fn copy_row(alloc: Global, row: &Row) -> Result<Row, NoMemory>
    ensures { IfOk result (λ r. r ≡ row.now) }
{
    Row::from_cells(alloc, row.cells())
}
