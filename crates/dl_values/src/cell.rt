// One value of a row.
ghost use Rattle.std.specs.Prelude.{◌≡◌, IfOk};

use crate::{NoMemory, Text};
use std::alloc::Global;

/// A cell: null, an integer of any width, a day as `year * 10000 + month * 100 + day`, or a text.
#[derive(Debug, Drop)]
pub enum Cell {
    Null,
    Int(i64),
    Day(u32),
    Text(Text),
}

/// An equal cell of its own.
pub fn copy_cell(alloc: Global, cell: &Cell) -> Result<Cell, NoMemory>
    ensures { IfOk result (λ c. c ≡ cell.now) }
{
    match cell {
        Cell::Null => Ok(Cell::Null),
        Cell::Int(value) => Ok(Cell::Int(*value)),
        Cell::Day(day) => Ok(Cell::Day(*day)),
        Cell::Text(text) => Ok(Cell::Text(text.copy(alloc)?)),
    }
}
