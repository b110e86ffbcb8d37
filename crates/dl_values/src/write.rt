// Writing a cell's text.
ghost use Rattle.std.specs.Prelude.{◌≡◌, OnOk, ◌++◌};
ghost use Rattle.dl_values.specs.Write.{cell_text};

use crate::day::write_day;
use crate::{Cell, NoMemory};
use itoa::Buffer;

/// Adds the text of a cell at the end. After want of memory a front of the text may have been added.
#[inline(always)]
pub fn write_cell(cell: &Cell, out: &mut Vec<u8>) -> Result<(), NoMemory>
    ensures { OnOk result (out.new.items ≡ out.old.items ++ cell_text cell.now) }
{
    match cell {
        Cell::Null => out.extend_from_slice(b"\\N")?,
        Cell::Int(value) => {
            let mut digits = Buffer::new();
            out.extend_from_slice(digits.format(*value).as_bytes())?;
        }
        Cell::Day(day) => write_day(*day, out)?,
        Cell::Text(text) => out.extend_from_slice(text.bytes())?,
    }
    Ok(())
}
