// The cells of one group.
ghost use Rattle.std.specs.Prelude.{◌≡◌, IfOk, OnOk};
ghost use Rattle.merge_read.specs.Merged.{row_of};
ghost use Rattle.select_eval.specs.Outputs as outputs;

use crate::output::Output;
use dl_values::{Cell, NoMemory, Row};
use merge_read::MergedCell;
use std::alloc::Global;
use std::marker::Model;

// A cell for each member of the select list, of the rows that are in the group so far.
#[derive(Debug, Drop)]
pub struct Group {
    cells: Vec<Cell>,
}

impl Model for Group {
    ghost use Rattle.std.specs.Prelude.{List};
    ghost use Rattle.dl_values.specs.declared.cell.Cell.{Cell};

    ghost Value = { List Cell };

    ghost view = { λ g. g.cells.items };
}

impl Group {
    // The group of a key that has no row yet.
    pub fn begin(alloc: Global, list: &[Output], key: &[Cell]) -> Result<Group, NoMemory>
        ensures { IfOk result (λ g. g ≡ outputs.begun list.now key.now) }
    {
        let mut cells = Vec::with_capacity(alloc, list.len())?;
        for output in list {
            cells.push(output.fresh(alloc, key)?)?;
        }
        Ok(Group { cells })
    }

    // Puts a row into it.
    #[inline(always)]
    pub fn add(
        &mut self,
        alloc: Global,
        list: &[Output],
        row: &[MergedCell],
    ) -> Result<(), NoMemory>
        ensures { OnOk result (self.new ≡ outputs.grown list.now self.old (row_of row.now)) }
    {
        for i in 0..self.cells.len().min(list.len()) {
            list[i].add(alloc, &mut self.cells[i], row)?;
        }
        Ok(())
    }

    // Its cells as a row.
    pub fn into_row(self, alloc: Global) -> Result<Row, NoMemory>
        ensures { IfOk result (λ r. r ≡ self) }
    {
        let mut row = Row::with_room(alloc, self.cells.len())?;
        for cell in self.cells {
            row.push(cell)?;
        }
        Ok(row)
    }
}
