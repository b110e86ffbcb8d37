// The row that is being made of rows of one key, which contracts see as the list of its cells.
ghost use Rattle.std.specs.Prelude.{◌≡◌, ◌++◌, ◌∷◌, [], OnOk};
ghost use Rattle.schema_models.specs.Folds.{merged_row};

use crate::runs::{begin, end, merge_into};
use dl_values::{Cell, NoMemory, Row, Rows};
use schema_models::ColumnDef;
use std::alloc::Global;
use std::marker::Model;

// A row where it stands, or, once another is merged into it, cells of its own.
#[derive(Drop)]
pub struct Present<'a> {
    stored: &'a [Cell],
    is_stored: bool,
    made: Vec<Cell>,
}

impl<'a> Model for Present<'a> {
    ghost use Rattle.std.specs.Prelude.{List, if◌then◌else◌};
    ghost use Rattle.dl_values.specs.declared.cell.Cell.{Cell};

    ghost Value = { List Cell };

    ghost view = { λ p. if p.is_stored then p.stored.now else p.made.items };
}

impl<'a> Present<'a> {
    pub fn new(alloc: Global, row: &'a [Cell]) -> Present<'a>
        ensures { result ≡ row.now }
    {
        Present {
            stored: row,
            is_stored: true,
            made: Vec::new(alloc),
        }
    }

    // Goes on with another row.
    pub fn begin(&mut self, row: &'a [Cell])
        ensures { self.new ≡ row.now }
    {
        self.stored = row;
        self.is_stored = true;
    }

    // Merges a newer row into it.
    pub fn merge(
        &mut self,
        alloc: Global,
        columns: &[ColumnDef],
        new: &[Cell],
    ) -> Result<(), NoMemory>
        ensures { OnOk result (self.new ≡ merged_row columns.now self.old new.now) }
    {
        if self.is_stored {
            begin(alloc, &mut self.made, self.stored)?;
            self.is_stored = false;
            merge_into(alloc, columns, &mut self.made, new)
        } else {
            merge_into(alloc, columns, &mut self.made, new)
        }
    }

    // Puts it at the end of the rows.
    pub fn end(&mut self, alloc: Global, out: &mut Rows, room: &mut Row) -> Result<(), NoMemory>
        requires { room.old ≡ [] }
        ensures added { OnOk result (out.new ≡ out.old ++ self.old ∷ []) }
        ensures emptied { OnOk result (room.new ≡ []) }
    {
        if self.is_stored {
            out.push_copy(alloc, self.stored)
        } else {
            end(out, room, &mut self.made)
        }
    }
}
