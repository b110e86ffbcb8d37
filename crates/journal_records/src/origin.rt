// Where the cells of a column come from that a schema change makes.
use crate::choices::after_tag;
use crate::piece::Piece;
use crate::read_fields::{cell, name};
use crate::short::{is_short_cell, is_short_text};
use crate::stop::Stop;
use crate::write_fields::{put_cell, put_text};
use dl_values::{Cell, Name, NoMemory};
use std::alloc::Global;

/// Where the cells of a target column come from.
#[derive(Debug, Drop)]
pub enum Origin {
    /// From the column of that name.
    From(Name),
    /// The same cell in each row.
    Constant(Cell),
}

impl Piece for Origin {
    ghost use Rattle.journal_records.specs.Spelling.{origin};
    ghost use Rattle.journal_records.specs.Fitting.{short_origin};
    ghost use Rattle.journal_records.specs.Reading.{origin_at};

    ghost spelled = { λ _. origin };

    ghost short = { short_origin };

    ghost reader = { λ _. origin_at };

    fn is_short(&self) -> bool {
        match self {
            Origin::From(column) => is_short_text(column.bytes()),
            Origin::Constant(cell) => is_short_cell(cell),
        }
    }

    fn put(&self, _format: u8, out: &mut Vec<u8>) -> Result<(), NoMemory> {
        match self {
            Origin::From(column) => {
                out.push(0)?;
                put_text(out, column.bytes())?;
            }
            Origin::Constant(cell) => {
                out.push(1)?;
                put_cell(out, cell)?;
            }
        }
        Ok(())
    }

    #[tactic(auto, unfolding(crate::specs::Reading::origin_at))]
    fn read(alloc: Global, _format: u8, bytes: &[u8]) -> Result<(Origin, &[u8]), Stop> {
        if let Some(rest) = after_tag(bytes, 0) {
            let (column, rest) = name(alloc, rest)?;
            return Ok((Origin::From(column), rest));
        }
        if let Some(rest) = after_tag(bytes, 1) {
            let (cell, rest) = cell(alloc, rest)?;
            return Ok((Origin::Constant(cell), rest));
        }
        Err(Stop::Left(bytes.len()))
    }
}
