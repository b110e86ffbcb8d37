// Partitions of a layout.
use crate::piece::Piece;
use crate::read_fields::{bound, name};
use crate::short::{is_short_bound, is_short_text};
use crate::stop::Stop;
use crate::write_fields::{put_bound, put_text};
use dl_values::{Cell, Name, NoMemory};
use std::alloc::Global;

/// A partition by its name and its range. A missing end is no bound on that side.
#[derive(Debug, Drop)]
pub struct Part {
    pub name: Name,
    pub low: Option<Cell>,
    pub high: Option<Cell>,
}

impl Piece for Part {
    ghost use Rattle.journal_records.specs.Spelling.{part};
    ghost use Rattle.journal_records.specs.Fitting.{short_range};
    ghost use Rattle.journal_records.specs.Reading.{part_at};

    ghost spelled = { λ _. part };

    ghost short = { short_range };

    ghost reader = { λ _. part_at };

    fn is_short(&self) -> bool {
        is_short_text(self.name.bytes()) && is_short_bound(&self.low) && is_short_bound(&self.high)
    }

    #[tactic(auto, unfolding(crate::specs::Spelling::part))]
    fn put(&self, _format: u8, out: &mut Vec<u8>) -> Result<(), NoMemory> {
        put_text(out, self.name.bytes())?;
        put_bound(out, &self.low)?;
        put_bound(out, &self.high)?;
        Ok(())
    }

    #[tactic(auto, unfolding(crate::specs::Reading::part_at))]
    fn read(alloc: Global, _format: u8, bytes: &[u8]) -> Result<(Part, &[u8]), Stop> {
        let (name, rest) = name(alloc, bytes)?;
        let (low, rest) = bound(alloc, rest)?;
        let (high, rest) = bound(alloc, rest)?;
        Ok((Part { name, low, high }, rest))
    }
}
