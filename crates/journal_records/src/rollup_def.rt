// The rollup that a job makes.
use crate::lists::{is_short_list, list, put_list};
use crate::piece::Piece;
use crate::read_fields::name;
use crate::short::is_short_text;
use crate::stop::Stop;
use crate::write_fields::put_text;
use dl_values::{Name, NoMemory};
use sqlite_items::Items;
use std::alloc::Global;

/// A rollup by its name and its columns of the base.
#[derive(Debug, Drop)]
pub struct RollupDef {
    pub name: Name,
    pub columns: Items<Name>,
}

impl Piece for RollupDef {
    ghost use Rattle.journal_records.specs.Spelling.{rollup};
    ghost use Rattle.journal_records.specs.Fitting.{short_rollup};
    ghost use Rattle.journal_records.specs.Reading.{rollup_at};

    ghost spelled = { λ _. rollup };

    ghost short = { short_rollup };

    ghost reader = { λ _. rollup_at };

    fn is_short(&self) -> bool {
        is_short_text(self.name.bytes()) && is_short_list(self.columns.as_slice())
    }

    #[tactic(auto, unfolding(crate::specs::Spelling::rollup))]
    fn put(&self, format: u8, out: &mut Vec<u8>) -> Result<(), NoMemory> {
        put_text(out, self.name.bytes())?;
        put_list(out, format, self.columns.as_slice())?;
        Ok(())
    }

    #[tactic(auto, unfolding(crate::specs::Reading::rollup_at))]
    fn read(alloc: Global, format: u8, bytes: &[u8]) -> Result<(RollupDef, &[u8]), Stop> {
        let (name, rest) = name(alloc, bytes)?;
        let (columns, rest) = list(alloc, format, rest)?;
        Ok((RollupDef { name, columns }, rest))
    }
}
