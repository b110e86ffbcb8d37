// What a job changes.
use crate::choices::after_tag;
use crate::piece::Piece;
use crate::rollup_def::RollupDef;
use crate::schema_def::SchemaDef;
use crate::stop::Stop;
use dl_values::NoMemory;
use std::alloc::Global;

/// What a job changes at its table.
#[derive(Debug, Drop)]
pub enum Change {
    Rollup(RollupDef),
    Schema(SchemaDef),
}

impl Piece for Change {
    ghost use Rattle.journal_records.specs.Spelling.{change};
    ghost use Rattle.journal_records.specs.Fitting.{short_change};
    ghost use Rattle.journal_records.specs.Reading.{change_at};

    ghost spelled = { change };

    ghost short = { short_change };

    ghost reader = { change_at };

    fn is_short(&self) -> bool {
        match self {
            Change::Rollup(rollup) => rollup.is_short(),
            Change::Schema(schema) => schema.is_short(),
        }
    }

    fn put(&self, format: u8, out: &mut Vec<u8>) -> Result<(), NoMemory> {
        match self {
            Change::Rollup(rollup) => {
                out.push(0)?;
                rollup.put(format, out)?;
            }
            Change::Schema(schema) => {
                out.push(1)?;
                schema.put(format, out)?;
            }
        }
        Ok(())
    }

    #[tactic(auto, unfolding(crate::specs::Reading::change_at))]
    fn read(alloc: Global, format: u8, bytes: &[u8]) -> Result<(Change, &[u8]), Stop> {
        if let Some(rest) = after_tag(bytes, 0) {
            let (rollup, rest) = RollupDef::read(alloc, format, rest)?;
            return Ok((Change::Rollup(rollup), rest));
        }
        if let Some(rest) = after_tag(bytes, 1) {
            let (schema, rest) = SchemaDef::read(alloc, format, rest)?;
            return Ok((Change::Schema(schema), rest));
        }
        Err(Stop::Left(bytes.len()))
    }
}
