// The schema that a job gives its table.
use crate::lists::{is_short_list, list, put_list};
use crate::origin::Origin;
use crate::piece::Piece;
use crate::shape_def::ShapeDef;
use crate::stop::Stop;
use dl_values::NoMemory;
use sqlite_items::Items;
use std::alloc::Global;

/// A shape, with the origins of its columns.
#[derive(Debug, Drop)]
pub struct SchemaDef {
    pub shape: ShapeDef,
    pub origins: Items<Origin>,
}

impl Piece for SchemaDef {
    ghost use Rattle.journal_records.specs.Spelling.{schema};
    ghost use Rattle.journal_records.specs.Fitting.{short_schema};
    ghost use Rattle.journal_records.specs.Reading.{schema_at};

    ghost spelled = { schema };

    ghost short = { short_schema };

    ghost reader = { schema_at };

    fn is_short(&self) -> bool {
        self.shape.is_short() && is_short_list(self.origins.as_slice())
    }

    #[tactic(auto, unfolding(crate::specs::Spelling::schema))]
    fn put(&self, format: u8, out: &mut Vec<u8>) -> Result<(), NoMemory> {
        self.shape.put(format, out)?;
        put_list(out, format, self.origins.as_slice())?;
        Ok(())
    }

    #[tactic(auto, unfolding(crate::specs::Reading::schema_at))]
    fn read(alloc: Global, format: u8, bytes: &[u8]) -> Result<(SchemaDef, &[u8]), Stop> {
        let (shape, rest) = ShapeDef::read(alloc, format, bytes)?;
        let (origins, rest) = list(alloc, format, rest)?;
        Ok((SchemaDef { shape, origins }, rest))
    }
}
