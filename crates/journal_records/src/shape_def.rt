// The shape of a table as a record tells it.
use crate::lists::{is_short_list, list, put_list};
use crate::piece::Piece;
use crate::stop::Stop;
use crate::words::{model, put_model};
use dl_values::NoMemory;
use schema_models::{ColumnDef, Model};
use sqlite_items::Items;
use std::alloc::Global;

/// A model and columns, of which nothing else is known.
#[derive(Debug, Drop)]
pub struct ShapeDef {
    pub model: Model,
    pub columns: Items<ColumnDef>,
}

impl Piece for ShapeDef {
    ghost use Rattle.journal_records.specs.Spelling.{shape};
    ghost use Rattle.journal_records.specs.Fitting.{short_shape};
    ghost use Rattle.journal_records.specs.Reading.{shape_at};

    ghost spelled = { shape };

    ghost short = { short_shape };

    ghost reader = { shape_at };

    fn is_short(&self) -> bool {
        is_short_list(self.columns.as_slice())
    }

    #[tactic(auto, unfolding(crate::specs::Spelling::shape))]
    fn put(&self, format: u8, out: &mut Vec<u8>) -> Result<(), NoMemory> {
        put_model(out, self.model)?;
        put_list(out, format, self.columns.as_slice())?;
        Ok(())
    }

    #[tactic(auto, unfolding(crate::specs::Reading::shape_at))]
    fn read(alloc: Global, format: u8, bytes: &[u8]) -> Result<(ShapeDef, &[u8]), Stop> {
        let (model, rest) = model(bytes)?;
        let (columns, rest) = list(alloc, format, rest)?;
        Ok((ShapeDef { model, columns }, rest))
    }
}
