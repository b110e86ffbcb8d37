// The record of a table that was made.
use crate::layout_def::LayoutDef;
use crate::piece::Piece;
use crate::read_fields::name;
use crate::shape_def::ShapeDef;
use crate::short::is_short_text;
use crate::stop::Stop;
use crate::write_fields::put_text;
use dl_values::{Name, NoMemory};
use std::alloc::Global;

/// A table, with the database that it stands in.
#[derive(Debug, Drop)]
pub struct NewTable {
    pub db: Name,
    pub name: Name,
    pub shape: ShapeDef,
    pub layout: LayoutDef,
}

impl Piece for NewTable {
    ghost use Rattle.journal_records.specs.Spelling.{new_table};
    ghost use Rattle.journal_records.specs.Fitting.{short_table};
    ghost use Rattle.journal_records.specs.Reading.{new_table_at};

    ghost spelled = { new_table };

    ghost short = { short_table };

    ghost reader = { new_table_at };

    fn is_short(&self) -> bool {
        is_short_text(self.db.bytes())
            && is_short_text(self.name.bytes())
            && self.shape.is_short()
            && self.layout.is_short()
    }

    #[tactic(auto, unfolding(crate::specs::Spelling::new_table))]
    fn put(&self, format: u8, out: &mut Vec<u8>) -> Result<(), NoMemory> {
        put_text(out, self.db.bytes())?;
        put_text(out, self.name.bytes())?;
        self.shape.put(format, out)?;
        self.layout.put(format, out)?;
        Ok(())
    }

    #[tactic(auto, unfolding(crate::specs::Reading::new_table_at))]
    fn read(alloc: Global, format: u8, bytes: &[u8]) -> Result<(NewTable, &[u8]), Stop> {
        let (db, rest) = name(alloc, bytes)?;
        let (name, rest) = name(alloc, rest)?;
        let (shape, rest) = ShapeDef::read(alloc, format, rest)?;
        let (layout, rest) = LayoutDef::read(alloc, format, rest)?;
        let table = NewTable {
            db,
            name,
            shape,
            layout,
        };
        Ok((table, rest))
    }
}
