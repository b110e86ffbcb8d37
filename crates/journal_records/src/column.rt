// Columns of a shape.
use crate::choices::flag;
use crate::piece::Piece;
use crate::read_fields::{bound, name};
use crate::short::{is_short_bound, is_short_text};
use crate::stop::Stop;
use crate::words::{column_type, put_role, put_type, role};
use crate::write_fields::{put_bound, put_flag, put_text};
use dl_values::NoMemory;
use schema_models::ColumnDef;
use std::alloc::Global;

impl Piece for ColumnDef {
    ghost use Rattle.journal_records.specs.Spelling.{column};
    ghost use Rattle.journal_records.specs.Fitting.{short_column};
    ghost use Rattle.journal_records.specs.Reading.{column_at};

    ghost spelled = { column };

    ghost short = { short_column };

    ghost reader = { column_at };

    fn is_short(&self) -> bool {
        is_short_text(self.name.bytes()) && is_short_bound(&self.default)
    }

    #[tactic(auto, unfolding(crate::specs::Spelling::column))]
    fn put(&self, _format: u8, out: &mut Vec<u8>) -> Result<(), NoMemory> {
        put_text(out, self.name.bytes())?;
        put_type(out, self.kind)?;
        put_flag(out, self.nullable)?;
        put_role(out, self.role)?;
        put_bound(out, &self.default)?;
        Ok(())
    }

    #[tactic(auto, unfolding(crate::specs::Reading::column_at))]
    fn read(alloc: Global, _format: u8, bytes: &[u8]) -> Result<(ColumnDef, &[u8]), Stop> {
        let (name, rest) = name(alloc, bytes)?;
        let (kind, rest) = column_type(rest)?;
        let (nullable, rest) = flag(rest)?;
        let (role, rest) = role(rest)?;
        let (default, rest) = bound(alloc, rest)?;
        let column = ColumnDef {
            name,
            kind,
            nullable,
            role,
            default,
        };
        Ok((column, rest))
    }
}
