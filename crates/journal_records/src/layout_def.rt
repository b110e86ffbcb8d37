// The layout of a table as a record tells it.
use crate::lists::{is_short_list, is_short_option, list, option, put_list, put_option};
use crate::part::Part;
use crate::piece::Piece;
use crate::read_fields::number32;
use crate::stop::Stop;
use crate::write_fields::put_number32;
use dl_values::{Name, NoMemory};
use sqlite_items::Items;
use std::alloc::Global;

/// How the rows of a table are spread, of which nothing else is known.
#[derive(Debug, Drop)]
pub struct LayoutDef {
    /// The column that partitions the table, if one does.
    pub column: Option<Name>,
    pub parts: Items<Part>,
    /// The columns that distribute the rows of a partition over its buckets.
    pub hash: Items<Name>,
    pub buckets: u32,
}

impl Piece for LayoutDef {
    ghost use Rattle.journal_records.specs.Spelling.{layout};
    ghost use Rattle.journal_records.specs.Fitting.{short_layout};
    ghost use Rattle.journal_records.specs.Reading.{layout_at};

    ghost spelled = { λ _. layout };

    ghost short = { short_layout };

    ghost reader = { λ _. layout_at };

    fn is_short(&self) -> bool {
        is_short_option(&self.column)
            && is_short_list(self.parts.as_slice())
            && is_short_list(self.hash.as_slice())
    }

    #[tactic(auto, unfolding(crate::specs::Spelling::layout))]
    fn put(&self, format: u8, out: &mut Vec<u8>) -> Result<(), NoMemory> {
        put_option(out, format, &self.column)?;
        put_list(out, format, self.parts.as_slice())?;
        put_list(out, format, self.hash.as_slice())?;
        put_number32(out, self.buckets)?;
        Ok(())
    }

    #[tactic(auto, unfolding(crate::specs::Reading::layout_at))]
    fn read(alloc: Global, format: u8, bytes: &[u8]) -> Result<(LayoutDef, &[u8]), Stop> {
        let (column, rest) = option(alloc, format, bytes)?;
        let (parts, rest) = list(alloc, format, rest)?;
        let (hash, rest) = list(alloc, format, rest)?;
        let (buckets, rest) = number32(rest)?;
        let layout = LayoutDef {
            column,
            parts,
            hash,
            buckets,
        };
        Ok((layout, rest))
    }
}
