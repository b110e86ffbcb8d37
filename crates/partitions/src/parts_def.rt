// The partitions that a table is defined with.
ghost use Rattle.std.specs.Prelude.{◌≡◌, IfOk};
ghost use Rattle.partitions.specs.Ranges as ranges;

use crate::PartDef;
use crate::part_def::whole_part;
use dl_values::{Name, NoMemory};
use sqlite_items::Items;
use std::alloc::Global;

/// One partition for the whole table, by its name, or partitions by ranges of a column (Apache Doris documentation, "Data
/// Partitioning").
#[derive(Debug, Drop)]
pub enum PartsDef {
    Whole(Name),
    ByRange(Name, Items<PartDef>),
}

// The partition column and the partitions of a definition, as they are written.
pub fn split(alloc: Global, def: PartsDef) -> Result<(Option<Name>, Items<PartDef>), NoMemory>
    ensures column { IfOk result (λ p. p.0 ≡ ranges.column_of def) }
    ensures parts { IfOk result (λ p. p.1 ≡ ranges.written def) }
{
    match def {
        PartsDef::Whole(name) => Ok((None, whole_part(alloc, name)?)),
        PartsDef::ByRange(column, parts) => Ok((Some(column), parts)),
    }
}
