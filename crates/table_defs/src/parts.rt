// The partitions and buckets of a definition.
ghost use Rattle.std.specs.Prelude.{◌≡◌, IfOk, map};
ghost use Rattle.std.specs.Option.{option_map};
ghost use Rattle.partitions.specs.Columns.{type_under};
ghost use Rattle.table_defs.specs.Literals.{end_cell};
ghost use Rattle.table_defs.specs.Parts as parts;

use crate::literals::end_cell;
use dl_values::{Cell, ColType, Name, NoMemory};
use partitions::{Bounds, PartDef, PartsDef};
use schema_models::ColumnDef;
use sql_text::{Literal, Part, PartBounds, Ranges};
use sqlite_items::Items;
use std::alloc::Global;

fn high_of(
    alloc: Global,
    kind: Option<ColType>,
    high: &Option<Literal>,
) -> Result<Option<Cell>, NoMemory>
    ensures { IfOk result (λ c. c ≡ option_map (end_cell kind) high.now) }
{
    match high {
        None => Ok(None),
        Some(literal) => Ok(Some(end_cell(alloc, kind, literal)?)),
    }
}

fn bounds_of(alloc: Global, kind: Option<ColType>, bounds: &PartBounds) -> Result<Bounds, NoMemory>
    ensures { IfOk result (λ b. b ≡ parts.bounds_of kind bounds.now) }
{
    match bounds {
        PartBounds::Less(high) => Ok(Bounds::Less(high_of(alloc, kind, high)?)),
        PartBounds::Between(low, high) => {
            let low = end_cell(alloc, kind, low)?;
            let high = end_cell(alloc, kind, high)?;
            Ok(Bounds::Between(Some(low), Some(high)))
        }
    }
}

/// A partition as a statement writes it, its ends read by the type of the partition column. A literal that cannot be read is
/// null, which no layout takes as an end, so that it is refused in its place.
pub fn part_of(alloc: Global, kind: Option<ColType>, part: &Part) -> Result<PartDef, NoMemory>
    ensures { IfOk result (λ p. p ≡ parts.part_of kind part.now) }
{
    let name = part.name.copy(alloc)?;
    let bounds = bounds_of(alloc, kind, &part.bounds)?;
    Ok(PartDef { name, bounds })
}

fn all_parts(
    alloc: Global,
    kind: Option<ColType>,
    list: &[Part],
) -> Result<Items<PartDef>, NoMemory>
    ensures { IfOk result (λ v. v ≡ map (parts.part_of kind) list.now) }
{
    let mut all = Items::new(alloc);
    for part in list {
        all.push(part_of(alloc, kind, part)?)?;
    }
    Ok(all)
}

fn type_under(columns: &[ColumnDef], name: &Name) -> Option<ColType>
    ensures { result ≡ type_under columns.now name.now }
{
    for column in columns {
        if column.name == *name {
            return Some(column.kind);
        }
    }
    None
}

// The partitions of a definition, for rows of these columns.
pub fn parts_of(
    alloc: Global,
    table: &Name,
    columns: &[ColumnDef],
    ranges: &Option<Ranges>,
) -> Result<PartsDef, NoMemory>
    ensures { IfOk result (λ p. p ≡ parts.parts_of table.now columns.now ranges.now) }
{
    match ranges {
        None => Ok(PartsDef::Whole(table.copy(alloc)?)),
        Some(ranges) => {
            let kind = type_under(columns, &ranges.column);
            let column = ranges.column.copy(alloc)?;
            let parts = all_parts(alloc, kind, ranges.parts.as_slice())?;
            Ok(PartsDef::ByRange(column, parts))
        }
    }
}

// How many buckets a definition asks for.
pub fn buckets_of(buckets: Option<u64>) -> u32
    ensures { result ≡ parts.buckets_of buckets }
{
    match buckets {
        None => 10,
        Some(buckets) => buckets.min(4294967295) as u32,
    }
}
