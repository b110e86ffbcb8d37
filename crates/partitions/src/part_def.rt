// One partition of a table.
ghost use Rattle.std.specs.Prelude.{◌≡◌, ◌∷◌, ◌++◌, [], IfOk, OnErr, OnOk};
ghost use Rattle.partitions.specs.LayoutView as layouts;

use dl_values::{Cell, Name, NoMemory, copy_cell};
use sqlite_items::Items;
use std::alloc::Global;

/// A partition by its name and its range (Apache Doris documentation, "Data Partitioning").
#[derive(Debug, Drop)]
pub struct PartDef {
    pub name: Name,
    pub bounds: Bounds,
}

/// The range of a partition column. A missing cell is no bound on that side.
#[derive(Debug, Drop)]
pub enum Bounds {
    /// `LESS THAN`; None is MAXVALUE.
    Less(Option<Cell>),
    /// From the first cell, below the second.
    Between(Option<Cell>, Option<Cell>),
}

fn copy_bound(alloc: Global, bound: &Option<Cell>) -> Result<Option<Cell>, NoMemory>
    ensures { IfOk result (λ c. c ≡ bound.now) }
{
    match bound {
        None => Ok(None),
        Some(cell) => Ok(Some(copy_cell(alloc, cell)?)),
    }
}

fn copy_bounds(alloc: Global, bounds: &Bounds) -> Result<Bounds, NoMemory>
    ensures { IfOk result (λ b. b ≡ bounds.now) }
{
    match bounds {
        Bounds::Less(high) => Ok(Bounds::Less(copy_bound(alloc, high)?)),
        Bounds::Between(low, high) => {
            let low = copy_bound(alloc, low)?;
            Ok(Bounds::Between(low, copy_bound(alloc, high)?))
        }
    }
}

// An equal partition of its own.
pub fn copy_part(alloc: Global, part: &PartDef) -> Result<PartDef, NoMemory>
    ensures { IfOk result (λ p. p ≡ part.now) }
{
    let name = part.name.copy(alloc)?;
    let bounds = copy_bounds(alloc, &part.bounds)?;
    Ok(PartDef { name, bounds })
}

// Equal partitions of their own.
pub fn copy_parts(alloc: Global, parts: &[PartDef]) -> Result<Items<PartDef>, NoMemory>
    ensures { IfOk result (λ v. v ≡ parts.now) }
{
    let mut all = Items::new(alloc);
    for part in parts {
        all.push(copy_part(alloc, part)?)?;
    }
    Ok(all)
}

// One partition without ends.
pub fn whole_part(alloc: Global, name: Name) -> Result<Items<PartDef>, NoMemory>
    ensures { IfOk result (λ v. v ≡ layouts.whole_part name ∷ []) }
{
    let mut parts = Items::new(alloc);
    parts.push(PartDef {
        name,
        bounds: Bounds::Between(None, None),
    })?;
    Ok(parts)
}

// Adds a partition at the end.
pub fn push_part(parts: &mut Items<PartDef>, part: PartDef) -> Result<(), NoMemory>
    ensures ok { OnOk result (parts.new ≡ parts.old ++ part ∷ []) }
    ensures err { OnErr result (parts.new ≡ parts.old) }
{
    parts.push(part)?;
    Ok(())
}
