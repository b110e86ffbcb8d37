// The rows of each tablet, folded.
ghost use Rattle.std.specs.Prelude.{IfOk};
ghost use Rattle.std.specs.List.{AllByRecursion};
ghost use Rattle.schema_models.specs.RowRules.{IsOfShape};
ghost use Rattle.load_build.specs.Folding.{AreFolds, AreFoldsOfParts, IsFold};
ghost use Rattle.load_build.specs.PartLists.{AreShaped};

use crate::part_rows::PartRows;
use dl_values::{NoMemory, Rows};
use rowsets::Rowset;
use schema_models::Shape;
use shadow_writes::TabletRows;
use sqlite_items::Items;
use std::alloc::Global;

// The fold of the rows of one tablet.
fn tablet_set(
    alloc: Global,
    base: &Shape,
    part: u64,
    bucket: u64,
    rows: Rows,
) -> Result<TabletRows, NoMemory>
    requires { AllByRecursion (IsOfShape base.now) rows }
    ensures { IfOk result (IsFold base.now part bucket rows) }
{
    let rows = Rowset::build(alloc, base, rows)?;
    Ok(TabletRows { part, bucket, rows })
}

// The fold of each list of a partition, which are of its buckets from the first on.
fn part_sets(alloc: Global, base: &Shape, rows: PartRows) -> Result<Items<TabletRows>, NoMemory>
    requires { AllByRecursion (AllByRecursion (IsOfShape base.now)) rows.lists }
    ensures { IfOk result (AreFolds base.now rows) }
{
    let part = rows.part();
    let mut sets = Items::new(alloc);
    for list in rows.into_lists() {
        let set = tablet_set(alloc, base, part, sets.len() as u64, list)?;
        sets.push(set)?;
    }
    Ok(sets)
}

// The folds of all partitions.
pub fn folds(
    alloc: Global,
    base: &Shape,
    parts: Vec<PartRows>,
) -> Result<Items<TabletRows>, NoMemory>
    requires { AreShaped base.now parts.items }
    ensures { IfOk result (AreFoldsOfParts base.now parts.items) }
{
    let mut sets = Items::new(alloc);
    for rows in parts {
        let more = part_sets(alloc, base, rows)?;
        sets.append(more)?;
    }
    Ok(sets)
}
