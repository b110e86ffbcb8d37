// Storing the rows of loads in the tablets of a table, and sharing what is stored.
ghost use Rattle.std.specs.Prelude.{◌≡◌, ◌++◌, IfOk, OnOk, OnErr, Some, map, replicate};
ghost use Rattle.std.specs.List.{flat_map};
ghost use Rattle.front_defs.specs.May.{seen_set};
ghost use Rattle.front_defs.specs.Stands.{lists_for};
ghost use Rattle.front_defs.specs.Stored.{rows_in};
ghost use Rattle.partitions.specs.Places.{Place, buckets_at};
ghost use Rattle.rowsets.specs.RowsetView.{rowset_rows};
ghost use Rattle.shadow_writes.specs.declared.built.TabletRows.{TabletRows};
ghost use Rattle.front_laws.specs.Tidy.{Each};
ghost use Rattle.front_state.specs.Ready.{AreRaised, AscendByPlace, CanTake, HasLists, IsNext, seen_list};
ghost use Rattle.front_state.specs.Tablets.{HasSets, base_lists, empty_tablets, table_seen};
ghost use Rattle.front_state.specs.declared.ready.ReadyList.{ReadyList};

use crate::ready::{ReadyList, ascend, ready_lists};
use crate::stored_table::StoredTable;
use dl_values::NoMemory;
use partitions::Layout;
use rowsets::Rowset;
use schema_models::Shape;
use shadow_writes::TabletRows;
use sqlite_items::Items;
use std::alloc::Global;
use std::sync::Arc;
use tablets::TabletSet;

// Version 1 of so many partitions.
fn first_versions(alloc: Global, parts: usize) -> Result<Vec<u64>, NoMemory>
    ensures { IfOk result (λ v. v.items ≡ replicate parts 1) }
{
    let mut versions = Vec::new(alloc);
    versions.resize(parts, 1)?;
    Ok(versions)
}

// A table of which nothing is stored: the tablets of its base are empty.
pub fn nothing_stored(
    alloc: Global,
    table: u64,
    shape: &Shape,
    layout: &Layout,
) -> Result<StoredTable, NoMemory>
    ensures seen { IfOk result (λ k. table_seen k ≡ empty_tablets table layout.now) }
    ensures numbered { IfOk result (λ k. k.table ≡ table) }
{
    let parts = layout.parts().len();
    let versions = first_versions(alloc, parts)?;
    let shape = shape.copy(alloc)?;
    let set = TabletSet::new(alloc, shape, parts as u64, layout.buckets() as u64)?;
    Ok(StoredTable {
        table,
        versions,
        set,
    })
}

// Raises the version of each partition that has a list, once.
fn raise(versions: &mut [u64], lists: &[ReadyList])
    requires { Each (IsNext versions.old) lists.now }
    ensures { AreRaised lists.now versions.old versions.new }
{
    for list in lists {
        versions[list.part as usize] = list.version;
    }
}

// Puts each list into its tablet. Nothing of it can fail.
fn put_all(set: &mut TabletSet, lists: Vec<ReadyList>)
    requires takes { Each (CanTake set.old) lists.items }
    requires ascend { AscendByPlace (map (λ (l : ReadyList). seen_list l) lists.items) }
    ensures { HasLists lists.items set.old set.new }
{
    for list in lists {
        set.put(0, list.part, list.bucket, list.version, list.rows);
    }
}

// Adds the rows of a load to the tablets of the base, with the next versions of their partitions. What the tablets cannot
// take is tested before the first put, and none of it happens after a legal history.
pub fn add_sets(
    alloc: Global,
    stored: &mut StoredTable,
    sets: &[TabletRows],
) -> Result<(), NoMemory>
    ensures ok { OnOk result (HasSets (map (λ (s : TabletRows). seen_set s) sets.now) (table_seen stored.old) (table_seen stored.new)) }
    ensures err { OnErr result (table_seen stored.new ≡ table_seen stored.old) }
    ensures table { stored.new.table ≡ stored.old.table }
{
    if !ascend(sets) {
        return Err(NoMemory);
    }
    let lists = ready_lists(alloc, &mut stored.set, stored.versions.as_slice(), sets)?;
    raise(stored.versions.as_mut_slice(), lists.as_slice());
    put_all(&mut stored.set, lists);
    Ok(())
}

// The rowsets of a tablet of the base, each shared and not copied.
fn tablet_lists(
    alloc: Global,
    stored: &StoredTable,
    part: u64,
    bucket: u64,
) -> Result<Items<Arc<Rowset>>, NoMemory>
    ensures { IfOk result (λ all. map (λ l. rowset_rows l.value) all ≡ rows_in (lists_for 0 (record { part = part; bucket = bucket }) (Some (table_seen stored.now)))) }
{
    let version = match stored.versions.get(part as usize) {
        None => return Err(NoMemory),
        Some(version) => *version,
    };
    let next = match version.checked_add(1) {
        None => return Err(NoMemory),
        Some(next) => next,
    };
    // No list has a version that is not visible.
    if !stored.set.has(0, part, bucket) || !stored.set.is_past(0, part, bucket, next) {
        return Err(NoMemory);
    }
    stored.set.snapshot(alloc, 0, part, bucket, version)
}

// Adds those of a partition.
fn add_part(
    alloc: Global,
    stored: &StoredTable,
    part: u64,
    buckets: u64,
    all: &mut Items<Arc<Rowset>>,
) -> Result<(), NoMemory>
    ensures { OnOk result (map (λ l. rowset_rows l.value) all.new ≡ map (λ l. rowset_rows l.value) all.old ++ flat_map (λ (w : Place). rows_in (lists_for 0 w (Some (table_seen stored.now)))) (buckets_at buckets part)) }
{
    for bucket in 0..buckets {
        all.append(tablet_lists(alloc, stored, part, bucket)?)?;
    }
    Ok(())
}

// The rowsets of all tablets of the base, by partition and bucket.
pub fn shared_lists(
    alloc: Global,
    stored: &StoredTable,
    layout: &Layout,
) -> Result<Items<Arc<Rowset>>, NoMemory>
    ensures { IfOk result (λ all. map (λ l. rowset_rows l.value) all ≡ base_lists layout.now (Some (table_seen stored.now))) }
{
    let parts = layout.parts().len() as u64;
    let buckets = layout.buckets() as u64;
    let mut all = Items::new(alloc);
    for part in 0..parts {
        add_part(alloc, stored, part, buckets, &mut all)?;
    }
    Ok(all)
}
