// The lists of a load, each ready to be put into its tablet. Making them ready changes nothing that contracts see, so that
// a load whose lists are not all ready leaves everything as it was.
ghost use Rattle.std.specs.Prelude.{◌≡◌, ◌↔◌, ◌+◌, ◌<◌, IfOk, IfSome, IsTrue, get_or, length, map};
ghost use Rattle.front_defs.specs.May.{seen_set};
ghost use Rattle.shadow_writes.specs.declared.built.TabletRows.{TabletRows};
ghost use Rattle.front_state.specs.Ready.{AreReady, AscendByPlace, HasRoom, IsReady, is_before};

use dl_values::NoMemory;
use rowsets::Rowset;
use shadow_writes::TabletRows;
use std::alloc::Global;
use std::sync::Arc;
use tablets::TabletSet;

// The list of a load for one tablet of the base, with the next version of its partition.
#[derive(Drop)]
pub struct ReadyList {
    pub part: u64,
    pub bucket: u64,
    pub version: u64,
    pub rows: Arc<Rowset>,
}

// Whether the tablet of one comes before that of another.
fn stands_before(a: &TabletRows, b: &TabletRows) -> bool
    ensures { result ≡ is_before (seen_set a.now).place (seen_set b.now).place }
{
    a.part < b.part || a.part == b.part && a.bucket < b.bucket
}

// Whether the tablets ascend, so that none gets two lists.
pub fn ascend(sets: &[TabletRows]) -> bool
    ensures { IsTrue result ↔ AscendByPlace (map (λ (s : TabletRows). seen_set s) sets.now) }
{
    sets.is_sorted_by(|a, b| stands_before(a, b))
}

// The version behind the visible one of a partition that is there.
fn next_version(versions: &[u64], part: u64) -> Option<u64>
    ensures next { IfSome result (λ v. v ≡ get_or versions.now part 1 + 1) }
    ensures there { IfSome result (λ v. part < length versions.now) }
{
    match versions.get(part as usize) {
        None => None,
        Some(version) => version.checked_add(1),
    }
}

// Makes room for a list in its tablet, and tests that it can stand there; it is shared and not copied.
fn ready_list(
    set: &mut TabletSet,
    versions: &[u64],
    rows: &TabletRows,
) -> Result<ReadyList, NoMemory>
    ensures room { HasRoom set.old set.new }
    ensures ready { IfOk result (λ l. IsReady versions.now set.new rows.now l) }
{
    let part = rows.part;
    let bucket = rows.bucket;
    let version = match next_version(versions, part) {
        None => return Err(NoMemory),
        Some(version) => version,
    };
    if !set.has(0, part, bucket) {
        return Err(NoMemory);
    }
    set.reserve(0, part, bucket, 1)?;
    if !set.is_past(0, part, bucket, version) || !set.is_shape_of(0, part, bucket, &rows.rows) {
        return Err(NoMemory);
    }
    let rows = Arc::clone(&rows.rows)?;
    Ok(ReadyList {
        part,
        bucket,
        version,
        rows,
    })
}

// Makes all lists of a load ready.
pub fn ready_lists(
    alloc: Global,
    set: &mut TabletSet,
    versions: &[u64],
    sets: &[TabletRows],
) -> Result<Vec<ReadyList>, NoMemory>
    ensures room { HasRoom set.old set.new }
    ensures ready { IfOk result (λ all. AreReady versions.now set.new sets.now all.items) }
{
    let mut all = Vec::with_capacity(alloc, sets.len())?;
    for rows in sets {
        let list = ready_list(set, versions, rows)?;
        all.push(list)?;
    }
    Ok(all)
}
