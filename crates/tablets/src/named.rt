// Rowsets by their pairs of versions.
ghost use Rattle.std.specs.Prelude.{◌≡◌, IfOk};
ghost use Rattle.tablets.specs.Compactions as compactions;

use crate::held::Held;
use dl_values::NoMemory;
use sqlite_items::Items;
use std::alloc::Global;

// The pairs of versions of rowsets.
pub fn versions_of(alloc: Global, lists: &[Held]) -> Result<Items<(u64, u64)>, NoMemory>
    ensures { IfOk result (λ vs. vs ≡ compactions.versions_of lists.now) }
{
    let mut all = Items::new(alloc);
    for list in lists {
        all.push((list.first, list.last))?;
    }
    Ok(all)
}

// Whether rowsets with these pairs of versions stand first.
fn stand_first(versions: &[(u64, u64)], lists: &[Held]) -> bool
    ensures { result ≡ compactions.stand_first versions.now lists.now }
{
    for (i, version) in versions.iter().enumerate() {
        match lists.get(i) {
            None => return false,
            Some(list) => {
                if version.0 != list.first || version.1 != list.last {
                    return false;
                }
            }
        }
    }
    true
}

// Whether rowsets are named, and stand first.
pub fn are_there(versions: &[(u64, u64)], lists: &[Held]) -> bool
    ensures { result ≡ compactions.are_there versions.now lists.now }
{
    !versions.is_empty() && stand_first(versions, lists)
}

// The first version of the first.
pub fn first_version(versions: &[(u64, u64)]) -> u64
    ensures { result ≡ compactions.first_version versions.now }
{
    match versions.first() {
        None => 0,
        Some(version) => version.0,
    }
}

// The last version of the last.
pub fn last_version(versions: &[(u64, u64)]) -> u64
    ensures { result ≡ compactions.last_version versions.now }
{
    let mut last = 0;
    for version in versions {
        last = version.1;
    }
    last
}
