// One partition more in every index.
ghost use Rattle.std.specs.Prelude.{◌≡◌, ◌≤◌, ℕ, OnErr, OnOk, length, map};
ghost use Rattle.std.specs.List.{AllByRecursion};
ghost use Rattle.tablets.specs.Parting.{cut_to};
ghost use Rattle.tablets.specs.SetView.{with_part};

use crate::index::Index;
use dl_values::NoMemory;
use std::alloc::Global;

// One partition more in every index, or in the first of them alone.
pub fn add_parts(alloc: Global, indexes: &mut [Index], buckets: u64) -> Result<(), NoMemory>
    ensures ok { OnOk result (indexes.new ≡ map (with_part buckets) indexes.old) }
    ensures err { OnErr result ((n : ℕ) → AllByRecursion (λ i. length i.parts ≡ n) indexes.old → map (cut_to n) indexes.new ≡ indexes.old) }
{
    for index in indexes.iter_mut() {
        index.add_part(alloc, buckets)?;
    }
    Ok(())
}

// The first partitions alone, in every index.
pub fn cut_parts(indexes: &mut [Index], parts: u64)
    ensures { indexes.new ≡ map (cut_to parts) indexes.old }
{
    for index in indexes.iter_mut() {
        index.cut(parts);
    }
}
