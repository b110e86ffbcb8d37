// The merge of rowsets into one.
ghost use Rattle.std.specs.Prelude.{◌≡◌, ◌+◌, IfOk, OnOk, map};
ghost use Rattle.merge_read.specs.Lists.{AreSortedLists, joined, stored};
ghost use Rattle.rowsets.specs.RowsetView.{IsRowsetOf, rowset_rows};

use dl_outside::Steps;
use dl_values::NoMemory;
use merge_read::read_all;
use rowsets::Rowset;
use schema_models::{Shape, laws};
use sqlite_items::Items;
use std::alloc::Global;
use std::sync::Arc;
use std::sync::ledger::Ledger;

/// Rowsets of one tablet that are to be merged, with the first and the last version of each.
#[derive(Drop)]
pub struct Compaction {
    pub shape: Shape,
    pub versions: Items<(u64, u64)>,
    pub lists: Items<Arc<Rowset>>,
}

/// The rowset that the named ones were merged to.
#[derive(Drop)]
pub struct Compacted {
    pub versions: Items<(u64, u64)>,
    pub merged: Arc<Rowset>,
}

impl Compaction {
    /// The work of a compaction: each stored row is looked at once.
    pub fn merge<L: Ledger>(
        self,
        alloc: Global,
        steps: &mut Steps<L>,
    ) -> Result<Compacted, NoMemory>
        requires { AreSortedLists self.shape (map (λ l. rowset_rows l.value) self.lists) }
        ensures versions { IfOk result (λ d. d.versions ≡ self.versions) }
        ensures merged { IfOk result (λ d. IsRowsetOf self.shape (joined (map (λ l. rowset_rows l.value) self.lists)) d.merged.value) }
        ensures counted { OnOk result (steps.new ≡ steps.old + stored (map (λ l. rowset_rows l.value) self.lists)) }
    {
        let Compaction {
            shape,
            versions,
            lists,
        } = self;
        let merged = merged(alloc, &shape, lists.as_slice(), steps)?;
        Ok(Compacted { versions, merged })
    }
}

// The rowset of the fold of rowsets.
fn merged<L: Ledger>(
    alloc: Global,
    shape: &Shape,
    lists: &[Arc<Rowset>],
    steps: &mut Steps<L>,
) -> Result<Arc<Rowset>, NoMemory>
    requires { AreSortedLists shape.now (map (λ l. rowset_rows l.value) lists.now) }
    ensures merged { IfOk result (λ r. IsRowsetOf shape.now (joined (map (λ l. rowset_rows l.value) lists.now)) r.value) }
    ensures counted { OnOk result (steps.new ≡ steps.old + stored (map (λ l. rowset_rows l.value) lists.now)) }
{
    shape.vouch();
    laws::rows_of_a_shape_stay_so();
    laws::folds_join();
    let rows = read_all(alloc, shape, lists, steps)?;
    Rowset::build(alloc, shape, rows)
}
