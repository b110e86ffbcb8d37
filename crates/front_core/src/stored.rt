// What is stored of a table: a snapshot of it, and the rows of a load more.
ghost use Rattle.std.specs.Prelude.{◌≡◌, IfOk, IsTrue, OnOk, OnErr, map};
ghost use Rattle.std.specs.List.{AllByRecursion};
ghost use Rattle.front_defs.specs.Gives.{Gives};
ghost use Rattle.front_defs.specs.May.{seen_set};
ghost use Rattle.shadow_writes.specs.declared.built.TabletRows.{TabletRows};
ghost use Rattle.rowsets.specs.RowsetView.{IsListOf};
ghost use Rattle.front_defs.specs.declared.reply.Reply.TheVariants as reply;
ghost use Rattle.front_core.specs.Parts.{SharesLists, StoresSets};
ghost use Rattle.txn_core.specs.Seen.{sets_in};

use dl_values::NoMemory;
use front_defs::Table;
use front_state::Catalogue;
use merge_read::Snapshot;
use rowsets::Rowset;
use schema_models::Shape;
use shadow_writes::TabletRows;
use std::alloc::Global;
use std::sync::Arc;
use txn_core::TxnInfo;

// The shapes of a table, and what is stored of it.
pub fn snapshot_of(
    alloc: Global,
    catalogue: &Catalogue,
    table: &Table,
) -> Result<Snapshot<Arc<Rowset>>, NoMemory>
    ensures shares { IfOk result (λ s. SharesLists table.now catalogue.now.tablets (reply.Snap s)) }
    ensures gives { IfOk result (λ s. Gives (reply.Snap s)) }
{
    let base = table.shape.copy(alloc)?;
    let index = table.shape.copy(alloc)?;
    let lists = catalogue.lists(alloc, table)?;
    // What is handed on is tested: no history that is legal stores a rowset of another shape.
    if are_lists_of(&index, lists.as_slice()) {
        Ok(Snapshot { base, index, lists })
    } else {
        Err(NoMemory)
    }
}

// Whether each rowset was made for the shape.
fn are_lists_of(shape: &Shape, lists: &[Arc<Rowset>]) -> bool
    ensures { IsTrue result → AllByRecursion (λ l. IsListOf shape.now l.value) lists.now }
{
    let mut place = lists.len();
    while place > 0 {
        place -= 1;
        if !lists[place].is_of(shape) {
            return false;
        }
    }
    true
}

// Adds the rows of a load to what is stored of its table.
pub fn store_held(alloc: Global, catalogue: &mut Catalogue, load: &TxnInfo) -> Result<(), NoMemory>
    ensures ok { OnOk result (StoresSets load.now.table (sets_in load.now.held) catalogue.old.tablets catalogue.new.tablets) }
    ensures rest { catalogue.new ≡ record catalogue.old { tablets = catalogue.new.tablets } }
    ensures err { OnErr result (catalogue.new ≡ catalogue.old) }
{
    match &load.held {
        None => Ok(()),
        Some(held) => store_sets(alloc, catalogue, load.table, held.sets.as_slice()),
    }
}

fn store_sets(
    alloc: Global,
    catalogue: &mut Catalogue,
    table: u64,
    sets: &[TabletRows],
) -> Result<(), NoMemory>
    ensures ok { OnOk result (StoresSets table (map (λ (s : TabletRows). seen_set s) sets.now) catalogue.old.tablets catalogue.new.tablets) }
    ensures rest { catalogue.new ≡ record catalogue.old { tablets = catalogue.new.tablets } }
    ensures err { OnErr result (catalogue.new ≡ catalogue.old) }
{
    match sets {
        [] => Ok(()),
        sets => catalogue.store(alloc, table, sets),
    }
}
