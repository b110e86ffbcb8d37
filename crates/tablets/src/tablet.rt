// The rowsets of one index, partition and bucket.
ghost use Rattle.std.specs.Prelude.{◌≡◌, ◌↔◌, ◌+◌, ◌<◌, ◌≤◌, ◌∷◌, [], true, false, IfOk, IsTrue, MatchOption, OnErr, OnOk, length, map};
ghost use Rattle.std.specs.Vec.{vec_capacity};
ghost use Rattle.merge_read.specs.Lists.{stored};
ghost use Rattle.rowsets.specs.RowsetView.{IsListOf, IsMadeFor};
ghost use Rattle.tablets.specs.Compactions as compactions;
ghost use Rattle.tablets.specs.TabletView as tablets;

use crate::held::{Held, count_to};
use crate::named::{are_there, first_version, last_version, versions_of};
use crate::{Compacted, Compaction, Gone};
use dl_outside::Steps;
use dl_values::{NoMemory, Rows};
use merge_read::read_all;
use rowsets::Rowset;
use schema_models::Shape;
use sqlite_items::Items;
use std::alloc::Global;
use std::marker::Model;
use std::sync::Arc;
use std::sync::ledger::Ledger;

/// The rowsets of one index, partition and bucket, which contracts see in the order of their versions, with the shape of
/// the index and how many rowsets there is room for (Apache Doris documentation, "Tablet").
#[derive(Drop)]
pub struct Tablet {
    shape: Shape,
    lists: Vec<Held>,
}

impl Model for Tablet {
    ghost use Rattle.std.specs.Vec.{vec_capacity};
    ghost use Rattle.tablets.specs.TabletView.{IsTablet, TabletView};

    ghost Value = { TabletView };

    ghost view = { λ t. record { shape = t.shape; lists = t.lists.items; room = vec_capacity t.lists } };

    ghost invariant = { λ t. IsTablet (record { shape = t.shape; lists = t.lists.items; room = vec_capacity t.lists }) };
}

impl Tablet {
    /// No rowset yet.
    pub fn new(alloc: Global, shape: Shape) -> Tablet
        ensures { result ≡ record { shape = shape; lists = []; room = 0 } }
    {
        Tablet {
            shape,
            lists: Vec::new(alloc),
        }
    }

    /// Does nothing: in each tablet versions rise, and each rowset is of its shape, which a proof learns by this call.
    pub fn vouch(&self)
        ensures { tablets.IsTablet self.now }
    {
        let _lists = &self.lists;
    }

    /// Whether a version is above all that it has.
    pub fn is_past(&self, version: u64) -> bool
        ensures { IsTrue result ↔ tablets.IsPast version self.now.lists }
    {
        match self.lists.last() {
            None => true,
            Some(list) => list.last < version,
        }
    }

    /// Whether a rowset was built with a shape that has the marks of its own. Looks at no row.
    pub fn is_shape_of(&self, rowset: &Rowset) -> bool
        ensures { IsTrue result ↔ IsMadeFor self.now.shape rowset.now }
    {
        rowset.is_of(&self.shape)
    }

    /// Makes room for this many rowsets more.
    pub fn reserve(&mut self, room: u64) -> Result<(), NoMemory>
        ensures ok { OnOk result (room ≤ tablets.spare self.new) }
        ensures lists { self.new.lists ≡ self.old.lists }
        ensures shape { self.new.shape ≡ self.old.shape }
        ensures more { self.old.room ≤ self.new.room }
    {
        self.lists.reserve(room as usize)?;
        Ok(())
    }

    /// Adds a rowset as a version. Takes no memory, and looks at no row.
    pub fn put(&mut self, version: u64, rowset: Arc<Rowset>)
        requires spare { 0 < tablets.spare self.old }
        requires above { tablets.IsPast version self.old.lists }
        requires made { IsMadeFor self.old.shape rowset.value }
        ensures { self.new ≡ tablets.with_list (record { first = version; last = version; rowset = rowset.value }) self.old }
    {
        vouch(&self.shape, &rowset);
        let held = Held {
            first: version,
            last: version,
            rowset,
        };
        self.lists.push_reserved(held);
    }

    /// The rows at a version that was not compacted away.
    pub fn show<L: Ledger>(
        &self,
        alloc: Global,
        version: u64,
        steps: &mut Steps<L>,
    ) -> Result<Rows, NoMemory>
        ensures rows { IfOk result (λ rows. rows ≡ tablets.rows_at version self.now) }
        ensures counted { OnOk result (steps.new ≡ steps.old + stored (tablets.rows_of (tablets.lists_to version self.now.lists))) }
    {
        let (lists, _past) = self.lists.split_at(count_to(&self.lists, version));
        read_all(alloc, &self.shape, lists, steps)
    }

    /// The rowsets up to a version, shared.
    pub fn snapshot(&self, alloc: Global, version: u64) -> Result<Items<Arc<Rowset>>, NoMemory>
        ensures { IfOk result (λ all. map (λ l. l.value) all ≡ map (λ l. l.rowset) (tablets.lists_to version self.now.lists)) }
    {
        let (lists, _past) = self.lists.split_at(count_to(&self.lists, version));
        shared(alloc, lists)
    }

    /// Puts a rowset for all rowsets up to a version. Takes no memory, and looks at no row.
    pub fn install_history(&mut self, version: u64, rowset: Arc<Rowset>)
        requires spare { 0 < tablets.spare self.old }
        requires made { IsMadeFor self.old.shape rowset.value }
        ensures { self.new ≡ tablets.replaced (record { first = 1; last = version; rowset = rowset.value }) self.old }
    {
        vouch(&self.shape, &rowset);
        let held = Held {
            first: 1,
            last: version,
            rowset,
        };
        replace(&mut self.lists, held);
    }

    /// All rowsets, to be merged, where there are five or more.
    pub fn take_compaction(&self, alloc: Global) -> Result<Option<Compaction>, NoMemory>
        ensures { IfOk result (λ o. MatchOption o (length self.now.lists < 5) (λ c. (5 ≤ length self.now.lists) × compactions.IsCompactionOf self.now c)) }
    {
        if self.lists.len() < 5 {
            return Ok(None);
        }
        let compaction = compaction_of(alloc, &self.shape, &self.lists)?;
        Ok(Some(compaction))
    }

    /// Puts a merged rowset in the place of those that it names, or tells that they do not stand first. Takes no memory,
    /// and looks at no row.
    pub fn give_compaction(&mut self, done: Compacted) -> Result<(), Gone>
        requires { compactions.are_there done.versions self.old.lists ≡ true → IsMadeFor self.old.shape done.merged.value }
        ensures ok { OnOk result ((compactions.are_there done.versions self.old.lists ≡ true) × (self.new ≡ compactions.compacted done.versions done.merged.value self.old)) }
        ensures gone { OnErr result ((compactions.are_there done.versions self.old.lists ≡ false) × (self.new ≡ self.old)) }
    {
        let Compacted { versions, merged } = done;
        if !are_there(versions.as_slice(), &self.lists) {
            return Err(Gone);
        }
        vouch(&self.shape, &merged);
        let held = Held {
            first: first_version(versions.as_slice()),
            last: last_version(versions.as_slice()),
            rowset: merged,
        };
        replace(&mut self.lists, held);
        Ok(())
    }
}

// The rowsets of a tablet, to be merged.
fn compaction_of(alloc: Global, shape: &Shape, lists: &[Held]) -> Result<Compaction, NoMemory>
    ensures shape { IfOk result (λ c. c.shape ≡ shape.now) }
    ensures versions { IfOk result (λ c. c.versions ≡ compactions.versions_of lists.now) }
    ensures lists { IfOk result (λ c. map (λ l. l.value) c.lists ≡ map (λ l. l.rowset) lists.now) }
{
    let shape = shape.copy(alloc)?;
    let versions = versions_of(alloc, lists)?;
    let lists = shared(alloc, lists)?;
    Ok(Compaction {
        shape,
        versions,
        lists,
    })
}

// Does nothing: a rowset that was made for a shape is sorted for it.
fn vouch(shape: &Shape, rowset: &Arc<Rowset>)
    requires { IsMadeFor shape.now rowset.now.value }
    ensures { IsListOf shape.now rowset.now.value }
{
    let _made = rowset.is_of(shape);
}

// The same rowsets, shared.
fn shared(alloc: Global, lists: &[Held]) -> Result<Items<Arc<Rowset>>, NoMemory>
    ensures { IfOk result (λ all. map (λ l. l.value) all ≡ map (λ l. l.rowset) lists.now) }
{
    let mut all = Items::new(alloc);
    for list in lists {
        all.push(Arc::clone(&list.rowset)?)?;
    }
    Ok(all)
}

// Puts a rowset for all up to its last version, where there is room for one more, or one goes.
fn replace(lists: &mut Vec<Held>, held: Held)
    requires { length (tablets.lists_past held.last lists.old.items) < vec_capacity lists.old }
    ensures lists { lists.new.items ≡ held ∷ tablets.lists_past held.last lists.old.items }
    ensures room { vec_capacity lists.new ≡ vec_capacity lists.old }
{
    let last = held.last;
    lists.retain(|list| last < list.last);
    match lists.insert(0, held) {
        Ok(()) => {}
        Err(_) => unreachable!(),
    }
}
