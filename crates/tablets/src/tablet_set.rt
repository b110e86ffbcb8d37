// The tablets of one table, by index, partition and bucket.
ghost use Rattle.std.specs.Prelude.{◌≡◌, ◌↔◌, ◌+◌, ◌<◌, ◌≤◌, ◌∷◌, [], None, true, false, IfOk, IsTrue, MatchOption, OnErr, OnOk, is_some, length, map};
ghost use Rattle.merge_read.specs.Lists.{stored};
ghost use Rattle.rowsets.specs.RowsetView.{IsMadeFor};
ghost use Rattle.tablets.specs.Compactions as compactions;
ghost use Rattle.tablets.specs.SetView as sets;
ghost use Rattle.tablets.specs.Shadows as shadows;
ghost use Rattle.tablets.specs.TabletView as tablets;

use crate::coming::may_come;
use crate::finding::{find_tablet, place_of, tablet};
use crate::index::Index;
use crate::parting::{add_parts, cut_parts};
use crate::switching::{drop_shadows, switch_shadows};
use crate::{Compacted, Compaction, Gone, Shadow};
use dl_outside::Steps;
use dl_values::{NoMemory, Rows};
use rowsets::Rowset;
use schema_models::Shape;
use sqlite_items::Items;
use std::alloc::Global;
use std::marker::Model;
use std::sync::Arc;
use std::sync::ledger::Ledger;

/// The tablets of one table by index, partition and bucket, which contracts see as a list of indexes, with the numbers of
/// partitions and of buckets (Apache Doris documentation, "Partitioning and Bucketing"). An index may be the shadow of a
/// job that fills it.
#[derive(Drop)]
pub struct TabletSet {
    indexes: Vec<Index>,
    parts: u64,
    buckets: u64,
}

impl Model for TabletSet {
    ghost use Rattle.tablets.specs.SetView.{SetView};
    ghost use Rattle.tablets.specs.Shadows.{IsTabletSet};

    ghost Value = { SetView };

    ghost view = { λ s. record { indexes = s.indexes.items; parts = s.parts; buckets = s.buckets } };

    ghost invariant = { λ s. IsTabletSet (record { indexes = s.indexes.items; parts = s.parts; buckets = s.buckets }) };
}

impl TabletSet {
    /// The base as index 0, its tablets empty.
    pub fn new(alloc: Global, shape: Shape, parts: u64, buckets: u64) -> Result<TabletSet, NoMemory>
        ensures { IfOk result (λ s. s ≡ record { indexes = sets.empty_index 0 None shape parts buckets ∷ []; parts = parts; buckets = buckets }) }
    {
        let base = Index::empty(alloc, 0, None, shape, (parts, buckets))?;
        let mut indexes = Vec::new(alloc);
        indexes.push(base)?;
        Ok(TabletSet {
            indexes,
            parts,
            buckets,
        })
    }

    /// Whether there is a tablet of this index, partition and bucket.
    pub fn has(&self, index: u64, part: u64, bucket: u64) -> bool
        ensures { result ≡ is_some (sets.tablet_at self.now index part bucket) }
    {
        find_tablet(&self.indexes, index, part, bucket).is_some()
    }

    /// Whether a version is above all that a tablet has.
    pub fn is_past(&self, index: u64, part: u64, bucket: u64, version: u64) -> bool
        requires { sets.HasTablet self.now index part bucket }
        ensures { sets.OnTablet self.now index part bucket (λ t. IsTrue result ↔ tablets.IsPast version t.lists) }
    {
        tablet(&self.indexes, index, part, bucket).is_past(version)
    }

    /// Whether a rowset was built with a shape that has the marks of a tablet's. Looks at no row.
    pub fn is_shape_of(&self, index: u64, part: u64, bucket: u64, rowset: &Rowset) -> bool
        requires { sets.HasTablet self.now index part bucket }
        ensures { sets.OnTablet self.now index part bucket (λ t. IsTrue result ↔ IsMadeFor t.shape rowset.now) }
    {
        tablet(&self.indexes, index, part, bucket).is_shape_of(rowset)
    }

    /// Makes room in a tablet for this many rowsets more.
    pub fn reserve(&mut self, index: u64, part: u64, bucket: u64, room: u64) -> Result<(), NoMemory>
        requires { sets.HasTablet self.old index part bucket }
        ensures ok { OnOk result (sets.OnTablet self.new index part bucket (λ t. room ≤ tablets.spare t)) }
        ensures rest { sets.IsRoomier index part bucket self.old self.new }
    {
        let place = place_of(&self.indexes, index);
        let index = &mut self.indexes[place];
        let part = &mut index.parts[part as usize];
        let tablet = &mut part.tablets[bucket as usize];
        let done = tablet.reserve(room);
        tablet.vouch();
        done
    }

    /// Adds a rowset to a tablet as a version. Takes no memory, and looks at no row.
    pub fn put(&mut self, index: u64, part: u64, bucket: u64, version: u64, rowset: Arc<Rowset>)
        requires spare { sets.OnTablet self.old index part bucket (λ t. 0 < tablets.spare t) }
        requires above { sets.OnTablet self.old index part bucket (λ t. tablets.IsPast version t.lists) }
        requires made { sets.OnTablet self.old index part bucket (λ t. IsMadeFor t.shape rowset.value) }
        ensures { self.new ≡ sets.changed index part bucket (tablets.with_list (record { first = version; last = version; rowset = rowset.value })) self.old }
    {
        let place = place_of(&self.indexes, index);
        let index = &mut self.indexes[place];
        let part = &mut index.parts[part as usize];
        let tablet = &mut part.tablets[bucket as usize];
        tablet.put(version, rowset);
        tablet.vouch();
    }

    /// The rows of a tablet at a version that was not compacted away.
    pub fn show<L: Ledger>(
        &self,
        alloc: Global,
        index: u64,
        part: u64,
        bucket: u64,
        version: u64,
        steps: &mut Steps<L>,
    ) -> Result<Rows, NoMemory>
        requires { sets.HasTablet self.now index part bucket }
        ensures rows { IfOk result (λ rows. sets.OnTablet self.now index part bucket (λ t. rows ≡ tablets.rows_at version t)) }
        ensures counted { OnOk result (sets.OnTablet self.now index part bucket (λ t. steps.new ≡ steps.old + stored (tablets.rows_of (tablets.lists_to version t.lists)))) }
    {
        tablet(&self.indexes, index, part, bucket).show(alloc, version, steps)
    }

    /// Puts a rowset for all rowsets of a tablet up to a version. Takes no memory, and looks at no row.
    pub fn install_history(
        &mut self,
        index: u64,
        part: u64,
        bucket: u64,
        version: u64,
        rowset: Arc<Rowset>,
    )
        requires spare { sets.OnTablet self.old index part bucket (λ t. 0 < tablets.spare t) }
        requires made { sets.OnTablet self.old index part bucket (λ t. IsMadeFor t.shape rowset.value) }
        ensures { self.new ≡ sets.changed index part bucket (tablets.replaced (record { first = 1; last = version; rowset = rowset.value })) self.old }
    {
        let place = place_of(&self.indexes, index);
        let index = &mut self.indexes[place];
        let part = &mut index.parts[part as usize];
        let tablet = &mut part.tablets[bucket as usize];
        tablet.install_history(version, rowset);
        tablet.vouch();
    }

    /// The rowsets of a tablet up to a version, shared.
    pub fn snapshot(
        &self,
        alloc: Global,
        index: u64,
        part: u64,
        bucket: u64,
        version: u64,
    ) -> Result<Items<Arc<Rowset>>, NoMemory>
        requires { sets.HasTablet self.now index part bucket }
        ensures { IfOk result (λ all. sets.OnTablet self.now index part bucket (λ t. map (λ l. l.value) all ≡ map (λ l. l.rowset) (tablets.lists_to version t.lists))) }
    {
        tablet(&self.indexes, index, part, bucket).snapshot(alloc, version)
    }

    /// All rowsets of a tablet, to be merged, where there are five or more.
    pub fn take_compaction(
        &self,
        alloc: Global,
        index: u64,
        part: u64,
        bucket: u64,
    ) -> Result<Option<Compaction>, NoMemory>
        requires { sets.HasTablet self.now index part bucket }
        ensures { IfOk result (λ o. sets.OnTablet self.now index part bucket (λ t. MatchOption o (length t.lists < 5) (λ c. (5 ≤ length t.lists) × compactions.IsCompactionOf t c))) }
    {
        tablet(&self.indexes, index, part, bucket).take_compaction(alloc)
    }

    /// Puts a merged rowset into a tablet in the place of those that it names, or tells that they do not stand first.
    /// Takes no memory, and looks at no row.
    pub fn give_compaction(
        &mut self,
        index: u64,
        part: u64,
        bucket: u64,
        done: Compacted,
    ) -> Result<(), Gone>
        requires { sets.OnTablet self.old index part bucket (λ t. compactions.are_there done.versions t.lists ≡ true → IsMadeFor t.shape done.merged.value) }
        ensures ok { OnOk result (sets.OnTablet self.old index part bucket (λ t. compactions.are_there done.versions t.lists ≡ true) × (self.new ≡ sets.changed index part bucket (compactions.compacted done.versions done.merged.value) self.old)) }
        ensures gone { OnErr result (sets.OnTablet self.old index part bucket (λ t. compactions.are_there done.versions t.lists ≡ false) × (self.new ≡ self.old)) }
    {
        let place = place_of(&self.indexes, index);
        let index = &mut self.indexes[place];
        let part = &mut index.parts[part as usize];
        let tablet = &mut part.tablets[bucket as usize];
        let given = tablet.give_compaction(done);
        tablet.vouch();
        given
    }

    /// One partition more, at the end, in every index, its tablets empty.
    pub fn add_part(&mut self, alloc: Global) -> Result<(), NoMemory>
        ensures ok { OnOk result (self.new ≡ sets.with_parts self.old) }
        ensures err { OnErr result (self.new ≡ self.old) }
    {
        let Some(parts) = self.parts.checked_add(1) else {
            return Err(NoMemory);
        };
        match add_parts(alloc, &mut self.indexes, self.buckets) {
            Ok(()) => {
                self.parts = parts;
                Ok(())
            }
            Err(e) => {
                cut_parts(&mut self.indexes, self.parts);
                Err(e)
            }
        }
    }

    /// Whether a shadow may come: under a number that no index has, and for no index, or for one that is no shadow and
    /// that no other is to replace.
    pub fn may_come(&self, index: u64, replaces: Option<u64>) -> bool
        ensures { IsTrue result ↔ shadows.MayCome self.now index replaces }
    {
        may_come(&self.indexes, index, replaces)
    }

    /// One index more, a shadow of a job, its tablets empty.
    pub fn add_shadow(
        &mut self,
        alloc: Global,
        job: u64,
        index: u64,
        replaces: Option<u64>,
        shape: Shape,
    ) -> Result<(), NoMemory>
        requires { shadows.MayCome self.old index replaces }
        ensures ok { OnOk result (self.new ≡ shadows.with_shadow index (record { job = job; replaces = replaces }) shape self.old) }
        ensures err { OnErr result (self.new ≡ self.old) }
    {
        let shadow = Some(Shadow { job, replaces });
        let size = (self.parts, self.buckets);
        let index = Index::empty(alloc, index, shadow, shape, size)?;
        self.indexes.push(index)?;
        Ok(())
    }

    /// The shadows of a job go. Takes no memory, and looks at no row.
    pub fn drop_shadows(&mut self, job: u64)
        ensures { self.new ≡ shadows.without_job job self.old }
    {
        drop_shadows(&mut self.indexes, job);
    }

    /// Each shadow of a job takes the place and the number of the index that it replaces, or becomes a further index. Takes
    /// no memory, and looks at no row.
    pub fn switch(&mut self, job: u64)
        ensures { self.new ≡ shadows.switched job self.old }
    {
        switch_shadows(&mut self.indexes, job);
    }
}
