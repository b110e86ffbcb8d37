// How the rows of a table are spread.
ghost use Rattle.std.specs.Prelude.{◌≡◌, IfOk};
ghost use Rattle.std.specs.Option.{option_copied};
ghost use Rattle.partitions.specs.Search as search;

use crate::columns::{copy_name, copy_names, names_of, type_of};
use crate::faults::{tested_part, tested_parts};
use crate::hash::hash_cells;
use crate::order::{order_of, with_number};
use crate::part_def::{copy_parts, push_part, whole_part};
use crate::parts_def::split;
use crate::positions::{column_position, positions_of};
use crate::search::part_with;
use crate::{LayoutError, PartDef, PartsDef};
use dl_values::{Cell, ColType, Name, NoMemory, Row};
use schema_models::Shape;
use sqlite_items::Items;
use std::alloc::Global;
use std::marker::Model;

/// The partitions of a table and the columns that its buckets are hashed by, which contracts see as a record, with the
/// names of the columns of its rows and the type of the partition column (Apache Doris documentation, "Data Partitioning").
#[derive(Debug, Drop)]
pub struct Layout {
    columns: Items<Name>,
    kind: Option<ColType>,
    column: Option<Name>,
    parts: Items<PartDef>,
    hash: Items<Name>,
    buckets: u32,
    // The numbers of the partitions by ascending ranges.
    order: Vec<usize>,
    // The position of the partition column, and those of the columns that are hashed.
    column_at: Option<usize>,
    hash_at: Vec<usize>,
}

impl Model for Layout {
    ghost use Rattle.partitions.specs.LayoutView.{LayoutView};
    ghost use Rattle.partitions.specs.Search.{IsSearchable};

    ghost Value = { LayoutView };

    ghost view = { λ l. record { columns = l.columns; kind = l.kind; column = l.column; parts = l.parts; hash = l.hash; buckets = l.buckets } };

    ghost invariant = { λ l. IsSearchable (record { columns = l.columns; kind = l.kind; column = l.column; parts = l.parts; hash = l.hash; buckets = l.buckets }) l.order.items l.column_at l.hash_at.items };
}

impl Layout {
    ghost use Rattle.std.specs.Prelude.{[], None, Some, false, true, MatchOption, OnErr, OnOk};
    ghost use Rattle.std.specs.List.{list_all};
    ghost use Rattle.partitions.specs.LayoutFaults.{first_beside, meets};
    ghost use Rattle.partitions.specs.LayoutFaults as faults;
    ghost use Rattle.partitions.specs.LayoutView.{layout_of, over, whole};
    ghost use Rattle.partitions.specs.Places.{high_end, low_end};
    ghost use Rattle.partitions.specs.Places as places;
    ghost use Rattle.partitions.specs.Ranges.{ends_rise};

    // A layout of partitions that lie apart.
    fn of_parts(
        alloc: Global,
        shape: &Shape,
        column: Option<Name>,
        parts: Items<PartDef>,
        hash: Items<Name>,
        buckets: u32,
    ) -> Result<Layout, NoMemory>
        requires apart { first_beside meets [] parts ≡ None }
        requires rise { list_all (λ p. ends_rise (low_end p.bounds) (high_end p.bounds)) parts ≡ true }
        ensures { IfOk result (λ l. l ≡ layout_of shape.now column parts hash buckets) }
    {
        let columns = names_of(alloc, shape.columns())?;
        let order = order_of(alloc, parts.as_slice())?;
        let hash_at = positions_of(alloc, columns.as_slice(), hash.as_slice())?;
        let column_at = column_position(columns.as_slice(), &column);
        Ok(Layout {
            kind: type_of(shape.columns(), &column),
            columns,
            column,
            parts,
            hash,
            buckets,
            order,
            column_at,
            hash_at,
        })
    }

    /// The layout of a definition for rows of this shape, or its first fault: variant by variant in the order of the
    /// error, each over all columns or partitions. `LESS THAN` begins at the greatest high end below its own one among the
    /// partitions written before it.
    #[tactic(auto, unfolding(crate::specs::LayoutFaults::layout_fault))]
    pub fn build(
        alloc: Global,
        shape: &Shape,
        parts: PartsDef,
        hash: Items<Name>,
        buckets: u32,
    ) -> Result<Layout, LayoutError>
        ensures built { IfOk result (λ l. l ≡ faults.defined shape.now parts hash buckets) }
        ensures tested { faults.Tests (faults.layout_fault shape.now parts hash buckets) result }
    {
        let (column, written) = split(alloc, parts)?;
        let hashed = hash.as_slice();
        let parts = tested_parts(alloc, shape, &column, written.as_slice(), hashed, buckets)?;
        Ok(Layout::of_parts(alloc, shape, column, parts, hash, buckets)?)
    }

    // Adds a partition that lies apart from the others.
    fn push(&mut self, alloc: Global, part: PartDef) -> Result<(), NoMemory>
        requires apart { meets self.old.parts part ≡ false }
        requires rise { ends_rise (low_end part.bounds) (high_end part.bounds) ≡ true }
        ensures ok { OnOk result (self.new ≡ faults.with_part part self.old) }
        ensures err { OnErr result (self.new ≡ self.old) }
    {
        let parts = self.parts.as_slice();
        let order = with_number(alloc, parts, self.order.as_slice(), &part.bounds)?;
        push_part(&mut self.parts, part)?;
        self.order = order;
        Ok(())
    }

    /// Adds a partition behind the others, or tells its first fault and changes nothing.
    pub fn add(&mut self, alloc: Global, part: PartDef) -> Result<(), LayoutError>
        ensures ok { OnOk result (self.new ≡ faults.added part self.old) }
        ensures err { OnErr result (self.new ≡ self.old) }
        ensures tested { faults.Tests (faults.add_fault self.old part) result }
    {
        let parts = self.parts.as_slice();
        let part = tested_part(alloc, &self.column, self.kind, parts, &part)?;
        self.push(alloc, part)?;
        Ok(())
    }

    /// One partition without ends for rows of this shape, which has the table's name.
    pub fn whole(
        alloc: Global,
        shape: &Shape,
        name: Name,
        hash: Items<Name>,
        buckets: u32,
    ) -> Result<Layout, NoMemory>
        ensures { IfOk result (λ l. l ≡ whole shape.now name hash buckets) }
    {
        let parts = whole_part(alloc, name)?;
        Layout::of_parts(alloc, shape, None, parts, hash, buckets)
    }

    /// The names of the columns of its rows.
    pub fn columns(&self) -> &[Name]
        ensures { result.now ≡ self.now.columns }
    {
        self.columns.as_slice()
    }

    /// The column that the partitions are ranges of.
    pub fn column(&self) -> Option<&Name>
        ensures { option_copied result ≡ self.now.column }
    {
        self.column.as_ref()
    }

    /// The partitions in their order, each range as a Between.
    pub fn parts(&self) -> &[PartDef]
        ensures { result.now ≡ self.now.parts }
    {
        self.parts.as_slice()
    }

    /// The columns that the buckets are hashed by.
    pub fn hash(&self) -> &[Name]
        ensures { result.now ≡ self.now.hash }
    {
        self.hash.as_slice()
    }

    /// How many buckets each partition has.
    pub fn buckets(&self) -> u32
        ensures { result ≡ self.now.buckets }
    {
        self.buckets
    }

    /// An equal layout of its own.
    pub fn copy(&self, alloc: Global) -> Result<Layout, NoMemory>
        ensures { IfOk result (λ l. l ≡ self.now) }
    {
        let columns = copy_names(alloc, self.columns.as_slice())?;
        let column = copy_name(alloc, &self.column)?;
        let parts = copy_parts(alloc, self.parts.as_slice())?;
        let hash = copy_names(alloc, self.hash.as_slice())?;
        let order = Vec::from_slice(alloc, self.order.as_slice())?;
        let hash_at = Vec::from_slice(alloc, self.hash_at.as_slice())?;
        Ok(Layout {
            columns,
            kind: self.kind,
            column,
            parts,
            hash,
            buckets: self.buckets,
            order,
            column_at: self.column_at,
            hash_at,
        })
    }

    /// The same layout for rows of another shape, whose columns may stand at other places.
    pub fn over(&self, alloc: Global, shape: &Shape) -> Result<Layout, NoMemory>
        ensures { IfOk result (λ l. l ≡ over shape.now self.now) }
    {
        let columns = names_of(alloc, shape.columns())?;
        let hash_at = positions_of(alloc, columns.as_slice(), self.hash.as_slice())?;
        let column_at = column_position(columns.as_slice(), &self.column);
        let layout = self.copy(alloc)?;
        Ok(Layout {
            columns,
            kind: type_of(shape.columns(), &self.column),
            column: layout.column,
            parts: layout.parts,
            hash: layout.hash,
            buckets: layout.buckets,
            order: layout.order,
            column_at,
            hash_at,
        })
    }

    // The number of the first partition that holds these cells.
    fn part_of(&self, cells: &[Cell]) -> Option<usize>
        ensures { result ≡ places.part_of self.now.columns self.now cells.now }
    {
        match &self.column {
            None => if self.parts.is_empty() { None } else { Some(0) },
            Some(_) => match cell_at(cells, self.column_at) {
                None => None,
                Some(cell) => part_with(self.parts.as_slice(), self.order.as_slice(), cell),
            },
        }
    }

    // The bucket of these cells.
    fn bucket_of(&self, cells: &[Cell]) -> u32
        ensures { result ≡ places.bucket_of self.now.columns self.now cells.now }
    {
        let hash = hash_cells(cells, self.hash_at.as_slice());
        if self.buckets == 0 {
            return hash;
        }
        hash % self.buckets
    }

    /// The partition and the bucket of a row, by their numbers, or None where the row is outside every partition. Takes no
    /// memory.
    pub fn place(&self, row: &Row) -> Option<(usize, usize)>
        ensures { MatchOption result (places.place_for self.now row.now ≡ None) (λ w. places.place_for self.now row.now ≡ Some (record { part = w.0; bucket = w.1 })) }
    {
        self.place_cells(row.cells())
    }

    /// The place of the row of these cells.
    pub fn place_cells(&self, cells: &[Cell]) -> Option<(usize, usize)>
        ensures { MatchOption result (places.place_for self.now cells.now ≡ None) (λ w. places.place_for self.now cells.now ≡ Some (record { part = w.0; bucket = w.1 })) }
    {
        match self.part_of(cells) {
            None => None,
            Some(part) => Some((part, self.bucket_of(cells) as usize)),
        }
    }
}

// The cell at a position, where there is one.
fn cell_at(cells: &[Cell], position: Option<usize>) -> Option<&Cell>
    ensures { option_copied result ≡ search.cell_at position cells.now }
{
    match position {
        None => None,
        Some(position) => cells.get(position),
    }
}
