// Rows are put into groups by their keys, which stand in order.
ghost use Rattle.std.specs.Prelude.{◌≡◌, [], IfOk, OnOk, false, map, true};
ghost use Rattle.merge_read.specs.Merged.{row_of};
ghost use Rattle.select_eval.specs.Grouping as groups;
ghost use Rattle.select_eval.specs.Groupings.{grouping_of};
ghost use Rattle.select_eval.specs.Places.{place_of};

use crate::group::Group;
use crate::group_key::GroupKey;
use crate::output::{Output, outputs_of};
use dl_values::{Name, NoMemory, Row};
use merge_read::MergedCell;
use schema_models::Shape;
use sql_text::Item;
use std::alloc::Global;
use std::collections::BTreeMap;
use std::marker::Model;

// Where the cells of a key stand in a row, and the select list.
#[derive(Debug, Drop)]
pub struct Grouping {
    places: Vec<Option<usize>>,
    outputs: Vec<Output>,
}

impl Model for Grouping {
    ghost use Rattle.select_eval.specs.Grouping.{Grouping as Seen};

    ghost Value = { Seen };

    ghost view = { λ g. record { places = g.places.items; outputs = g.outputs.items } };
}

fn places_of(alloc: Global, index: &Shape, group: &[Name]) -> Result<Vec<Option<usize>>, NoMemory>
    ensures { IfOk result (λ v. v.items ≡ map (place_of index.now) group.now) }
{
    let mut all = Vec::with_capacity(alloc, group.len())?;
    for name in group {
        all.push(index.position(name))?;
    }
    Ok(all)
}

impl Grouping {
    // Rows of a shape by these names, for a select list.
    pub fn new(
        alloc: Global,
        index: &Shape,
        group: &[Name],
        list: &[Item],
    ) -> Result<Grouping, NoMemory>
        ensures { IfOk result (λ g. g ≡ grouping_of index.now group.now list.now) }
    {
        Ok(Grouping {
            places: places_of(alloc, index, group)?,
            outputs: outputs_of(alloc, index, group, list)?,
        })
    }

    // Whether all rows make one group.
    pub fn is_one(&self) -> bool
        ensures one { result ≡ true → self.now.places ≡ [] }
        ensures many { result ≡ false → groups.first_groups self.now ≡ [] }
    {
        match self.places.as_slice() {
            [] => true,
            [_, ..] => false,
        }
    }

    // The select list.
    pub fn outputs(&self) -> &[Output]
        ensures { result.now ≡ self.now.outputs }
    {
        self.outputs.as_slice()
    }

    // Puts a row into the group of its key. The key is made in the room of another one.
    #[inline(always)]
    pub fn put(
        &self,
        alloc: Global,
        all: &mut BTreeMap<GroupKey, Group>,
        key: &mut GroupKey,
        row: &[MergedCell],
    ) -> Result<(), NoMemory>
        ensures { OnOk result (all.new.entries ≡ groups.put self.now all.old.entries (row_of row.now)) }
    {
        key.refill(alloc, self.places.as_slice(), row)?;
        if let Some(group) = all.get_mut(&*key) {
            group.add(alloc, self.outputs.as_slice(), row)?;
            return Ok(());
        }
        let mut group = Group::begin(alloc, self.outputs.as_slice(), key.cells())?;
        group.add(alloc, self.outputs.as_slice(), row)?;
        all.insert(key.copy(alloc)?, group)?;
        Ok(())
    }
}

// The cells of groups as rows, by ascending key.
pub fn rows_of(alloc: Global, all: BTreeMap<GroupKey, Group>) -> Result<Vec<Row>, NoMemory>
    ensures { IfOk result (λ v. v.items ≡ map (λ e. e.1) all.entries) }
{
    let mut rows = Vec::with_capacity(alloc, all.len())?;
    for group in all.into_values() {
        rows.push(group.into_row(alloc)?)?;
    }
    Ok(rows)
}
