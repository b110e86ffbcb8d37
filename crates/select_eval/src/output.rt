// The select list of a query whose columns were looked up once, and what a row adds to a group.
ghost use Rattle.std.specs.Prelude.{◌≡◌, ◌∷◌, [], IfOk, OnOk, map};
ghost use Rattle.agg_functions.specs.Merge.{merged_cell};
ghost use Rattle.dl_values.specs.declared.agg_kind.AggKind.TheVariants as merge;
ghost use Rattle.dl_values.specs.declared.cell.Cell.TheVariants as cell;
ghost use Rattle.merge_read.specs.Merged.{row_of};
ghost use Rattle.select_defs.specs.Aggregates.{aggregate};
ghost use Rattle.select_defs.specs.Laws.{joined};
ghost use Rattle.select_eval.specs.Outputs as outputs;
ghost use Rattle.select_eval.specs.Places.{cell_in};

use crate::cells::{copy_at, copy_of_key, is_null_at, number_at};
use agg_functions::merge_cells;
use dl_values::{AggKind, Cell, Name, NoMemory};
use merge_read::MergedCell;
use schema_models::Shape;
use sql_text::{AggFn, Item};
use std::alloc::Global;
use std::mem;

// A member of the select list of groups: a cell of the key at a place, or an aggregate of the cells at a place of the rows.
#[derive(Clone, Copy, Debug)]
pub enum Output {
    Key(Option<usize>),
    Agg(AggFn, Option<usize>),
    CountAll,
}

fn place_in(group: &[Name], name: &Name) -> Option<usize>
    ensures { result ≡ outputs.place_in group.now name.now }
{
    group.iter().position(|other| *other == *name)
}

fn output_of(index: &Shape, group: &[Name], item: &Item) -> Output
    ensures { result ≡ outputs.output_of index.now group.now item.now }
{
    match item {
        Item::Column(name) => Output::Key(place_in(group, name)),
        Item::Agg(function, name) => Output::Agg(*function, index.position(name)),
        Item::CountAll => Output::CountAll,
    }
}

// A select list, looked up.
pub fn outputs_of(
    alloc: Global,
    index: &Shape,
    group: &[Name],
    list: &[Item],
) -> Result<Vec<Output>, NoMemory>
    ensures { IfOk result (λ v. v.items ≡ map (outputs.output_of index.now group.now) list.now) }
{
    let mut all = Vec::with_capacity(alloc, list.len())?;
    for item in list {
        all.push(output_of(index, group, item))?;
    }
    Ok(all)
}

// What an aggregate has of no cell.
fn of_none(function: AggFn) -> Cell
    ensures { result ≡ aggregate function [] }
{
    match function {
        AggFn::Sum | AggFn::Min | AggFn::Max => Cell::Null,
        AggFn::Count => Cell::Int(0),
    }
}

// Adds a number to a sum or a count. The most frequent case takes no cell away.
#[inline(always)]
fn add_number(kept: &mut Cell, more: i64)
    ensures { kept.new ≡ merged_cell merge.Sum kept.old (cell.Int more) }
{
    match &*kept {
        Cell::Int(sum) => {
            let sum = sum.wrapping_add(more);
            *kept = Cell::Int(sum);
        }
        _ => {
            let older = mem::replace(kept, Cell::Null);
            *kept = merge_cells(AggKind::Sum, older, Cell::Int(more));
        }
    }
}

// Merges the cell of a row into a cell.
fn merge_at(
    alloc: Global,
    kind: AggKind,
    kept: &mut Cell,
    row: &[MergedCell],
    place: Option<usize>,
) -> Result<(), NoMemory>
    ensures { OnOk result (kept.new ≡ merged_cell kind kept.old (cell_in (row_of row.now) place)) }
{
    let newer = copy_at(alloc, row, place)?;
    let older = mem::replace(kept, Cell::Null);
    *kept = merge_cells(kind, older, newer);
    Ok(())
}

// Puts the cell of a row into an aggregate.
#[inline(always)]
fn add_cell(
    alloc: Global,
    function: AggFn,
    kept: &mut Cell,
    row: &[MergedCell],
    place: Option<usize>,
) -> Result<(), NoMemory>
    ensures { OnOk result (kept.new ≡ joined function kept.old (aggregate function (cell_in (row_of row.now) place ∷ []))) }
{
    match function {
        AggFn::Sum => match number_at(row, place) {
            Some(more) => {
                add_number(kept, more);
                Ok(())
            }
            None => merge_at(alloc, AggKind::Sum, kept, row, place),
        },
        AggFn::Min => merge_at(alloc, AggKind::Min, kept, row, place),
        AggFn::Max => merge_at(alloc, AggKind::Max, kept, row, place),
        AggFn::Count => {
            let one = if is_null_at(row, place) { 0 } else { 1 };
            add_number(kept, one);
            Ok(())
        }
    }
}

impl Output {
    // The cell of a group of a key that has no row yet.
    pub fn fresh(self, alloc: Global, key: &[Cell]) -> Result<Cell, NoMemory>
        ensures { IfOk result (λ c. c ≡ outputs.fresh key.now self) }
    {
        match self {
            Output::Key(place) => copy_of_key(alloc, key, place),
            Output::Agg(function, _) => Ok(of_none(function)),
            Output::CountAll => Ok(Cell::Int(0)),
        }
    }

    // Puts a row into the cell.
    #[inline(always)]
    pub fn add(self, alloc: Global, kept: &mut Cell, row: &[MergedCell]) -> Result<(), NoMemory>
        ensures { OnOk result (kept.new ≡ outputs.more self kept.old (row_of row.now)) }
    {
        match self {
            Output::Key(_) => Ok(()),
            Output::Agg(function, place) => add_cell(alloc, function, kept, row, place),
            Output::CountAll => {
                add_number(kept, 1);
                Ok(())
            }
        }
    }
}
