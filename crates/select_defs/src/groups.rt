// The rows of an answer before they are ordered.
ghost use Rattle.std.specs.Prelude.{◌≡◌, IfOk, OnOk, map};
ghost use Rattle.std.specs.BTreeSet.{insert_key};
ghost use Rattle.dl_values.specs.Order.{row_cmp};
ghost use Rattle.select_defs.specs.Groups as groups;
ghost use Rattle.select_defs.specs.Items as items;

use crate::aggregates::{aggregate, cells_of, count_cell};
use crate::columns::{cell_named, cell_of_key};
use crate::filters::selected;
use crate::refusals::is_grouped;
use dl_values::{Cell, Name, NoMemory, Row, Rows, compare_slices};
use schema_models::Shape;
use sql_text::{Item, Query};
use std::alloc::Global;
use std::cmp::Ordering;

fn group_key(alloc: Global, shape: &Shape, group: &[Name], row: &[Cell]) -> Result<Row, NoMemory>
    ensures { IfOk result (λ k. k ≡ groups.group_key shape.now group.now row.now) }
{
    let mut key = Row::with_room(alloc, group.len())?;
    for name in group {
        key.push(cell_named(alloc, shape, name, row)?)?;
    }
    Ok(key)
}

// Puts a key in its place among ascending keys, if it is not there.
fn add_key(alloc: Global, keys: &mut Vec<Row>, key: &[Cell]) -> Result<(), NoMemory>
    ensures { OnOk result (keys.new.items ≡ insert_key row_cmp keys.old.items key.now) }
{
    for i in 0..keys.len() {
        match compare_slices(key, keys[i].cells()) {
            Ordering::Greater => {}
            Ordering::Equal => return Ok(()),
            Ordering::Less => {
                keys.insert(i, Row::from_cells(alloc, key)?)?;
                return Ok(());
            }
        }
    }
    keys.push(Row::from_cells(alloc, key)?)?;
    Ok(())
}

fn group_keys(
    alloc: Global,
    shape: &Shape,
    group: &[Name],
    rows: &Rows,
) -> Result<Vec<Row>, NoMemory>
    ensures { IfOk result (λ keys. keys.items ≡ groups.group_keys shape.now group.now rows.now) }
{
    let mut keys = Vec::new(alloc);
    if group.is_empty() {
        keys.push(Row::new(alloc))?;
        return Ok(keys);
    }
    let mut place = rows.len();
    while place > 0 {
        place -= 1;
        let key = group_key(alloc, shape, group, rows.row(place))?;
        add_key(alloc, &mut keys, key.cells())?;
    }
    Ok(keys)
}

fn rows_of_group(
    alloc: Global,
    shape: &Shape,
    group: &[Name],
    key: &[Cell],
    rows: &Rows,
) -> Result<Rows, NoMemory>
    ensures { IfOk result (λ out. out ≡ groups.rows_of_group shape.now group.now key.now rows.now) }
{
    let mut out = Rows::new(alloc);
    for place in 0..rows.len() {
        let row = rows.row(place);
        let other = group_key(alloc, shape, group, row)?;
        if compare_slices(key, other.cells()) == Ordering::Equal {
            out.push(Row::from_cells(alloc, row)?)?;
        }
    }
    Ok(out)
}

fn group_cell(
    alloc: Global,
    shape: &Shape,
    group: &[Name],
    key: &[Cell],
    rows: &Rows,
    item: &Item,
) -> Result<Cell, NoMemory>
    ensures { IfOk result (λ c. c ≡ groups.group_cell shape.now group.now key.now rows.now item.now) }
{
    match item {
        Item::Column(name) => cell_of_key(alloc, group, name, key),
        Item::Agg(function, name) => {
            let cells = cells_of(alloc, shape, name, rows)?;
            aggregate(alloc, *function, cells.as_slice())
        }
        Item::CountAll => Ok(count_cell(rows.len())),
    }
}

#[tactic(auto, unfolding(crate::specs::Groups::group_row))]
fn group_row(
    alloc: Global,
    shape: &Shape,
    group: &[Name],
    list: &[Item],
    rows: &Rows,
    key: &[Cell],
) -> Result<Row, NoMemory>
    ensures { IfOk result (λ r. r ≡ groups.group_row shape.now group.now list.now rows.now key.now) }
{
    let own = rows_of_group(alloc, shape, group, key, rows)?;
    let mut row = Row::with_room(alloc, list.len())?;
    for item in list {
        row.push(group_cell(alloc, shape, group, key, &own, item)?)?;
    }
    Ok(row)
}

fn group_rows(
    alloc: Global,
    shape: &Shape,
    group: &[Name],
    list: &[Item],
    rows: &Rows,
) -> Result<Vec<Row>, NoMemory>
    ensures { IfOk result (λ v. v.items ≡ groups.group_rows shape.now group.now list.now rows.now) }
{
    let keys = group_keys(alloc, shape, group, rows)?;
    let mut all = Vec::with_capacity(alloc, keys.len())?;
    for key in &keys {
        all.push(group_row(alloc, shape, group, list, rows, key.cells())?)?;
    }
    Ok(all)
}

fn plain_cell(alloc: Global, shape: &Shape, row: &[Cell], item: &Item) -> Result<Cell, NoMemory>
    ensures { IfOk result (λ c. c ≡ groups.plain_cell shape.now row.now item.now) }
{
    match item {
        Item::Column(name) => cell_named(alloc, shape, name, row),
        Item::Agg(..) | Item::CountAll => Ok(Cell::Null),
    }
}

#[tactic(auto, unfolding(crate::specs::Groups::plain_row))]
fn plain_row(alloc: Global, shape: &Shape, list: &[Item], row: &[Cell]) -> Result<Row, NoMemory>
    ensures { IfOk result (λ r. r ≡ groups.plain_row shape.now list.now row.now) }
{
    let mut out = Row::with_room(alloc, list.len())?;
    for item in list {
        out.push(plain_cell(alloc, shape, row, item)?)?;
    }
    Ok(out)
}

fn plain_rows(
    alloc: Global,
    shape: &Shape,
    list: &[Item],
    rows: &Rows,
) -> Result<Vec<Row>, NoMemory>
    ensures { IfOk result (λ v. v.items ≡ map (groups.plain_row shape.now list.now) rows.now) }
{
    let mut all = Vec::with_capacity(alloc, rows.len())?;
    for place in 0..rows.len() {
        all.push(plain_row(alloc, shape, list, rows.row(place))?)?;
    }
    Ok(all)
}

/// The rows of the answer of these rows, by the select list of the query.
pub fn output_rows(
    alloc: Global,
    base: &Shape,
    shape: &Shape,
    query: &Query,
    list: &[Item],
    rows: &Rows,
) -> Result<Vec<Row>, NoMemory>
    requires { list.now ≡ items.items_of base.now query.now }
    ensures { IfOk result (λ v. v.items ≡ groups.output_rows base.now shape.now query.now rows.now) }
{
    let passing = selected(alloc, base, shape, query, rows)?;
    if is_grouped(base, query, list) {
        return group_rows(alloc, shape, query.group.as_slice(), list, &passing);
    }
    plain_rows(alloc, shape, list, &passing)
}
