// The order and the limit of an answer.
ghost use Rattle.std.specs.Prelude.{◌≡◌, IfOk, OnOk, position};
ghost use Rattle.dl_values.specs.Order.{cell_cmp};
ghost use Rattle.select_defs.specs.Items.{same_item};
ghost use Rattle.select_defs.specs.Orders as orders;

use crate::items::same_item;
use dl_values::{Cell, NoMemory, Row, Rows, compare_cells, compare_slices};
use sql_text::{Item, OrderBy, OrderKey};
use std::alloc::Global;
use std::cmp::Ordering;

fn place_of(list: &[Item], item: &Item) -> Option<usize>
    ensures { result ≡ position (same_item item.now) list.now }
{
    list.iter().position(|other| same_item(item, other))
}

fn place_by(list: &[Item], by: &OrderBy) -> usize
    ensures { result ≡ orders.place_by list.now by.now }
{
    match by {
        OrderBy::Item(item) => place_of(list, item).unwrap_or(0),
        OrderBy::Position(position) => place_from(*position),
    }
}

fn place_from(position: i64) -> usize
    ensures { result ≡ orders.place_from position }
{
    if position < 1 {
        return 0;
    }
    (position - 1) as usize
}

fn compare_at(a: &[Cell], b: &[Cell], place: usize) -> Ordering
    ensures { result ≡ cell_cmp (orders.cell_at a.now place) (orders.cell_at b.now place) }
{
    let null = Cell::Null;
    compare_cells(a.get(place).unwrap_or(&null), b.get(place).unwrap_or(&null))
}

fn directed(descending: bool, order: Ordering) -> Ordering
    ensures { result ≡ orders.directed descending order }
{
    if descending {
        return order.reverse();
    }
    order
}

fn key_order(list: &[Item], key: &OrderKey, a: &[Cell], b: &[Cell]) -> Ordering
    ensures { result ≡ orders.key_cmp list.now key.now a.now b.now }
{
    directed(key.descending, compare_at(a, b, place_by(list, &key.by)))
}

/// How two rows of an answer stand to each other.
pub fn order_of(list: &[Item], keys: &[OrderKey], a: &[Cell], b: &[Cell]) -> Ordering
    ensures { result ≡ orders.order_cmp list.now keys.now a.now b.now }
{
    match keys {
        [] => compare_slices(a, b),
        [key, rest @ ..] => match key_order(list, key, a, b) {
            Ordering::Equal => order_of(list, rest, a, b),
            other => other,
        },
    }
}

/// Puts the rows of an answer in their order.
pub fn sort(list: &[Item], keys: &[OrderKey], rows: &mut Vec<Row>) -> Result<(), NoMemory>
    ensures { OnOk result (rows.new.items ≡ orders.ordered list.now keys.now rows.old.items) }
{
    rows.sort_by(
        |a: &Row, b: &Row| -> Ordering
            ensures { result ≡ orders.order_cmp list.entry.now keys.entry.now a.now b.now }
        { order_of(list, keys, a.cells(), b.cells()) },
    )?;
    Ok(())
}

fn first(limit: Option<u64>, rows: &[Row]) -> &[Row]
    ensures { result.now ≡ orders.limited limit rows.now }
{
    match limit {
        Some(limit) if limit < rows.len() as u64 => &rows[..limit as usize],
        _ => rows,
    }
}

fn copies(alloc: Global, rows: &[Row]) -> Result<Rows, NoMemory>
    ensures { IfOk result (λ out. out ≡ rows.now) }
{
    let mut out = Rows::new(alloc);
    for row in rows {
        out.push_copy(alloc, row.cells())?;
    }
    Ok(out)
}

/// At most so many of the first rows.
pub fn limited(alloc: Global, limit: Option<u64>, rows: &[Row]) -> Result<Rows, NoMemory>
    ensures { IfOk result (λ out. out ≡ orders.limited limit rows.now) }
{
    copies(alloc, first(limit, rows))
}
