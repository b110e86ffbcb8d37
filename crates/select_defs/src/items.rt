// The members of a select list.
ghost use Rattle.std.specs.Prelude.{◌≡◌, IfOk, map};
ghost use Rattle.schema_models.specs.declared.column_def.ColumnDef.{ColumnDef};
ghost use Rattle.sql_text.specs.declared.query.Item.TheVariants as item;
ghost use Rattle.select_defs.specs.Items as items;

use dl_values::NoMemory;
use schema_models::{ColumnDef, Shape};
use sql_text::{Item, Query};
use std::alloc::Global;

fn copy_item(alloc: Global, item: &Item) -> Result<Item, NoMemory>
    ensures { IfOk result (λ i. i ≡ item.now) }
{
    match item {
        Item::Column(name) => Ok(Item::Column(name.copy(alloc)?)),
        Item::Agg(function, name) => Ok(Item::Agg(*function, name.copy(alloc)?)),
        Item::CountAll => Ok(Item::CountAll),
    }
}

fn copy_items(alloc: Global, list: &[Item]) -> Result<Vec<Item>, NoMemory>
    ensures { IfOk result (λ v. v.items ≡ list.now) }
{
    let mut all = Vec::with_capacity(alloc, list.len())?;
    for item in list {
        all.push(copy_item(alloc, item)?)?;
    }
    Ok(all)
}

fn each_column(alloc: Global, columns: &[ColumnDef]) -> Result<Vec<Item>, NoMemory>
    ensures { IfOk result (λ v. v.items ≡ map (λ (c : ColumnDef). item.Column c.name) columns.now) }
{
    let mut all = Vec::with_capacity(alloc, columns.len())?;
    for column in columns {
        all.push(Item::Column(column.name.copy(alloc)?))?;
    }
    Ok(all)
}

/// The select list of a query, in which `*` is every column of the base.
pub fn items_of(alloc: Global, base: &Shape, query: &Query) -> Result<Vec<Item>, NoMemory>
    ensures { IfOk result (λ v. v.items ≡ items.items_of base.now query.now) }
{
    if query.star {
        return each_column(alloc, base.columns());
    }
    copy_items(alloc, query.items.as_slice())
}

/// Whether two items are written alike.
pub fn same_item(one: &Item, other: &Item) -> bool
    ensures { result ≡ items.same_item one.now other.now }
{
    match (one, other) {
        (Item::Column(a), Item::Column(b)) => a == b,
        (Item::Agg(f, a), Item::Agg(g, b)) => f == g && a == b,
        (Item::CountAll, Item::CountAll) => true,
        _ => false,
    }
}

/// Whether an item is an aggregate.
pub fn is_aggregate(item: &Item) -> bool
    ensures { result ≡ items.is_aggregate item.now }
{
    match item {
        Item::Column(_) => false,
        Item::Agg(..) | Item::CountAll => true,
    }
}
