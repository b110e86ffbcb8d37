// The first refusal of a query.
ghost use Rattle.std.specs.Prelude.{◌≡◌, IfOk, map};
ghost use Rattle.std.specs.List.{list_any};
ghost use Rattle.std.specs.Str.{bytes_eq};
ghost use Rattle.schema_models.specs.Faults.{first_of};
ghost use Rattle.sql_text.specs.declared.query.Filter.{Filter};
ghost use Rattle.sql_text.specs.declared.query.OrderKey.{OrderKey};
ghost use Rattle.select_defs.specs.Items as items;
ghost use Rattle.select_defs.specs.Refusals as refusals;

use crate::SelectError;
use crate::columns::kind_named;
use crate::filters::literal_cell;
use crate::item_names::output_bytes;
use crate::items::{is_aggregate, items_of, same_item};
use dl_values::{ColType, Name, NoMemory};
use itoa::Buffer;
use schema_models::Shape;
use sql_text::{AggFn, Check, Filter, Item, OrderBy, OrderKey, Query};
use std::alloc::Global;

fn unknown(alloc: Global, base: &Shape, name: &Name) -> Result<Option<Name>, NoMemory>
    ensures { IfOk result (λ n. n ≡ refusals.unknown base.now name.now) }
{
    match kind_named(base, name) {
        Some(_) => Ok(None),
        None => Ok(Some(name.copy(alloc)?)),
    }
}

fn unknown_item(alloc: Global, base: &Shape, item: &Item) -> Result<Option<Name>, NoMemory>
    ensures { IfOk result (λ n. n ≡ refusals.unknown_item base.now item.now) }
{
    match item {
        Item::Column(name) | Item::Agg(_, name) => unknown(alloc, base, name),
        Item::CountAll => Ok(None),
    }
}

fn unknown_in_items(alloc: Global, base: &Shape, list: &[Item]) -> Result<Option<Name>, NoMemory>
    ensures { IfOk result (λ n. n ≡ first_of (map (refusals.unknown_item base.now) list.now)) }
{
    for item in list {
        if let Some(name) = unknown_item(alloc, base, item)? {
            return Ok(Some(name));
        }
    }
    Ok(None)
}

fn unknown_in_filters(
    alloc: Global,
    base: &Shape,
    list: &[Filter],
) -> Result<Option<Name>, NoMemory>
    ensures { IfOk result (λ n. n ≡ first_of (map (λ (f : Filter). refusals.unknown base.now f.column) list.now)) }
{
    for filter in list {
        if let Some(name) = unknown(alloc, base, &filter.column)? {
            return Ok(Some(name));
        }
    }
    Ok(None)
}

fn unknown_in_names(alloc: Global, base: &Shape, list: &[Name]) -> Result<Option<Name>, NoMemory>
    ensures { IfOk result (λ n. n ≡ first_of (map (refusals.unknown base.now) list.now)) }
{
    for name in list {
        if let Some(name) = unknown(alloc, base, name)? {
            return Ok(Some(name));
        }
    }
    Ok(None)
}

fn is_item_of(list: &[Item], item: &Item) -> bool
    ensures { result ≡ list_any (items.same_item item.now) list.now }
{
    for other in list {
        if same_item(item, other) {
            return true;
        }
    }
    false
}

fn is_position(list: &[Item], position: i64) -> bool
    ensures { result ≡ refusals.is_position list.now position }
{
    position >= 1 && position as u64 <= list.len() as u64
}

fn not_selected(alloc: Global, list: &[Item], by: &OrderBy) -> Result<Option<Name>, NoMemory>
    ensures { IfOk result (λ n. n ≡ refusals.not_selected list.now by.now) }
{
    match by {
        OrderBy::Item(item) => {
            if is_item_of(list, item) {
                return Ok(None);
            }
            let bytes = output_bytes(alloc, item)?;
            Ok(Some(Name::new(alloc, bytes.as_slice())?))
        }
        OrderBy::Position(position) => {
            if is_position(list, *position) {
                return Ok(None);
            }
            let mut digits = Buffer::new();
            Ok(Some(Name::new(alloc, digits.format(*position).as_bytes())?))
        }
    }
}

fn not_selected_in(
    alloc: Global,
    list: &[Item],
    keys: &[OrderKey],
) -> Result<Option<Name>, NoMemory>
    ensures { IfOk result (λ n. n ≡ first_of (map (λ (k : OrderKey). refusals.not_selected list.now k.by) keys.now)) }
{
    for key in keys {
        if let Some(name) = not_selected(alloc, list, &key.by)? {
            return Ok(Some(name));
        }
    }
    Ok(None)
}

fn no_column(
    alloc: Global,
    base: &Shape,
    query: &Query,
    list: &[Item],
) -> Result<Option<Name>, NoMemory>
    requires { list.now ≡ items.items_of base.now query.now }
    ensures { IfOk result (λ n. n ≡ refusals.no_column base.now query.now) }
{
    if let Some(name) = unknown_in_items(alloc, base, list)? {
        return Ok(Some(name));
    }
    if let Some(name) = unknown_in_filters(alloc, base, query.filters.as_slice())? {
        return Ok(Some(name));
    }
    if let Some(name) = unknown_in_names(alloc, base, query.group.as_slice())? {
        return Ok(Some(name));
    }
    not_selected_in(alloc, list, query.order.as_slice())
}

fn is_integer(kind: ColType) -> bool
    ensures { result ≡ refusals.is_integer kind }
{
    match kind {
        ColType::Date | ColType::Varchar(_) => false,
        ColType::TinyInt | ColType::SmallInt | ColType::Int | ColType::BigInt => true,
    }
}

fn sums_in(kind: Option<ColType>) -> bool
    ensures { result ≡ refusals.sums_in kind }
{
    match kind {
        Some(kind) => is_integer(kind),
        None => true,
    }
}

fn bad_sum(alloc: Global, base: &Shape, item: &Item) -> Result<Option<Name>, NoMemory>
    ensures { IfOk result (λ n. n ≡ refusals.bad_sum base.now item.now) }
{
    let Item::Agg(AggFn::Sum, name) = item else {
        return Ok(None);
    };
    if sums_in(kind_named(base, name)) {
        return Ok(None);
    }
    Ok(Some(name.copy(alloc)?))
}

fn bad_sum_in(alloc: Global, base: &Shape, list: &[Item]) -> Result<Option<Name>, NoMemory>
    ensures { IfOk result (λ n. n ≡ first_of (map (refusals.bad_sum base.now) list.now)) }
{
    for item in list {
        if let Some(name) = bad_sum(alloc, base, item)? {
            return Ok(Some(name));
        }
    }
    Ok(None)
}

fn fits_check(alloc: Global, kind: ColType, check: &Check) -> Result<bool, NoMemory>
    ensures { IfOk result (λ b. b ≡ refusals.fits_check kind check.now) }
{
    let Check::Compare(_, literal) = check else {
        return Ok(true);
    };
    Ok(literal_cell(alloc, kind, literal)?.is_some())
}

fn fits_in(alloc: Global, kind: Option<ColType>, check: &Check) -> Result<bool, NoMemory>
    ensures { IfOk result (λ b. b ≡ refusals.fits_in kind check.now) }
{
    match kind {
        Some(kind) => fits_check(alloc, kind, check),
        None => Ok(true),
    }
}

fn bad_filter(alloc: Global, base: &Shape, filter: &Filter) -> Result<Option<Name>, NoMemory>
    ensures { IfOk result (λ n. n ≡ refusals.bad_filter base.now filter.now) }
{
    if fits_in(alloc, kind_named(base, &filter.column), &filter.check)? {
        return Ok(None);
    }
    Ok(Some(filter.column.copy(alloc)?))
}

fn bad_filter_in(alloc: Global, base: &Shape, list: &[Filter]) -> Result<Option<Name>, NoMemory>
    ensures { IfOk result (λ n. n ≡ first_of (map (refusals.bad_filter base.now) list.now)) }
{
    for filter in list {
        if let Some(name) = bad_filter(alloc, base, filter)? {
            return Ok(Some(name));
        }
    }
    Ok(None)
}

fn bad_compare(
    alloc: Global,
    base: &Shape,
    query: &Query,
    list: &[Item],
) -> Result<Option<Name>, NoMemory>
    requires { list.now ≡ items.items_of base.now query.now }
    ensures { IfOk result (λ n. n ≡ refusals.bad_compare base.now query.now) }
{
    if let Some(name) = bad_sum_in(alloc, base, list)? {
        return Ok(Some(name));
    }
    bad_filter_in(alloc, base, query.filters.as_slice())
}

fn has_aggregate(list: &[Item]) -> bool
    ensures { result ≡ list_any items.is_aggregate list.now }
{
    for item in list {
        if is_aggregate(item) {
            return true;
        }
    }
    false
}

/// Whether the rows of the answer are groups, by the query and its select list.
pub fn is_grouped(base: &Shape, query: &Query, list: &[Item]) -> bool
    requires { list.now ≡ items.items_of base.now query.now }
    ensures { result ≡ refusals.is_grouped base.now query.now }
{
    let _ = base;
    has_aggregate(list) || !query.group.as_slice().is_empty()
}

fn is_name_of(group: &[Name], name: &Name) -> bool
    ensures { result ≡ list_any (bytes_eq name.now) group.now }
{
    for other in group {
        if *name == *other {
            return true;
        }
    }
    false
}

fn ungrouped(alloc: Global, group: &[Name], item: &Item) -> Result<Option<Name>, NoMemory>
    ensures { IfOk result (λ n. n ≡ refusals.ungrouped group.now item.now) }
{
    let Item::Column(name) = item else {
        return Ok(None);
    };
    if is_name_of(group, name) {
        return Ok(None);
    }
    Ok(Some(name.copy(alloc)?))
}

fn ungrouped_in(alloc: Global, group: &[Name], list: &[Item]) -> Result<Option<Name>, NoMemory>
    ensures { IfOk result (λ n. n ≡ first_of (map (refusals.ungrouped group.now) list.now)) }
{
    for item in list {
        if let Some(name) = ungrouped(alloc, group, item)? {
            return Ok(Some(name));
        }
    }
    Ok(None)
}

fn not_grouped(
    alloc: Global,
    base: &Shape,
    query: &Query,
    list: &[Item],
) -> Result<Option<Name>, NoMemory>
    requires { list.now ≡ items.items_of base.now query.now }
    ensures { IfOk result (λ n. n ≡ refusals.not_grouped base.now query.now) }
{
    if is_grouped(base, query, list) {
        return ungrouped_in(alloc, query.group.as_slice(), list);
    }
    Ok(None)
}

/// The first refusal of a query, if there is one.
pub fn refusal(alloc: Global, base: &Shape, query: &Query) -> Result<Option<SelectError>, NoMemory>
    ensures { IfOk result (λ r. r ≡ refusals.refusal base.now query.now) }
{
    let list = items_of(alloc, base, query)?;
    if let Some(column) = no_column(alloc, base, query, list.as_slice())? {
        return Ok(Some(SelectError::NoColumn { column }));
    }
    if let Some(column) = bad_compare(alloc, base, query, list.as_slice())? {
        return Ok(Some(SelectError::BadCompare { column }));
    }
    if let Some(column) = not_grouped(alloc, base, query, list.as_slice())? {
        return Ok(Some(SelectError::NotGrouped { column }));
    }
    Ok(None)
}
