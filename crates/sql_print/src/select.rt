// SELECT.
ghost use Rattle.std.specs.Prelude.{◌≡◌, OnOk, codes, if◌then◌else◌};
ghost use Rattle.sql_print.specs.Steps.{put};
ghost use Rattle.sql_print.specs.Parts.{maybe, when, keyword};
ghost use Rattle.sql_print.specs.ShownSelect.{function_tokens, item_tokens, list_tokens, operator_tokens, check_tokens, filter_tokens, where_tokens, group_tokens, by_tokens, key_tokens, order_tokens, limit_tokens, query_end, query_tokens};
ghost use Rattle.sql_text.specs.declared.query.Item.TheVariants as item;
ghost use Rattle.sql_text.specs.declared.query.Check.TheVariants as check;

use crate::TokenWriter;
use crate::lists::{Separator, ShowTokens, show_list};
use crate::parts::show_literal;
use dl_values::{Name, NoMemory};
use sql_text::{AggFn, Check, CompareOp, Filter, Item, OrderBy, OrderKey, Query};
use sql_tokens::Sign;

#[tactic(auto, using(crate::proofs::Puts::put_put, crate::proofs::Puts::put_nil), unfolding(crate::specs::ShownSelect::function_tokens))]
fn show_function(writer: &mut TokenWriter, function: AggFn) -> Result<(), NoMemory>
    ensures { OnOk result (writer.new ≡ put writer.old (function_tokens function)) }
{
    match function {
        AggFn::Sum => writer.word(b"SUM"),
        AggFn::Min => writer.word(b"MIN"),
        AggFn::Max => writer.word(b"MAX"),
        AggFn::Count => writer.word(b"COUNT"),
    }
}

#[tactic(auto, using(crate::proofs::Puts::put_put, crate::proofs::Puts::put_nil), unfolding(crate::specs::ShownSelect::item_tokens))]
fn show_aggregate(writer: &mut TokenWriter, function: AggFn, column: &Name) -> Result<(), NoMemory>
    ensures { OnOk result (writer.new ≡ put writer.old (item_tokens (item.Agg function column.now))) }
{
    show_function(writer, function)?;
    writer.sign(Sign::Open)?;
    writer.name(column)?;
    writer.sign(Sign::Close)?;
    Ok(())
}

#[tactic(auto, using(crate::proofs::Puts::put_put, crate::proofs::Puts::put_nil), unfolding(crate::specs::ShownSelect::item_tokens))]
fn show_count_all(writer: &mut TokenWriter) -> Result<(), NoMemory>
    ensures { OnOk result (writer.new ≡ put writer.old (item_tokens item.CountAll)) }
{
    writer.word(b"COUNT")?;
    writer.sign(Sign::Open)?;
    writer.sign(Sign::Star)?;
    writer.sign(Sign::Close)?;
    Ok(())
}

#[tactic(auto, using(crate::proofs::Puts::put_put, crate::proofs::Puts::put_nil), unfolding(crate::specs::ShownSelect::item_tokens))]
fn show_item(writer: &mut TokenWriter, item: &Item) -> Result<(), NoMemory>
    ensures { OnOk result (writer.new ≡ put writer.old (item_tokens item.now)) }
{
    match item {
        Item::Column(name) => writer.name(name),
        Item::Agg(function, name) => show_aggregate(writer, *function, name),
        Item::CountAll => show_count_all(writer),
    }
}

impl ShowTokens for Item {
    ghost shown = { item_tokens };

    fn show(&self, writer: &mut TokenWriter) -> Result<(), NoMemory> {
        show_item(writer, self)
    }
}

#[tactic(auto, using(crate::proofs::Puts::put_put, crate::proofs::Puts::put_nil), unfolding(crate::specs::ShownSelect::list_tokens))]
fn show_select_list(writer: &mut TokenWriter, star: bool, items: &[Item]) -> Result<(), NoMemory>
    ensures { OnOk result (writer.new ≡ put writer.old (list_tokens star items.now)) }
{
    if star {
        return writer.sign(Sign::Star);
    }
    show_list(writer, Separator::Comma, items)
}

#[tactic(auto, using(crate::proofs::Puts::put_put, crate::proofs::Puts::put_nil), unfolding(crate::specs::ShownSelect::operator_tokens))]
fn show_operator(writer: &mut TokenWriter, operator: CompareOp) -> Result<(), NoMemory>
    ensures { OnOk result (writer.new ≡ put writer.old (operator_tokens operator)) }
{
    match operator {
        CompareOp::Eq => writer.sign(Sign::Equal),
        CompareOp::Ne => writer.sign(Sign::Unequal),
        CompareOp::Lt => writer.sign(Sign::Less),
        CompareOp::Le => writer.sign(Sign::AtMost),
        CompareOp::Gt => writer.sign(Sign::Greater),
        CompareOp::Ge => writer.sign(Sign::AtLeast),
    }
}

#[tactic(auto, using(crate::proofs::Puts::put_put, crate::proofs::Puts::put_nil), unfolding(crate::specs::ShownSelect::check_tokens))]
fn show_null_check(writer: &mut TokenWriter, null: bool) -> Result<(), NoMemory>
    ensures { OnOk result (writer.new ≡ put writer.old (check_tokens (if null then check.IsNull else check.IsNotNull))) }
{
    writer.word(b"IS")?;
    if !null {
        writer.word(b"NOT")?;
    }
    writer.word(b"NULL")?;
    Ok(())
}

#[tactic(auto, using(crate::proofs::Puts::put_put, crate::proofs::Puts::put_nil), unfolding(crate::specs::ShownSelect::check_tokens))]
fn show_check(writer: &mut TokenWriter, check: &Check) -> Result<(), NoMemory>
    ensures { OnOk result (writer.new ≡ put writer.old (check_tokens check.now)) }
{
    match check {
        Check::Compare(operator, literal) => {
            show_operator(writer, *operator)?;
            show_literal(writer, literal)?;
            Ok(())
        }
        Check::IsNull => show_null_check(writer, true),
        Check::IsNotNull => show_null_check(writer, false),
    }
}

impl ShowTokens for Filter {
    ghost shown = { filter_tokens };

    #[tactic(auto, using(crate::proofs::Puts::put_put, crate::proofs::Puts::put_nil), unfolding(crate::specs::ShownSelect::filter_tokens))]
    fn show(&self, writer: &mut TokenWriter) -> Result<(), NoMemory> {
        writer.name(&self.column)?;
        show_check(writer, &self.check)?;
        Ok(())
    }
}

#[tactic(auto, using(crate::proofs::Puts::put_put, crate::proofs::Puts::put_nil), unfolding(crate::specs::ShownSelect::where_tokens))]
fn show_where(writer: &mut TokenWriter, filters: &[Filter]) -> Result<(), NoMemory>
    ensures { OnOk result (writer.new ≡ put writer.old (where_tokens filters.now)) }
{
    if filters.is_empty() {
        return Ok(());
    }
    writer.word(b"WHERE")?;
    show_list(writer, Separator::And, filters)?;
    Ok(())
}

#[tactic(auto, using(crate::proofs::Puts::put_put, crate::proofs::Puts::put_nil), unfolding(crate::specs::ShownSelect::group_tokens))]
fn show_group(writer: &mut TokenWriter, names: &[Name]) -> Result<(), NoMemory>
    ensures { OnOk result (writer.new ≡ put writer.old (group_tokens names.now)) }
{
    if names.is_empty() {
        return Ok(());
    }
    writer.word(b"GROUP")?;
    writer.word(b"BY")?;
    show_list(writer, Separator::Comma, names)?;
    Ok(())
}

#[tactic(auto, using(crate::proofs::Puts::put_put, crate::proofs::Puts::put_nil), unfolding(crate::specs::ShownSelect::by_tokens))]
fn show_by(writer: &mut TokenWriter, by: &OrderBy) -> Result<(), NoMemory>
    ensures { OnOk result (writer.new ≡ put writer.old (by_tokens by.now)) }
{
    match by {
        OrderBy::Item(item) => show_item(writer, item),
        OrderBy::Position(position) => writer.integer(*position),
    }
}

#[tactic(auto, using(crate::proofs::Puts::put_put, crate::proofs::Puts::put_nil), unfolding(crate::specs::Parts::when))]
fn show_descending(writer: &mut TokenWriter, descending: bool) -> Result<(), NoMemory>
    ensures { OnOk result (writer.new ≡ put writer.old (when descending (keyword (codes "DESC")))) }
{
    if descending {
        return writer.word(b"DESC");
    }
    Ok(())
}

impl ShowTokens for OrderKey {
    ghost shown = { key_tokens };

    #[tactic(auto, using(crate::proofs::Puts::put_put, crate::proofs::Puts::put_nil), unfolding(crate::specs::ShownSelect::key_tokens))]
    fn show(&self, writer: &mut TokenWriter) -> Result<(), NoMemory> {
        show_by(writer, &self.by)?;
        show_descending(writer, self.descending)?;
        Ok(())
    }
}

#[tactic(auto, using(crate::proofs::Puts::put_put, crate::proofs::Puts::put_nil), unfolding(crate::specs::ShownSelect::order_tokens))]
fn show_order(writer: &mut TokenWriter, keys: &[OrderKey]) -> Result<(), NoMemory>
    ensures { OnOk result (writer.new ≡ put writer.old (order_tokens keys.now)) }
{
    if keys.is_empty() {
        return Ok(());
    }
    writer.word(b"ORDER")?;
    writer.word(b"BY")?;
    show_list(writer, Separator::Comma, keys)?;
    Ok(())
}

#[tactic(auto, using(crate::proofs::Puts::put_put, crate::proofs::Puts::put_nil), unfolding(crate::specs::Parts::maybe, crate::specs::ShownSelect::limit_tokens))]
fn show_limit(writer: &mut TokenWriter, limit: Option<u64>) -> Result<(), NoMemory>
    ensures { OnOk result (writer.new ≡ put writer.old (maybe limit_tokens limit)) }
{
    match limit {
        None => Ok(()),
        Some(most) => {
            writer.word(b"LIMIT")?;
            writer.count(most)?;
            Ok(())
        }
    }
}

// Adds what stands behind the name of the table.
#[tactic(auto, using(crate::proofs::Puts::put_put, crate::proofs::Puts::put_nil), unfolding(crate::specs::ShownSelect::query_end))]
fn show_query_end(writer: &mut TokenWriter, query: &Query) -> Result<(), NoMemory>
    ensures { OnOk result (writer.new ≡ put writer.old (query_end query.now)) }
{
    show_where(writer, query.filters.as_slice())?;
    show_group(writer, query.group.as_slice())?;
    show_order(writer, query.order.as_slice())?;
    show_limit(writer, query.limit)?;
    Ok(())
}

/// Adds a query.
#[tactic(auto, using(crate::proofs::Puts::put_put, crate::proofs::Puts::put_nil), unfolding(crate::specs::ShownSelect::query_tokens))]
pub fn show_query(writer: &mut TokenWriter, query: &Query) -> Result<(), NoMemory>
    ensures { OnOk result (writer.new ≡ put writer.old (query_tokens query.now)) }
{
    writer.word(b"SELECT")?;
    show_select_list(writer, query.star, query.items.as_slice())?;
    writer.word(b"FROM")?;
    writer.name(&query.table)?;
    show_query_end(writer, query)?;
    Ok(())
}
