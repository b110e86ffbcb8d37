// Reading queries.
ghost use Rattle.std.specs.Prelude.{◌≡◌, true, false, Ok, MatchOption};
ghost use Rattle.sql_grammar.specs.Marks.{lower, matches};
ghost use Rattle.sql_grammar.specs.Reading.{Gives, heads};
ghost use Rattle.sql_text.specs.ReadSelect.{function_of, head_at, column_in_at, star_in_at, inside_at, call_at, after_head_at, item_at, select_list_at, operator_at, operator_first, comparison_at, null_check_at, check_at, test_at, filters_at, group_at, order_by_at, descending_at, key_at, order_at, limit_at, select_at};

use crate::names::literal;
use crate::query::{AggFn, Check, CompareOp, Filter, Item, OrderBy, OrderKey, Query};
use dl_values::Name;
use sql_grammar::{
    Piece, Separator, Stop, after_sign, after_word, count, heads_name, integer, is_reserved, list,
    name, same_word, sign, word,
};
use sql_tokens::{Sign, Token, TokenKind};
use sqlite_items::Items;
use std::alloc::Global;

// The function that a word names.
#[tactic(auto, unfolding(crate::specs::ReadSelect::function_of))]
fn function_of(word: &[u8]) -> Option<AggFn>
    ensures { result ≡ function_of (lower word.now) }
{
    if same_word(word, b"SUM") {
        Some(AggFn::Sum)
    } else if same_word(word, b"MIN") {
        Some(AggFn::Min)
    } else if same_word(word, b"MAX") {
        Some(AggFn::Max)
    } else if same_word(word, b"COUNT") {
        Some(AggFn::Count)
    } else {
        None
    }
}

// A name, and the function that it names out of backquotes: which of the two it is, the next token tells.
#[tactic(auto, unfolding(crate::specs::ReadSelect::head_at))]
fn head(alloc: Global, tokens: &[Token]) -> Result<((Name, Option<AggFn>), &[Token]), Stop>
    ensures { Gives (λ x. ((x.0.0, x.0.1), x.1.now)) result (head_at tokens.now) }
{
    match tokens {
        [token, rest @ ..] => match &token.kind {
            TokenKind::Word(found) => {
                if is_reserved(found.bytes()) {
                    Err(Stop::Left(tokens.len()))
                } else {
                    Ok(((found.copy(alloc)?, function_of(found.bytes())), rest))
                }
            }
            TokenKind::Quoted(found) => Ok(((found.copy(alloc)?, None), rest)),
            _ => Err(Stop::Left(tokens.len())),
        },
        [] => Err(Stop::Left(0)),
    }
}

#[tactic(auto, unfolding(crate::specs::ReadSelect::column_in_at))]
fn column_in(alloc: Global, function: AggFn, tokens: &[Token]) -> Result<(Item, &[Token]), Stop>
    ensures { Gives (λ x. (x.0, x.1.now)) result (column_in_at function tokens.now) }
{
    let (column, rest) = name(alloc, tokens)?;
    let rest = sign(rest, Sign::Close)?;
    Ok((Item::Agg(function, column), rest))
}

// What stands in the parentheses of a function.
#[tactic(auto, unfolding(crate::specs::ReadSelect::inside_at, crate::specs::ReadSelect::star_in_at))]
fn inside(alloc: Global, function: AggFn, tokens: &[Token]) -> Result<(Item, &[Token]), Stop>
    ensures { Gives (λ x. (x.0, x.1.now)) result (inside_at function tokens.now) }
{
    match function {
        AggFn::Count => {
            if let Some(rest) = after_sign(tokens, Sign::Star) {
                let rest = sign(rest, Sign::Close)?;
                return Ok((Item::CountAll, rest));
            }
            column_in(alloc, AggFn::Count, tokens)
        }
        AggFn::Sum => column_in(alloc, AggFn::Sum, tokens),
        AggFn::Min => column_in(alloc, AggFn::Min, tokens),
        AggFn::Max => column_in(alloc, AggFn::Max, tokens),
    }
}

/// A column, or an aggregate.
#[tactic(auto, unfolding(crate::specs::ReadSelect::item_at, crate::specs::ReadSelect::after_head_at, crate::specs::ReadSelect::call_at))]
pub fn item(alloc: Global, tokens: &[Token]) -> Result<(Item, &[Token]), Stop>
    ensures { Gives (λ x. (x.0, x.1.now)) result (item_at tokens.now) }
{
    let ((column, function), rest) = head(alloc, tokens)?;
    match function {
        None => Ok((Item::Column(column), rest)),
        Some(function) => {
            if let Some(behind) = after_sign(rest, Sign::Open) {
                return inside(alloc, function, behind);
            }
            Ok((Item::Column(column), rest))
        }
    }
}

impl Piece for Item {
    ghost use Rattle.sql_text.specs.ReadSelect.{item_at};

    ghost reader = { item_at };

    #[tactic(auto, using(crate::proofs::SelectReads::item_leaves_less))]
    fn read(alloc: Global, tokens: &[Token]) -> Result<(Item, &[Token]), Stop> {
        item(alloc, tokens)
    }
}

#[tactic(auto, unfolding(crate::specs::ReadSelect::select_list_at))]
fn select_list(alloc: Global, tokens: &[Token]) -> Result<((bool, Items<Item>), &[Token]), Stop>
    ensures { Gives (λ x. ((x.0.0, x.0.1), x.1.now)) result (select_list_at tokens.now) }
{
    if let Some(rest) = after_sign(tokens, Sign::Star) {
        return Ok(((true, Items::new(alloc)), rest));
    }
    let (items, rest) = list(alloc, tokens, Separator::Comma)?;
    Ok(((false, items), rest))
}

// The operator, where one comes next.
#[tactic(auto, using(crate::proofs::Firsts::at_most_is_first, crate::proofs::Firsts::greater_is_first, crate::proofs::Firsts::at_least_is_first), unfolding(crate::specs::ReadSelect::operator_at))]
fn operator(tokens: &[Token]) -> Option<(CompareOp, &[Token])>
    ensures { MatchOption result (heads (matches operator_first) tokens.now ≡ false) (λ x. (heads (matches operator_first) tokens.now ≡ true) × (operator_at tokens.now ≡ Ok (x.0, x.1.now))) }
{
    if let Some(rest) = after_sign(tokens, Sign::Equal) {
        return Some((CompareOp::Eq, rest));
    }
    if let Some(rest) = after_sign(tokens, Sign::Unequal) {
        return Some((CompareOp::Ne, rest));
    }
    if let Some(rest) = after_sign(tokens, Sign::Less) {
        return Some((CompareOp::Lt, rest));
    }
    if let Some(rest) = after_sign(tokens, Sign::AtMost) {
        return Some((CompareOp::Le, rest));
    }
    if let Some(rest) = after_sign(tokens, Sign::Greater) {
        return Some((CompareOp::Gt, rest));
    }
    if let Some(rest) = after_sign(tokens, Sign::AtLeast) {
        return Some((CompareOp::Ge, rest));
    }
    None
}

#[tactic(auto, unfolding(crate::specs::ReadSelect::null_check_at))]
fn null_check(tokens: &[Token]) -> Result<(Check, &[Token]), Stop>
    ensures { Gives (λ x. (x.0, x.1.now)) result (null_check_at tokens.now) }
{
    let rest = word(tokens, b"IS")?;
    if let Some(rest) = after_word(rest, b"NULL") {
        return Ok((Check::IsNull, rest));
    }
    let rest = word(rest, b"NOT")?;
    let rest = word(rest, b"NULL")?;
    Ok((Check::IsNotNull, rest))
}

#[tactic(auto, unfolding(crate::specs::ReadSelect::check_at, crate::specs::ReadSelect::comparison_at))]
fn check(alloc: Global, tokens: &[Token]) -> Result<(Check, &[Token]), Stop>
    ensures { Gives (λ x. (x.0, x.1.now)) result (check_at tokens.now) }
{
    if let Some((op, rest)) = operator(tokens) {
        let (literal, rest) = literal(alloc, rest)?;
        return Ok((Check::Compare(op, literal), rest));
    }
    null_check(tokens)
}

/// A test of one column.
#[tactic(auto, unfolding(crate::specs::ReadSelect::test_at))]
pub fn filter(alloc: Global, tokens: &[Token]) -> Result<(Filter, &[Token]), Stop>
    ensures { Gives (λ x. (x.0, x.1.now)) result (test_at tokens.now) }
{
    let (column, rest) = name(alloc, tokens)?;
    let (check, rest) = check(alloc, rest)?;
    Ok((Filter { column, check }, rest))
}

impl Piece for Filter {
    ghost use Rattle.sql_text.specs.ReadSelect.{test_at};

    ghost reader = { test_at };

    #[tactic(auto, using(crate::proofs::SelectReads::test_leaves_less))]
    fn read(alloc: Global, tokens: &[Token]) -> Result<(Filter, &[Token]), Stop> {
        filter(alloc, tokens)
    }
}

#[tactic(auto, unfolding(crate::specs::ReadSelect::filters_at))]
fn filters(alloc: Global, tokens: &[Token]) -> Result<(Items<Filter>, &[Token]), Stop>
    ensures { Gives (λ x. (x.0, x.1.now)) result (filters_at tokens.now) }
{
    let Some(rest) = after_word(tokens, b"WHERE") else {
        return Ok((Items::new(alloc), tokens));
    };
    let (found, rest) = list(alloc, rest, Separator::And)?;
    Ok((found, rest))
}

#[tactic(auto, unfolding(crate::specs::ReadSelect::group_at))]
fn group(alloc: Global, tokens: &[Token]) -> Result<(Items<Name>, &[Token]), Stop>
    ensures { Gives (λ x. (x.0, x.1.now)) result (group_at tokens.now) }
{
    let Some(rest) = after_word(tokens, b"GROUP") else {
        return Ok((Items::new(alloc), tokens));
    };
    let rest = word(rest, b"BY")?;
    let (found, rest) = list(alloc, rest, Separator::Comma)?;
    Ok((found, rest))
}

#[tactic(auto, unfolding(crate::specs::ReadSelect::order_by_at))]
fn order_by(alloc: Global, tokens: &[Token]) -> Result<(OrderBy, &[Token]), Stop>
    ensures { Gives (λ x. (x.0, x.1.now)) result (order_by_at tokens.now) }
{
    if heads_name(tokens) {
        let (item, rest) = item(alloc, tokens)?;
        return Ok((OrderBy::Item(item), rest));
    }
    let (position, rest) = integer(tokens)?;
    Ok((OrderBy::Position(position), rest))
}

// Whether a key is descending, as it is not where nothing is written.
#[tactic(auto, unfolding(crate::specs::ReadSelect::descending_at))]
fn descending(tokens: &[Token]) -> (bool, &[Token])
    ensures { descending_at tokens.now ≡ Ok (result.0, result.1.now) }
{
    if let Some(rest) = after_word(tokens, b"ASC") {
        return (false, rest);
    }
    if let Some(rest) = after_word(tokens, b"DESC") {
        return (true, rest);
    }
    (false, tokens)
}

/// A key of an ORDER BY.
#[tactic(auto, unfolding(crate::specs::ReadSelect::key_at))]
pub fn key(alloc: Global, tokens: &[Token]) -> Result<(OrderKey, &[Token]), Stop>
    ensures { Gives (λ x. (x.0, x.1.now)) result (key_at tokens.now) }
{
    let (by, rest) = order_by(alloc, tokens)?;
    let (descending, rest) = descending(rest);
    Ok((OrderKey { by, descending }, rest))
}

impl Piece for OrderKey {
    ghost use Rattle.sql_text.specs.ReadSelect.{key_at};

    ghost reader = { key_at };

    #[tactic(auto, using(crate::proofs::SelectReads::key_leaves_less))]
    fn read(alloc: Global, tokens: &[Token]) -> Result<(OrderKey, &[Token]), Stop> {
        key(alloc, tokens)
    }
}

#[tactic(auto, unfolding(crate::specs::ReadSelect::order_at))]
fn order(alloc: Global, tokens: &[Token]) -> Result<(Items<OrderKey>, &[Token]), Stop>
    ensures { Gives (λ x. (x.0, x.1.now)) result (order_at tokens.now) }
{
    let Some(rest) = after_word(tokens, b"ORDER") else {
        return Ok((Items::new(alloc), tokens));
    };
    let rest = word(rest, b"BY")?;
    let (found, rest) = list(alloc, rest, Separator::Comma)?;
    Ok((found, rest))
}

#[tactic(auto, unfolding(crate::specs::ReadSelect::limit_at))]
fn limit(tokens: &[Token]) -> Result<(Option<u64>, &[Token]), Stop>
    ensures { Gives (λ x. (x.0, x.1.now)) result (limit_at tokens.now) }
{
    let Some(rest) = after_word(tokens, b"LIMIT") else {
        return Ok((None, tokens));
    };
    let (limit, rest) = count(rest)?;
    Ok((Some(limit), rest))
}

/// A query.
#[tactic(auto, unfolding(crate::specs::ReadSelect::select_at))]
pub fn select(alloc: Global, tokens: &[Token]) -> Result<(Query, &[Token]), Stop>
    ensures { Gives (λ x. (x.0, x.1.now)) result (select_at tokens.now) }
{
    let rest = word(tokens, b"SELECT")?;
    let ((star, items), rest) = select_list(alloc, rest)?;
    let rest = word(rest, b"FROM")?;
    let (table, rest) = name(alloc, rest)?;
    let (filters, rest) = filters(alloc, rest)?;
    let (group, rest) = group(alloc, rest)?;
    let (order, rest) = order(alloc, rest)?;
    let (limit, rest) = limit(rest)?;
    let query = Query {
        table,
        star,
        items,
        filters,
        group,
        order,
        limit,
    };
    Ok((query, rest))
}
