// Reading range partitions.
ghost use Rattle.sql_grammar.specs.Reading.{Gives};
ghost use Rattle.sql_text.specs.ReadCreate.{end_in_at, high_end_at, less_than_at, in_brackets_at, from_to_at, bounds_at, part_at};

use crate::names::literal;
use crate::part::{Part, PartBounds};
use crate::query::Literal;
use sql_grammar::{Piece, Stop, after_word, name, sign, word};
use sql_tokens::{Sign, Token};
use std::alloc::Global;

#[tactic(auto, unfolding(crate::specs::ReadCreate::end_in_at))]
fn end_in(alloc: Global, tokens: &[Token]) -> Result<(Option<Literal>, &[Token]), Stop>
    ensures { Gives (λ x. (x.0, x.1.now)) result (end_in_at tokens.now) }
{
    if let Some(rest) = after_word(tokens, b"MAXVALUE") {
        return Ok((None, rest));
    }
    let (end, rest) = literal(alloc, tokens)?;
    Ok((Some(end), rest))
}

// The high end of LESS THAN, or none for MAXVALUE.
#[tactic(auto, unfolding(crate::specs::ReadCreate::high_end_at))]
fn high_end(alloc: Global, tokens: &[Token]) -> Result<(Option<Literal>, &[Token]), Stop>
    ensures { Gives (λ x. (x.0, x.1.now)) result (high_end_at tokens.now) }
{
    if let Some(rest) = after_word(tokens, b"MAXVALUE") {
        return Ok((None, rest));
    }
    let rest = sign(tokens, Sign::Open)?;
    let (end, rest) = end_in(alloc, rest)?;
    let rest = sign(rest, Sign::Close)?;
    Ok((end, rest))
}

#[tactic(auto, unfolding(crate::specs::ReadCreate::in_brackets_at))]
fn in_brackets(alloc: Global, tokens: &[Token]) -> Result<(Literal, &[Token]), Stop>
    ensures { Gives (λ x. (x.0, x.1.now)) result (in_brackets_at tokens.now) }
{
    let rest = sign(tokens, Sign::Open)?;
    let (end, rest) = literal(alloc, rest)?;
    let rest = sign(rest, Sign::Close)?;
    Ok((end, rest))
}

#[tactic(auto, unfolding(crate::specs::ReadCreate::from_to_at))]
fn from_to(alloc: Global, tokens: &[Token]) -> Result<(PartBounds, &[Token]), Stop>
    ensures { Gives (λ x. (x.0, x.1.now)) result (from_to_at tokens.now) }
{
    let rest = sign(tokens, Sign::OpenRange)?;
    let (low, rest) = in_brackets(alloc, rest)?;
    let rest = sign(rest, Sign::Comma)?;
    let (high, rest) = in_brackets(alloc, rest)?;
    let rest = sign(rest, Sign::Close)?;
    Ok((PartBounds::Between(low, high), rest))
}

#[tactic(auto, unfolding(crate::specs::ReadCreate::bounds_at, crate::specs::ReadCreate::less_than_at))]
fn bounds(alloc: Global, tokens: &[Token]) -> Result<(PartBounds, &[Token]), Stop>
    ensures { Gives (λ x. (x.0, x.1.now)) result (bounds_at tokens.now) }
{
    if let Some(rest) = after_word(tokens, b"LESS") {
        let rest = word(rest, b"THAN")?;
        let (end, rest) = high_end(alloc, rest)?;
        return Ok((PartBounds::Less(end), rest));
    }
    from_to(alloc, tokens)
}

/// A range partition.
#[tactic(auto, unfolding(crate::specs::ReadCreate::part_at))]
pub fn part(alloc: Global, tokens: &[Token]) -> Result<(Part, &[Token]), Stop>
    ensures { Gives (λ x. (x.0, x.1.now)) result (part_at tokens.now) }
{
    let rest = word(tokens, b"PARTITION")?;
    let (name, rest) = name(alloc, rest)?;
    let rest = word(rest, b"VALUES")?;
    let (bounds, rest) = bounds(alloc, rest)?;
    Ok((Part { name, bounds }, rest))
}

impl Piece for Part {
    ghost use Rattle.sql_text.specs.ReadCreate.{part_at};

    ghost reader = { part_at };

    #[tactic(auto, using(crate::proofs::CreateReads::part_leaves_less))]
    fn read(alloc: Global, tokens: &[Token]) -> Result<(Part, &[Token]), Stop> {
        part(alloc, tokens)
    }
}
