// The columns that column words name.
ghost use Rattle.std.specs.Prelude.{◌≡◌, ◌<◌, ◌==◌, [], IfOk, IfErr, IfSome, None, length, map, option_map, position, string_bytes};
ghost use Rattle.service.specs.Columns.{RefusesWords, bad_word, column, column_of, columns_of, cut_at_colon, first_column, model_of as model_of_letter, place_of as place_of_fault, shape_of};

use crate::Exit;
use crate::type_words::{role_of, type_of};
use dl_values::{ColType, Name, NoMemory};
use schema_models::{ColumnDef, Model, Role, Shape, ShapeError};
use std::alloc::Global;

// How many columns a table has at most.
const MOST: usize = 64;

// The number of the first column word: the command is word 1, and the model word 2.
const FIRST: u64 = 3;

// The place of the first colon.
fn colon_in(text: &[u8]) -> Option<usize>
    ensures first { result ≡ position (λ b. b == 58) text.now }
    ensures within { IfSome result (λ at. at < length text.now) }
{
    text.iter().position(|b| *b == b':')
}

// The parts before and behind the first colon.
fn cut(text: &[u8]) -> Option<(&[u8], &[u8])>
    ensures { option_map (λ p. (p.0.now, p.1.now)) result ≡ cut_at_colon text.now }
{
    match colon_in(text) {
        None => None,
        Some(at) => Some((&text[..at], &text[at + 1..])),
    }
}

// The nullable column of a name, a type and a role, where both are there.
fn column_with(
    alloc: Global,
    name: &[u8],
    kind: Option<ColType>,
    role: Option<Role>,
) -> Result<Option<ColumnDef>, NoMemory>
    ensures { IfOk result (λ c. c ≡ column name.now kind role) }
{
    match (kind, role) {
        (Some(kind), Some(role)) => Ok(Some(ColumnDef {
            name: Name::new(alloc, name)?,
            kind,
            nullable: true,
            role,
            default: None,
        })),
        _ => Ok(None),
    }
}

// The column of a word `name:TYPE:ROLE`.
#[tactic(auto, unfolding(crate::specs::Columns::column_of))]
fn read_column(alloc: Global, word: &[u8]) -> Result<Option<ColumnDef>, NoMemory>
    ensures { IfOk result (λ c. c ≡ column_of word.now) }
{
    let Some((name, rest)) = cut(word) else {
        return Ok(None);
    };
    let Some((kind, role)) = cut(rest) else {
        return Ok(None);
    };
    column_with(alloc, name, type_of(kind), role_of(role))
}

// The columns of the words before the first that is no column.
#[tactic(auto, unfolding(crate::specs::Columns::columns_of))]
fn read_columns(alloc: Global, words: &[String]) -> Result<Vec<ColumnDef>, NoMemory>
    ensures { IfOk result (λ columns. columns.items ≡ columns_of (map string_bytes words.now)) }
{
    let mut columns = Vec::new(alloc);
    for word in words {
        match read_column(alloc, word.as_bytes())? {
            None => return Ok(columns),
            Some(column) => columns.push(column)?,
        }
    }
    Ok(columns)
}

// The place of the column at fault, counted from 0.
fn place_of(fault: ShapeError) -> u64
    ensures { result ≡ place_of_fault fault }
{
    match fault {
        ShapeError::TooManyColumns { limit } => limit,
        ShapeError::BadName { column }
        | ShapeError::DoubleName { column }
        | ShapeError::BadType { column }
        | ShapeError::NoKey { column }
        | ShapeError::KeyAfterValue { column }
        | ShapeError::BadAgg { column }
        | ShapeError::BadDefault { column } => column,
    }
}

/// The model of a letter.
pub fn model_of(letter: u8) -> Model
    ensures { result ≡ model_of_letter letter }
{
    match letter {
        b'A' => Model::Aggregate,
        b'U' => Model::Unique,
        _ => Model::Duplicate,
    }
}

/// The shape of the columns that the words name, or the first word at fault.
pub fn read_shape(alloc: Global, model: Model, words: &[String]) -> Result<Shape, Exit>
    requires { 0 < length words.now }
    ensures good { IfOk result (λ _. bad_word model first_column [] (map string_bytes words.now) ≡ None) }
    ensures shape { IfOk result (λ s. s ≡ shape_of model (map string_bytes words.now)) }
    ensures refused { IfErr result (RefusesWords model (map string_bytes words.now)) }
{
    let front = &words[..words.len().min(MOST)];
    let columns = read_columns(alloc, front)?;
    let read = columns.as_slice().len();
    match Shape::build(model, columns) {
        Err(fault) => Err(Exit::BadDef {
            word: FIRST + place_of(fault),
        }),
        Ok(shape) => {
            if read < words.len() {
                Err(Exit::BadDef {
                    word: FIRST + read as u64,
                })
            } else {
                Ok(shape)
            }
        }
    }
}
