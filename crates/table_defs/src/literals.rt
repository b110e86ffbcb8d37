// What literals stand for beside a column.
ghost use Rattle.std.specs.Prelude.{◌≡◌, IfOk};
ghost use Rattle.dl_values.specs.Read.{read};
ghost use Rattle.table_defs.specs.Literals as literals;

use dl_values::{Cell, ColType, NoMemory, ReadError, Text};
use itoa::Buffer;
use sql_text::Literal;
use std::alloc::Global;

fn read_as(alloc: Global, kind: ColType, bytes: &[u8]) -> Result<Option<Cell>, NoMemory>
    ensures { IfOk result (λ c. c ≡ read kind bytes.now) }
{
    match kind.read(alloc, bytes) {
        Ok(cell) => Ok(Some(cell)),
        Err(ReadError::Unreadable) => Ok(None),
        Err(ReadError::NoMemory) => Err(NoMemory),
    }
}

fn literal_cell(alloc: Global, kind: ColType, literal: &Literal) -> Result<Option<Cell>, NoMemory>
    ensures { IfOk result (λ c. c ≡ read kind (literals.literal_text literal.now)) }
{
    match literal {
        Literal::Int(value) => {
            let mut digits = Buffer::new();
            read_as(alloc, kind, digits.format(*value).as_bytes())
        }
        Literal::Text(text) => read_as(alloc, kind, text.bytes()),
    }
}

fn unfit_cell(alloc: Global, kind: ColType) -> Result<Cell, NoMemory>
    ensures { IfOk result (λ c. c ≡ literals.unfit_cell kind) }
{
    match kind {
        ColType::Varchar(_) => Ok(Cell::Int(0)),
        _ => Ok(Cell::Text(Text::new(alloc, b"")?)),
    }
}

// The default of a literal, in a column of a type.
pub fn value_cell(alloc: Global, kind: ColType, literal: &Literal) -> Result<Cell, NoMemory>
    ensures { IfOk result (λ c. c ≡ literals.value_cell kind literal.now) }
{
    match literal_cell(alloc, kind, literal)? {
        Some(cell) => Ok(cell),
        None => unfit_cell(alloc, kind),
    }
}

// The end of a range of a literal, beside a partition column of a type.
pub fn end_cell(alloc: Global, kind: Option<ColType>, literal: &Literal) -> Result<Cell, NoMemory>
    ensures { IfOk result (λ c. c ≡ literals.end_cell kind literal.now) }
{
    let Some(kind) = kind else {
        return Ok(Cell::Null);
    };
    match literal_cell(alloc, kind, literal)? {
        Some(cell) => Ok(cell),
        None => Ok(Cell::Null),
    }
}
