// Reading the statement of a text.
ghost use Rattle.std.specs.Prelude.{◌≡◌, ℕ, ◌≤◌, ◌<◌, ◌-◌, ℤ, negsuc, ◌⊎◌, length, take, drop, Ok, Err, IfOk};
ghost use Rattle.sql_text.specs.declared.stmt.Stmt.{Stmt};
ghost use Rattle.sql_text.specs.declared.sql_error.SqlKind.{SqlKind};
ghost use Rattle.sql_text.specs.declared.sql_error.SqlError.TheVariants as error;
ghost use Rattle.sql_text.specs.Statements.{Spells};
ghost use Rattle.sql_text.specs.Faults.{TakesZero, Tells, IsNegativeKind, IsKind, kind_alone, place, IsFault};

use crate::sql_error::{SqlError, SqlKind};
use crate::statement::whole;
use crate::stmt::Stmt;
use dl_values::NoMemory;
use sql_grammar::Stop;
use sql_tokens::{Token, TokenKind, tokens};
use std::alloc::Global;

// What is wrong with a token that is out of place, or none where a negative integer is.
fn kind_alone(token: &TokenKind) -> Option<SqlKind>
    ensures { result ≡ kind_alone token.now }
{
    match token {
        TokenKind::Stray => Some(SqlKind::Lex),
        TokenKind::Beyond => Some(SqlKind::Range),
        TokenKind::Int(value) if *value < 0 => None,
        _ => Some(SqlKind::Syntax),
    }
}

// Whether some statement goes on with 0 behind so many of the tokens: it is put there, and read.
fn takes_zero(alloc: Global, tokens: Vec<Token>, place: usize) -> Result<bool, NoMemory>
    ensures { IfOk result (λ takes. Tells takes (TakesZero (take place tokens.items))) }
{
    let mut tokens = tokens;
    tokens.truncate(place);
    tokens.push(Token {
        at: 0,
        kind: TokenKind::Int(0),
    })?;
    match whole(alloc, tokens.as_slice()) {
        Ok(_) => Ok(true),
        Err(Stop::Left(left)) => Ok(left == 0),
        Err(Stop::Memory) => Err(NoMemory),
    }
}

// What is wrong with the token at a place, a negative integer.
fn negative_kind(alloc: Global, tokens: Vec<Token>, place: usize) -> Result<SqlKind, NoMemory>
    ensures { IfOk result (λ kind. IsNegativeKind (take place tokens.items) kind) }
{
    if takes_zero(alloc, tokens, place)? {
        return Ok(SqlKind::Range);
    }
    Ok(SqlKind::Syntax)
}

// The fault of a text at whose first wrong token so many are left, unless memory runs out.
fn fault(alloc: Global, text: &str, tokens: Vec<Token>, left: usize) -> SqlError
    requires { left ≤ length tokens.items }
    ensures at { (at : ℕ) (kind : SqlKind) → result ≡ error.SqlFault at kind → at ≡ place text.now (drop (length tokens.items - left) tokens.items) }
    ensures kind { (at : ℕ) (kind : SqlKind) → result ≡ error.SqlFault at kind → IsKind (take (length tokens.items - left) tokens.items) (drop (length tokens.items - left) tokens.items) kind }
{
    let front = tokens.len() - left;
    let Some(token) = tokens.get(front) else {
        return SqlError::SqlFault {
            at: text.len() as u64,
            kind: SqlKind::Syntax,
        };
    };
    let at = token.at;
    if let Some(kind) = kind_alone(&token.kind) {
        return SqlError::SqlFault { at, kind };
    }
    match negative_kind(alloc, tokens, front) {
        Ok(kind) => SqlError::SqlFault { at, kind },
        Err(NoMemory) => SqlError::NoMemory,
    }
}

/// The statement of a text. Its words are read in any case, and its names are judged by the commands that take them.
pub fn parse_stmt(alloc: Global, text: &str) -> Result<Stmt, SqlError>
    // What is read, the text spells.
    ensures found { IfOk result (λ s. Spells s text.now) }
    // What the text spells is read, unless memory runs out.
    ensures only { (s : Stmt) → Spells s text.now → (result ≡ Ok s) ⊎ (result ≡ Err error.NoMemory) }
    // A fault is the first one of the text.
    ensures fault { (at : ℕ) (kind : SqlKind) → result ≡ Err (error.SqlFault at kind) → IsFault text.now at kind }
{
    let Ok(tokens) = tokens(alloc, text) else {
        return Err(SqlError::NoMemory);
    };
    match whole(alloc, tokens.as_slice()) {
        Ok(stmt) => Ok(stmt),
        Err(Stop::Memory) => Err(SqlError::NoMemory),
        Err(Stop::Left(left)) => Err(fault(alloc, text, tokens.into_vec(), left)),
    }
}
