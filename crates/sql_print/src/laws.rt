//! Laws of the definitions: what is written is read again.
ghost use Rattle.std.specs.Prelude.{◌≡◌, ◌⊎◌, ℕ, Ok, Err, List, map};
ghost use Rattle.std.specs.Str.{IsUtf8};
ghost use Rattle.sql_tokens.specs.declared.token.TokenKind.{TokenKind};
ghost use Rattle.sql_tokens.specs.Tokens.{tokens_of};
ghost use Rattle.sql_text.specs.declared.stmt.Stmt.{Stmt};
ghost use Rattle.sql_text.specs.declared.sql_error.SqlError.TheVariants as error;
ghost use Rattle.sql_text.specs.Statements.{Spells};
ghost use Rattle.sql_print.specs.Printing.{printed};
ghost use Rattle.sql_print.specs.Shown.{shown};
ghost use Rattle.sql_print.specs.Writable.{AreWritable};
ghost use Rattle.sql_print.specs.Fit.{AreFit};

use crate::print_stmt;
use dl_values::NoMemory;
use sql_text::{SqlError, Stmt, parse_stmt};
use std::alloc::Global;

/// The text of tokens has these tokens, and no others, wherever they stand in it.
pub fn tokens_are_read_again()
    ensures { (ts : List TokenKind) → AreWritable ts → map (λ t. t.kind) (tokens_of (printed ts)) ≡ ts }
{}

/// The text of tokens is UTF-8.
pub fn written_tokens_are_text()
    ensures { (ts : List TokenKind) → AreWritable ts → IsUtf8 (printed ts) }
{}

/// What a text has for a statement can be written, and its text has it again.
pub fn statements_are_read_again()
    ensures writable { (s : Stmt) (text : List ℕ) → IsUtf8 text → Spells s text → AreWritable (shown s) }
    ensures again { (s : Stmt) (text : List ℕ) → IsUtf8 text → Spells s text → Spells s (printed (shown s)) }
{}

/// The tokens of a text can be written, but for what begins no token and for integers beyond 64 bits.
pub fn tokens_of_texts_can_be_written()
    ensures { (text : List ℕ) → IsUtf8 text → AreFit (tokens_of text) }
{}

/// What is printed is parsed as the same statement, unless memory runs out.
pub fn printed_statements_are_parsed(alloc: Global, stmt: &Stmt) -> Result<Stmt, SqlError>
    ensures { (text : List ℕ) → IsUtf8 text → Spells stmt.now text → (result ≡ Ok stmt.now) ⊎ (result ≡ Err error.NoMemory) }
{
    match print_stmt(alloc, stmt) {
        Ok(text) => parse_stmt(alloc, text.as_str()),
        Err(NoMemory) => Err(SqlError::NoMemory),
    }
}
