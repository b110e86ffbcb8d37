// What is written as tokens, and lists of it.
ghost use Rattle.std.specs.Prelude.{◌≡◌, [], ◌∷◌, List, OnOk};
ghost use Rattle.sql_tokens.specs.declared.token.TokenKind.{TokenKind};
ghost use Rattle.sql_print.specs.Steps.{put};
ghost use Rattle.sql_print.specs.Parts.{behind_each, separated, separator_token, name};

use crate::TokenWriter;
use dl_values::{Name, NoMemory};
use sql_tokens::Sign;

/// A part of a statement.
pub trait ShowTokens {
    // Its tokens.
    ghost shown: { Self → List TokenKind };

    /// Adds its tokens.
    fn show(&self, writer: &mut TokenWriter) -> Result<(), NoMemory>
        ensures { OnOk result (writer.new ≡ put writer.old (shown self.now)) };
}

impl ShowTokens for Name {
    ghost shown = { name };

    fn show(&self, writer: &mut TokenWriter) -> Result<(), NoMemory> {
        writer.name(self)
    }
}

/// What stands between the parts of a list.
#[derive(Clone, Copy, Debug, PartialEq, Eq)]
pub enum Separator {
    Comma,
    And,
}

fn show_separator(writer: &mut TokenWriter, separator: Separator) -> Result<(), NoMemory>
    ensures { OnOk result (writer.new ≡ put writer.old (separator_token separator ∷ [])) }
{
    match separator {
        Separator::Comma => writer.sign(Sign::Comma),
        Separator::And => writer.word(b"AND"),
    }
}

// Adds a separator and a part.
#[tactic(auto, using(crate::proofs::Puts::put_put))]
fn show_behind<T: ShowTokens>(
    writer: &mut TokenWriter,
    separator: Separator,
    item: &T,
) -> Result<(), NoMemory>
    ensures { OnOk result (writer.new ≡ put writer.old (separator_token separator ∷ T.shown item.now)) }
{
    show_separator(writer, separator)?;
    item.show(writer)?;
    Ok(())
}

// Adds parts, with a separator before each.
fn show_more<T: ShowTokens>(
    writer: &mut TokenWriter,
    separator: Separator,
    items: &[T],
) -> Result<(), NoMemory>
    ensures { OnOk result (writer.new ≡ put writer.old (behind_each (separator_token separator) T.shown items.now)) }
{
    for item in items {
        show_behind(writer, separator, item)?;
    }
    Ok(())
}

/// Adds parts, with separators between them.
#[tactic(auto, using(crate::proofs::Puts::put_nil), unfolding(crate::specs::Parts::separated))]
pub fn show_list<T: ShowTokens>(
    writer: &mut TokenWriter,
    separator: Separator,
    items: &[T],
) -> Result<(), NoMemory>
    ensures { OnOk result (writer.new ≡ put writer.old (separated (separator_token separator) T.shown items.now)) }
{
    match items {
        [] => Ok(()),
        [first, more @ ..] => {
            first.show(writer)?;
            show_more(writer, separator, more)?;
            Ok(())
        }
    }
}
