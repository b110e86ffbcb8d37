// The text of a list of tokens.
ghost use Rattle.std.specs.Prelude.{◌≡◌, ◌∷◌, [], OnOk, IfOk, string_bytes};
ghost use Rattle.sql_print.specs.Steps.{put};
ghost use Rattle.sql_print.specs.TextOf.{IsTextOf};

use crate::TokenWriter;
use dl_values::NoMemory;
use sql_tokens::TokenKind;
use std::alloc::Global;

// Adds a token; what begins no token, or is beyond 64 bits, has no text.
#[tactic(auto, unfolding(crate::specs::Steps::put, crate::specs::Steps::is_glued, crate::specs::Printing::behind))]
fn add_token(writer: &mut TokenWriter, token: &TokenKind) -> Result<(), NoMemory>
    ensures { OnOk result (writer.new ≡ put writer.old (token.now ∷ [])) }
{
    match token {
        TokenKind::Word(word) => writer.word(word.bytes()),
        TokenKind::Quoted(name) => writer.name(name),
        TokenKind::Int(value) => writer.integer(*value),
        TokenKind::Text(text) => writer.string(text),
        TokenKind::Sign(sign) => writer.sign(*sign),
        TokenKind::Beyond | TokenKind::Stray => writer.word(b""),
    }
}

/// The text of tokens: one blank between two, except before `,` and `)` and after `(`.
pub fn print_tokens(alloc: Global, tokens: &[TokenKind]) -> Result<String, NoMemory>
    ensures { IfOk result (λ s. IsTextOf tokens.now (string_bytes s)) }
{
    let mut writer = TokenWriter::new(alloc);
    for token in tokens {
        add_token(&mut writer, token)?;
    }
    writer.finish(alloc)
}
