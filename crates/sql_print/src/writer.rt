// Writing tokens one behind another.
ghost use Rattle.std.specs.Prelude.{◌≡◌};
ghost use Rattle.sql_tokens.specs.declared.token.TokenKind.TheVariants as kind;
ghost use Rattle.sql_print.specs.Printing.{leans, is_open};

use crate::spelled::{add_count, add_integer, add_name, add_string, sign_text};
use dl_values::{Name, NoMemory, Text};
use sql_tokens::Sign;
use std::alloc::Global;
use std::marker::Model;

/// The text of the tokens so far. Contracts see its bytes, and whether the next token takes no blank before it.
#[derive(Drop)]
pub struct TokenWriter {
    text: Vec<u8>,
    glued: bool,
}

impl Model for TokenWriter {
    ghost use Rattle.std.specs.Prelude.{ℕ, List, Bool};

    ghost Value = { List ℕ × Bool };

    ghost view = { λ w. (w.text.items, w.glued) };
}

impl TokenWriter {
    ghost use Rattle.std.specs.Prelude.{◌≡◌, pos, [], ◌∷◌, ◌++◌, ◌||◌, true, List, OnOk, IfOk, string_bytes, if◌then◌else◌};
    ghost use Rattle.sql_tokens.specs.declared.token.TokenKind.{TokenKind};
    ghost use Rattle.sql_tokens.specs.declared.token.TokenKind.TheVariants as kind;
    ghost use Rattle.sql_print.specs.Steps.{put};
    ghost use Rattle.sql_print.specs.TextOf.{IsTextOf};

    /// Nothing so far.
    pub fn new(alloc: Global) -> TokenWriter
        ensures { result ≡ ([], true) }
    {
        TokenWriter {
            text: Vec::new(alloc),
            glued: true,
        }
    }

    // Makes room before a token, by whether it takes no blank itself.
    fn make_gap(&mut self, leans: bool) -> Result<(), NoMemory>
        ensures { OnOk result (self.new ≡ (self.old.0 ++ (if self.old.1 || leans then [] else 32 ∷ []), self.old.1)) }
    {
        if !self.glued && !leans {
            self.text.push(b' ')?;
        }
        Ok(())
    }

    /// Adds a word as it is.
    #[tactic(auto, unfolding(crate::specs::Steps::put, crate::specs::Steps::is_glued, crate::specs::Printing::behind))]
    pub fn word(&mut self, word: &[u8]) -> Result<(), NoMemory>
        ensures { OnOk result (self.new ≡ put self.old (kind.Word word.now ∷ [])) }
    {
        self.make_gap(false)?;
        self.text.extend_from_slice(word)?;
        self.glued = false;
        Ok(())
    }

    /// Adds a name in backquotes.
    #[tactic(auto, unfolding(crate::specs::Steps::put, crate::specs::Steps::is_glued, crate::specs::Printing::behind))]
    pub fn name(&mut self, name: &Name) -> Result<(), NoMemory>
        ensures { OnOk result (self.new ≡ put self.old (kind.Quoted name.now ∷ [])) }
    {
        self.make_gap(false)?;
        add_name(&mut self.text, name.bytes())?;
        self.glued = false;
        Ok(())
    }

    /// Adds an integer.
    #[tactic(auto, unfolding(crate::specs::Steps::put, crate::specs::Steps::is_glued, crate::specs::Printing::behind))]
    pub fn integer(&mut self, value: i64) -> Result<(), NoMemory>
        ensures { OnOk result (self.new ≡ put self.old (kind.Int value ∷ [])) }
    {
        self.make_gap(false)?;
        add_integer(&mut self.text, value)?;
        self.glued = false;
        Ok(())
    }

    /// Adds a count.
    #[tactic(auto, unfolding(crate::specs::Steps::put, crate::specs::Steps::is_glued, crate::specs::Printing::behind))]
    pub fn count(&mut self, value: u64) -> Result<(), NoMemory>
        ensures { OnOk result (self.new ≡ put self.old (kind.Int (pos value) ∷ [])) }
    {
        self.make_gap(false)?;
        add_count(&mut self.text, value)?;
        self.glued = false;
        Ok(())
    }

    /// Adds a string.
    #[tactic(auto, unfolding(crate::specs::Steps::put, crate::specs::Steps::is_glued, crate::specs::Printing::behind))]
    pub fn string(&mut self, text: &Text) -> Result<(), NoMemory>
        ensures { OnOk result (self.new ≡ put self.old (kind.Text text.now ∷ [])) }
    {
        self.make_gap(false)?;
        add_string(&mut self.text, text.bytes())?;
        self.glued = false;
        Ok(())
    }

    /// Adds a sign. A comma and a closing parenthesis take no blank before them, and what stands behind an opening
    /// one takes none.
    #[tactic(auto, unfolding(crate::specs::Steps::put, crate::specs::Steps::is_glued, crate::specs::Printing::behind))]
    pub fn sign(&mut self, sign: Sign) -> Result<(), NoMemory>
        ensures { OnOk result (self.new ≡ put self.old (kind.Sign sign ∷ [])) }
    {
        self.make_gap(leans(sign))?;
        self.text.extend_from_slice(sign_text(sign))?;
        self.glued = is_open(sign);
        Ok(())
    }

    /// The text as a string: itself where it is UTF-8, and else with U+FFFD in place of what is not.
    pub fn finish(self, alloc: Global) -> Result<String, NoMemory>
        ensures { (ts : List TokenKind) → self ≡ put ([], true) ts → IfOk result (λ s. IsTextOf ts (string_bytes s)) }
    {
        Ok(String::from_utf8_lossy(alloc, self.text.as_slice())?)
    }
}

// Whether no blank stands before this sign.
fn leans(sign: Sign) -> bool
    ensures { result ≡ leans (kind.Sign sign) }
{
    matches!(sign, Sign::Comma | Sign::Close)
}

// Whether no blank stands after this sign.
fn is_open(sign: Sign) -> bool
    ensures { result ≡ is_open (kind.Sign sign) }
{
    matches!(sign, Sign::Open)
}
