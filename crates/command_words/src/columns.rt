// The column words of a form, which contracts see as the list of their texts.
use std::alloc::{AllocError, Global};
use std::marker::Model;

/// Column words in their order.
#[derive(Debug, Drop)]
pub struct Columns {
    words: Vec<String>,
}

impl Model for Columns {
    ghost use Rattle.std.specs.Prelude.{ℕ, List, map, string_bytes};

    ghost Value = { List (List ℕ) };

    ghost view = { λ c. map string_bytes c.words.items };
}

impl Columns {
    ghost use Rattle.std.specs.Prelude.{◌≡◌, IfOk, map, string_bytes};

    /// The columns of these words. Takes no memory.
    pub fn new(words: Vec<String>) -> Columns
        ensures { result ≡ map string_bytes words.items }
    {
        Columns { words }
    }

    /// The words.
    pub fn as_slice(&self) -> &[String]
        ensures { map string_bytes result.now ≡ self.now }
    {
        self.words.as_slice()
    }

    /// The words, given back. Takes no memory.
    pub fn into_words(self) -> Vec<String>
        ensures { map string_bytes result.items ≡ self }
    {
        self.words
    }

    // The columns of these texts.
    pub(crate) fn copied(alloc: Global, texts: &[&str]) -> Result<Columns, AllocError>
        ensures { IfOk result (λ columns. columns ≡ map (λ text. text.now) texts.now) }
    {
        let mut words = Vec::new(alloc);
        for text in texts {
            words.push(String::from_str(alloc, text)?)?;
        }
        Ok(Columns::new(words))
    }
}
