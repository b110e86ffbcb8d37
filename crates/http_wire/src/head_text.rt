// A text of a head.
ghost use Rattle.std.specs.Prelude.{◌≡◌, IfOk, IsUtf8};

use std::alloc::{AllocError, Global};
use std::marker::Model;

/// A text of a head, as its method or its target. Contracts see its bytes.
#[derive(Debug, Drop)]
pub struct HeadText {
    text: String,
}

impl Model for HeadText {
    ghost use Rattle.std.specs.Prelude.{List, ℕ, string_bytes};

    ghost Value = { List ℕ };

    ghost view = { λ t. string_bytes t.text };
}

impl HeadText {
    /// A copy of these bytes, which are text.
    pub fn from_bytes(alloc: Global, bytes: &[u8]) -> Result<HeadText, AllocError>
        requires { IsUtf8 bytes.now }
        ensures { IfOk result (λ text. text ≡ bytes.now) }
    {
        let copy = bytes.to_vec(alloc)?;
        match String::from_utf8(copy) {
            Ok(text) => Ok(HeadText { text }),
            Err(_) => Err(AllocError),
        }
    }

    /// The text.
    pub fn as_str(&self) -> &str
        ensures { result.now ≡ self.now }
    {
        self.text.as_str()
    }

    /// The bytes of the text.
    pub fn as_bytes(&self) -> &[u8]
        ensures { result.now ≡ self.now }
    {
        self.text.as_bytes()
    }
}
