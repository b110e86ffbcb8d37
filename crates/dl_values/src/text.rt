// A text, which contracts see as its bytes.
use crate::NoMemory;
use std::alloc::Global;
use std::cmp::Ordering;
use std::marker::Model;

// The longest text that stands in its cell, without memory of its own.
const SHORT: usize = 22;

/// A text of any bytes. Whether they are UTF-8 is judged where they are read.
#[derive(Debug, Drop)]
pub struct Text {
    held: Held,
}

// Where the bytes stand: in the value itself, or in memory of their own.
#[derive(Debug, Drop)]
enum Held {
    Short { len: u8, bytes: [u8; SHORT] },
    Long(Box<Vec<u8>>),
}

impl Model for Text {
    ghost use Rattle.std.specs.Prelude.{ℕ, List};

    ghost Value = { List ℕ };

    ghost use Rattle.dl_values.specs.Held.{held_bytes, IsHeld};

    ghost view = { λ t. held_bytes t.held };

    ghost invariant = { λ t. IsHeld t.held };
}

impl Text {
    ghost use Rattle.std.specs.Prelude.{◌≡◌, IfOk};
    ghost use Rattle.std.specs.Cmp.Lexicographic.{slice_cmp};
    ghost use Rattle.std.specs.Ordering.{nat_cmp};

    /// A text of its own with these bytes.
    pub fn new(alloc: Global, bytes: &[u8]) -> Result<Text, NoMemory>
        ensures { IfOk result (λ t. t ≡ bytes.now) }
    {
        if bytes.len() > SHORT {
            let long = Vec::from_slice(alloc, bytes)?;
            return Ok(Text {
                held: Held::Long(Box::new(alloc, long)?),
            });
        }
        let mut short = [0; SHORT];
        short[..bytes.len()].copy_from_slice(bytes);
        Ok(Text {
            held: Held::Short {
                len: bytes.len() as u8,
                bytes: short,
            },
        })
    }

    /// The bytes in their order.
    pub fn bytes(&self) -> &[u8]
        ensures { result.now ≡ self.now }
    {
        match &self.held {
            Held::Short { len, bytes } => &bytes[..*len as usize],
            Held::Long(bytes) => bytes.as_slice(),
        }
    }

    /// A text of its own with the same bytes.
    pub fn copy(&self, alloc: Global) -> Result<Text, NoMemory>
        ensures { IfOk result (λ t. t ≡ self.now) }
    {
        Text::new(alloc, self.bytes())
    }

    /// How two texts stand to each other, byte by byte.
    pub fn compare(&self, other: &Text) -> Ordering
        ensures { result ≡ slice_cmp nat_cmp self.now other.now }
    {
        self.bytes().cmp(other.bytes())
    }
}
