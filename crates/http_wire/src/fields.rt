// The fields of a head.
ghost use Rattle.std.specs.Prelude.{◌≡◌, ◌==◌, ◌<◌, All, IfOk, length, map};
ghost use Rattle.std.specs.Str.{str_eq_ignore_ascii_case};
ghost use Rattle.httparse.specs.Spans.{IsHeaderWithin, header_bytes};
ghost use Rattle.http_wire.specs.Fields.{IsFieldAt, has_field, says};

use httparse::spans::HeaderSpan;
use std::alloc::{AllocError, Global};
use std::marker::Model;

/// The fields of a head in their order, each a name and the bytes of its value without the blanks around it.
///
/// Contracts see a list of pairs. It holds one copy of the head, and where each name and value lie in it.
#[derive(Debug, Drop)]
pub struct Fields {
    head: Vec<u8>,
    spans: Vec<HeaderSpan>,
}

impl Model for Fields {
    ghost use Rattle.std.specs.Prelude.{All, List, ℕ, length, map};
    ghost use Rattle.httparse.specs.Spans.{IsHeaderWithin, header_bytes};

    ghost Value = { List (List ℕ × List ℕ) };

    ghost view = { λ f. map (header_bytes f.head.items) f.spans.items };

    ghost invariant = { λ f. All (IsHeaderWithin (length f.head.items)) f.spans.items };
}

impl Fields {
    /// The fields at these places of a head.
    pub(crate) fn copied(
        alloc: Global,
        head: &[u8],
        spans: &[HeaderSpan],
    ) -> Result<Fields, AllocError>
        requires { All (IsHeaderWithin (length head.now)) spans.now }
        ensures { IfOk result (λ fields. fields ≡ map (header_bytes head.now) spans.now) }
    {
        Ok(Fields {
            head: head.to_vec(alloc)?,
            spans: spans.to_vec(alloc)?,
        })
    }

    /// How many fields there are.
    pub fn len(&self) -> usize
        ensures { result ≡ length self.now }
    {
        self.spans.len()
    }

    /// Whether there is no field.
    pub fn is_empty(&self) -> bool
        ensures { result ≡ (length self.now == 0) }
    {
        self.spans.is_empty()
    }

    /// The name and the value of the field at a place.
    pub fn get(&self, place: usize) -> (&[u8], &[u8])
        requires { place < length self.now }
        ensures { IsFieldAt self.now place result.0.now result.1.now }
    {
        let span = self.spans[place];
        (span.name.of(&self.head), span.value.of(&self.head))
    }

    /// Whether a field has this name and this value, both in any case.
    pub fn has(&self, name: &[u8], value: &[u8]) -> bool
        ensures { result ≡ has_field name.now value.now self.now }
    {
        for place in 0..self.len() {
            let (field_name, field_value) = self.get(place);
            if says(field_name, field_value, name, value) {
                return true;
            }
        }
        false
    }
}

fn says(field_name: &[u8], field_value: &[u8], name: &[u8], value: &[u8]) -> bool
    ensures { result ≡ says name.now value.now (field_name.now, field_value.now) }
{
    is_same(field_name, name) && is_same(field_value, value)
}

/// Whether two texts are the same but for the case of ASCII letters.
pub(crate) fn is_same(text: &[u8], wanted: &[u8]) -> bool
    ensures { result ≡ str_eq_ignore_ascii_case text.now wanted.now }
{
    text.eq_ignore_ascii_case(wanted)
}
