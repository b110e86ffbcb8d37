// The values of the fields of a name.
ghost use Rattle.std.specs.Prelude.{◌≡◌, IfOk, option_copied, length};
ghost use Rattle.http_wire.specs.Fields.{values_of};
ghost use Rattle.load_requests.specs.Loads.{first_value, only_label};

use crate::bytes::{is_same, is_utf8};
use dl_values::{NoMemory, Text};
use http_wire::Fields;
use std::alloc::Global;

/// The value of the first field of this name.
pub fn first_value<'a>(fields: &'a Fields, name: &[u8]) -> Option<&'a [u8]>
    ensures { option_copied result ≡ first_value name.now fields.now }
{
    for place in 0..fields.len() {
        let (found, value) = fields.get(place);
        if is_same(found, name) {
            return Some(value);
        }
    }
    None
}

// How many fields have this name.
fn count(fields: &Fields, name: &[u8]) -> usize
    ensures { result ≡ length (values_of name.now fields.now) }
{
    let mut count = 0;
    for place in 0..fields.len() {
        let (found, _) = fields.get(place);
        if is_same(found, name) {
            count += 1;
        }
    }
    count
}

/// The label, where there is exactly one field of it and its value is UTF-8.
#[tactic(auto, unfolding(crate::specs::Loads::only_label))]
pub fn only_label(alloc: Global, fields: &Fields) -> Result<Option<Text>, NoMemory>
    ensures { IfOk result (λ label. label ≡ only_label fields.now) }
{
    if count(fields, b"label") != 1 {
        return Ok(None);
    }
    match first_value(fields, b"label") {
        None => Ok(None),
        Some(value) => {
            if is_utf8(value) {
                Ok(Some(Text::new(alloc, value)?))
            } else {
                Ok(None)
            }
        }
    }
}
