// The fields of a load, and which of them is at fault.
ghost use Rattle.std.specs.Prelude.{◌≡◌, ◌≤◌, ◌<◌, ◌++◌, ℕ, List, IfOk, IsTrue, map, take, length, slice_get, option_copied};
ghost use Rattle.std.specs.List.{list_any};
ghost use Rattle.http_wire.specs.Fields.{is_named};
ghost use Rattle.load_requests.specs.LoadFields.{fields_fault, field_fault, value_fault, repeated, single_name, refused_name, separates, is_ratio, is_flag, named_in, unless};

use crate::bytes::{is_same, is_utf8};
use csv_load::Options;
use dl_values::{NoMemory, Text};
use http_wire::Fields;
use std::alloc::Global;

// The fields that may stand once.
const SINGLE_NAMES: [&[u8]; 5] = [
    b"label",
    b"column_separator",
    b"max_filter_ratio",
    b"strict_mode",
    b"two_phase_commit",
];

// The fields that no load may have.
const REFUSED_NAMES: [&[u8]; 19] = [
    b"columns",
    b"where",
    b"partitions",
    b"temporary_partitions",
    b"jsonpaths",
    b"json_root",
    b"strip_outer_array",
    b"merge_type",
    b"delete",
    b"negative",
    b"compress_type",
    b"content-encoding",
    b"enclose",
    b"escape",
    b"skip_lines",
    b"trim_double_quotes",
    b"hidden_columns",
    b"partial_columns",
    b"function_column.sequence_col",
];

// The first of these names that a field has, if there is one.
fn named_in<'a>(names: &[&'a [u8]], name: &[u8]) -> Option<&'a [u8]>
    ensures { option_copied result ≡ named_in (map (λ n. n.now) names.now) name.now }
{
    for wanted in names {
        if is_same(name, wanted) {
            return Some(wanted);
        }
    }
    None
}

// The name of a field that may stand once.
#[tactic(auto, unfolding(crate::specs::LoadFields::single_name))]
fn single_name(name: &[u8]) -> Option<&'static [u8]>
    ensures { option_copied result ≡ single_name name.now }
{
    named_in(&SINGLE_NAMES, name)
}

// The name of a field that no load may have.
#[tactic(auto, unfolding(crate::specs::LoadFields::refused_name))]
fn refused_name(name: &[u8]) -> Option<&'static [u8]>
    ensures { option_copied result ≡ refused_name name.now }
{
    named_in(&REFUSED_NAMES, name)
}

// A text and a name.
fn text_of(alloc: Global, text: &[u8], name: &[u8]) -> Result<Text, NoMemory>
    ensures { IfOk result (λ t. t ≡ text.now ++ name.now) }
{
    let mut bytes = Vec::from_slice(alloc, text)?;
    bytes.extend_from_slice(name)?;
    Text::new(alloc, bytes.as_slice())
}

// The text, unless the value is taken.
fn unless(alloc: Global, taken: bool, text: &[u8]) -> Result<Option<Text>, NoMemory>
    ensures { IfOk result (λ fault. fault ≡ unless taken text.now) }
{
    if taken {
        Ok(None)
    } else {
        Ok(Some(Text::new(alloc, text)?))
    }
}

// Whether a value stands for a separator.
#[tactic(auto, unfolding(crate::specs::LoadFields::separates))]
fn separates(value: &[u8]) -> bool
    ensures { result ≡ separates value.now }
{
    Options::build(Some(value), None, false).is_ok()
}

// Whether a value stands for a ratio.
#[tactic(auto, unfolding(crate::specs::LoadFields::is_ratio))]
fn is_ratio(value: &[u8]) -> bool
    ensures { result ≡ is_ratio value.now }
{
    Options::build(None, Some(value), false).is_ok()
}

// Whether a value says yes or no.
#[tactic(auto, unfolding(crate::specs::LoadFields::is_flag))]
fn is_flag(value: &[u8]) -> bool
    ensures { result ≡ is_flag value.now }
{
    is_same(value, b"true") || is_same(value, b"false")
}

// Why a value is not taken, by the field's name.
#[tactic(auto, unfolding(crate::specs::LoadFields::value_fault))]
fn value_fault(alloc: Global, name: &[u8], value: &[u8]) -> Result<Option<Text>, NoMemory>
    ensures { IfOk result (λ fault. fault ≡ value_fault name.now value.now) }
{
    if is_same(name, b"label") {
        return unless(alloc, is_utf8(value), b"BadHeader name=label");
    }
    if is_same(name, b"column_separator") {
        return unless(alloc, separates(value), b"BadSeparator");
    }
    if is_same(name, b"max_filter_ratio") {
        return unless(alloc, is_ratio(value), b"BadRatio");
    }
    if is_same(name, b"strict_mode") {
        return unless(alloc, is_flag(value), b"BadHeader name=strict_mode");
    }
    if is_same(name, b"two_phase_commit") {
        return unless(alloc, is_flag(value), b"BadHeader name=two_phase_commit");
    }
    if is_same(name, b"format") {
        return unless(alloc, is_same(value, b"csv"), b"Unsupported name=format");
    }
    if is_same(name, b"line_delimiter") {
        return unless(
            alloc,
            value == b"\\n".as_slice(),
            b"Unsupported name=line_delimiter",
        );
    }
    match refused_name(name) {
        None => Ok(None),
        Some(refused) => Ok(Some(text_of(alloc, b"Unsupported name=", refused)?)),
    }
}

// Whether a field of this name stands before a place.
fn stood_before(fields: &Fields, place: usize, name: &[u8]) -> bool
    requires { place ≤ length fields.now }
    ensures { result ≡ list_any (is_named name.now) (take place fields.now) }
{
    for earlier in 0..place {
        let (found, _) = fields.get(earlier);
        if is_same(found, name) {
            return true;
        }
    }
    false
}

// Why a field that stands at a place is one too many.
fn repeat_fault(
    alloc: Global,
    fields: &Fields,
    place: usize,
    name: &[u8],
) -> Result<Option<Text>, NoMemory>
    requires { place ≤ length fields.now }
    ensures { IfOk result (λ fault. fault ≡ repeated (list_any (is_named name.now) (take place fields.now)) (single_name name.now)) }
{
    if !stood_before(fields, place, name) {
        return Ok(None);
    }
    match single_name(name) {
        None => Ok(None),
        Some(single) => Ok(Some(text_of(alloc, b"BadHeader name=", single)?)),
    }
}

// Why the field that stands at a place is at fault.
#[tactic(auto, unfolding(crate::specs::LoadFields::field_fault))]
fn field_fault(
    alloc: Global,
    fields: &Fields,
    place: usize,
    name: &[u8],
    value: &[u8],
) -> Result<Option<Text>, NoMemory>
    requires { place ≤ length fields.now }
    ensures { IfOk result (λ fault. fault ≡ field_fault (take place fields.now) (name.now, value.now)) }
{
    match repeat_fault(alloc, fields, place, name)? {
        Some(text) => Ok(Some(text)),
        None => value_fault(alloc, name, value),
    }
}

/// Why the fields of a head make no load: the text of the first that is at fault.
pub fn fields_fault(alloc: Global, fields: &Fields) -> Result<Option<Text>, NoMemory>
    ensures { IfOk result (λ fault. fault ≡ fields_fault fields.now) }
{
    for place in 0..fields.len() {
        let (name, value) = fields.get(place);
        match field_fault(alloc, fields, place, name, value)? {
            None => {}
            Some(text) => return Ok(Some(text)),
        }
    }
    Ok(None)
}
