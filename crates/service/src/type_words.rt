// The types and the roles that words name.
ghost use Rattle.std.specs.Prelude.{◌≡◌, ◌<◌, ◌≤◌, ◌^◌, IfSome, None, Some, if◌then◌else◌, length, option_map};
ghost use Rattle.std.specs.Str.{all_ascii_digits};
ghost use Rattle.std.specs.Str.Parse.{digits_value};
ghost use Rattle.service.specs.TypeWords as words;

use dl_values::{AggKind, ColType};
use schema_models::Role;

// How many digits the length of a VARCHAR has at most.
const MOST_DIGITS: usize = 19;

// What stands behind a front of a text.
fn behind<'a>(front: &[u8], text: &'a [u8]) -> Option<&'a [u8]>
    ensures { option_map (λ x. x.now) result ≡ words.behind front.now text.now }
{
    text.strip_prefix(front)
}

// What stands before an end of a text.
fn before<'a>(back: &[u8], text: &'a [u8]) -> Option<&'a [u8]>
    ensures { option_map (λ x. x.now) result ≡ words.before back.now text.now }
{
    text.strip_suffix(back)
}

// The number that digits write.
fn number(digits: &[u8]) -> Option<u64>
    requires { length digits.now ≤ MOST_DIGITS }
    ensures { result ≡ (if all_ascii_digits digits.now then Some (digits_value 10 digits.now) else None) }
{
    let mut value = 0;
    for digit in digits {
        if !digit.is_ascii_digit() {
            return None;
        }
        value = value * 10 + u64::from(*digit - b'0');
    }
    Some(value)
}

// The length that 1 to 19 digits write, or the greatest number of 32 bits where it is beyond.
fn length_of(digits: &[u8]) -> Option<u32>
    ensures { result ≡ words.length_of digits.now }
{
    if digits.is_empty() || digits.len() > MOST_DIGITS {
        return None;
    }
    match number(digits) {
        None => None,
        Some(value) => Some(value.min(0xffff_ffff) as u32),
    }
}

// The type of a word `VARCHAR(M)`.
#[tactic(auto, unfolding(crate::specs::TypeWords::varchar_of))]
fn varchar_of(word: &[u8]) -> Option<ColType>
    ensures { result ≡ words.varchar_of word.now }
{
    let Some(rest) = behind(b"VARCHAR(", word) else {
        return None;
    };
    let Some(digits) = before(b")", rest) else {
        return None;
    };
    match length_of(digits) {
        None => None,
        Some(most) => Some(ColType::Varchar(most)),
    }
}

/// The type that a word names.
pub fn type_of(word: &[u8]) -> Option<ColType>
    ensures { result ≡ words.type_of word.now }
{
    if word == b"TINYINT".as_slice() {
        return Some(ColType::TinyInt);
    }
    if word == b"SMALLINT".as_slice() {
        return Some(ColType::SmallInt);
    }
    if word == b"INT".as_slice() {
        return Some(ColType::Int);
    }
    if word == b"BIGINT".as_slice() {
        return Some(ColType::BigInt);
    }
    if word == b"DATE".as_slice() {
        return Some(ColType::Date);
    }
    varchar_of(word)
}

/// The role that a word names.
pub fn role_of(word: &[u8]) -> Option<Role>
    ensures { result ≡ words.role_of word.now }
{
    if word == b"KEY".as_slice() {
        return Some(Role::Key);
    }
    if word == b"VALUE".as_slice() {
        return Some(Role::Plain);
    }
    if word == b"SUM".as_slice() {
        return Some(Role::Agg(AggKind::Sum));
    }
    if word == b"MIN".as_slice() {
        return Some(Role::Agg(AggKind::Min));
    }
    if word == b"MAX".as_slice() {
        return Some(Role::Agg(AggKind::Max));
    }
    if word == b"REPLACE".as_slice() {
        return Some(Role::Agg(AggKind::Replace));
    }
    if word == b"REPLACE_IF_NOT_NULL".as_slice() {
        return Some(Role::Agg(AggKind::ReplaceIfNotNull));
    }
    None
}
