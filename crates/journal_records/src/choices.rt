// Bytes that say which of several things comes next.
ghost use Rattle.std.specs.Prelude.{◌≡◌, drop, true, false, MatchOption, Ok};
ghost use Rattle.journal_records.specs.Reading.{Gives, heads, flag_at};

use crate::stop::Stop;

// What stands behind the byte, where it comes next.
pub fn after_tag(bytes: &[u8], tag: u8) -> Option<&[u8]>
    ensures { MatchOption result (heads tag bytes.now ≡ false) (λ rest. (heads tag bytes.now ≡ true) × (rest.now ≡ drop 1 bytes.now)) }
{
    match bytes {
        [byte, rest @ ..] if *byte == tag => Some(rest),
        _ => None,
    }
}

// A byte 0 or 1.
#[tactic(auto, unfolding(crate::specs::Reading::flag_at))]
pub fn flag(bytes: &[u8]) -> Result<(bool, &[u8]), Stop>
    ensures { Gives (λ x. (x.0, x.1.now)) result (flag_at bytes.now) }
{
    if let Some(rest) = after_tag(bytes, 0) {
        return Ok((false, rest));
    }
    if let Some(rest) = after_tag(bytes, 1) {
        return Ok((true, rest));
    }
    Err(Stop::Left(bytes.len()))
}
