// The signs of statements.
ghost use Rattle.std.specs.Prelude.{◌≡◌, option_map};
ghost use Rattle.sql_tokens.specs.Signs.{sign_of, long_sign_of, long_sign_at, sign_at};

use crate::Sign;

#[tactic(auto, unfolding(crate::specs::Signs::sign_of))]
fn sign_of(byte: u8) -> Option<Sign>
    ensures { result ≡ sign_of byte }
{
    match byte {
        b'(' => Some(Sign::Open),
        b')' => Some(Sign::Close),
        b'[' => Some(Sign::OpenRange),
        b',' => Some(Sign::Comma),
        b';' => Some(Sign::End),
        b'=' => Some(Sign::Equal),
        b'<' => Some(Sign::Less),
        b'>' => Some(Sign::Greater),
        b'*' => Some(Sign::Star),
        _ => None,
    }
}

#[tactic(auto, unfolding(crate::specs::Signs::long_sign_of))]
fn long_sign_of(first: u8, second: u8) -> Option<Sign>
    ensures { result ≡ long_sign_of first second }
{
    if first == b'<' && second == b'=' {
        Some(Sign::AtMost)
    } else if first == b'<' && second == b'>' {
        Some(Sign::Unequal)
    } else if first == b'>' && second == b'=' {
        Some(Sign::AtLeast)
    } else if first == b'!' && second == b'=' {
        Some(Sign::Unequal)
    } else {
        None
    }
}

// The sign of two bytes that a byte begins, and what stands behind it.
fn long_sign(first: u8, rest: &[u8]) -> Option<(Sign, &[u8])>
    ensures { option_map (λ x. (x.0, x.1.now)) result ≡ long_sign_at first rest.now }
{
    let [second, behind @ ..] = rest else {
        return None;
    };
    match long_sign_of(first, *second) {
        None => None,
        Some(sign) => Some((sign, behind)),
    }
}

/// The longest sign that a byte begins, and what stands behind it.
pub fn sign(first: u8, rest: &[u8]) -> Option<(Sign, &[u8])>
    ensures { option_map (λ x. (x.0, x.1.now)) result ≡ sign_at first rest.now }
{
    match long_sign(first, rest) {
        Some(found) => Some(found),
        None => match sign_of(first) {
            None => None,
            Some(sign) => Some((sign, rest)),
        },
    }
}
