// Reading a number.
ghost use Rattle.std.specs.Prelude.{◌≡◌, ℕ, ◌<◌, ◌≤◌, IfSome, IfNone, length, pos, true};
ghost use Rattle.std.specs.Str.{all_ascii_digits};
ghost use Rattle.std.specs.Str.Parse.{digits_value};
ghost use Rattle.dl_values.specs.Read.{number_of, signed_number, minus, Spells};

// 2 to the power 63, the size of the least number.
const MOST: u64 = 9_223_372_036_854_775_808;

// The number that one or more digits spell, where it is not above the most.
fn magnitude(digits: &[u8]) -> Option<u64>
    ensures some { IfSome result (λ n. Spells digits.now n × (n ≤ MOST)) }
    ensures none { IfNone result ((n : ℕ) → Spells digits.now n → MOST < n) }
{
    if digits.is_empty() {
        return None;
    }
    let mut value: u64 = 0;
    for digit in digits {
        if !digit.is_ascii_digit() {
            return None;
        }
        if value > MOST / 10 {
            return None;
        }
        value = value * 10 + (*digit - b'0') as u64;
    }
    if value > MOST { None } else { Some(value) }
}

// The number of digits behind a minus.
fn below_zero(digits: &[u8]) -> Option<i64>
    ensures { result ≡ signed_number minus digits.now }
{
    match magnitude(digits) {
        None => None,
        Some(0) => Some(0),
        Some(n) => Some(-1 - (n - 1) as i64),
    }
}

// The number of digits behind a plus or without a sign.
fn from_zero(digits: &[u8]) -> Option<i64>
    ensures { result ≡ signed_number pos digits.now }
{
    match magnitude(digits) {
        None => None,
        Some(n) => { if n < MOST { Some(n as i64) } else { None } }
    }
}

// The number that a text without blanks spells, where 64 bits hold it.
pub fn number(text: &[u8]) -> Option<i64>
    ensures { result ≡ number_of text.now }
{
    match text {
        [] => None,
        [b'-', digits @ ..] => below_zero(digits),
        [b'+', digits @ ..] => from_zero(digits),
        digits => from_zero(digits),
    }
}
