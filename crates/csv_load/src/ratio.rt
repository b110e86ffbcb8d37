// The ratio that a text stands for, in ten-thousandths.
ghost use Rattle.std.specs.Prelude.{◌≡◌, ◌≤◌, ◌*◌, ◌^◌, ◌-◌, ◌<◌, nat_le, ◌&&◌, if◌then◌else◌, Some, None, IfSome, length};
ghost use Rattle.std.specs.Str.{all_ascii_digits};
ghost use Rattle.std.specs.Str.Parse.{digits_value};
ghost use Rattle.csv_load.specs.Options.{part_of, fraction_of, ratio_of};

/// A ratio of one: every record may be filtered.
pub(crate) const ONE: u64 = 10_000;

// The number that up to four digits write.
fn number(digits: &[u8]) -> Option<u64>
    requires { length digits.now ≤ 4 }
    ensures value { result ≡ (if all_ascii_digits digits.now then Some (digits_value 10 digits.now) else None) }
    ensures size { IfSome result (λ n. n < 10 ^ length digits.now) }
{
    let mut value = 0;
    for digit in digits {
        if !digit.is_ascii_digit() {
            return None;
        }
        value = value * 10 + u64::from(*digit - b'0');
    }
    Some(value)
}

// One to four digits after the point.
fn part(digits: &[u8]) -> Option<u64>
    ensures value { result ≡ part_of digits.now }
    ensures size { IfSome result (λ n. n < ONE) }
{
    if digits.is_empty() || digits.len() > 4 {
        return None;
    }
    let number = number(digits)?;
    Some(number * 10u64.pow(4 - digits.len() as u32))
}

// What stands behind the whole part.
fn fraction(text: &[u8]) -> Option<u64>
    ensures value { result ≡ fraction_of text.now }
    ensures size { IfSome result (λ n. n < ONE) }
{
    match text {
        [] => Some(0),
        [b'.', digits @ ..] => part(digits),
        _ => None,
    }
}

// The ratio that a text stands for.
pub(crate) fn ratio(text: &[u8]) -> Option<u64>
    ensures { result ≡ ratio_of text.now }
{
    let (whole, rest) = match text {
        [b'0', rest @ ..] => (0, rest),
        [b'1', rest @ ..] => (ONE, rest),
        _ => return None,
    };
    let ratio = whole + fraction(rest)?;
    if ratio <= ONE { Some(ratio) } else { None }
}
