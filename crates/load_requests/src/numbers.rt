// Numbers of 1 to 19 digits.
ghost use Rattle.std.specs.Prelude.{◌≡◌, ◌≤◌, Some, None, if◌then◌else◌, length};
ghost use Rattle.std.specs.Str.{all_ascii_digits};
ghost use Rattle.std.specs.Str.Parse.{digits_value};
ghost use Rattle.load_requests.specs.Ends.{number_of};

/// The number that a text of 1 to 19 digits writes.
#[tactic(auto, unfolding(crate::specs::Ends::number_of))]
pub fn number_of(text: &[u8]) -> Option<u64>
    ensures { result ≡ number_of text.now }
{
    if text.is_empty() || 19 < text.len() {
        return None;
    }
    number(text)
}

// The number that up to 19 digits write.
#[tactic(auto, using(crate::proofs::Digits::fits, crate::proofs::Digits::below))]
fn number(digits: &[u8]) -> Option<u64>
    requires { length digits.now ≤ 19 }
    ensures { result ≡ (if all_ascii_digits digits.now then Some (digits_value 10 digits.now) else None) }
{
    let mut number = 0;
    for digit in digits {
        if !digit.is_ascii_digit() {
            return None;
        }
        number = number * 10 + u64::from(*digit - b'0');
    }
    Some(number)
}
