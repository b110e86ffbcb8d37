// The separator that a text stands for.
ghost use Rattle.std.specs.Prelude.{◌≡◌, nat_lt, if◌then◌else◌, Some, None};
ghost use Rattle.std.specs.Char.{digit_value};
ghost use Rattle.csv_load.specs.Options.{is_visible, may_separate, hex_byte, separator_of};

// The value of a hexadecimal digit of either case.
fn hex_digit(b: u8) -> Option<u8>
    ensures { result ≡ (if nat_lt (digit_value b) 16 then Some (digit_value b) else None) }
{
    match b {
        b'0'..=b'9' => Some(b - b'0'),
        b'A'..=b'F' => Some(b - b'A' + 10),
        b'a'..=b'f' => Some(b - b'a' + 10),
        _ => None,
    }
}

// A byte by its number, where it may separate.
fn by_number(high: u8, low: u8) -> Option<u8>
    ensures { result ≡ hex_byte high low }
{
    let byte = hex_digit(high)? * 16 + hex_digit(low)?;
    if byte != b'\n' && byte != b'\r' && byte != b'\\' {
        Some(byte)
    } else {
        None
    }
}

// A visible character that stands for itself.
fn by_itself(b: u8) -> Option<u8>
    ensures { result ≡ (if is_visible b then Some b else None) }
{
    if b'!' <= b && b <= b'~' && b != b'\\' {
        Some(b)
    } else {
        None
    }
}

// The separator that a text stands for.
pub(crate) fn separator(text: &[u8]) -> Option<u8>
    ensures { result ≡ separator_of text.now }
{
    match text {
        [only] => by_itself(*only),
        [b'\\', b't'] => Some(b'\t'),
        [b'\\', b'x', high, low] => by_number(*high, *low),
        _ => None,
    }
}
