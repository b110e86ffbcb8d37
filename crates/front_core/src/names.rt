// Labels.
ghost use Rattle.std.specs.Prelude.{◌≡◌};
ghost use Rattle.std.specs.List.{list_all};
ghost use Rattle.front_defs.specs.Names.{in_label, is_label as is_label_of};

use dl_values::Name;

fn is_in_label(b: u8) -> bool
    ensures { result ≡ in_label b }
{
    b.is_ascii_alphabetic() || b == b'_' || b.is_ascii_digit() || b == b'-' || b == b':'
}

fn are_in_label(bytes: &[u8]) -> bool
    ensures { result ≡ list_all in_label bytes.now }
{
    bytes.iter().all(|b| is_in_label(*b))
}

// Whether a name has the form of a label.
pub fn is_label(name: &Name) -> bool
    ensures { result ≡ is_label_of name.now }
{
    let bytes = name.bytes();
    if bytes.is_empty() || bytes.len() > 128 {
        return false;
    }
    are_in_label(bytes) && !bytes.starts_with(b"auto_")
}
