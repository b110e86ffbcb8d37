// Which bytes are a name.
ghost use Rattle.std.specs.Prelude.{◌≡◌};
ghost use Rattle.std.specs.List.{list_all};
ghost use Rattle.schema_models.specs.Names.{begins_name, continues_name, is_name as is_name_of};

// Whether a name may begin with this byte.
fn begins_name_with(b: u8) -> bool
    ensures { result ≡ begins_name b }
{
    b.is_ascii_alphabetic() || b == b'_'
}

// Whether a name may go on with this byte.
fn continues_name_with(b: u8) -> bool
    ensures { result ≡ continues_name b }
{
    begins_name_with(b) || b.is_ascii_digit()
}

// Whether a name may go on with these bytes.
fn goes_on_with(bytes: &[u8]) -> bool
    ensures { result ≡ list_all continues_name bytes.now }
{
    bytes.iter().all(|b| continues_name_with(*b))
}

/// Whether bytes are a name (this project's own rule): 1 to 64 of them, an ASCII letter or `_`, and then letters, digits
/// and `_`.
pub fn is_name(bytes: &[u8]) -> bool
    ensures { result ≡ is_name_of bytes.now }
{
    if bytes.is_empty() || bytes.len() > 64 {
        return false;
    }
    if !begins_name_with(bytes[0]) {
        return false;
    }
    goes_on_with(&bytes[1..])
}
