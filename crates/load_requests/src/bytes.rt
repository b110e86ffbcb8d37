// Runs of bytes of a class.
ghost use Rattle.std.specs.Prelude.{◌≡◌, ◌≤◌, length};
ghost use Rattle.std.specs.List.{prefix_len};
ghost use Rattle.std.specs.Str.{is_utf8, str_eq_ignore_ascii_case};
ghost use Rattle.load_requests.specs.Bytes.{is_blank, begins_word, is_digit, in_word, is_of};

/// A class of bytes.
#[derive(Clone, Copy, Debug, PartialEq, Eq)]
pub enum Class {
    /// Space, tab, LF and CR.
    Blank,
    /// ASCII letters, digits and `_`.
    Word,
    Digit,
    /// The digit 0.
    /// All but a backquote.
    Quoted,
    /// All but `?`.
    Path,
    /// All but `/`.
    Part,
}

fn is_blank(b: u8) -> bool
    ensures { result ≡ is_blank b }
{
    b == b' ' || b == b'\t' || b == b'\n' || b == b'\r'
}

/// Whether a word begins with this byte.
pub fn begins_word(b: u8) -> bool
    ensures { result ≡ begins_word b }
{
    (b'A' <= b && b <= b'Z') || (b'a' <= b && b <= b'z') || b == b'_'
}

/// Whether this byte is a digit.
pub fn is_digit(b: u8) -> bool
    ensures { result ≡ is_digit b }
{
    b'0' <= b && b <= b'9'
}

fn in_word(b: u8) -> bool
    ensures { result ≡ in_word b }
{
    begins_word(b) || is_digit(b)
}

fn is_of(class: Class, b: u8) -> bool
    ensures { result ≡ is_of class b }
{
    match class {
        Class::Blank => is_blank(b),
        Class::Word => in_word(b),
        Class::Digit => is_digit(b),
        Class::Quoted => b != b'`',
        Class::Path => b != b'?',
        Class::Part => b != b'/',
    }
}

/// How many bytes of a class a text begins with.
pub fn run_length(class: Class, text: &[u8]) -> usize
    ensures within { result ≤ length text.now }
    ensures count { result ≡ prefix_len (is_of class) text.now }
{
    for (i, b) in text.iter().enumerate() {
        if !is_of(class, *b) {
            return i;
        }
    }
    text.len()
}

/// Whether two texts are the same but for the case of ASCII letters.
pub fn is_same(text: &[u8], wanted: &[u8]) -> bool
    ensures { result ≡ str_eq_ignore_ascii_case text.now wanted.now }
{
    text.eq_ignore_ascii_case(wanted)
}

/// Whether bytes are UTF-8.
#[tactic(auto, using(crate::proofs::Utf8::is_text, crate::proofs::Utf8::is_no_text))]
pub fn is_utf8(bytes: &[u8]) -> bool
    ensures { result ≡ is_utf8 bytes.now }
{
    match std::str::from_utf8(bytes) {
        Ok(_) => true,
        Err(_) => false,
    }
}
