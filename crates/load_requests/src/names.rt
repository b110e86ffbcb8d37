// Names, and the words that are none.
ghost use Rattle.std.specs.Prelude.{◌≡◌};
ghost use Rattle.std.specs.List.{list_any};
ghost use Rattle.std.specs.Str.{str_eq_ignore_ascii_case};
ghost use Rattle.load_requests.specs.Statements.{is_reserved, is_plain, is_name, is_word, count_of};

use crate::bytes::{begins_word, is_same};
use crate::numbers::number_of;
use crate::token::Kind;

const RESERVED: [&[u8]; 33] = [
    b"ADD",
    b"ALTER",
    b"AND",
    b"ASC",
    b"BY",
    b"COLUMN",
    b"CREATE",
    b"DATABASE",
    b"DEFAULT",
    b"DESC",
    b"DISTRIBUTED",
    b"DROP",
    b"EXISTS",
    b"FROM",
    b"GROUP",
    b"IF",
    b"IS",
    b"KEY",
    b"LESS",
    b"LIMIT",
    b"MODIFY",
    b"NOT",
    b"NULL",
    b"ORDER",
    b"PARTITION",
    b"PROPERTIES",
    b"RANGE",
    b"SELECT",
    b"SHOW",
    b"TABLE",
    b"THAN",
    b"VALUES",
    b"WHERE",
];

fn is_any(words: &[&[u8]], word: &[u8]) -> bool
    ensures { result ≡ list_any (λ w. str_eq_ignore_ascii_case word.now w.now) words.now }
{
    words.iter().any(|w| is_same(word, w))
}

fn is_reserved(word: &[u8]) -> bool
    ensures { result ≡ is_reserved word.now }
{
    is_any(&RESERVED, word)
}

fn is_word(bytes: &[u8]) -> bool
    ensures { result ≡ is_word bytes.now }
{
    match bytes {
        [] => false,
        [first, ..] => begins_word(*first),
    }
}

/// Whether a token is this word or sign, in any case.
pub fn is_plain(kind: Kind, bytes: &[u8], word: &[u8]) -> bool
    ensures { result ≡ is_plain word.now (kind, bytes.now) }
{
    match kind {
        Kind::Plain => is_same(bytes, word),
        Kind::Quoted | Kind::Number => false,
    }
}

/// Whether a token is a name: a word that is not reserved, or what stands in backquotes.
pub fn is_name(kind: Kind, bytes: &[u8]) -> bool
    ensures { result ≡ is_name (kind, bytes.now) }
{
    match kind {
        Kind::Plain => is_word(bytes) && !is_reserved(bytes),
        Kind::Quoted => true,
        Kind::Number => false,
    }
}

/// The number that a token of 1 to 19 digits writes.
pub fn count_of(kind: Kind, bytes: &[u8]) -> Option<u64>
    ensures { result ≡ count_of (kind, bytes.now) }
{
    match kind {
        Kind::Number => number_of(bytes),
        Kind::Plain | Kind::Quoted => None,
    }
}
