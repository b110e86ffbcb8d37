// Words, which are read in any case.
ghost use Rattle.std.specs.Prelude.{◌≡◌};
ghost use Rattle.std.specs.Str.{bytes_eq};
ghost use Rattle.std.specs.List.{list_any};
ghost use Rattle.sql_grammar.specs.Marks.{same_word, is_reserved, lower};

/// Whether two words differ in their case alone.
pub fn same_word(a: &[u8], b: &[u8]) -> bool
    ensures { result ≡ same_word a.now b.now }
{
    a.eq_ignore_ascii_case(b)
}

fn is_any_word(words: &[&[u8]], word: &[u8]) -> bool
    ensures { result ≡ list_any (λ w. same_word word.now w.now) words.now }
{
    words.iter().any(|w| same_word(word, w))
}

/// Whether a word is no name out of backquotes.
#[tactic(auto, unfolding(crate::specs::Marks::is_reserved))]
pub fn is_reserved(word: &[u8]) -> bool
    ensures { result ≡ is_reserved (lower word.now) }
{
    const RESERVED: [&[u8]; 33] = [
        b"add",
        b"alter",
        b"and",
        b"asc",
        b"by",
        b"column",
        b"create",
        b"database",
        b"default",
        b"desc",
        b"distributed",
        b"drop",
        b"exists",
        b"from",
        b"group",
        b"if",
        b"is",
        b"key",
        b"less",
        b"limit",
        b"modify",
        b"not",
        b"null",
        b"order",
        b"partition",
        b"properties",
        b"range",
        b"select",
        b"show",
        b"table",
        b"than",
        b"values",
        b"where",
    ];
    is_any_word(&RESERVED, word)
}
