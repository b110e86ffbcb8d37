// Which words no form takes, sorted out before the command sees them.
ghost use Rattle.std.specs.Prelude.{◌≡◌, map, string_bytes};
ghost use Rattle.std.specs.List.{list_any};
ghost use Rattle.command_words.specs.Words.{is_option as is_option_word};

// Whether a word begins with `-` or is `help`.
fn is_option(word: &String) -> bool
    ensures { result ≡ is_option_word (string_bytes word.now) }
{
    match word.as_bytes() {
        [b'-', ..] => true,
        _ => word.as_str() == "help",
    }
}

// Whether one of the words is an option.
pub(crate) fn has_option(words: &[String]) -> bool
    ensures { result ≡ list_any is_option_word (map string_bytes words.now) }
{
    for word in words {
        if is_option(word) {
            return true;
        }
    }
    false
}
