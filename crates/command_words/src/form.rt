// The public call `form_of`.
ghost use Rattle.std.specs.Prelude.{◌≡◌, IfOk, Err, None, Some, map, string_bytes};
ghost use Rattle.command_words.specs.Words.{form_of as form_of_words};

use crate::command::parsed;
use crate::matches::form_in;
use crate::options::has_option;
use crate::{Columns, FormError};
use std::alloc::Global;

/// A command form.
#[derive(Debug, Drop)]
pub enum Form {
    /// `dryrun MODEL COLUMN ..`: the letter of the model, and one column word or more.
    Dryrun { model: u8, columns: Columns },
    /// `run`. No further word is taken so far, so there is no journal file.
    Run { journal: Option<String> },
}

/// The form of the words behind the program's name. Words that begin with `-` and the word `help` are sorted out before
/// the command of `clap` sees the words, which would answer them with help or take them for options.
pub fn form_of(alloc: Global, words: &[String]) -> Result<Form, FormError>
    ensures ok { IfOk result (λ form. form_of_words (map string_bytes words.now) ≡ Some form) }
    ensures usage { result ≡ Err FormError.Usage → form_of_words (map string_bytes words.now) ≡ None }
{
    if has_option(words) {
        return Err(FormError::Usage);
    }
    let matches = parsed(alloc, words)?;
    form_in(alloc, &matches)
}
