// The form that the matches of the command tell.
ghost use Rattle.std.specs.Prelude.{◌≡◌, IfOk, Err, None, Some, map};
ghost use Rattle.clap.specs.Words.{found_of, rows_of, subcommand_rows_of};
ghost use Rattle.command_words.specs.Command.{dryrun_in_rows, form_in_matches};
ghost use Rattle.command_words.specs.Words.{dryrun_with, is_model as is_model_letter, model_of as model_of_word};

use crate::{Columns, Form, FormError};
use clap::ArgMatches;
use std::alloc::Global;

// Whether a letter is that of a model.
fn is_model(letter: u8) -> bool
    ensures { result ≡ is_model_letter letter }
{
    letter == b'A' || letter == b'D' || letter == b'U'
}

// The model that a word names.
fn model_of(word: &str) -> Option<u8>
    ensures { result ≡ model_of_word word.now }
{
    match word.as_bytes() {
        [letter] if is_model(*letter) => Some(*letter),
        _ => None,
    }
}

// The form of a model word and column words.
fn dryrun_form(alloc: Global, model: &str, columns: &[&str]) -> Result<Form, FormError>
    ensures ok { IfOk result (λ form. dryrun_with model.now (map (λ column. column.now) columns.now) ≡ Some form) }
    ensures usage { result ≡ Err FormError.Usage → dryrun_with model.now (map (λ column. column.now) columns.now) ≡ None }
{
    match model_of(model) {
        Some(model) => Ok(Form::Dryrun {
            model,
            columns: Columns::copied(alloc, columns)?,
        }),
        None => Err(FormError::Usage),
    }
}

// The form that the matches of `dryrun` tell.
fn dryrun_in(alloc: Global, words: &ArgMatches<'_>) -> Result<Form, FormError>
    ensures ok { IfOk result (λ form. dryrun_in_rows (rows_of (found_of words.now)) ≡ Some form) }
    ensures usage { result ≡ Err FormError.Usage → dryrun_in_rows (rows_of (found_of words.now)) ≡ None }
{
    let Some(model) = words.get_str("model") else {
        return Err(FormError::Usage);
    };
    let Some(columns) = words.get_strs("columns") else {
        return Err(FormError::Usage);
    };
    dryrun_form(alloc, model, columns)
}

// The form that the matches of the whole command tell.
pub(crate) fn form_in(alloc: Global, matches: &ArgMatches<'_>) -> Result<Form, FormError>
    ensures ok { IfOk result (λ form. form_in_matches (subcommand_rows_of matches.now) ≡ Some form) }
    ensures usage { result ≡ Err FormError.Usage → form_in_matches (subcommand_rows_of matches.now) ≡ None }
{
    let Some((name, words)) = matches.subcommand() else {
        return Err(FormError::Usage);
    };
    if name == "dryrun" {
        return dryrun_in(alloc, words);
    }
    if name == "run" {
        return Ok(Form::Run { journal: None });
    }
    Err(FormError::Usage)
}
