// The command of `clap` that reads the words.
ghost use Rattle.std.specs.Prelude.{◌≡◌, ◌≢◌, IfOk, Err, None, false, map, string_bytes};
ghost use Rattle.std.specs.List.{list_any};
ghost use Rattle.clap.specs.Words.{app_of, kind_of, subcommand_rows_of};
ghost use Rattle.command_words.specs.Command.{form_in_matches, whole_app};
ghost use Rattle.command_words.specs.Words.{form_behind, is_option};

use crate::FormError;
use clap::error::ErrorKind;
use clap::{Arg, ArgMatches, Command, Error};
use std::alloc::{AllocError, Global};

// The command, which takes words without options: `dryrun MODEL COLUMN ..`, and `run`.
fn whole<'a>(alloc: Global) -> Result<Command<'a>, AllocError>
    ensures { IfOk result (λ command. app_of command ≡ whole_app) }
{
    let model = Arg::new(alloc, "model").required(true);
    let columns = Arg::new(alloc, "columns").required(true).num_args(1..);
    let dryrun = Command::new(alloc, "dryrun")
        .disable_help_flag(true)
        .arg(model)?
        .arg(columns)?;
    let run = Command::new(alloc, "run").disable_help_flag(true);
    let whole = Command::new(alloc, "labelload")
        .no_binary_name(true)
        .disable_help_flag(true)
        .disable_help_subcommand(true)
        .subcommand_required(true)
        .subcommand(dryrun)?
        .subcommand(run)?;
    Ok(whole)
}

// What an error of the command means.
fn refusal(error: &Error) -> FormError
    ensures { result ≡ FormError.Usage → kind_of error.now ≢ ErrorKind.OutOfMemory }
{
    if error.kind() == ErrorKind::OutOfMemory {
        FormError::NoMemory
    } else {
        FormError::Usage
    }
}

// What the command makes of words without an option.
pub(crate) fn parsed<'a>(alloc: Global, words: &'a [String]) -> Result<ArgMatches<'a>, FormError>
    requires plain { list_any is_option (map string_bytes words.now) ≡ false }
    ensures ok { IfOk result (λ matches. form_in_matches (subcommand_rows_of matches) ≡ form_behind (map string_bytes words.now)) }
    ensures usage { result ≡ Err FormError.Usage → form_behind (map string_bytes words.now) ≡ None }
{
    let command = whole(alloc)?;
    match command.try_get_matches_from(words) {
        Ok(matches) => Ok(matches),
        Err(error) => Err(refusal(&error)),
    }
}
