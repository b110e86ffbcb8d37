// The public call `run`.
ghost use Rattle.std.specs.Prelude.{◌≡◌, ◌≢◌, ◌≤◌, ◌<◌, ◌↔◌, ℕ, IfSome, None, Some, [], length, map, string_bytes};
ghost use Rattle.std.specs.Io.KnownBytes.{Appends, IsAtEnd, Keeps};
ghost use Rattle.dl_outside.specs.Faults.{HasRisen};
ghost use Rattle.dl_outside.specs.Writing.{AppendsFront};
ghost use Rattle.service.specs.Columns.{bad_word, first_column, shape_of};
ghost use Rattle.command_words.specs.Words.{form_of as form_of_words};
ghost use Rattle.service.specs.Dryrun.{EndsBy, IfDryrun, Judges, NamesWord, exit_of_columns, fold_text};
ghost use Rattle.service.specs.Serving.{IfRun, IsAnswered, RanTo, RunDid, UnlessRun};

use crate::Exit;
use crate::columns::{model_of, read_shape};
use crate::dryrun::folded_input;
use crate::serving::exit_of;
use command_words::{Form, FormError, form_of};
use dl_outside::{Clock, Sink, Source, Steps, write_all};
use load_server::{Solo, session};
use schema_models::Model;
use std::alloc::Global;
use std::sync::ledger::Ledger;

// The command `dryrun` of this model with these column words.
fn dryrun<S: Source, K: Sink>(
    alloc: Global,
    model: Model,
    columns: &[String],
    source: &mut S,
    sink: &mut K,
) -> Exit
    requires { 0 < length columns.now }
    ensures ok { result ≡ Exit.Ok → IfSome (S.left source.old) (λ body. Appends (K.written sink.old) (K.written sink.new) (fold_text (shape_of model (map string_bytes columns.now)) body)) }
    ensures cut { result ≡ Exit.WriteFault → IfSome (S.left source.old) (λ body. AppendsFront (K.written sink.old) (K.written sink.new) (fold_text (shape_of model (map string_bytes columns.now)) body)) }
    ensures nothing { result ≢ Exit.Ok → result ≢ Exit.WriteFault → Keeps (K.written sink.old) (K.written sink.new) }
    ensures read { result ≡ Exit.Ok → IsAtEnd (S.left source.new) }

    ensures known { result ≢ Exit.Usage }
    ensures bad_def { (word : ℕ) → result ≡ Exit.BadDef word → bad_word model first_column [] (map string_bytes columns.now) ≡ Some word }
    ensures bad_words { IfSome (bad_word model first_column [] (map string_bytes columns.now)) (λ word. EndsBy (Exit.BadDef word) result) }
    ensures read_fault { result ≡ Exit.ReadFault → HasRisen (S.faults source.old) (S.faults source.new) }
    ensures write_fault { result ≡ Exit.WriteFault → HasRisen (K.faults sink.old) (K.faults sink.new) }
    ensures judged { IfSome (S.left source.old) (λ body. Judges (exit_of_columns model (map string_bytes columns.now) body) result) }

    ensures later { S.faults source.old ≤ S.faults source.new }
    ensures later_sink { K.faults sink.old ≤ K.faults sink.new }
{
    match read_shape(alloc, model, columns) {
        Ok(shape) => match folded_input(alloc, &shape, source) {
            Ok(text) => match write_all(sink, &text) {
                Ok(()) => Exit::Ok,
                Err(_) => Exit::WriteFault,
            },
            Err(exit) => exit,
        },
        Err(exit) => exit,
    }
}

// The command `run`.
fn serve<S: Source, K: Sink, C: Clock, L: Ledger>(
    alloc: Global,
    source: &mut S,
    sink: &mut K,
    clock: &mut C,
    steps: &mut Steps<L>,
) -> Exit
    ensures served { RanTo result (RunDid (S.left source.old) (S.left source.new) (K.written sink.old) (K.written sink.new) (C.given clock.old) (C.given clock.new)) }
    ensures answered { (HasRisen (S.faults source.old) (S.faults source.new) → ⊥) → (HasRisen (K.faults sink.old) (K.faults sink.new) → ⊥) → IfSome (S.left source.old) (IsAnswered result) }
    ensures read_fault { result ≡ Exit.ReadFault → HasRisen (S.faults source.old) (S.faults source.new) }
    ensures write_fault { result ≡ Exit.WriteFault → HasRisen (K.faults sink.old) (K.faults sink.new) }
    ensures later { S.faults source.old ≤ S.faults source.new }
    ensures later_sink { K.faults sink.old ≤ K.faults sink.new }
{
    let mut turns = Solo::new(alloc);
    exit_of(session(alloc, &mut turns, source, sink, clock, steps))
}

/// Runs the command that the words name, reading the source and writing the sink. The words are those behind the
/// program's name. Reads and writes nothing where the words are refused.
///
/// `dryrun MODEL COLUMN ..` folds a body whose fields end by tabs, in strict mode, by the model `A`, `D` or `U` (Apache
/// Doris documentation, "Data Models"), and writes one row for each key, or in the Duplicate model each row, in order. It
/// writes nothing until all is read and judged.
///
/// `run` answers the HTTP requests of the source, one after another, from an empty service on.
pub fn run<S: Source, K: Sink, C: Clock, L: Ledger>(
    alloc: Global,
    words: &[String],
    source: &mut S,
    sink: &mut K,
    clock: &mut C,
    steps: &mut Steps<L>,
) -> Exit
    // One legal history: what `run` did.
    ensures served { IfRun (form_of_words (map string_bytes words.now)) (RanTo result (RunDid (S.left source.old) (S.left source.new) (K.written sink.old) (K.written sink.new) (C.given clock.old) (C.given clock.new))) }

    // What `dryrun` writes: on success the text of the fold, and a front of it where a write failed.
    ensures ok { IfDryrun (form_of_words (map string_bytes words.now)) (λ model columns. result ≡ Exit.Ok → IfSome (S.left source.old) (λ body. Appends (K.written sink.old) (K.written sink.new) (fold_text (shape_of model columns) body))) }
    ensures cut { IfDryrun (form_of_words (map string_bytes words.now)) (λ model columns. result ≡ Exit.WriteFault → IfSome (S.left source.old) (λ body. AppendsFront (K.written sink.old) (K.written sink.new) (fold_text (shape_of model columns) body))) }
    ensures nothing { IfDryrun (form_of_words (map string_bytes words.now)) (λ _ _. result ≢ Exit.Ok → result ≢ Exit.WriteFault → Keeps (K.written sink.old) (K.written sink.new)) }
    ensures read { IfDryrun (form_of_words (map string_bytes words.now)) (λ _ _. result ≡ Exit.Ok → IsAtEnd (S.left source.new)) }

    // When each answer comes.
    ensures usage { result ≡ Exit.Usage → form_of_words (map string_bytes words.now) ≡ None }
    ensures no_form { form_of_words (map string_bytes words.now) ≡ None → EndsBy Exit.Usage result × Keeps (S.left source.old) (S.left source.new) × Keeps (K.written sink.old) (K.written sink.new) }
    ensures bad_def { (word : ℕ) → result ≡ Exit.BadDef word → NamesWord (form_of_words (map string_bytes words.now)) word }
    ensures bad_words { IfDryrun (form_of_words (map string_bytes words.now)) (λ model columns. IfSome (bad_word model first_column [] columns) (λ word. EndsBy (Exit.BadDef word) result)) }
    ensures read_fault { result ≡ Exit.ReadFault → HasRisen (S.faults source.old) (S.faults source.new) }
    ensures write_fault { result ≡ Exit.WriteFault → HasRisen (K.faults sink.old) (K.faults sink.new) }
    ensures judged { IfDryrun (form_of_words (map string_bytes words.now)) (λ model columns. IfSome (S.left source.old) (λ body. Judges (exit_of_columns model columns body) result)) }

    // Completeness: where no device fails, what the words and the input ask for is answered, but for want of memory.
    ensures complete { (HasRisen (S.faults source.old) (S.faults source.new) → ⊥) → (HasRisen (K.faults sink.old) (K.faults sink.new) → ⊥) → IfDryrun (form_of_words (map string_bytes words.now)) (λ model columns. IfSome (S.left source.old) (λ body. EndsBy (exit_of_columns model columns body) result)) }
    ensures answered { (HasRisen (S.faults source.old) (S.faults source.new) → ⊥) → (HasRisen (K.faults sink.old) (K.faults sink.new) → ⊥) → IfRun (form_of_words (map string_bytes words.now)) (IfSome (S.left source.old) (IsAnswered result)) }

    ensures later { S.faults source.old ≤ S.faults source.new }
    ensures later_sink { K.faults sink.old ≤ K.faults sink.new }
    ensures quiet { UnlessRun (form_of_words (map string_bytes words.now)) (steps.new ≡ steps.old) }
{
    match form_of(alloc, words) {
        Ok(Form::Dryrun { model, columns }) => {
            dryrun(alloc, model_of(model), columns.as_slice(), source, sink)
        }
        Ok(Form::Run { journal: _journal }) => serve(alloc, source, sink, clock, steps),
        Err(FormError::Usage) => Exit::Usage,
        Err(FormError::NoMemory) => Exit::NoMemory,
    }
}
