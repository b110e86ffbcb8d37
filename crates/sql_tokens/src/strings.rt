// The string behind an opening quote.
ghost use Rattle.std.specs.Prelude.{◌≡◌, ◌<◌, length, IfOk, option_map};
ghost use Rattle.sql_tokens.specs.Strings.{escaped, string_at};
ghost use Rattle.sql_tokens.specs.Steps.{step_gives, IsShorter};

use dl_values::{NoMemory, Text};
use std::alloc::Global;

fn escaped(byte: u8) -> u8
    ensures { result ≡ escaped byte }
{
    match byte {
        b'n' => b'\n',
        b't' => b'\t',
        b'r' => b'\r',
        _ => byte,
    }
}

// What comes next behind an opening quote.
enum Step<'a> {
    /// The closing quote, and what stands behind it.
    End(&'a [u8]),
    /// A doubled quote: what stands behind its first, and behind both.
    Doubled(&'a [u8], &'a [u8]),
    /// A byte of the string.
    Byte(u8, &'a [u8]),
    /// No quote comes.
    Stuck,
}

#[tactic(auto, unfolding(crate::specs::Strings::string_at))]
fn next_step(quote: u8, bytes: &[u8]) -> Step<'_>
    ensures gives { string_at quote bytes.now ≡ step_gives quote result }
    ensures shorter { IsShorter (length bytes.now) result }
{
    match bytes {
        [] => Step::Stuck,
        [byte, more @ ..] => match more {
            [] => {
                if *byte == quote {
                    Step::End(more)
                } else {
                    Step::Stuck
                }
            }
            [next, rest @ ..] => {
                if *byte == quote {
                    if *next == quote {
                        Step::Doubled(more, rest)
                    } else {
                        Step::End(more)
                    }
                } else if *byte == b'\\' {
                    Step::Byte(escaped(*next), rest)
                } else {
                    Step::Byte(*byte, more)
                }
            }
        },
    }
}

// The bytes of the string, and what stands behind its closing quote.
fn unquoted(alloc: Global, quote: u8, bytes: &[u8]) -> Result<Option<(Vec<u8>, &[u8])>, NoMemory>
    ensures { IfOk result (λ found. option_map (λ x. (x.0.items, x.1.now)) found ≡ string_at quote bytes.now) }
{
    let mut text = Vec::new(alloc);
    let mut rest = bytes;
    // how long the string is and what stands behind it, where the last doubled quote closes it
    let mut kept: Option<(usize, &[u8])> = None;
    'more: loop {
        match next_step(quote, rest) {
            Step::End(after) => return Ok(Some((text, after))),
            Step::Doubled(after, next) => {
                kept = Some((text.len(), after));
                text.push(quote)?;
                rest = next;
            }
            Step::Byte(byte, next) => {
                text.push(byte)?;
                rest = next;
            }
            Step::Stuck => break,
        }
    }
    match kept {
        None => Ok(None),
        Some((len, after)) => {
            text.truncate(len);
            Ok(Some((text, after)))
        }
    }
}

/// The string behind an opening quote, where one is closed, and what stands behind its closing quote.
pub fn string(alloc: Global, quote: u8, bytes: &[u8]) -> Result<Option<(Text, &[u8])>, NoMemory>
    ensures { IfOk result (λ found. option_map (λ x. (x.0, x.1.now)) found ≡ string_at quote bytes.now) }
{
    match unquoted(alloc, quote, bytes)? {
        None => Ok(None),
        Some((text, rest)) => Ok(Some((Text::new(alloc, text.as_slice())?, rest))),
    }
}
