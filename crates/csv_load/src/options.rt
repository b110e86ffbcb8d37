// How a body is read, and how much of it may be filtered.
ghost use Rattle.std.specs.Prelude.{◌≡◌, ◌≤◌, ◌↔◌, IfOk, IsErrOf, IsNone, IsSome, IsTrue, Some, option_copied};
ghost use Rattle.csv_load.specs.Options.{may_separate, separator_or_tab, ratio_or_none};

use crate::ratio::ratio;
use crate::separator::separator;
use thiserror::Error;

/// Why there are no options.
#[derive(Clone, Copy, Debug, PartialEq, Eq, Error)]
pub enum OptionError {
    #[error("the text stands for no separator")]
    BadSeparator,
    #[error("the text stands for no ratio")]
    BadRatio,
}

/// The options of a load, as the headers `column_separator`, `max_filter_ratio` and `strict_mode` of Apache Doris'
/// Stream Load give them.
#[derive(Clone, Copy, Debug, PartialEq, Eq)]
pub struct Options {
    /// The byte between two fields.
    pub separator: u8,
    /// How many of ten thousand records may be filtered.
    pub ratio: u64,
    /// A value that cannot be read filters its row, also where its column may be null.
    pub strict: bool,
    ghost separates: { IsTrue (may_separate separator) },
    ghost within: { ratio ≤ 10000 },
}

impl Options {
    /// The options that these values stand for; without one, a tab and a ratio of 0.
    pub fn build(
        separator: Option<&[u8]>,
        ratio: Option<&[u8]>,
        strict: bool,
    ) -> Result<Options, OptionError>
        ensures separator { IfOk result (λ o. separator_or_tab (option_copied separator.entry) ≡ Some o.separator) }
        ensures ratio { IfOk result (λ o. ratio_or_none (option_copied ratio.entry) ≡ Some o.ratio) }
        ensures strict { IfOk result (λ o. o.strict ≡ strict) }
        ensures bad_separator { IsErrOf result OptionError.BadSeparator ↔ IsNone (separator_or_tab (option_copied separator.entry)) }
        ensures bad_ratio { IsErrOf result OptionError.BadRatio
            ↔ (IsSome (separator_or_tab (option_copied separator.entry)) × IsNone (ratio_or_none (option_copied ratio.entry))) }
    {
        let separator = separator_or_tab(separator).ok_or(OptionError::BadSeparator)?;
        let ratio = ratio_or_none(ratio).ok_or(OptionError::BadRatio)?;
        Ok(Options {
            separator,
            ratio,
            strict,
        })
    }
}

// A tab where no separator is given.
fn separator_or_tab(given: Option<&[u8]>) -> Option<u8>
    ensures { result ≡ separator_or_tab (option_copied given.entry) }
{
    match given {
        None => Some(b'\t'),
        Some(text) => separator(text),
    }
}

// A ratio of 0 where none is given.
fn ratio_or_none(given: Option<&[u8]>) -> Option<u64>
    ensures { result ≡ ratio_or_none (option_copied given.entry) }
{
    match given {
        None => Some(0),
        Some(text) => ratio(text),
    }
}
