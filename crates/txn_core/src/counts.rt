// What a sweep would change.
ghost use Rattle.std.specs.Prelude.{◌≡◌, ◌+◌, count_by, nat_eq};
ghost use Rattle.std.specs.List.{list_any};
ghost use Rattle.txn_core.specs.Book as books;
ghost use Rattle.txn_core.specs.Book.{is_told_change};

use crate::info::TxnInfo;

/// What a sweep would change.
#[derive(Clone, Copy, Debug, PartialEq, Eq)]
pub struct Sweeping {
    /// How many have expired.
    pub aborted: u64,
    /// How many ended long ago.
    pub forgotten: u64,
    /// One of those was told to a journal.
    pub told: bool,
}

impl Sweeping {
    /// Nothing would change.
    pub fn is_nothing(&self) -> bool
        ensures { result ≡ nat_eq (self.now.aborted + self.now.forgotten) 0 }
    {
        self.aborted == 0 && self.forgotten == 0
    }
}

// How many have expired.
pub fn stale_of(kept: &[TxnInfo], at: u64) -> u64
    ensures { result ≡ count_by (books.is_stale at) kept.now }
{
    kept.iter().filter(|info| info.is_stale(at)).count() as u64
}

// How many ended long ago.
pub fn old_of(kept: &[TxnInfo], at: u64) -> u64
    ensures { result ≡ count_by (books.is_old at) kept.now }
{
    kept.iter().filter(|info| info.is_old(at)).count() as u64
}

// Whether one that is told is among those.
pub fn tells(kept: &[TxnInfo], at: u64) -> bool
    ensures { result ≡ list_any (is_told_change at) kept.now }
{
    kept.iter()
        .any(|info| info.told && (info.is_stale(at) || info.is_old(at)))
}
