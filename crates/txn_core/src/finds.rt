// Finding transactions: by their number without going through all of them, since the numbers ascend.
ghost use Rattle.std.specs.Prelude.{◌≡◌, find, nat_eq, position};
ghost use Rattle.std.specs.Option.{option_copied};
ghost use Rattle.front_defs.specs.Moves.{is_open};
ghost use Rattle.txn_core.specs.Seen.{Ascending};

use crate::info::TxnInfo;

// The place of the transaction of a number.
pub fn place_of(kept: &[TxnInfo], id: u64) -> Option<usize>
    requires { Ascending kept.now }
    ensures { result ≡ position (λ k. nat_eq k.id id) kept.now }
{
    match kept.binary_search_by_key(&id, |k| k.id) {
        Ok(i) => Some(i),
        Err(_) => None,
    }
}

// The transaction of a number.
pub fn kept_at(kept: &[TxnInfo], id: u64) -> Option<&TxnInfo>
    requires { Ascending kept.now }
    ensures { option_copied result ≡ find (λ k. nat_eq k.id id) kept.now }
{
    match place_of(kept, id) {
        None => None,
        Some(i) => Some(&kept[i]),
    }
}

// The first that has not ended.
pub fn first_open(kept: &[TxnInfo]) -> Option<&TxnInfo>
    ensures { option_copied result ≡ find (λ k. is_open k.state) kept.now }
{
    kept.iter().find(|info| info.is_open())
}
