// Finding transactions by going through all of them, as their definitions do.
ghost use Rattle.std.specs.Prelude.{◌≡◌};
ghost use Rattle.std.specs.Option.{option_copied};
ghost use Rattle.front_defs.specs.Transactions as defs;

use dl_values::Name;
use front_defs::Txn;
use labels::TxnState;

// The last transaction of a label.
pub fn label_of<'a>(kept: &'a [Txn], db: &Name, label: &Name) -> Option<&'a Txn>
    ensures { option_copied result ≡ defs.label_of db.now label.now kept.now }
{
    kept.iter().rev().find(|k| k.db == *db && k.label == *label)
}

fn place(txn: &Txn) -> u64
    ensures { result ≡ defs.place_of txn.now }
{
    txn.place.unwrap_or(0)
}

fn has_lower(kept: &[Txn], place_of_other: u64) -> bool
    ensures { result ≡ defs.has_lower kept.now place_of_other }
{
    kept.iter().any(|k| k.state == TxnState::Committed && place(k) < place_of_other)
}

// The committed load of the lowest place.
pub fn due(kept: &[Txn]) -> Option<&Txn>
    ensures { option_copied result ≡ defs.due kept.now }
{
    kept.iter().find(|k| k.state == TxnState::Committed && !has_lower(kept, place(k)))
}

// How many committed loads have a lower place.
pub fn ahead_of(kept: &[Txn], place_of_other: u64) -> usize
    ensures { result ≡ defs.ahead_of place_of_other kept.now }
{
    kept.iter()
        .filter(|k| k.state == TxnState::Committed && place(k) < place_of_other)
        .count()
}
