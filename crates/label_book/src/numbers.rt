// The numbers that are bound to each label. A label without numbers has no entry.
ghost use Rattle.std.specs.Prelude.{◌≡◌, None, OnErr, OnOk, Some};
ghost use Rattle.std.specs.BTreeMap.{is_at};
ghost use Rattle.std.specs.BTreeSet.{insert_key};
ghost use Rattle.std.specs.List.{last_or};
ghost use Rattle.std.specs.Ordering.{nat_cmp};
ghost use Rattle.std.specs.Set.{remove_key};
ghost use Rattle.label_book.specs.Index.{HasAt, HasSame, numbers_at, unless_empty};

use crate::label_key::{LabelKey, LabelRef};
use dl_values::{Name, NoMemory};
use indexmap::IndexMap;
use std::alloc::Global;
use std::collections::BTreeSet;

pub type Numbers = IndexMap<LabelKey, BTreeSet<u64>>;

// The highest number of a label.
pub fn last_number(all: &Numbers, db: &Name, label: &Name) -> Option<u64>
    ensures { result ≡ last_or None (numbers_at db.now label.now all.now) }
{
    let numbers = all.get(LabelRef { db, label })?;
    numbers.last().copied()
}

// A number more of a label. Where memory is short, each label has what it had.
pub fn add_number(
    all: &mut Numbers,
    alloc: Global,
    db: &Name,
    label: &Name,
    txn: u64,
) -> Result<(), NoMemory>
    ensures ok { OnOk result (HasAt db.now label.now (Some (insert_key nat_cmp (numbers_at db.now label.now all.old) txn)) all.old all.new) }
    ensures err { OnErr result (HasSame all.old all.new) }
{
    if let Some(numbers) = all.get_mut(LabelRef { db, label }) {
        numbers.insert(txn)?;
        return Ok(());
    }
    let mut numbers = BTreeSet::new(alloc);
    numbers.insert(txn)?;
    all.insert(LabelKey::new(alloc, db, label)?, numbers)?;
    Ok(())
}

// A number of a label less. The label goes with its last number.
pub fn take_number(all: &mut Numbers, db: &Name, label: &Name, txn: u64)
    ensures { HasAt db.now label.now (unless_empty (remove_key (is_at (nat_cmp txn)) (numbers_at db.now label.now all.old))) all.old all.new }
{
    if let Some(numbers) = all.get_mut(LabelRef { db, label }) {
        numbers.remove(&txn);
        if !numbers.is_empty() {
            return;
        }
    }
    all.swap_remove(LabelRef { db, label });
}
