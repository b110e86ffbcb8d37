// A keeper in memory.
ghost use Rattle.std.specs.Prelude.{◌≡◌, ◌≤◌, ◌<◌, ◌^◌, ◌∷◌, ◌++◌, [], length, slice_get, IfOk, OnErr, OnOk, IsErrOf};
ghost use Rattle.dl_outside.specs.Faults.{HasRisen};
ghost use Rattle.record_keeper.specs.Keeping.{Appends, CountsFaults, ReadsAt, Replaces};
ghost use Rattle.record_keeper.specs.Memory.{told_records, few_are_told, planned_in, Leaves};

use crate::{Keeper, KeeperError};
use sqlite_items::Items;
use std::alloc::Global;
use std::marker::Model;

// A keeper that tells its records has fewer than 2^63.
const MOST: usize = (1 << 63) - 1;

/// A call that fails, by its number from 0 on.
#[derive(Clone, Copy, Debug, PartialEq, Eq)]
pub struct FailingCall {
    pub call: u64,
    /// Whether what the call was to keep is kept all the same.
    pub kept: bool,
}

/// Keeps records in memory. Chosen calls fail.
#[derive(Drop)]
pub struct MemoryKeeper {
    alloc: Global,
    records: Items<Items<u8>>,
    fails: Vec<FailingCall>,
    calls: u64,
    failures: u64,
}

impl Model for MemoryKeeper {
    ghost use Rattle.record_keeper.specs.Memory.{MemoryView};
    ghost use Rattle.std.specs.Prelude.{◌<◌, ◌^◌, length};

    ghost Value = { MemoryView };

    ghost view = { λ k. record { records = k.records; faults = k.failures; calls = k.calls; fails = k.fails.items } };

    ghost invariant = { λ k. length k.records < 2 ^ 63 };
}

impl MemoryKeeper {
    /// A keeper without records, of which these calls fail.
    pub fn new(alloc: Global, fails: Vec<FailingCall>) -> MemoryKeeper
        ensures { result ≡ record { records = []; faults = 0; calls = 0; fails = fails.items } }
    {
        MemoryKeeper {
            alloc,
            records: Items::new(alloc),
            fails,
            calls: 0,
            failures: 0,
        }
    }

    /// The records, oldest first.
    pub fn records(&self) -> &[Items<u8>]
        ensures { result.now ≡ self.now.records }
    {
        self.records.as_slice()
    }

    /// How often it has failed.
    pub fn faults(&self) -> u64
        ensures { result ≡ self.now.faults }
    {
        self.failures
    }
}

impl Keeper for MemoryKeeper {
    ghost records = { told_records };

    ghost faults = { λ k. k.faults };

    fn append(&mut self, bytes: &[u8]) -> Result<(), KeeperError>
        ensures told { Appends (told_records self.old) bytes.now (told_records self.new) result }
        ensures later { self.old.faults ≤ self.new.faults }
        ensures cause { IsErrOf result KeeperError.Failed → HasRisen self.old.faults self.new.faults }
        ensures counted { CountsFaults self.old.faults self.new.faults result }
        ensures planned { Leaves self.old (self.old.records ++ bytes.now ∷ []) self.new result }
    {
        let planned = planned(&self.fails, self.calls);
        self.calls = self.calls.saturating_add(1);
        match planned {
            None => add(self.alloc, &mut self.records, bytes),
            Some(kept) => {
                if kept {
                    add(self.alloc, &mut self.records, bytes)?;
                }
                self.failures = self.failures.saturating_add(1);
                Err(KeeperError::Failed)
            }
        }
    }

    fn read_from(&mut self, place: u64) -> Result<Option<Items<u8>>, KeeperError>
        ensures told { ReadsAt (told_records self.old) place (told_records self.new) result }
        ensures later { self.old.faults ≤ self.new.faults }
        ensures cause { IsErrOf result KeeperError.Failed → HasRisen self.old.faults self.new.faults }
        ensures counted { CountsFaults self.old.faults self.new.faults result }
        ensures planned { Leaves self.old self.old.records self.new result }
        ensures found { IfOk result (λ found. slice_get self.old.records place ≡ found) }
    {
        let planned = planned(&self.fails, self.calls);
        self.calls = self.calls.saturating_add(1);
        if planned.is_some() {
            self.failures = self.failures.saturating_add(1);
            return Err(KeeperError::Failed);
        }
        match self.records.get(place as usize) {
            None => Ok(None),
            Some(record) => Ok(Some(copied(self.alloc, record.as_slice())?)),
        }
    }

    fn replace(&mut self, bytes: &[u8]) -> Result<(), KeeperError>
        ensures told { Replaces (told_records self.old) bytes.now (told_records self.new) result }
        ensures later { self.old.faults ≤ self.new.faults }
        ensures cause { IsErrOf result KeeperError.Failed → HasRisen self.old.faults self.new.faults }
        ensures counted { CountsFaults self.old.faults self.new.faults result }
        ensures planned { Leaves self.old (bytes.now ∷ []) self.new result }
    {
        let planned = planned(&self.fails, self.calls);
        self.calls = self.calls.saturating_add(1);
        match planned {
            None => {
                self.records = alone(self.alloc, bytes)?;
                Ok(())
            }
            Some(kept) => {
                if kept {
                    self.records = alone(self.alloc, bytes)?;
                }
                self.failures = self.failures.saturating_add(1);
                Err(KeeperError::Failed)
            }
        }
    }

    ghost few = { few_are_told };
}

// Whether the call with this number fails, and then whether what it was to keep is kept.
fn planned(fails: &[FailingCall], call: u64) -> Option<bool>
    ensures { result ≡ planned_in fails.now call }
{
    for one in fails {
        if one.call == call {
            return Some(one.kept);
        }
    }
    None
}

fn copied(alloc: Global, bytes: &[u8]) -> Result<Items<u8>, KeeperError>
    ensures same { IfOk result (λ v. v ≡ bytes.now) }
    ensures memory { OnErr result (IsErrOf result KeeperError.NoMemory) }
{
    match Items::from_slice(alloc, bytes) {
        Ok(copy) => Ok(copy),
        Err(_) => Err(KeeperError::NoMemory),
    }
}

fn add(alloc: Global, records: &mut Items<Items<u8>>, bytes: &[u8]) -> Result<(), KeeperError>
    requires { length records.old < 2 ^ 63 }
    ensures few { length records.new < 2 ^ 63 }
    ensures ok { OnOk result (records.new ≡ records.old ++ bytes.now ∷ []) }
    ensures err { OnErr result (records.new ≡ records.old) }
    ensures memory { OnErr result (IsErrOf result KeeperError.NoMemory) }
{
    if records.len() >= MOST {
        return Err(KeeperError::NoMemory);
    }
    let copy = copied(alloc, bytes)?;
    match records.push(copy) {
        Ok(()) => Ok(()),
        Err(_) => Err(KeeperError::NoMemory),
    }
}

// One record, and no other.
fn alone(alloc: Global, bytes: &[u8]) -> Result<Items<Items<u8>>, KeeperError>
    ensures only { IfOk result (λ v. v ≡ bytes.now ∷ []) }
    ensures memory { OnErr result (IsErrOf result KeeperError.NoMemory) }
{
    let mut records = Items::new(alloc);
    add(alloc, &mut records, bytes)?;
    Ok(records)
}
