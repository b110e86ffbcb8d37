// The labels that transactions hold.
ghost use Rattle.std.specs.Prelude.{◌≡◌, ◌<◌, ◌++◌, ◌∷◌, [], IfErr, OnErr, OnOk, false, map, true};
ghost use Rattle.std.specs.List.{AllByRecursion};
ghost use Rattle.label_book.specs.Labels.{AreAscending, IsFree, WasRefused, bound, cleaned, finished, is_bound, put_binding, state_of};

use crate::BindError;
use crate::numbers::{Numbers, add_number, last_number, take_number};
use dl_values::{Name, NoMemory};
use indexmap::IndexMap;
use labels::TxnState;
use std::alloc::Global;
use std::collections::BTreeMap;
use std::marker::Model;

// What a transaction holds.
#[derive(Drop)]
pub struct Held {
    pub db: Name,
    pub label: Name,
    pub state: TxnState,
}

/// The labels of a service and the transactions that hold them, which contracts see as the list of bindings by ascending
/// numbers of their transactions (Apache Doris documentation, "Stream Load", "Label"). No call looks through that list.
#[derive(Drop)]
pub struct LabelBook {
    alloc: Global,
    by_txn: BTreeMap<u64, Held>,
    // the numbers of each label that has some
    by_label: Numbers,
}

impl Model for LabelBook {
    ghost use Rattle.std.specs.Prelude.{List, map};
    ghost use Rattle.label_book.specs.Index.{IsIndexed, binding_of};
    ghost use Rattle.label_book.specs.declared.binding.Binding.{Binding};

    ghost Value = { List Binding };

    ghost view = { λ b. map binding_of b.by_txn.entries };

    ghost invariant = { λ b. IsIndexed (map binding_of b.by_txn.entries) b.by_label };
}

impl LabelBook {
    /// A book without labels.
    pub fn new(alloc: Global) -> LabelBook
        ensures { result ≡ [] }
    {
        LabelBook {
            alloc,
            by_txn: BTreeMap::new(alloc),
            by_label: IndexMap::new(alloc),
        }
    }

    /// Does nothing, and says what holds of each book.
    pub fn vouch(&self)
        ensures { AreAscending self.now }
    {
        let _ = &self.by_txn;
    }

    /// The last transaction that was bound to a label in a database, and its state.
    pub fn state(&self, db: &Name, label: &Name) -> Option<(u64, TxnState)>
        ensures { result ≡ state_of db.now label.now self.now }
    {
        let txn = last_number(&self.by_label, db, label)?;
        let held = self.by_txn.get(&txn)?;
        Some((txn, held.state))
    }

    /// Binds a transaction that begins to its label. Condition: no label is bound to it.
    #[tactic(auto, using(crate::proofs::Entries::put_last))]
    pub fn bind(&mut self, db: &Name, label: &Name, txn: u64) -> Result<(), BindError>
        requires { is_bound txn self.old ≡ false }
        ensures ok { OnOk result (self.new ≡ put_binding (bound db.now label.now txn) self.old) }
        ensures last { OnOk result (AllByRecursion (λ b. b.txn < txn) self.old → self.new ≡ self.old ++ bound db.now label.now txn ∷ []) }
        ensures free { OnOk result (IsFree (state_of db.now label.now self.old)) }
        ensures used { IfErr result (WasRefused (state_of db.now label.now self.old)) }
        ensures err { OnErr result (self.new ≡ self.old) }
    {
        match self.state(db, label) {
            Some((_, TxnState::Aborted)) | None => Ok(self.add(db, label, txn)?),
            Some((holder, state)) => Err(BindError::Used { txn: holder, state }),
        }
    }

    // Adds a binding. Where its label finds no memory, the transaction goes again.
    fn add(&mut self, db: &Name, label: &Name, txn: u64) -> Result<(), NoMemory>
        requires { is_bound txn self.old ≡ false }
        ensures ok { OnOk result (self.new ≡ put_binding (bound db.now label.now txn) self.old) }
        ensures err { OnErr result (self.new ≡ self.old) }
    {
        let held = Held {
            db: db.copy(self.alloc)?,
            label: label.copy(self.alloc)?,
            state: TxnState::Prepare,
        };
        self.by_txn.insert(txn, held)?;
        match add_number(&mut self.by_label, self.alloc, db, label, txn) {
            Ok(()) => Ok(()),
            Err(e) => {
                self.by_txn.remove(&txn);
                Err(e)
            }
        }
    }

    /// Sets the state of a transaction. Condition: it is bound.
    pub fn finish(&mut self, txn: u64, state: TxnState)
        requires { is_bound txn self.old ≡ true }
        ensures { self.new ≡ map (finished txn state) self.old }
    {
        if let Some(held) = self.by_txn.get_mut(&txn) {
            held.state = state;
        }
    }

    /// Forgets the label of a transaction.
    pub fn clean(&mut self, txn: u64)
        ensures { self.new ≡ cleaned txn self.old }
    {
        if let Some(held) = self.by_txn.remove(&txn) {
            take_number(&mut self.by_label, &held.db, &held.label, txn);
        }
    }
}
