// The labels that transactions hold.
ghost use Rattle.std.specs.Prelude.{◌≡◌, ◌++◌, ◌∷◌, [], IfErr, OnErr, OnOk, false, map, true};
ghost use Rattle.labels.specs.Labels.{IsFree, WasRefused, bound, finished, is_bound, state_of};

use crate::label_key::{LabelKey, LabelRef};
use crate::{BindError, Binding, TxnState};
use dl_values::{Name, NoMemory};
use indexmap::IndexMap;
use std::alloc::Global;
use std::marker::Model;

/// The labels of a service and the transactions that hold them, which contracts see as the list of bindings in the order
/// of their making (Apache Doris documentation, "Stream Load", "Label"). No call looks through that list.
#[derive(Drop)]
pub struct LabelBook {
    alloc: Global,
    bindings: Vec<Binding>,
    // the place of the last binding of each label
    last: IndexMap<LabelKey, usize>,
    // the place of the binding of each transaction
    places: IndexMap<u64, usize>,
}

impl Model for LabelBook {
    ghost use Rattle.std.specs.Prelude.{List};
    ghost use Rattle.labels.specs.Index.{IsIndexed};
    ghost use Rattle.labels.specs.declared.binding.Binding.{Binding};

    ghost Value = { List Binding };

    ghost view = { λ b. b.bindings.items };

    ghost invariant = { λ b. IsIndexed b.bindings.items b.last b.places };
}

impl LabelBook {
    /// A book without labels.
    pub fn new(alloc: Global) -> LabelBook
        ensures { result ≡ [] }
    {
        LabelBook {
            alloc,
            bindings: Vec::new(alloc),
            last: IndexMap::new(alloc),
            places: IndexMap::new(alloc),
        }
    }

    /// The last transaction that was bound to a label in a database, and its state.
    pub fn state(&self, db: &Name, label: &Name) -> Option<(u64, TxnState)>
        ensures { result ≡ state_of db.now label.now self.now }
    {
        let place = self.last.get(LabelRef { db, label })?;
        let held = self.bindings.get(*place)?;
        Some((held.txn, held.state))
    }

    /// Binds a transaction that begins to its label. Condition: no label is bound to it.
    pub fn bind(&mut self, db: &Name, label: &Name, txn: u64) -> Result<(), BindError>
        requires { is_bound txn self.old ≡ false }
        ensures ok { OnOk result (self.new ≡ self.old ++ bound db.now label.now txn ∷ []) }
        ensures free { OnOk result (IsFree (state_of db.now label.now self.old)) }
        ensures used { IfErr result (WasRefused (state_of db.now label.now self.old)) }
        ensures err { OnErr result (self.new ≡ self.old) }
    {
        match self.state(db, label) {
            Some((_, TxnState::Aborted)) | None => Ok(self.add(db, label, txn)?),
            Some((txn, state)) => Err(BindError::Used { txn, state }),
        }
    }

    // Adds a binding. Room is made first, since want of memory has to change nothing.
    fn add(&mut self, db: &Name, label: &Name, txn: u64) -> Result<(), NoMemory>
        requires { is_bound txn self.old ≡ false }
        ensures ok { OnOk result (self.new ≡ self.old ++ bound db.now label.now txn ∷ []) }
        ensures err { OnErr result (self.new ≡ self.old) }
    {
        let place = self.bindings.len();
        let key = LabelKey::new(self.alloc, db, label)?;
        let binding = Binding {
            db: db.copy(self.alloc)?,
            label: label.copy(self.alloc)?,
            txn,
            state: TxnState::Prepare,
        };
        self.bindings.reserve(1)?;
        self.places.reserve(1)?;
        self.last.insert(key, place)?;
        self.places.insert(txn, place)?;
        self.bindings.push(binding)?;
        Ok(())
    }

    /// Sets the state of a transaction. Condition: it is bound.
    pub fn finish(&mut self, txn: u64, state: TxnState)
        requires { is_bound txn self.old ≡ true }
        ensures { self.new ≡ map (finished txn state) self.old }
    {
        if let Some(place) = self.places.get(&txn) {
            let place = *place;
            if let Some(binding) = self.bindings.get_mut(place) {
                binding.state = state;
            }
        }
    }
}
