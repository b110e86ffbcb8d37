// A label in its database, as the index has it and as it is looked up.
ghost use Rattle.std.specs.Prelude.{◌≡◌, IfOk};

use dl_values::{Name, NoMemory};
use indexmap::Equivalent;
use std::alloc::Global;

// A label in its database.
#[derive(PartialEq, Eq, Hash, Debug, Drop)]
pub struct LabelKey {
    pub db: Name,
    pub label: Name,
}

impl LabelKey {
    pub fn new(alloc: Global, db: &Name, label: &Name) -> Result<LabelKey, NoMemory>
        ensures { IfOk result (λ k. k ≡ record { db = db.now; label = label.now }) }
    {
        let db = db.copy(alloc)?;
        let label = label.copy(alloc)?;
        Ok(LabelKey { db, label })
    }
}

// The same, of names that stay where they are.
#[derive(Clone, Copy, PartialEq, Eq, Hash)]
pub struct LabelRef<'a> {
    pub db: &'a Name,
    pub label: &'a Name,
}

impl<'a> Equivalent<LabelKey> for LabelRef<'a> {
    ghost use Rattle.std.specs.Prelude.{◌&&◌};
    ghost use Rattle.std.specs.Str.{bytes_eq};
    ghost use Rattle.std.proofs.Common.{rules};
    ghost use Rattle.std.specs.Cmp.Rules.{comparing, hashing};

    ghost equivalent = { λ q k. bytes_eq q.db.now k.db && bytes_eq q.label.now k.label };

    ghost respects_hash = { Prim.search (hashing, comparing, rules) };

    ghost respects_eq = { Prim.search (comparing, rules) };

    fn equivalent(&self, key: &LabelKey) -> bool {
        *self.db == key.db && *self.label == key.label
    }
}
