// The name of a table in its database, as the catalogue has it and as it is looked up.
ghost use Rattle.std.specs.Prelude.{◌≡◌, IfOk};

use dl_values::{Name, NoMemory};
use indexmap::Equivalent;
use std::alloc::Global;

// The name of a table in its database.
#[derive(PartialEq, Eq, Hash, Drop)]
pub struct TableKey {
    pub db: Name,
    pub name: Name,
}

impl TableKey {
    pub fn new(alloc: Global, db: &Name, name: &Name) -> Result<TableKey, NoMemory>
        ensures { IfOk result (λ k. k ≡ record { db = db.now; name = name.now }) }
    {
        let db = db.copy(alloc)?;
        let name = name.copy(alloc)?;
        Ok(TableKey { db, name })
    }
}

// The same, of names that stay where they are.
#[derive(Clone, Copy, PartialEq, Eq, Hash)]
pub struct TableRef<'a> {
    pub db: &'a Name,
    pub name: &'a Name,
}

impl<'a> Equivalent<TableKey> for TableRef<'a> {
    ghost use Rattle.std.specs.Prelude.{◌&&◌};
    ghost use Rattle.std.specs.Str.{bytes_eq};
    ghost use Rattle.std.proofs.Common.{rules};
    ghost use Rattle.std.specs.Cmp.Rules.{comparing, hashing};

    ghost equivalent = { λ q k. bytes_eq q.db.now k.db && bytes_eq q.name.now k.name };

    ghost respects_hash = { Prim.search (hashing, comparing, rules) };

    ghost respects_eq = { Prim.search (comparing, rules) };

    fn equivalent(&self, key: &TableKey) -> bool {
        *self.db == key.db && *self.name == key.name
    }
}
