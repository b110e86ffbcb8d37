// The databases and the tables, and what is stored of the tables.
ghost use Rattle.std.specs.Prelude.{◌≡◌, ◌&&◌, ◌≤◌, ℕ, ◌++◌, ◌∷◌, [], map, OnOk, OnErr, IfOk, IfSome, None, false, filter, find, length, not, position, nat_eq};
ghost use Rattle.std.specs.List.{list_any};
ghost use Rattle.std.specs.Map.{lookup};
ghost use Rattle.std.specs.Option.{option_copied};
ghost use Rattle.std.specs.Str.{bytes_eq};
ghost use Rattle.front_defs.specs.Catalogue as defs;
ghost use Rattle.front_defs.specs.May.{seen_set};
ghost use Rattle.front_defs.specs.Stands.{stored_for};
ghost use Rattle.partitions.specs.LayoutRules.{IsLayout};
ghost use Rattle.rowsets.specs.RowsetView.{rowset_rows};
ghost use Rattle.shadow_writes.specs.declared.built.TabletRows.{TabletRows};
ghost use Rattle.front_laws.specs.Tidy.{Each};
ghost use Rattle.txn_core.specs.Seen.{AscendsBy};
ghost use Rattle.front_state.specs.Catalogued.{IsPlainTable};
ghost use Rattle.front_state.specs.Parts.{table_added, table_dropped, table_of};
ghost use Rattle.front_state.specs.declared.table_key.TableKey.{TableKey};
ghost use Rattle.front_defs.specs.declared.catalogue.Table.{Table};
ghost use Rattle.front_state.specs.Tablets.{Stores, base_lists, table_seen};
ghost use Rattle.front_state.specs.declared.stored_table.StoredTable.{StoredTable};

use crate::stored_table::StoredTable;
use crate::storing::{add_sets, nothing_stored, shared_lists};
use crate::table_key::{TableKey, TableRef};
use dl_values::{Name, NoMemory};
use front_defs::{SchemaStep, Table};
use indexmap::{IndexMap, IndexSet};
use partitions::Layout;
use rowsets::Rowset;
use schema_models::Shape;
use shadow_writes::TabletRows;
use sqlite_items::Items;
use std::alloc::Global;
use std::marker::Model;
use std::sync::Arc;

/// What stands in the catalogue, each by its name, and what is stored by the number of its table.
#[derive(Drop)]
pub struct Catalogue {
    databases: IndexSet<Name>,
    tables: IndexMap<TableKey, Table>,
    last_table: u64,
    // by ascending number of the table
    tablets: Vec<StoredTable>,
}

impl Model for Catalogue {
    ghost use Rattle.std.specs.Prelude.{map};
    ghost use Rattle.indexmap.specs.IndexMap.{values};
    ghost use Rattle.front_state.specs.Tablets.{table_seen};
    ghost use Rattle.front_state.specs.declared.stored_table.StoredTable.{StoredTable};
    ghost use Rattle.front_state.specs.Catalogued.{IsCatalogued};
    ghost use Rattle.front_state.specs.Parts.{CatalogueView};

    ghost Value = { CatalogueView };

    ghost view = { λ c. record { databases = c.databases.keys; tables = values c.tables; last_table = c.last_table; tablets = map (λ (k : StoredTable). table_seen k) c.tablets.items } };

    ghost invariant = { λ c. IsCatalogued c.tables.entries c.tablets.items c.last_table };
}

impl Catalogue {
    pub fn new(alloc: Global) -> Catalogue
        ensures { result ≡ record { databases = []; tables = []; last_table = 0; tablets = [] } }
    {
        Catalogue {
            databases: IndexSet::new(alloc),
            tables: IndexMap::new(alloc),
            last_table: 0,
            tablets: Vec::new(alloc),
        }
    }

    /// Does nothing: what is stored is of known tables, which have layouts for their rows and no rollups.
    pub fn vouch(&self)
        ensures known { Each (λ k. k.table ≤ self.now.last_table) self.now.tablets }
        ensures plain { Each IsPlainTable self.now.tables }
    {
        let _ = &self.tablets;
    }

    pub fn has_db(&self, name: &Name) -> bool
        ensures { result ≡ defs.has_db name.now self.now.databases }
    {
        self.databases.contains(name)
    }

    pub fn databases(&self) -> usize
        ensures { result ≡ length self.now.databases }
    {
        self.databases.len()
    }

    pub fn tables(&self) -> usize
        ensures { result ≡ length self.now.tables }
    {
        self.tables.len()
    }

    pub fn table(&self, db: &Name, name: &Name) -> Option<&Table>
        ensures is { option_copied result ≡ defs.table_named db.now name.now self.now.tables }
        ensures plain { IfSome result (λ t. IsPlainTable t.now) }
    {
        self.tables.get(TableRef { db, name })
    }

    /// Adds a database. Condition: there is none of the name.
    pub fn add_db(&mut self, name: Name) -> Result<(), NoMemory>
        requires { defs.has_db name self.old.databases ≡ false }
        ensures ok { OnOk result (self.new ≡ record self.old { databases = self.old.databases ++ name ∷ [] }) }
        ensures err { OnErr result (self.new ≡ self.old) }
    {
        put_db(&mut self.databases, name)
    }

    /// Adds a table behind the last one. Nothing is stored of it, and its partitions have version 1. Condition: there is
    /// none of the name. Room is made first, since want of memory has to change nothing.
    pub fn add_table(
        &mut self,
        alloc: Global,
        db: Name,
        name: Name,
        shape: Shape,
        layout: Layout,
    ) -> Result<(), NoMemory>
        requires new { defs.table_named db name self.old.tables ≡ None }
        requires laid { IsLayout shape layout }
        ensures ok { OnOk result (self.new ≡ table_added db name shape layout self.old) }
        ensures err { OnErr result (self.new ≡ self.old) }
    {
        let number = match self.last_table.checked_add(1) {
            Some(number) => number,
            None => return Err(NoMemory),
        };
        self.tablets.reserve(1)?;
        let tablets = nothing_stored(alloc, number, &shape, &layout)?;
        let key = TableKey::new(alloc, &db, &name)?;
        let table = new_table(alloc, number, db, name, shape, layout)?;
        put_table(&mut self.tables, key, table)?;
        self.tablets.push(tablets)?;
        self.last_table = number;
        Ok(())
    }

    /// Drops the table of a number, with what is stored of it. Takes no memory.
    pub fn drop_table(&mut self, table: u64)
        ensures { self.new ≡ table_dropped table self.old }
    {
        drop_named(&mut self.tables, table);
        drop_stored(&mut self.tablets, table);
    }

    /// Stores the rows of a load in the tablets of a table.
    pub fn store(&mut self, alloc: Global, table: u64, sets: &[TabletRows]) -> Result<(), NoMemory>
        ensures ok { OnOk result (Stores table (map (λ (s : TabletRows). seen_set s) sets.now) self.old.tablets self.new.tablets) }
        ensures rest { self.new ≡ record self.old { tablets = self.new.tablets } }
        ensures err { OnErr result (self.new ≡ self.old) }
    {
        store_in(alloc, &mut self.tablets, table, sets)
    }

    /// The lists that are stored of a table, each shared and not copied.
    pub fn lists(&self, alloc: Global, table: &Table) -> Result<Items<Arc<Rowset>>, NoMemory>
        ensures { IfOk result (λ lists. map (λ l. rowset_rows l.value) lists ≡ base_lists table.now.layout (stored_for table.now.number self.now.tablets)) }
    {
        match stored_of(&self.tablets, table.number) {
            None => Err(NoMemory),
            Some(stored) => shared_lists(alloc, stored, &table.layout),
        }
    }
}

// Puts a name behind the others. Condition: it is not there yet.
fn put_db(databases: &mut IndexSet<Name>, name: Name) -> Result<(), NoMemory>
    requires { list_any (λ n. bytes_eq name n) databases.old.keys ≡ false }
    ensures ok { OnOk result (databases.new.keys ≡ databases.old.keys ++ name ∷ []) }
    ensures err { OnErr result (databases.new.keys ≡ databases.old.keys) }
{
    match databases.insert(name) {
        Ok(_) => Ok(()),
        Err(_) => Err(NoMemory),
    }
}

// Puts a table behind the others. Condition: its name is not there yet.
fn put_table(
    tables: &mut IndexMap<TableKey, Table>,
    key: TableKey,
    table: Table,
) -> Result<(), NoMemory>
    requires { lookup (λ k. bytes_eq key.db k.db && bytes_eq key.name k.name) tables.old.entries ≡ None }
    ensures ok { OnOk result (tables.new.entries ≡ tables.old.entries ++ (key, table) ∷ []) }
    ensures err { OnErr result (tables.new.entries ≡ tables.old.entries) }
{
    match tables.insert(key, table) {
        Ok(_) => Ok(()),
        Err(_) => Err(NoMemory),
    }
}

// Drops the table of a number. The others keep their order.
fn drop_named(tables: &mut IndexMap<TableKey, Table>, table: u64)
    ensures { tables.new.entries ≡ filter (λ (e : TableKey × Table). not (nat_eq e.1.number table)) tables.old.entries }
{
    tables.retain(|_, kept| kept.number != table);
}

// Drops what is stored of a table.
fn drop_stored(tablets: &mut Vec<StoredTable>, table: u64)
    ensures { tablets.new.items ≡ filter (λ (k : StoredTable). not (nat_eq k.table table)) tablets.old.items }
{
    tablets.retain(|kept| kept.table != table);
}

// A table with its first shape, and no rollup.
fn new_table(
    alloc: Global,
    number: u64,
    db: Name,
    name: Name,
    shape: Shape,
    layout: Layout,
) -> Result<Table, NoMemory>
    ensures { IfOk result (λ t. t ≡ table_of db name shape layout number) }
{
    let first = shape.copy(alloc)?;
    let mut steps = Items::new(alloc);
    steps.push(SchemaStep {
        number: 0,
        shape: first,
    })?;
    Ok(Table {
        number,
        db,
        name,
        schema: 0,
        shape,
        layout,
        steps,
        rollups: Items::new(alloc),
    })
}

// The place of what is stored of a table.
fn place_of(tablets: &[StoredTable], table: u64) -> Option<usize>
    requires { AscendsBy (λ k. k.table) tablets.now }
    ensures { result ≡ position (λ k. nat_eq k.table table) tablets.now }
{
    match tablets.binary_search_by_key(&table, |k| k.table) {
        Ok(i) => Some(i),
        Err(_) => None,
    }
}

fn stored_of(tablets: &[StoredTable], table: u64) -> Option<&StoredTable>
    requires { AscendsBy (λ k. k.table) tablets.now }
    ensures { option_copied result ≡ find (λ k. nat_eq k.table table) tablets.now }
{
    match place_of(tablets, table) {
        None => None,
        Some(i) => Some(&tablets[i]),
    }
}

// Stores the rows of a load in the tablets of a table, where it is there.
fn store_in(
    alloc: Global,
    tablets: &mut Vec<StoredTable>,
    table: u64,
    sets: &[TabletRows],
) -> Result<(), NoMemory>
    requires { AscendsBy (λ k. k.table) tablets.old.items }
    ensures ok { OnOk result (Stores table (map (λ (s : TabletRows). seen_set s) sets.now) (map (λ (k : StoredTable). table_seen k) tablets.old.items) (map (λ (k : StoredTable). table_seen k) tablets.new.items)) }
    ensures err { OnErr result (map (λ (k : StoredTable). table_seen k) tablets.new.items ≡ map (λ (k : StoredTable). table_seen k) tablets.old.items) }
    ensures known { (last : ℕ) → Each (λ k. k.table ≤ last) tablets.old.items → Each (λ k. k.table ≤ last) tablets.new.items }
    ensures ascends { AscendsBy (λ k. k.table) tablets.new.items }
{
    match place_of(tablets, table) {
        None => Err(NoMemory),
        Some(i) => add_sets(alloc, &mut tablets[i], sets),
    }
}
