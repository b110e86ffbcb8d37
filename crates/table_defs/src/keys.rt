// What may be wrong with the keys of a definition.
ghost use Rattle.std.specs.Prelude.{◌≡◌, ◌+◌, ◌<◌, ◌^◌, length};
ghost use Rattle.table_defs.specs.Columns as columns;

use crate::columns::keys_of;
use dl_values::Name;
use sql_text::{ColumnText, KeyClause, TableDef};

fn differs_from(at: u64, names: &[Name], list: &[ColumnText]) -> Option<u64>
    requires { at + length names.now < 2 ^ 64 }
    ensures { result ≡ columns.differs_from at names.now list.now }
{
    let [name, names @ ..] = names else {
        return None;
    };
    let [column, list @ ..] = list else {
        return Some(at);
    };
    if *name == column.name {
        return differs_from(at + 1, names, list);
    }
    Some(at)
}

// The position of the first name of a key list that is not that of the column in its place.
pub fn key_differs(key: &Option<KeyClause>, list: &[ColumnText]) -> Option<u64>
    ensures { result ≡ columns.key_differs key.now list.now }
{
    match key {
        None => None,
        Some(key) => differs_from(0, key.names.as_slice(), list),
    }
}

fn kind_from(at: u64, keys: usize, list: &[ColumnText]) -> Option<u64>
    requires { at + length list.now < 2 ^ 64 }
    ensures { result ≡ columns.kind_from at keys list.now }
{
    if keys == 0 {
        return None;
    }
    let [column, list @ ..] = list else {
        return None;
    };
    if column.agg.is_none() {
        return kind_from(at + 1, keys - 1, list);
    }
    Some(at)
}

// The position of the first key that is written with a kind.
pub fn key_with_kind(def: &TableDef) -> Option<u64>
    ensures { result ≡ columns.key_with_kind def.now }
{
    kind_from(0, keys_of(&def.key), def.columns.as_slice())
}
