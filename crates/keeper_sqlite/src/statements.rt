// The statements of a journal, one function each. There are no others.
ghost use Rattle.std.specs.Prelude.{◌≡◌, ℕ, List, pos, ◌+◌, [], ◌∷◌, ◌++◌, length, OnOk};
ghost use Rattle.sqlite.specs.Held.{state};
ghost use Rattle.sqlite.specs.State.{HasCleanDisk};
ghost use Rattle.keeper_sqlite.specs.Table.{no_schema, Holds};

use sqlite::{Alter, Connection, Error, Transaction, params};
use sqlite_items::Items;

const CREATE: &str =
    "CREATE TABLE IF NOT EXISTS journal (seq INTEGER PRIMARY KEY, rec BLOB NOT NULL)";

const INSERT: &str = "INSERT INTO journal (seq, rec) VALUES (?1, ?2)";

const FIND: &str = "SELECT rec FROM journal WHERE seq = ?1";

// The scan begins at the end of the table and stops at its first row, so that an append costs the same however many there are.
const LAST: &str = "SELECT seq FROM journal ORDER BY seq DESC LIMIT 1";

const DELETE: &str = "DELETE FROM journal";

pub(crate) fn create<S: Alter>(connection: &mut Connection<S>) -> Result<usize, Error>
    ensures { HasCleanDisk (state S.Store connection.new) → (state S.Store connection.old).now.schema ≡ no_schema
        → OnOk result (Holds (state S.Store connection.new) []) }
{
    connection.execute(CREATE, &[])
}

pub(crate) fn insert<S: Alter>(
    connection: &mut Connection<S>,
    seq: i64,
    bytes: &[u8],
) -> Result<usize, Error>
    ensures { HasCleanDisk (state S.Store connection.new) → (records : List (List ℕ)) → Holds (state S.Store connection.old) records → seq ≡ pos (1 + length records)
        → OnOk result (Holds (state S.Store connection.new) (records ++ bytes.now ∷ [])) }
{
    connection.execute(INSERT, params![seq, bytes])
}

pub(crate) fn find<S: Alter>(
    connection: &mut Connection<S>,
    seq: i64,
) -> Result<Option<Items<u8>>, Error> {
    match connection.query_row(FIND, params![seq]) {
        Ok(row) => Ok(Some(Items::from_vec(row.get(0)?))),
        Err(Error::QueryReturnedNoRows) => Ok(None),
        Err(error) => Err(error),
    }
}

/// The greatest `seq`, 0 where there is none.
pub(crate) fn last<S: Alter>(connection: &mut Connection<S>) -> Result<i64, Error> {
    match connection.query_row(LAST, &[]) {
        Ok(row) => row.get(0),
        Err(Error::QueryReturnedNoRows) => Ok(0),
        Err(error) => Err(error),
    }
}

pub(crate) fn delete_all<S: Alter>(transaction: &mut Transaction<'_, S>) -> Result<(), Error> {
    transaction.execute(DELETE, &[])?;
    Ok(())
}

pub(crate) fn insert_first<S: Alter>(
    transaction: &mut Transaction<'_, S>,
    bytes: &[u8],
) -> Result<(), Error> {
    transaction.execute(INSERT, params![1i64, bytes])?;
    Ok(())
}
