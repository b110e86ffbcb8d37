// The table of records in a database. The record at a place has `seq` one above it.
use crate::statements;
use sqlite::{Alter, Connection, Error, ErrorCode};
use sqlite_items::Items;

// What is written within a transaction that is left open is not kept yet.
const LEFT_OPEN: Error = Error::SqliteFailure(ErrorCode::TransactionState);

const NO_SEQ: Error = Error::SqliteFailure(ErrorCode::NoRowid);

pub(crate) struct Journal<S: Alter> {
    connection: Connection<S>,
    has_table: bool,
}

impl<S: Alter + Drop> Drop for Journal<S> {
    fn drop(self) {
        let Journal {
            connection: _,
            has_table: _,
        } = self;
    }
}

impl<S: Alter> Journal<S> {
    pub(crate) fn over(connection: Connection<S>) -> Journal<S> {
        Journal {
            connection,
            has_table: false,
        }
    }

    /// Makes the table where there is none.
    pub(crate) fn prepare(&mut self) -> Result<(), Error> {
        if !self.connection.is_autocommit() {
            return Err(LEFT_OPEN);
        }
        if !self.has_table {
            statements::create(&mut self.connection)?;
            self.has_table = true;
        }
        Ok(())
    }

    pub(crate) fn append(&mut self, bytes: &[u8]) -> Result<(), Error> {
        self.prepare()?;
        let last = statements::last(&mut self.connection)?;
        let seq = last.max(0).checked_add(1).ok_or(NO_SEQ)?;
        statements::insert(&mut self.connection, seq, bytes)?;
        Ok(())
    }

    pub(crate) fn read(&mut self, place: u64) -> Result<Option<Items<u8>>, Error> {
        self.prepare()?;
        match seq_of(place) {
            Some(seq) => statements::find(&mut self.connection, seq),
            None => Ok(None),
        }
    }

    pub(crate) fn replace(&mut self, bytes: &[u8]) -> Result<(), Error> {
        self.prepare()?;
        replace_all(&mut self.connection, bytes)
    }
}

// Past the greatest `seq` that there can be no record stands.
fn seq_of(place: u64) -> Option<i64> {
    i64::try_from(place).ok()?.checked_add(1)
}

// In one transaction, so that nobody meets a journal without records. Where a statement is refused, what is dropped rolls it back.
fn replace_all<S: Alter>(connection: &mut Connection<S>, bytes: &[u8]) -> Result<(), Error> {
    if !connection.is_autocommit() {
        return Err(LEFT_OPEN);
    }
    let mut transaction = connection.transaction();
    statements::delete_all(&mut transaction)?;
    statements::insert_first(&mut transaction, bytes)?;
    transaction.commit()
}
