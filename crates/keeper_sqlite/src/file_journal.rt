// A file and the connection to it, which is closed where the file could not be opened.
use crate::journal::Journal;
use sqlite::{Connection, Error, ErrorCode, File, FileStore};
use sqlite_items::Items;

const CLOSED: Error = Error::SqliteFailure(ErrorCode::Closed);

const NO_MEMORY: Error = Error::SqliteFailure(ErrorCode::OutOfMemory);

pub(crate) struct FileJournal {
    rt: HostRuntime,
    path: String,
    journal: Option<Journal<FileStore<File>>>,
}

// It is written out, so that who holds one does not prove again how each part is dropped.
impl Drop for FileJournal {
    fn drop(self) {
        let FileJournal {
            rt: _,
            path: _,
            journal: _,
        } = self;
    }
}

fn connect(rt: &HostRuntime, path: &str) -> Result<Journal<FileStore<File>>, Error> {
    let mut journal = Journal::over(Connection::open(rt, path)?);
    journal.prepare()?;
    Ok(journal)
}

impl FileJournal {
    pub(crate) fn open(rt: HostRuntime, path: String) -> FileJournal {
        let journal = connect(&rt, path.as_str()).ok();
        FileJournal { rt, path, journal }
    }

    pub(crate) fn append(&mut self, bytes: &[u8]) -> Result<(), Error> {
        self.reopen()?;
        let outcome = match &mut self.journal {
            Some(journal) => journal.append(bytes),
            None => Err(CLOSED),
        };
        self.settle(outcome)
    }

    pub(crate) fn read(&mut self, place: u64) -> Result<Option<Items<u8>>, Error> {
        self.reopen()?;
        let outcome = match &mut self.journal {
            Some(journal) => journal.read(place),
            None => Err(CLOSED),
        };
        self.settle(outcome)
    }

    pub(crate) fn replace(&mut self, bytes: &[u8]) -> Result<(), Error> {
        self.reopen()?;
        let outcome = match &mut self.journal {
            Some(journal) => journal.replace(bytes),
            None => Err(CLOSED),
        };
        self.settle(outcome)
    }

    fn reopen(&mut self) -> Result<(), Error> {
        if self.journal.is_none() {
            self.journal = Some(connect(&self.rt, self.path.as_str())?);
        }
        Ok(())
    }

    // A connection that failed may answer nothing any more: it is let go, and the next call opens the file again.
    fn settle<T>(&mut self, outcome: Result<T, Error>) -> Result<T, Error> {
        match outcome {
            Err(error) if error != NO_MEMORY => {
                self.journal = None;
                Err(error)
            }
            other => other,
        }
    }
}
