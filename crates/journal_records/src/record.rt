// One record of a journal.
use crate::cause::Cause;
use crate::load::Load;
use crate::new_job::NewJob;
use crate::new_part::NewPart;
use crate::new_table::NewTable;
use dl_values::Name;

/// Something that a journal tells. Tables, transactions and jobs are named by their numbers.
#[derive(Debug, Drop)]
pub enum Record {
    CreateDb(Name),
    CreateTable(NewTable),
    DropTable {
        table: u64,
        at: u64,
    },
    AddPartition(NewPart),
    /// The numbers of transactions up to this one may be given from now on.
    IdRange {
        upto: u64,
    },
    Submit(Load),
    Commit {
        txn: u64,
        at: u64,
        /// The job that a row of the load cannot be converted for.
        cancelled: Option<u64>,
    },
    Abort {
        txn: u64,
        at: u64,
    },
    Publish {
        txn: u64,
        at: u64,
    },
    AddJob(NewJob),
    JobWaiting {
        job: u64,
        watershed: u64,
        upto: u64,
    },
    JobFinished {
        job: u64,
        at: u64,
    },
    JobCancelled {
        job: u64,
        at: u64,
        cause: Cause,
    },
    Sweep {
        at: u64,
    },
}
