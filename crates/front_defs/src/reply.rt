// What the core of the service answers.
use crate::AlterError;
use alter_core::JobState;
use dl_values::ResultSet;
use history_convert::Task;
use labels::TxnState;
use merge_read::Snapshot;
use partitions::LayoutError;
use rowsets::Rowset;
use shadow_writes::Plan;
use std::sync::Arc;
use table_defs::DefError;

/// An answer of the core: what was done, or the first reason why nothing was.
#[derive(Drop)]
pub enum Reply {
    Done,
    Begun { txn: u64, plan: Plan },
    /// A one-phase load has its place; a two-phase load waits for its commit.
    Submitted { placed: Option<Placed> },
    Published { txn: u64, place: u64 },
    Committed { txn: u64, place: u64, ahead: u64 },
    Aborted { txn: u64 },
    Swept { aborted: u64, cleaned: u64 },
    Snap { snapshot: Snapshot<Arc<Rowset>> },
    Shown { report: ResultSet },
    Added { job: u64 },
    Cancelled { job: u64 },
    Advanced { job: u64, state: JobState },
    Taken { task: Task },
    Given { job: u64, state: JobState },
    BadName,
    DbExists,
    TooManyDbs,
    UnknownDb,
    TableExists,
    TooManyTables,
    /// The table's definition is refused.
    BadTable { error: DefError },
    UnknownTable,
    /// The partition is refused.
    BadPartition { error: LayoutError },
    BadLabel,
    /// The label belongs to a transaction that is not aborted.
    Used { txn: u64, state: TxnState },
    NoSuchTxn,
    WrongState { state: TxnState },
    Expired { since: u64 },
    NothingToPublish,
    NothingToSweep,
    /// That job of the table lives.
    Busy { job: u64 },
    TooManyJobs,
    TooManyRollups,
    DoubleName,
    /// What the alteration asks for is refused.
    BadAlter { error: AlterError },
    NoJob,
    NothingToAdvance,
    NoTask,
    /// The task was taken before the service was opened again.
    Stale { live: u64 },
    /// The task was given before, or its job does not run.
    TaskOver { state: JobState },
    /// The keeper of the records failed in this call.
    KeeperFault,
    /// That record is damaged, or does not follow the ones before it. No legal history has this answer.
    BadJournal { seq: u64 },
    NoMemory,
}

/// The place of a committed load among all committed loads, and how many of them wait before it to be published.
#[derive(Clone, Copy, Debug, PartialEq, Eq)]
pub struct Placed {
    pub place: u64,
    pub ahead: u64,
}
