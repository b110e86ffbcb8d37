//! The definitions of the service: its commands and replies, what a history of them makes happen, and which histories
//! are legal.
#![tactic(auto)]

mod alter_error;
mod catalogue;
mod command;
mod event;
mod history;
mod reply;
mod show_what;
mod turns;
mod txn;

pub use alter_error::AlterError;
pub use catalogue::{Rollup, SchemaStep, Table};
pub use command::{AlterDef, Command, TxnKey};
pub use event::{
    Compacted, DbMade, Event, JobAdded, JobCancelled, JobFinished, JobRan, JobWaiting,
    LoadCommitted, LoadPublished, LoadSubmitted, PartAdded, RangeDrawn, Swept, SweptUntold,
    TableDropped, TableMade, TaskGiven, TaskTaken, TxnAborted, TxnBegun, TxnEnded, WatershedDrawn,
};
pub use history::{Call, Entry};
pub use reply::{Placed, Reply};
pub use show_what::ShowWhat;
pub use turns::Turns;
pub use txn::Txn;
