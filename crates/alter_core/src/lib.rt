//! Alter jobs: what they change, their states, and why they were cancelled.
#![tactic(auto)]

mod job;

pub use job::{Cause, Change, JobInfo, JobKind, JobState};
