//! Tests of the records of a journal and of the journal, over the public surface of `journal_records` and `journal_core`.
#![tactic(auto)]

#[cfg(test)]
mod journal;
#[cfg(test)]
mod records;
#[cfg(test)]
mod rows;
#[cfg(test)]
mod tables;
