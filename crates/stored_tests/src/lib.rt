//! Tests of labels, of readings of stored rows, and of queries over them.
#![tactic(auto)]

#[cfg(test)]
mod label_books;
#[cfg(test)]
mod queries;
#[cfg(test)]
mod readings;
