//! Labels of loads: which transaction holds which label, by the numbers of the transactions, until it is forgotten.
#![tactic(auto)]

mod binding;
mod book;
mod label_key;
mod numbers;
#[cfg(test)]
mod tests;

pub use binding::{BindError, Binding};
pub use book::LabelBook;
