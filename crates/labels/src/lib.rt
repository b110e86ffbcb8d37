//! Labels of loads, and the states of the transactions that hold them.
#![tactic(auto)]

mod binding;
mod book;
mod label_key;
mod txn_state;

pub use binding::{BindError, Binding};
pub use book::LabelBook;
pub use txn_state::TxnState;
