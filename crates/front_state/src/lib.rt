//! What stands in a front: its catalogue with what is stored, and its transactions.
#![tactic(auto)]

mod catalogue;
mod ready;
mod stored_table;
mod storing;
mod table_key;
mod transactions;

pub use catalogue::Catalogue;
pub use transactions::Transactions;
