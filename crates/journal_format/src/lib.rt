//! What a journal writes of a load: its rows.
#![tactic(auto)]

mod encoded_rows;

pub use encoded_rows::EncodedRows;
