//! The body of a load: its options, its records, and the rows that they give.
#![tactic(auto)]

mod body;
mod fault;
mod inside;
mod limit;
mod options;
mod parsed;
mod ratio;
mod records;
mod row;
mod separator;

pub use body::{MAX_RECORDS, read_body};
pub use fault::BodyFault;
pub use inside::Inside;
pub use limit::fails;
pub use options::{OptionError, Options};
pub use parsed::Parsed;
