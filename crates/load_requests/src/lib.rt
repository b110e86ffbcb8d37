//! Requests of the service: what the head and the body of one ask for.
#![tactic(auto)]

mod bytes;
mod end_key;
mod ends;
mod load_fields;
mod names;
mod numbers;
mod read;
mod reading;
mod request;
mod statement;
mod stop;
mod target;
mod token;
mod values;

pub use end_key::EndKey;
pub use read::read_request;
pub use request::Request;
