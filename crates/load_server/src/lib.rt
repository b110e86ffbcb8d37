//! Answers the requests of one connection: each load and statement by its turns at the core, each response in its order.
//!
//! Main interface: [`session`].
#![tactic(auto)]

mod abort;
mod answer;
mod end_report;
mod ending;
mod exchange;
mod load;
mod loading;
mod places;
mod prepare;
mod publish;
mod refusal;
mod report;
mod respond;
mod select;
mod sent;
mod session_end;
mod sessions;
mod solo;
mod statement;
mod submit;
mod whole_def;

pub use session_end::SessionEnd;
pub use sessions::{MAX_REQUESTS, session};
pub use solo::Solo;
