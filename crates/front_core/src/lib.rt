//! The core of the service: a front answers commands one at a time, and stands for the history of what it answered.
#![tactic(auto)]

mod begins;
mod defined;
mod fitting;
mod front;
mod names;
mod refusal;
mod stored;

pub use front::Front;
pub use front_defs::{Command, Reply, Turns};
pub use front_laws::laws;
