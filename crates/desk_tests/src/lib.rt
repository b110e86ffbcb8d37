//! Tests of the shared desk: an engine that adds, with told records and marks in its entries, and seats in many threads.
#![tactic(auto)]

mod any;
mod ends;
#[cfg(test)]
mod seats;
#[cfg(test)]
mod threads;
mod total;
mod work;
