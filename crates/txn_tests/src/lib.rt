//! Tests of the transactions of loads, over the public surface of `txn_core`.
#![tactic(auto)]

#[cfg(test)]
mod calls;
#[cfg(test)]
mod opening;
#[cfg(test)]
mod scripts;
