//! Tests of zones, over the public surface of `zones`.
#![tactic(auto)]

#[cfg(test)]
mod tables;
