//! Tests of the tablets of a table.
#![tactic(auto)]

#[cfg(test)]
mod calls;
