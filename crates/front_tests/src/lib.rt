//! Tests of a front: tables of commands, each with the text of its reply.
#![tactic(auto)]

#[cfg(test)]
mod fronts;
