//! Tests of runs of the program.
#![tactic(auto)]

#[cfg(test)]
mod answers;
#[cfg(test)]
mod runs;
#[cfg(test)]
mod types;
