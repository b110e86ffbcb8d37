//! Tests of statements: their tokens, what they are, and how they are printed.
#![tactic(auto)]

#[cfg(test)]
mod printing;
#[cfg(test)]
mod statements;
#[cfg(test)]
mod token_lists;
