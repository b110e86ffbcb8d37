//! Tests of the words of the program and of the texts of replies.
#![tactic(auto)]

#[cfg(test)]
mod texts;
#[cfg(test)]
mod words;
