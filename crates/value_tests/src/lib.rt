//! Tests of the outside, of values, merges, shapes and folds.
#![tactic(auto)]

#[cfg(test)]
mod encoded;
#[cfg(test)]
mod folds;
#[cfg(test)]
mod merges;
#[cfg(test)]
mod outside;
#[cfg(test)]
mod plain_folds;
#[cfg(test)]
mod shapes;
#[cfg(test)]
mod tables;
#[cfg(test)]
mod values;
