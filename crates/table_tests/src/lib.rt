//! Tests of queries, and of the definitions of tables and layouts.
#![tactic(auto)]

#[cfg(test)]
mod days;
#[cfg(test)]
mod definitions;
#[cfg(test)]
mod layouts;
#[cfg(test)]
mod queries;
#[cfg(test)]
mod shapes;
#[cfg(test)]
mod texts;
