//! Tests of sessions, over turns whose replies are given and over a core.
#![tactic(auto)]

#[cfg(test)]
mod alone;
#[cfg(test)]
mod cuts;
#[cfg(test)]
mod replies;
#[cfg(test)]
mod sessions;
#[cfg(test)]
mod texts;
