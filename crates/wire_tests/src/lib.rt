//! Tests of requests and replies on the wire, of bodies, and of what a request asks for.
#![tactic(auto)]

#[cfg(test)]
mod bodies;
#[cfg(test)]
mod replies;
#[cfg(test)]
mod requests;
#[cfg(test)]
mod wire;
