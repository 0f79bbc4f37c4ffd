//! The worked examples of the station, each a test under its name: stepped by hand, and on threads.
//!
//! - First call: [`follow_chain`] is a caller with its own threads, proved from the parts'
//!   contracts alone.
//! - Caller: `./test`.
//!
//! Tests need threads and waiting, so they stand in a crate by themselves. A stepped example says its
//! turns one by one; one on threads says what the audit must find, whatever the order was.
#![tactic(auto)]

mod chain;
#[cfg(test)]
mod tests;

pub use chain::{Follower, Waits, follow_chain};
