//! The journal of a station: what it notes, when it is true of the banks, and what follows.
//!
//! - First call: none at run time; [`laws::journal_is_flat`] is what a proof cites first. A journal
//!   is a list of [`Entry`].
//! - Caller: `station_parts`, whose cache side notes an entry for each step.
//!
//! [`Ask`] is what a port asks, and [`Told`] what it is told. A port's tag is `port * 256 + tag`
//! ([`PORT_TAGS`]). [`SideFault`] says why a cache side stopped.
#![tactic(auto)]

mod asks;
mod journal;
pub mod laws;

pub use asks::{Ask, PORT_TAGS, Told};
pub use journal::{Entry, SideFault, Source};
