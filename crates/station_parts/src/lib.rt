//! The parts of a station: ports, the cache side and bank sides, joined by rings.
//!
//! - First call: [`station`] makes them all.
//! - Caller: who steps the parts by hand, or `ring_station`, which gives each a thread.
//!
//! The cache side keeps a journal of what it did. [`audit`] has all parts in hand: the journal is
//! then known to be a run of flat memory. [`renew`] hands it out and begins a new one. A step with a
//! [`Look`] may leave rings unread; without one it looks at all.
#![tactic(auto)]

mod asking;
mod bank;
mod ends;
mod inspect;
pub mod laws;
mod lines;
mod looks;
mod make;
mod parts;
mod past;
mod port;
mod raw;
mod renewal;
mod rest;
mod row;
mod side;
mod texts;
mod views;

pub use bank::BankSide;
pub use ends::Look;
pub use inspect::audit;
pub use make::{MAX_ENTRIES, MAX_NOTED, MAX_PORTS, shaped_station, station};
pub use parts::{Audit, CacheSide, Ring, Station, Stepped};
pub use port::{ASK_PLACES, Port, TELLING_PLACES};
pub use raw::RawBank;
pub use renewal::{RenewFault, renew};
pub use station_journal::{Ask, Entry, PORT_TAGS, SideFault, Source, Told};
pub use texts::FaultText;
