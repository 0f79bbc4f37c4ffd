//! Logs of memory accesses, as other tools write them, turned into requests.
//!
//! - First call: [`write_requests`] writes the loads and stores of a log ([`Lackey`] or [`Din`]) as
//!   lines of a trace, one for each word of four bytes. [`read_log`] returns them in groups by access.
//! - Caller: `kroft_command`, which has a stream.
//!
//! Addresses have 64 bits, and memory has at most 1,048,576 words. So pages of 4,096 bytes are
//! mapped in the order of their first touch: the first is words 0 to 1,023, the next 1,024 to
//! 2,047. No log has the data of a store. So a byte is made up: its address and its line's number,
//! added, modulo 256.
#![tactic(auto)]

mod access;
mod fault;
mod format;
mod pages;
mod reading;
mod requests;
mod writing;

pub use access::{Access, AccessKind, MAX_SIZE, MAX_TOUCHED, WORD_BYTES};
pub use fault::{FaultText, LogFault, NoRoom};
pub use format::{Din, Lackey, LogFormat};
pub use pages::{MAX_PAGES, PAGE_WORDS};
pub use reading::{AccessGroup, LogRequests, read_log};
pub use writing::{MAX_WORDS, MOST_LOG_LINES, write_requests};
