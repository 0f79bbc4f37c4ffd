//! The cache's control: it looks requests up, and keeps track of the misses.
//!
//! - First call: [`ShapedUnit::request`] serves the processor. Other calls drain the write queue,
//!   take arriving words, process them, give blocks up, and return values.
//! - Caller: `machine_core`, or a station's cache side; each owns the banks, as [`Lines`].
//!
//! After a refusal, or `Nothing`, all is as it was. A [`ShapedUnit`] has its numbers at run time; a
//! [`CacheUnit`] has them in its type. `cache_law` says what each call may change.
#![tactic(auto)]

mod begin;
mod fetch;
mod fixed;
mod limits;
mod reads;
mod unit;
mod victim;

pub use cache_law::{Lookup, Reply, Request, Sizes, laws};
pub use fixed::CacheUnit;
pub use limits::{bad_field, bad_size, sizes_of};
pub use memory_banks::Lines;
pub use unit::ShapedUnit;

#[derive(Clone, Copy)]
struct Places {
    frame: u32,
    slot: u32,
}
