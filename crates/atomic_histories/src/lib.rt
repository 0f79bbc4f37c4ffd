//! Histories of a memory whose operations take effect at one moment each.
//!
//! - First call: [`AtomicMemory::new`], with what memory begins with and the size of a unit.
//! - Caller: `history_text` and `history_handles`, which pass each event to [`AtomicMemory::step`].
//!
//! After a fault all is as it was. The law is for each unit of memory by itself, and
//! `specs/Law.antt` says it. The judge follows all ways in which the unit's open operations may have
//! taken effect. Between two events hidden steps do that. Where too many ways are left, it answers
//! that it can't tell.
#![tactic(auto)]

mod answers;
mod at_once;
mod faults;
mod followed;
mod forms;
mod hopes;
mod kept;
pub mod laws;
mod loads;
mod may;
mod memory;
mod moves;
mod pairs;
mod search;
mod shown_bytes;
mod splits;
mod stretches;
mod unit;
mod units;
mod words;

pub use faults::FaultText;
pub use kept::KeptUnit;
pub use memory::{AtomicFault, AtomicMemory, DEFAULT_LIMIT, UnitSize};
pub use pairs::{FollowedPair, Wanted};
pub use search::{MOST_WORDS, Stop};
pub use stretches::{Before, Stretch};
pub use unit::{LoadAddress, OpenStore, Operation, UnitPlace, WatchedLoad, Word};
