//! Histories of a memory: which bytes a load may return, if only requests and responses are seen.
//!
//! - First call: [`RegularMemory::new`] or [`FlatHistory::new`], then `step` for each event.
//! - Caller: `history_text` and `history_handles`.
//!
//! By the regular law an operation takes effect between its request and its response
//! (`specs/Regular.antt`); by the flat law it does so at its request (`specs/Flat.antt`). After a
//! fault all is as it was. [`RegularMemory::may_return`] is the set of bytes that an open load may
//! return now.
#![tactic(auto)]

mod answered;
mod events;
mod faults;
mod flat;
mod forms;
mod kept;
mod loads;
mod parts;
mod reasons;
mod regular;
mod sets;
mod spares;
mod windows;

pub use answered::{KeptUnit, UnitChange};
pub use events::{ALL_ENABLED, HistoryEvent, HistoryFault, MAX_LENGTH, Rest, StepFault};
pub use faults::FaultText;
pub use flat::{FlatHistory, OwedByte};
pub use forms::{
    enables_any, has_enabled, is_enabled, is_inside, request_fault, store_response_fault,
};
pub use kept::OpenByte;
pub use loads::OpenLoad;
pub use parts::StorePart;
pub use reasons::{Owed, StoreName};
pub use regular::RegularMemory;
pub use sets::ByteSet;
pub use windows::{
    LoadByte, StoreByte, add_store, is_at, is_before, is_covered, is_initial, is_of,
    is_overwritten, may_return,
};
