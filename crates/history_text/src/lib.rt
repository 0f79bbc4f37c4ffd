//! Histories of a memory as text, judged as they come.
//!
//! - First call: [`judge_by_law`] reads a whole history, and returns in a [`HistoryEnd`] what became
//!   of it. [`read_history_line`] reads one line, as `load-request 7 0x1000 4`.
//! - Caller: `kroft_command`.
//!
//! [`write_values_by_law`] writes which values each answer may have, and [`shrink_by_law`] makes a
//! refused history short. [`HistoryVerdict`] is the text of an end.
#![tactic(auto)]

mod answers;
mod cutting;
mod events;
mod fields;
mod gathering;
mod histories;
mod lines;
mod notes;
mod reading;
mod refusals;
mod shrinking;
mod unit_operations;
mod values;

pub use answers::{
    AllowedByte, Alternatives, ByteSource, HistoryEnd, HistoryVerdict, OperationKind,
    OverwrittenByte, Refusal, RefusalCause, bytes_in_set,
};
pub use events::{OperationBytes, OwnedEvent};
pub use histories::judge_by_law;
pub use history_sessions::{HistoryLaw, LawName};
pub use lines::read_history_line;
pub use shrinking::{ShrunkHistory, shrink_by_law};
pub use values::write_values_by_law;
