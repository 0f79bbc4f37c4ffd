//! A history as it is judged, by any law: with what is open, and why an answer is wrong.
//!
//! - First call: [`HistorySession::new`], with a [`HistoryLaw`] and what memory begins with. Then
//!   [`HistorySession::step`] for each event.
//! - Caller: `history_text`, which has the lines of a text, and `history_handles`, which has calls
//!   from C.
//!
//! After a [`JudgeFault`] all is as it was. [`HistorySession::reason`] says why a byte is wrong, and
//! [`HistorySession::sources`] where an allowed one comes from.
#![tactic(auto)]

mod choices;
mod coverage;
mod faults;
mod judge;
mod session;
mod steps;

pub use atomic_histories::{DEFAULT_LIMIT, UnitSize};
pub use coverage::Counts;
pub use faults::{ForgetFault, JudgeFault};
pub use history_reasons::{FoundReason, OpenOperation, Reason, Source};
pub use judge::{HistoryLaw, Judge, LawName};
pub use memory_histories::{
    ALL_ENABLED, ByteSet, HistoryEvent, HistoryFault, MAX_LENGTH, Rest, StoreByte,
};
pub use session::HistorySession;
