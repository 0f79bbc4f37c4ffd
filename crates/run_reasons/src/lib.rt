//! Why a recorded run is none of flat memory.
//!
//! - First call: [`explain_text`] reads a served trace up to the first line that flat memory can't
//!   answer, and says why. [`Explainer`] does the same for a run that is in no text.
//! - Caller: `kroft_jobs` and `result_formats`.
//!
//! For each byte the line of its last store is kept, and of each value it had the last overwriting.
//! A byte has at most 256 values, so a run may be of any length. Words that stores left at words of
//! open loads tell a late value from one that never stood there: [`WrongWord::stood_since`].
//!
//! A program writes what it gets, with a line feed, and ends with its `status()`. That is 0 for a
//! flat run, 1 for a [`Mismatch`], and the fault's own for a
//! [`TraceFault`](trace_text::TraceFault).
#![tactic(auto)]

mod explain;
mod explainer;
mod lines;
mod origins;
mod pasts;
mod reason;
mod show;
mod tags;

pub use explain::{Explanation, explain_text};
pub use explainer::{Explainer, ReadFault};
pub use origins::{AcceptedLoad, Stores, TagUse};
pub use pasts::{Overwritten, Pasts};
pub use reason::{Mismatch, Reason, WrongWord};
