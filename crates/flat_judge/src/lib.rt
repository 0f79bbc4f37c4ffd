//! The judge of flat memory, over words and a table of the caller.
//!
//! - First call: [`flat_step`] judges one event with its answer, or returns the [`Reason`] why not;
//!   [`flat_open`] counts the loads that wait.
//! - Caller: `kroft_c`, and through it a test bench, mostly in C.
//!
//! Each number, row and length has an answer, and nothing allocates. A [`Plan`] draws traffic that
//! caches find hard.
#![tactic(auto)]

mod access;
mod judge;
mod plan;
mod reasons;
mod rows;
mod table;
mod traffic_rows;

pub use access::{Access, fill_bytes};
pub use judge::flat_step;
pub use plan::{Plan, Traffic};
pub use reasons::Reason;
pub use rows::{AnswerRow, EventRow, answer_row, event_row};
pub use table::{Due, TAGS, flat_open};
pub use traffic_rows::traffic;
