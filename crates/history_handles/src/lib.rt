//! Histories behind handles: what C holds of a history that is judged as it goes.
//!
//! - First call: [`open_history`], and [`free_history`] at the end.
//! - Caller: `kroft_c`, whose exports are these calls.
//!
//! Between the two each request and each response is one call, judged at once. [`why`] returns the
//! reason of a wrong byte. Each call returns a number, whatever numbers and lengths it gets. A
//! [`HistoryHandle`] of zeros is closed.
#![tactic(auto)]

mod asked;
mod calls;
mod counts;
mod handle;
mod history;
mod open;
mod reasons;
mod rows;
mod status;
mod units;

pub use asked::{may_return, unanswered};
pub use calls::{load_request, load_response, store_request, store_response};
pub use counts::{cover, coverage};
pub use handle::HistoryHandle;
pub use history::OpenHistory;
pub use open::{free_history, open_history};
pub use reasons::why;
pub use rows::{HistoryCounts, OCTETS, Operation, ReasonRow};
pub use units::{forget, undecided};
