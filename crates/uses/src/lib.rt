//! Small callers of the libraries, each proved from contracts alone.
//!
//! - First call: [`first_load`] drives a machine; copy it to begin a caller.
//! - Caller: `worked_examples` runs them.
//!
//! [`count_lookups`] chooses its own order of memory; [`judge_line`] judges a recorded run as it
//! comes; [`load_form`] and [`take_form`] put a unit's laws to use.
#![tactic(auto)]

mod forms;
mod judge;
mod load;
mod own_order;

pub use forms::{load_form, take_form};
pub use judge::{Verdict, judge_line};
pub use load::first_load;
pub use own_order::{Lookups, count_lookups};
