//! What the program does with a trace, for a shape and an image that were read.
//!
//! - First call: [`serve`], which answers a trace; beside it stand [`check`], [`explain`],
//!   [`drive_requests`], [`grade`], [`show`] and the sweeps.
//! - Caller: `kroft_command`.
//!
//! Each makes a new machine of numbers in their ranges. [`JobFault`] and the verdicts have the
//! statuses. A fault of the input leaves the output untouched.
#![tactic(auto)]

mod answered;
mod asked;
mod drive;
mod fault;
mod following;
mod forms;
mod grades;
mod jobs;
mod lengths;
mod pictures;
mod rounds;
mod walking;
mod writing;

pub use answered::{AnsweredVerdict, check_answered};
pub use asked::RequestText;
pub use drive::drive_requests;
pub use fault::{FaultText, JobFault};
pub use following::{FollowedRun, MOST_FOLLOWED, follow_requests};
pub use forms::{AnsweredIn, CheckIn};
pub use grades::{grade, grade_by, solve};
pub use jobs::{Verdict, check, explain, serve, sweep_registers};
pub use pictures::show;
pub use rounds::{
    CountedRun, LatencyRows, detail_requests, summarize_requests, sweep_in_rounds, sweep_latencies,
};
pub use trace_sheets::{Marking, Question, read_questions};
pub use walking::{WalkedRun, walk_events};
pub use writing::put_text;
