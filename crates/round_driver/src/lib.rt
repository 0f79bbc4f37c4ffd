//! Requests driven through a machine in rounds: a schedule, and no hardware's time.
//!
//! - First call: [`drive`] writes a run; [`summarize`] and [`detail_with`] count it. [`Rounds`] makes
//!   one round at a time for a caller who doesn't have all requests at hand.
//! - Caller: `kroft_jobs`, `register_sweeps` and `machine_handles`.
//!
//! A round makes these steps. Each bank, by number, begins a waiting command if it isn't busy, and
//! serves its oldest one begun `latency` rounds before. An answer arrives from the next bank that
//! has one, if the stack has room. The stack's first word is processed, the first reply taken, the
//! write queue's front drained. At last the request at hand is asked once. If it is accepted, or
//! refused with 1, 2 or 11, the next one follows; otherwise it is asked again. A run ends once the
//! requests are used up and nothing is on its way.
//!
//! A bank is busy until it has served its command, unless it is a pipeline ([`Timing`]).
#![tactic(auto)]

mod detailing;
mod details;
mod driving;
mod in_flight;
pub mod laws;
mod machine;
mod note;
mod outcomes;
mod round;
mod schedule;
mod stepping;
mod table;
mod tally;
mod texts;
mod timing;
mod waits;
mod writing;

pub use detailing::detail_with;
pub use details::{ByKind, BySet, Details, Finds};
pub use driving::{MOST_LATENCY, drive, drive_with, summarize, summarize_with};
pub use machine::{MachineNumbers, keeps_whole};
pub use note::Note;
pub use outcomes::{Outcome, Outcomes};
pub use stepping::{MOST_ROUNDS, RoundReport, Rounds};
pub use table::{LostRounds, Table};
pub use tally::Tally;
pub use timing::Timing;
pub use waits::{WAIT_BUCKETS, Waits, wait_bucket};
