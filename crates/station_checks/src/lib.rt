//! What the ports of a tour ask, and what is found of a run behind it, with its texts.
//!
//! - First call: [`ScriptParts::new`] draws the asks of a [`Plan`]. [`Findings`] and [`tell_story`]
//!   come behind the run.
//! - Caller: `station_tour`, which runs the station between the two.
//!
//! [`Findings`] are what the audit found, whether the journal is a run of flat memory, and whether
//! each port took what the journal says.
#![tactic(auto)]

mod checks;
mod drawing;
mod findings;
mod lines;
mod plan;
mod story;

pub use checks::{are_told, goes_on, is_flat, read_journal};
pub use drawing::ScriptParts;
pub use findings::{Findings, Outcome};
pub use lines::{AskText, EntryText, FindingsText, ToldText};
pub use plan::{
    BLOCK_WORDS, DEPTH, ENTRIES, MOST_PORTS, Plan, REGS, WAYS, WORDS, ask_by, bytes_of, shape,
};
pub use story::{
    Tally, per_second, tell_findings, tell_journal, tell_ports, tell_progress, tell_run, tell_story,
};
