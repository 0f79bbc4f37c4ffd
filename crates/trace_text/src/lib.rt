//! Traces as text, line by line.
//!
//! - First call: [`read_line`] reads one line; [`serve_text`] serves a trace with a machine.
//! - Caller: `kroft_jobs`, `run_reasons`, and all that reads a file by lines.
//!
//! A line is a command and its fields, one space between them, and LF: `load 1 5`. In a served
//! trace ` -> ` and the answer follow it. [`check_text`] checks a served one against flat
//! memory. [`read_lines`] gives the lines of any text to a [`Collector`]. The pieces that a text
//! comes in don't matter.
#![tactic(auto)]

mod check;
mod digits;
mod events;
mod fault;
mod fields;
pub mod laws;
mod lines;
mod pairs;
mod pieces;
mod reading;
mod requests;
mod serve;
mod streams;
mod text;
mod writers;

pub use check::{CheckEnd, Checked, check_from, check_text};
pub use events::read_events;
pub use fault::{BUFFER_LEN, FaultText, MAX_LINE, MAX_LINE_LIMIT, MAX_LINES, MAX_PAIR, TraceFault};
pub use fields::{begins_badly, byte, hexadecimal, nibble, number};
pub use lines::{Line, LineFault, cut, line_said, read_line};
pub use pairs::{Pair, pair_said, read_pair};
pub use pieces::Failed;
pub use reading::{Collector, Stop, Uncollected, read_lines, read_lines_within};
pub use requests::read_requests;
pub use serve::{Counts, serve_text, write_whole};
pub use streams::{Sink, Source};
pub use text::{LineText, answer_text, register_text};
pub use writers::{recorded_pairs, written_line, written_pair};
