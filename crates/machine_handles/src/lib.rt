//! Machines behind handles, for callers in other languages.
//!
//! - First call: [`open_machine`], and [`free_machine`] at the end.
//! - Caller: `kroft_c`.
//!
//! A [`Handle`] is a mark and a pointer; all zeros are a closed one. Each number, row and length has
//! an answer. Events, answers and parts go as rows of plain numbers. `kroft.h` has each result, in
//! the order of the checks. After a refusal all is as it was.
#![tactic(auto)]

mod calls;
mod handle;
mod kept;
mod made;
mod open;
mod part_calls;
mod part_rows;
mod parts;
mod rounds;
mod status;
mod stepping;
mod views;

pub use calls::{apply, bank_word, field, pump, register, target, weight};
pub use handle::Handle;
pub use open::{free_machine, open_machine};
pub use part_calls::{
    bank_answer, bank_command, find, frame, frame_word, queue_entry, reply, stack_entry,
};
pub use part_rows::{ArrivalRow, CommandRow, FrameRow, FrameWordRow, QueuedRow};
pub use rounds::{CountsRow, drive};
pub use stepping::{RoundRow, begin_rounds, end_rounds, round, round_counts};
pub use views::{FieldRow, RegisterRow, ShapeRow, TargetRow};
