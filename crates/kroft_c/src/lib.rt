//! Kroft for C: the judge of one step of flat memory, the history behind a handle, the machine behind
//! one, and traffic for a bench.
//!
//! - First call: `kroft_history_open` for a design of your own; `include/kroft.h` has them all.
//! - Caller: a C program, or the bindings for C++, Python, SystemC and SystemVerilog.
//!
//! Each export but the texts is one call of `flat_judge`, `history_handles` or `machine_handles`,
//! with its contract. Every export is total. What each result means, and what it leaves unchanged,
//! stands in `kroft.h`.
#![tactic(auto)]

mod history;
mod judge;
mod machine;
mod parts;
mod rounds;
mod texts;
mod traffic;
mod version;
mod views;

pub use history::{
    kroft_history_close, kroft_history_cover, kroft_history_coverage, kroft_history_forget,
    kroft_history_load_request, kroft_history_load_response, kroft_history_may_return,
    kroft_history_open, kroft_history_store_request, kroft_history_store_response,
    kroft_history_unanswered, kroft_history_undecided, kroft_history_why,
};
pub use judge::{kroft_flat_judge, kroft_flat_unanswered};
pub use machine::{
    kroft_machine_apply, kroft_machine_close, kroft_machine_open, kroft_machine_pump,
    kroft_machine_weight,
};
pub use parts::{
    kroft_machine_bank_answer, kroft_machine_bank_command, kroft_machine_find, kroft_machine_frame,
    kroft_machine_frame_word, kroft_machine_queue_entry, kroft_machine_reply,
    kroft_machine_stack_entry,
};
pub use rounds::{
    kroft_machine_begin_rounds, kroft_machine_drive, kroft_machine_end_rounds, kroft_machine_round,
    kroft_machine_round_counts,
};
pub use texts::kroft_result_text;
pub use traffic::kroft_traffic_draw;
pub use version::kroft_version;
pub use views::{
    kroft_machine_bank_word, kroft_machine_field, kroft_machine_register, kroft_machine_target,
};
