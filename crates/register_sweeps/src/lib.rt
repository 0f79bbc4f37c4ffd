//! Machines of the numbers that a file may say, and sweeps over them: what requests wait for with
//! several numbers of registers.
//!
//! - First call: [`sweep`]. Its caller has a trace's requests, and a thread makes each row.
//! - Caller: `kroft_jobs`, and who uses the library ([`sweep_row`] makes one row).
//!
//! [`sweep_machines`] takes machines of any numbers, and [`sweep_rounds`] drives them in rounds
//! where these pump. A [`SweepGate`] may stop a row before it begins.
#![tactic(auto)]

mod machines;
mod room;
mod rounds;
mod row;
mod sweeps;
mod threads;

pub use machine_core::Sizes;
pub use machines::new_machine;
pub use rounds::{RoundsRow, rounds_table, sweep_rounds};
pub use row::Row;
pub use sweeps::{FaultText, OpenGate, SweepFault, SweepGate, sweep, sweep_machines, sweep_row};
