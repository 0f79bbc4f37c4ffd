//! The program over its words, a reader and two writers.
//!
//! - First call: [`tool`] is all of it, and returns the status.
//! - Caller: `kroft_tool`, which has the process's words and streams; tests have texts.
//!
//! It reads the words, then the files that they name, and does the job. The jobs themselves are
//! `kroft_jobs`'. A fault is one line on the errors' writer. [`sweep`], [`sweep_row`] and
//! [`read_shape`] are passed on for callers of the library.
#![tactic(auto)]

mod command_line;
mod commands;
mod fault;
mod figures;
mod given;
mod notes;
mod one_try;
mod options;
mod program;
mod tasks;

pub use one_try::OneTryWriter;
pub use program::tool;
pub use register_sweeps::{Row, SweepFault, SweepGate, sweep, sweep_row};
pub use round_driver::Timing;
pub use shape_files::{ShapeFault, ToolShape, read_shape};
