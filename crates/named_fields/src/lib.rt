//! Figures and texts with names, for other programs to read: as a row of a table (CSV) and as an
//! object (JSON).
//!
//! - First call: a [`Field`], which is a [`Figure`] with its name. [`Header`], [`Values`] and
//!   [`Object`] write fields.
//! - Caller: `result_formats`, `trace_sheets` and the jobs.
//!
//! A [`Format`] says how counts are written, and a [`VerdictFormat`] how a verdict is. All are values
//! with a `Display`, so nothing allocates.
#![tactic(auto)]

mod fields;
mod figures;
mod format;
mod strings;

pub use fields::{Field, Header, Member, Members, Object, Values};
pub use figures::Figure;
pub use format::{Format, VerdictFormat};
