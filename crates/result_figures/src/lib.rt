//! Counts and runs as figures.
//!
//! - First call: [`sweep_marks`], [`loss_marks`] or [`timeline_marks`], which say what points, bars
//!   and numbers a figure has. [`Drawing`] writes them as SVG. [`Seen`] gathers a timeline's turns.
//! - Caller: `kroft_command`, for `--svg`.
//!
//! Which marks a figure has is proved. How a mark is written is tested, by a parser and a browser.
#![tactic(auto)]

mod bars;
mod drawing;
mod layout;
mod lives;
mod looks;
mod losses;
mod mark;
mod notes;
mod pen;
mod plot;
mod scale;
mod seen;
mod svg;
mod sweep;
mod timeline;

pub use drawing::Drawing;
pub use losses::loss_marks;
pub use mark::{Counted, Denials, Mark, Omission, Scale, Shade, Title, Undrawn};
pub use seen::Seen;
pub use sweep::{SweepLine, sweep_marks};
pub use timeline::{Told, timeline_marks};
