//! The machine at each event of a trace, drawn.
//!
//! - First call: [`show_text`] reads a trace or a recorded run, and applies its events to a machine.
//!   It draws that before the first and behind each: as a page of HTML, as lines for a terminal, or
//!   as a waveform ([`Form`]).
//! - Caller: `kroft_jobs`, which reads by [`read_asked`] too.
//!
//! A picture is a row of [`Place`]s, and [`Shown`] says what stands at each: a register, a word of a
//! frame, an entry of a queue. All of it is what a machine shows of its state. [`words_by`] says what
//! a step did, or why it didn't. How a page writes that is plain code.
#![tactic(auto)]

mod asked;
mod before;
mod cells;
mod drawing;
mod drawn;
mod film;
mod layout;
mod level;
mod page;
mod page_parts;
mod phrase;
mod place;
mod reasons;
mod screens;
mod shortage;
mod show;
mod shown;
mod signal;
mod step;
mod waveform;

pub use asked::{Asked, other_answer, read_asked};
pub use before::Before;
pub use cells::shown_at;
pub use drawing::Form;
pub use drawn::{MOST_EVENTS, WHOLE_EVERY};
pub use phrase::Phrase;
pub use place::Place;
pub use reasons::words_by;
pub use show::{FaultText, ShowFault, show_text};
pub use shown::{Shown, Way};
pub use signal::Signal;
