//! A trace or a recorded run, drawn.

ghost use Rattle.std.specs.Prelude.{Some};
ghost use Rattle.run_pictures.specs.Drawn.{Shows};
ghost use Rattle.run_pictures.specs.Faults.{show_fault_text};

use crate::asked::read_asked;
use crate::drawing::Form;
use crate::drawn::{MOST_EVENTS, draw_run};
use flat_model::Image;
use machine_core::ShapedMachine;
use std::alloc::{AllocError, Global};
use std::fmt;
use thiserror::Error;
use trace_text::{Source, TraceFault};

/// Why a run isn't drawn.
#[derive(Clone, Copy, PartialEq, Eq, Debug, Error)]
#[error("{}", FaultText(self))]
pub enum ShowFault {
    /// A fault of the text or its reader.
    Trace(TraceFault),
    /// More than 10,000 events.
    TooManyEvents,
    /// Too little memory.
    OutOfMemory,
}

/// A fault's exact text.
#[derive(Drop)]
pub struct FaultText<'a>(pub &'a ShowFault);

/// The trace fault's own, `too many events: 10000 at most are shown`, or `out of memory`.
impl fmt::Display for FaultText<'_> {
    ghost output = { λ told. Some (show_fault_text told.0.now) };

    fn fmt<W: fmt::Write>(&self, f: &mut fmt::Formatter<W>) -> fmt::Result {
        match self.0 {
            ShowFault::Trace(fault) => write!(f, "{}", trace_text::FaultText(fault)),
            ShowFault::TooManyEvents => {
                write!(f, "too many events: {MOST_EVENTS} at most are shown")
            }
            ShowFault::OutOfMemory => f.write_str("out of memory"),
        }
    }
}

impl From<AllocError> for ShowFault {
    ghost use Rattle.std.specs.Prelude.{◌≡◌};
    ghost use Rattle.run_pictures.specs.declared.show.ShowFault.TheVariants.{OutOfMemory};

    ghost from_gives = { λ e f. f ≡ OutOfMemory };

    fn from(_fault: AllocError) -> ShowFault {
        ShowFault::OutOfMemory
    }
}

impl From<TraceFault> for ShowFault {
    ghost use Rattle.std.specs.Prelude.{◌≡◌};
    ghost use Rattle.run_pictures.specs.declared.show.ShowFault.TheVariants.{Trace};

    ghost from_gives = { λ e f. f ≡ Trace e };

    fn from(fault: TraceFault) -> ShowFault {
        ShowFault::Trace(fault)
    }
}

/// Draws a machine's walk over the events of a trace or a recorded run: before the first and behind
/// each. Lines that only show something are passed over. A recorded answer that isn't the machine's
/// stands beside it.
///
/// The machine must be new and over this image: what loads are owed is drawn from it.
///
/// A line that neither [`read_line`](trace_text::read_line) nor
/// [`read_pair`](trace_text::read_pair) reads has the trace's fault, or the run's if it has more
/// than 64 bytes. `Trace` goes before `TooManyEvents` and `OutOfMemory`, in the order of
/// [`read_requests`](trace_text::read_requests).
pub fn show_text<R: Source>(
    alloc: Global,
    reader: &mut R,
    machine: ShapedMachine,
    image: &Image,
    form: Form,
) -> Result<String, ShowFault>
    ensures { Shows R.gave R.failed form image.now machine reader.old reader.new result }
{
    let Some(all) = read_asked(alloc, reader)? else {
        return Err(ShowFault::TooManyEvents);
    };
    let mut machine = machine;
    Ok(draw_run(alloc, &mut machine, image, form, all.as_slice())?)
}
