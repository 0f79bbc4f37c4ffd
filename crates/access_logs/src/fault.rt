//! Why the requests of a log aren't written to its end.
ghost use Rattle.std.specs.Prelude.{Some};
ghost use Rattle.std.specs.Fmt.{WritesOnOk};
ghost use Rattle.access_logs.specs.Faults.{place_text, remedy_text};

use crate::pages::{MAX_PAGES, PAGE_WORDS};
use flat_model::MAX_WORDS;
use std::alloc::AllocError;
use std::fmt;
use thiserror::Error;
use trace_text::TraceFault;

/// A line touches a page of the program for which memory has no room.
#[derive(Clone, Copy, Debug, PartialEq, Eq, Error)]
#[error("{}", FaultText(self))]
pub struct NoRoom {
    /// The number of the line, counted from 1.
    pub line: u64,
    /// How many pages are touched up to this line, and by it.
    pub pages: u64,
}

impl NoRoom {
    // Writes which page has no room.
    #[tactic(auto, unfolding(crate::specs::Faults::place_text))]
    fn write_place<W: fmt::Write>(&self, f: &mut fmt::Formatter<W>) -> fmt::Result
        ensures { WritesOnOk W.write_str_gives f.old result (place_text self.now) f.new }
    {
        write!(f, "line {}: no room for page {}", self.line, self.pages)
    }

    // Writes how many words would do.
    #[tactic(auto, unfolding(crate::specs::Faults::remedy_text))]
    fn write_remedy<W: fmt::Write>(&self, f: &mut fmt::Formatter<W>) -> fmt::Result
        ensures { WritesOnOk W.write_str_gives f.old result (remedy_text self.now.pages) f.new }
    {
        if self.pages <= u64::from(MAX_PAGES) {
            write!(f, "{} words would do", self.pages * PAGE_WORDS)
        } else {
            write!(f, "memory has at most {MAX_WORDS} words")
        }
    }
}

/// A fault's text, of which a contract knows each byte.
#[derive(Drop)]
pub struct FaultText<'a, F>(pub &'a F);

/// `line N: no room for page P: W words would do`, or that memory has at most 1,048,576 words. Pages are
/// counted from 1.
impl fmt::Display for FaultText<'_, NoRoom> {
    ghost use Rattle.access_logs.specs.Faults.{no_room_text};

    ghost output = { λ told. Some (no_room_text told.0.now) };

    fn fmt<W: fmt::Write>(&self, f: &mut fmt::Formatter<W>) -> fmt::Result {
        self.0.write_place(f)?;
        f.write_str(": ")?;
        self.0.write_remedy(f)
    }
}

/// Why the requests of a log weren't written to its end.
#[derive(Clone, Copy, Debug, PartialEq, Eq, Error)]
#[error("{}", FaultText(self))]
pub enum LogFault {
    /// A line can't be read, a stream failed, or there was too little memory, as of a trace.
    Trace(TraceFault),
    /// There is no room for a page.
    NoRoom(NoRoom),
}

/// As that of a trace's fault, or of a page that has no room.
impl fmt::Display for FaultText<'_, LogFault> {
    ghost use Rattle.access_logs.specs.Faults.{log_fault_text};

    ghost output = { λ told. Some (log_fault_text told.0.now) };

    fn fmt<W: fmt::Write>(&self, f: &mut fmt::Formatter<W>) -> fmt::Result {
        match self.0 {
            LogFault::Trace(fault) => write!(f, "{}", trace_text::FaultText(fault)),
            LogFault::NoRoom(fault) => write!(f, "{}", FaultText(fault)),
        }
    }
}

impl From<AllocError> for LogFault {
    ghost use Rattle.std.specs.Prelude.{◌≡◌};
    ghost use Rattle.trace_text.specs.declared.fault.TraceFault.TheVariants.{OutOfMemory};
    ghost use Rattle.access_logs.specs.declared.fault.LogFault.TheVariants.{Trace};

    ghost from_gives = { λ e f. f ≡ Trace OutOfMemory };

    fn from(_fault: AllocError) -> LogFault {
        LogFault::Trace(TraceFault::OutOfMemory)
    }
}
