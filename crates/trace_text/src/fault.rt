//! Limits of a trace, and why one isn't read to its end.

ghost use Rattle.std.specs.Prelude.{Some};
ghost use Rattle.trace_text.specs.Faults.{trace_fault_text};

use crate::lines::LineFault;
use std::alloc::AllocError;
use std::fmt;
use thiserror::Error;

/// Lines of a trace at most.
pub const MAX_LINES: u64 = 16_777_216;

/// Bytes of a line at most, without LF.
pub const MAX_LINE: usize = 64;

/// Bytes of a served line at most, without LF.
pub const MAX_PAIR: usize = 768;

/// The largest limit for lines, in bytes without LF. A begun line then leaves room in the buffer.
pub const MAX_LINE_LIMIT: usize = 1000;

/// Bytes of the buffer that texts are read through.
pub const BUFFER_LEN: usize = 4096;

/// Why a trace wasn't read or served to its end.
#[derive(Clone, Copy, Debug, PartialEq, Eq, Error)]
#[error("{}", FaultText(self))]
pub enum TraceFault {
    /// The line of this number, counted from 1, has this fault.
    Line { number: u64, fault: LineFault },
    /// The reader answered an error.
    Read,
    /// The writer answered an error, or took no byte.
    Write,
    /// Too little memory.
    OutOfMemory,
    /// A line begins behind [`MAX_LINES`], or behind the caller's own limit.
    TooManyLines,
}

/// A fault's exact text.
#[derive(Drop)]
pub struct FaultText<'a, F>(pub &'a F);

/// As `line 3: bad field`.
impl fmt::Display for FaultText<'_, TraceFault> {
    ghost output = { λ told. Some (trace_fault_text told.0.now) };

    fn fmt<W: fmt::Write>(&self, f: &mut fmt::Formatter<W>) -> fmt::Result {
        match self.0 {
            TraceFault::Line { number, fault } => write!(f, "line {number}: {}", FaultText(fault)),
            TraceFault::Read => f.write_str("read failed"),
            TraceFault::Write => f.write_str("write failed"),
            TraceFault::OutOfMemory => f.write_str("out of memory"),
            TraceFault::TooManyLines => f.write_str("too many lines"),
        }
    }
}

impl From<AllocError> for TraceFault {
    ghost use Rattle.std.specs.Prelude.{◌≡◌};
    ghost use Rattle.trace_text.specs.declared.fault.TraceFault.TheVariants.{OutOfMemory};

    ghost from_gives = { λ e f. f ≡ OutOfMemory };

    fn from(_fault: AllocError) -> TraceFault {
        TraceFault::OutOfMemory
    }
}
