//! Why a job ends without having done what was asked for.

ghost use Rattle.std.specs.Prelude.{◌≡◌};
ghost use Rattle.kroft_jobs.specs.Jobs.{status_of};

use register_sweeps::SweepFault;
use run_pictures::ShowFault;
use shape_files::ShapeFault;
use std::alloc::AllocError;
use std::fmt;
use thiserror::Error;
use trace_text::TraceFault;

/// Why a job ends without having done what was asked for.
#[derive(Debug, Drop, Error)]
#[error("{}", FaultText(self))]
pub enum JobFault {
    /// The shape file can't be read, or isn't UTF-8.
    ShapeUnreadable,
    /// What the shape file says.
    Shape(ShapeFault),
    /// What the trace says, or a failed read or write.
    Trace(TraceFault),
    /// The trace has more events than are drawn, which are [`run_pictures::MOST_EVENTS`] at most.
    TooManyEvents,
    /// The thread of a sweep used up its turns.
    TurnLimit,
    /// There was too little memory.
    OutOfMemory,
}

/// A fault's text, of which a contract knows each byte.
#[derive(Drop)]
pub struct FaultText<'a>(pub &'a JobFault);

impl fmt::Display for FaultText<'_> {
    ghost use Rattle.std.specs.Prelude.{Some};
    ghost use Rattle.kroft_jobs.specs.Jobs.{fault_text};

    ghost output = { λ told. Some (fault_text told.0.now) };

    fn fmt<W: fmt::Write>(&self, f: &mut fmt::Formatter<W>) -> fmt::Result {
        match self.0 {
            JobFault::ShapeUnreadable => f.write_str("shape: file not readable"),
            JobFault::Shape(fault) => write!(f, "{}", shape_files::FaultText(fault)),
            JobFault::Trace(fault) => write!(f, "{}", trace_text::FaultText(fault)),
            JobFault::TooManyEvents => {
                write!(f, "{}", run_pictures::FaultText(&ShowFault::TooManyEvents))
            }
            JobFault::TurnLimit => f.write_str("turn limit"),
            JobFault::OutOfMemory => f.write_str("out of memory"),
        }
    }
}

impl JobFault {
    /// The status of the program that ends so: 3 for the shape, 4 for the trace, 5 for the rest.
    pub fn status(&self) -> u8
        ensures { result ≡ status_of self.now }
    {
        match self {
            JobFault::ShapeUnreadable | JobFault::Shape(_) => 3,
            JobFault::Trace(_) | JobFault::TooManyEvents => 4,
            JobFault::TurnLimit | JobFault::OutOfMemory => 5,
        }
    }
}

impl From<AllocError> for JobFault {
    ghost use Rattle.std.specs.Prelude.{◌≡◌};
    ghost use Rattle.kroft_jobs.specs.declared.fault.JobFault.TheVariants.{OutOfMemory};

    ghost from_gives = { λ e f. f ≡ OutOfMemory };

    fn from(_fault: AllocError) -> JobFault {
        JobFault::OutOfMemory
    }
}

impl From<ShapeFault> for JobFault {
    ghost use Rattle.std.specs.Prelude.{◌≡◌};
    ghost use Rattle.kroft_jobs.specs.Jobs.{of_shape};

    ghost from_gives = { λ e f. f ≡ of_shape e };

    fn from(fault: ShapeFault) -> JobFault {
        match fault {
            ShapeFault::OutOfMemory => JobFault::OutOfMemory,
            _ => JobFault::Shape(fault),
        }
    }
}

impl From<TraceFault> for JobFault {
    ghost use Rattle.std.specs.Prelude.{◌≡◌};
    ghost use Rattle.kroft_jobs.specs.Jobs.{of_trace};

    ghost from_gives = { λ e f. f ≡ of_trace e };

    fn from(fault: TraceFault) -> JobFault {
        match fault {
            TraceFault::OutOfMemory => JobFault::OutOfMemory,
            _ => JobFault::Trace(fault),
        }
    }
}

impl From<SweepFault> for JobFault {
    ghost use Rattle.std.specs.Prelude.{◌≡◌};
    ghost use Rattle.kroft_jobs.specs.Jobs.{of_sweep};

    ghost from_gives = { λ e f. f ≡ of_sweep e };

    fn from(fault: SweepFault) -> JobFault {
        match fault {
            SweepFault::OutOfMemory => JobFault::OutOfMemory,
            SweepFault::TurnLimit => JobFault::TurnLimit,
            SweepFault::BadShape { place: _, field } => {
                JobFault::Shape(ShapeFault::BadShape(field))
            }
        }
    }
}

impl From<ShowFault> for JobFault {
    ghost use Rattle.std.specs.Prelude.{◌≡◌};
    ghost use Rattle.kroft_jobs.specs.Jobs.{of_show};

    ghost from_gives = { λ e f. f ≡ of_show e };

    fn from(fault: ShowFault) -> JobFault {
        match fault {
            ShowFault::Trace(fault) => JobFault::from(fault),
            ShowFault::TooManyEvents => JobFault::TooManyEvents,
            ShowFault::OutOfMemory => JobFault::OutOfMemory,
        }
    }
}
