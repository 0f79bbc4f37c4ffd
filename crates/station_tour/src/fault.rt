//! Why the program ends without having told all.

use clap::error::ErrorKind;
use flat_model::MakeFault;
use ring_station::{RenewFault, RunFault, SegmentFault};
use std::alloc::AllocError;
use std::{fmt, io};
use thiserror::Error;

/// Why the program ends without having told all.
#[derive(Debug, Drop, Error)]
#[error("{}", FaultText(self))]
pub(crate) enum StationFault {
    /// The words of the command line, or help that was asked for.
    CommandLine(clap::Error),
    /// The shape is none: a fault of the program.
    Shape,
    /// A thread came to its limit, or the journal was full.
    TurnLimit,
    /// The station couldn't go on with a new journal.
    Renewal(RenewFault),
    /// The file or the stream of the journal failed.
    Journal(io::Error),
    /// Another stream or the clock failed.
    Io(io::Error),
    /// There was too little memory.
    OutOfMemory,
}

/// A fault's text, of which a contract knows each byte.
#[derive(Drop)]
pub(crate) struct FaultText<'a>(pub &'a StationFault);

/// What was wrong; of the command line and of a stream in the words of what it holds.
impl fmt::Display for FaultText<'_> {
    ghost use Rattle.station_tour.specs.Texts.{station_fault_text};

    ghost output = { λ told. station_fault_text told.0.now };

    fn fmt<W: fmt::Write>(&self, f: &mut fmt::Formatter<W>) -> fmt::Result {
        match self.0 {
            StationFault::CommandLine(fault) => write!(f, "{fault}"),
            StationFault::Shape => f.write_str("the shape is out of range"),
            StationFault::TurnLimit => f.write_str("turn limit"),
            StationFault::Renewal(fault) => write!(f, "{}", station_parts::FaultText(fault)),
            StationFault::Journal(fault) => write!(f, "journal: {fault}"),
            StationFault::Io(fault) => write!(f, "{fault}"),
            StationFault::OutOfMemory => f.write_str("out of memory"),
        }
    }
}

impl StationFault {
    ghost use Rattle.std.specs.Prelude.{◌≡◌};
    ghost use Rattle.station_tour.specs.Faults.{status_of, is_help};

    /// Whether it is no fault, but help or the version, which were asked for.
    pub(crate) fn is_help(&self) -> bool
        ensures { result ≡ is_help self.now }
    {
        match self {
            StationFault::CommandLine(asked) => matches!(
                asked.kind(),
                ErrorKind::DisplayHelp | ErrorKind::DisplayVersion
            ),
            _ => false,
        }
    }

    /// The status with which the program ends.
    pub(crate) fn status(&self) -> u8
        ensures { result ≡ status_of self.now }
    {
        match self {
            StationFault::Renewal(RenewFault::NotClean(_)) => 1,
            StationFault::CommandLine(_) => 2,
            StationFault::Shape => 3,
            StationFault::Journal(_) | StationFault::Io(_) => 4,
            StationFault::TurnLimit | StationFault::Renewal(_) | StationFault::OutOfMemory => 5,
        }
    }
}

impl From<AllocError> for StationFault {
    ghost use Rattle.std.specs.Prelude.{◌≡◌};
    ghost use Rattle.station_tour.specs.declared.fault.StationFault.TheVariants.{OutOfMemory};

    ghost from_gives = { λ e f. f ≡ OutOfMemory };

    fn from(_fault: AllocError) -> StationFault {
        StationFault::OutOfMemory
    }
}

impl From<clap::Error> for StationFault {
    ghost use Rattle.std.specs.Prelude.{◌≡◌};
    ghost use Rattle.station_tour.specs.declared.fault.StationFault.TheVariants.{CommandLine};

    ghost from_gives = { λ e f. f ≡ CommandLine e };

    fn from(told: clap::Error) -> StationFault {
        StationFault::CommandLine(told)
    }
}

impl From<io::Error> for StationFault {
    ghost use Rattle.std.specs.Prelude.{◌≡◌};
    ghost use Rattle.station_tour.specs.declared.fault.StationFault.TheVariants.{Io};

    ghost from_gives = { λ e f. f ≡ Io e };

    fn from(stream: io::Error) -> StationFault {
        StationFault::Io(stream)
    }
}

impl From<MakeFault> for StationFault {
    ghost use Rattle.std.specs.Prelude.{◌≡◌};
    ghost use Rattle.station_tour.specs.Faults.{fault_of_making};

    ghost from_gives = { λ e f. f ≡ fault_of_making e };

    fn from(fault: MakeFault) -> StationFault {
        match fault {
            MakeFault::BadShape(_) => StationFault::Shape,
            MakeFault::OutOfMemory => StationFault::OutOfMemory,
        }
    }
}

impl From<RunFault> for StationFault {
    ghost use Rattle.std.specs.Prelude.{◌≡◌};
    ghost use Rattle.station_tour.specs.Faults.{fault_of_run};

    ghost from_gives = { λ e f. f ≡ fault_of_run e };

    fn from(fault: RunFault) -> StationFault {
        match fault {
            RunFault::TurnLimit => StationFault::TurnLimit,
            RunFault::OutOfMemory => StationFault::OutOfMemory,
        }
    }
}

impl From<SegmentFault> for StationFault {
    ghost use Rattle.std.specs.Prelude.{◌≡◌};
    ghost use Rattle.station_tour.specs.Faults.{fault_of_segment};

    ghost from_gives = { λ e f. f ≡ fault_of_segment e };

    fn from(fault: SegmentFault) -> StationFault {
        match fault {
            SegmentFault::Run(fault) => StationFault::from(fault),
            SegmentFault::Renewal(RenewFault::OutOfMemory) => StationFault::OutOfMemory,
            SegmentFault::Renewal(fault) => StationFault::Renewal(fault),
        }
    }
}
