//! Why a run gives no lists.

use station_parts::RenewFault;
use std::alloc::AllocError;
use std::fmt;
use thiserror::Error;

/// The station stands where its steps left it, and may be audited.
#[derive(Clone, Copy, PartialEq, Eq, Debug, Error)]
#[error("{}", FaultText(self))]
pub enum RunFault {
    /// Turns used up, a full journal, or an audit that isn't `Clean`, as [`Run::stop`](crate::Run::stop)
    /// tells.
    TurnLimit,
    /// Goes before `TurnLimit`.
    OutOfMemory,
}

/// A fault's text.
#[derive(Drop)]
pub struct FaultText<'a, F>(pub &'a F);

/// `turn limit` or `out of memory`.
impl fmt::Display for FaultText<'_, RunFault> {
    ghost use Rattle.std.specs.Prelude.{Some};
    ghost use Rattle.ring_station.specs.Faults.{run_fault_text};

    ghost output = { λ told. Some (run_fault_text told.0.now) };

    fn fmt<W: fmt::Write>(&self, f: &mut fmt::Formatter<W>) -> fmt::Result {
        f.write_str(match self.0 {
            RunFault::TurnLimit => "turn limit",
            RunFault::OutOfMemory => "out of memory",
        })
    }
}

impl From<AllocError> for RunFault {
    ghost use Rattle.std.specs.Prelude.{◌≡◌};
    ghost use Rattle.ring_station.specs.declared.fault.RunFault.TheVariants.{OutOfMemory};

    ghost from_gives = { λ e f. f ≡ OutOfMemory };

    fn from(_fault: AllocError) -> RunFault {
        RunFault::OutOfMemory
    }
}

/// Why a run gave no journal.
#[derive(Clone, Copy, PartialEq, Eq, Debug, Error)]
#[error("{}", FaultText(self))]
pub enum SegmentFault {
    /// The run came to no end.
    Run(RunFault),
    /// It ended, and the station wasn't renewed.
    Renewal(RenewFault),
}

impl fmt::Display for FaultText<'_, SegmentFault> {
    ghost use Rattle.std.specs.Prelude.{Some};
    ghost use Rattle.ring_station.specs.Faults.{segment_fault_text};

    ghost output = { λ told. Some (segment_fault_text told.0.now) };

    fn fmt<W: fmt::Write>(&self, f: &mut fmt::Formatter<W>) -> fmt::Result {
        match self.0 {
            SegmentFault::Run(fault) => write!(f, "{}", FaultText(fault)),
            SegmentFault::Renewal(fault) => write!(f, "{}", station_parts::FaultText(fault)),
        }
    }
}

impl From<AllocError> for SegmentFault {
    ghost use Rattle.std.specs.Prelude.{◌≡◌};
    ghost use Rattle.ring_station.specs.declared.fault.RunFault.TheVariants.{OutOfMemory};
    ghost use Rattle.ring_station.specs.declared.fault.SegmentFault.TheVariants.{Run};

    ghost from_gives = { λ e f. f ≡ Run OutOfMemory };

    fn from(_fault: AllocError) -> SegmentFault {
        SegmentFault::Run(RunFault::OutOfMemory)
    }
}

impl From<RenewFault> for SegmentFault {
    ghost use Rattle.std.specs.Prelude.{◌≡◌};
    ghost use Rattle.ring_station.specs.declared.fault.SegmentFault.TheVariants.{Renewal};

    ghost from_gives = { λ e f. f ≡ Renewal e };

    fn from(fault: RenewFault) -> SegmentFault {
        SegmentFault::Renewal(fault)
    }
}
