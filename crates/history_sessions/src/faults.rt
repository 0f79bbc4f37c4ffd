//! Why a judge takes no event, or forgets nothing.
use atomic_histories::AtomicFault;
use memory_histories::{HistoryFault, StepFault};
use std::alloc::AllocError;

/// The faults of all laws.
#[derive(Clone, Copy, PartialEq, Eq, Debug)]
pub enum JudgeFault {
    /// The law forbids it.
    Refused(HistoryFault),
    /// No verdict, by the atomic law alone: the unit at `address` has too many ways to follow, or
    /// more than 65,536 kept words.
    Undecided { address: u64 },
    /// 2^64 - 1 events were taken; never by the atomic law.
    TooLong,
    /// Too little memory.
    OutOfMemory,
}

impl From<StepFault> for JudgeFault {
    ghost use Rattle.std.specs.Prelude.{◌≡◌};
    ghost use Rattle.history_sessions.specs.Faults.{of_step};

    ghost from_gives = { λ e f. f ≡ of_step e };

    fn from(fault: StepFault) -> JudgeFault {
        match fault {
            StepFault::Refused(cause) => JudgeFault::Refused(cause),
            StepFault::TooLong => JudgeFault::TooLong,
            StepFault::OutOfMemory => JudgeFault::OutOfMemory,
        }
    }
}

impl From<AtomicFault> for JudgeFault {
    ghost use Rattle.std.specs.Prelude.{◌≡◌};
    ghost use Rattle.history_sessions.specs.Faults.{of_atomic};

    ghost from_gives = { λ e f. f ≡ of_atomic e };

    fn from(fault: AtomicFault) -> JudgeFault {
        match fault {
            AtomicFault::Refused(cause) => JudgeFault::Refused(cause),
            AtomicFault::Undecided { address } => JudgeFault::Undecided { address },
            AtomicFault::OutOfMemory => JudgeFault::OutOfMemory,
        }
    }
}

/// Why no unit was forgotten.
#[derive(Clone, Copy)]
pub enum ForgetFault {
    /// The law judges each byte for itself.
    NoUnits,
    /// Too little memory.
    OutOfMemory,
}

impl From<AllocError> for ForgetFault {
    ghost use Rattle.std.specs.Prelude.{◌≡◌};
    ghost use Rattle.history_sessions.specs.declared.faults.ForgetFault.TheVariants.{OutOfMemory};

    ghost from_gives = { λ e f. f ≡ OutOfMemory };

    fn from(_fault: AllocError) -> ForgetFault {
        ForgetFault::OutOfMemory
    }
}
