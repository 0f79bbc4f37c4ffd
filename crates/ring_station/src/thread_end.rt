//! How the threads ended.

use thiserror::Error;

/// Why a thread stopped early.
#[derive(Clone, Copy, PartialEq, Eq, Debug, Error)]
pub enum ThreadFault {
    /// It used up its turns.
    #[error("turn limit")]
    TurnLimit,
    /// A port can't note a telling, which stays in the ring.
    #[error("out of memory")]
    OutOfMemory,
    /// The journal had no room for the next step.
    #[error("the journal is full")]
    JournalFull,
}

/// How a part's run ended.
#[derive(Clone, Copy, PartialEq, Eq, Debug)]
pub struct ThreadEnd {
    /// Turns begun, at most those given.
    pub turns: u64,
    /// `None` if it came to its end.
    pub fault: Option<ThreadFault>,
}

impl ThreadEnd {
    ghost use Rattle.std.specs.Prelude.{◌≡◌, Some, None};
    ghost use Rattle.ring_station.specs.Ends.{goes_on, not_begun};

    pub(crate) fn not_begun() -> ThreadEnd
        ensures { result ≡ not_begun }
    {
        ThreadEnd::stopped(0, ThreadFault::TurnLimit)
    }

    pub(crate) fn over(turns: u64) -> ThreadEnd
        ensures { result ≡ record { turns = turns; fault = None } }
    {
        ThreadEnd { turns, fault: None }
    }

    pub(crate) fn stopped(turns: u64, fault: ThreadFault) -> ThreadEnd
        ensures { result ≡ record { turns = turns; fault = Some fault } }
    {
        ThreadEnd {
            turns,
            fault: Some(fault),
        }
    }

    pub(crate) fn goes_on(&self) -> bool
        ensures { result ≡ goes_on self.now.fault }
    {
        matches!(self.fault, Some(ThreadFault::TurnLimit))
    }
}
