//! What a run came to.
ghost use Rattle.std.specs.Prelude.{◌≡◌};
ghost use Rattle.std.specs.Option.{option_map};
ghost use Rattle.std.specs.List.{list_all, list_any};
ghost use Rattle.ring_station.specs.Ends.{is_over, lacks_memory, is_full};
ghost use Rattle.ring_station.specs.Run.{fault_of, lacks, are_over, is_whole, stop_of, told_as};

use crate::fault::RunFault;
use crate::thread_end::{ThreadEnd, ThreadFault};
use station_parts::{Audit, Told};

/// What kept a run from its end.
#[derive(Clone, Copy, PartialEq, Eq, Debug)]
pub enum Stop {
    /// A thread found no memory.
    OutOfMemory,
    /// The cache side's journal was full.
    JournalFull,
    /// A thread used up its turns.
    TurnLimit,
    /// All threads ended, and the audit isn't `Clean`. No run has shown it.
    NotClean,
}

/// How each part ended, and what was taken and found.
#[derive(Drop)]
pub struct Run {
    /// By port: what it took, in order.
    pub lists: Vec<Vec<Told>>,
    /// By port.
    pub ports: Vec<ThreadEnd>,
    /// The cache side.
    pub cache: ThreadEnd,
    /// By bank.
    pub banks: Vec<ThreadEnd>,
    /// Behind all threads.
    pub audit: Audit,
}

impl Run {
    /// The fault of `run_threads`; `None` if all ended and the audit is `Clean`.
    pub fn fault(&self) -> Option<RunFault>
        ensures { result ≡ fault_of self.now }
    {
        if self.lacks_memory() {
            Some(RunFault::OutOfMemory)
        } else if self.is_whole() {
            None
        } else {
            Some(RunFault::TurnLimit)
        }
    }

    /// The first of [`Stop`]'s reasons; [`Run::fault`] calls the last three `TurnLimit`.
    pub fn stop(&self) -> Option<Stop>
        ensures stop { result ≡ stop_of self.now }
        ensures fault { option_map told_as result ≡ fault_of self.now }
    {
        if self.lacks_memory() {
            Some(Stop::OutOfMemory)
        } else if self.is_whole() {
            None
        } else if is_full(&self.cache) {
            Some(Stop::JournalFull)
        } else if self.are_over() {
            Some(Stop::NotClean)
        } else {
            Some(Stop::TurnLimit)
        }
    }

    fn lacks_memory(&self) -> bool
        ensures { result ≡ lacks self.now }
    {
        lacks_memory(&self.cache) || do_lack_memory(&self.ports) || do_lack_memory(&self.banks)
    }

    fn is_whole(&self) -> bool
        ensures { result ≡ is_whole self.now }
    {
        self.audit == Audit::Clean && self.are_over()
    }

    fn are_over(&self) -> bool
        ensures { result ≡ are_over self.now }
    {
        is_over(&self.cache) && are_over(&self.ports) && are_over(&self.banks)
    }
}

fn are_over(ends: &[ThreadEnd]) -> bool
    ensures { result ≡ list_all is_over ends.now }
{
    ends.iter().all(|end| is_over(end))
}

fn do_lack_memory(ends: &[ThreadEnd]) -> bool
    ensures { result ≡ list_any lacks_memory ends.now }
{
    ends.iter().any(|end| lacks_memory(end))
}

fn is_over(end: &ThreadEnd) -> bool
    ensures { result ≡ is_over end.now }
{
    end.fault.is_none()
}

fn lacks_memory(end: &ThreadEnd) -> bool
    ensures { result ≡ lacks_memory end.now }
{
    matches!(end.fault, Some(ThreadFault::OutOfMemory))
}

fn is_full(end: &ThreadEnd) -> bool
    ensures { result ≡ is_full end.now.fault }
{
    matches!(end.fault, Some(ThreadFault::JournalFull))
}
