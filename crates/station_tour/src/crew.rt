//! How many threads a run has.
ghost use Rattle.std.specs.Prelude.{◌≡◌, ◌+◌, ◌-◌, ◌<◌, ◌≤◌, max};

use ring_station::Crew;
use std::thread::{Threads, available_parallelism};

/// One for the cache side and the banks, one for all ports.
pub(crate) const FEWEST_THREADS: u32 = 2;

/// The crew of so many threads: one for each part if there are enough; else the cache side serves
/// the banks, and the others the ports. Own threads would serve banks no faster: words would travel
/// between processors.
pub(crate) fn crew_of(threads: u32, ports: u32, banks: u32) -> Crew
    ensures each { ports + banks < threads → (result.port_threads ≡ ports) × (result.bank_threads ≡ banks) }
    ensures shared { threads ≤ ports + banks
        → (result.port_threads ≡ max 1 (threads - 1)) × (result.bank_threads ≡ 0) }
{
    if u64::from(ports) + u64::from(banks) < u64::from(threads) {
        Crew {
            port_threads: ports as usize,
            bank_threads: banks as usize,
        }
    } else {
        Crew {
            port_threads: threads.saturating_sub(1).max(1) as usize,
            bank_threads: 0,
        }
    }
}

/// As many threads as processors: more would take turns.
pub(crate) fn threads_here<R: Threads>(rt: &R) -> u32 {
    match available_parallelism(rt) {
        Ok(count) => u32::try_from(count.get()).unwrap_or(u32::MAX),
        Err(_unknown) => FEWEST_THREADS,
    }
}
