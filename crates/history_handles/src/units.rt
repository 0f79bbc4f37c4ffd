//! Undecided units, and forgetting them.
ghost use Rattle.std.specs.Prelude.{◌≡◌, None, Option};
ghost use Rattle.history_sessions.specs.Session.{Session};
ghost use Rattle.history_handles.specs.Behind.{behind, IsBehind};
ghost use Rattle.history_handles.specs.Coverage.{coverage_behind};
ghost use Rattle.history_handles.specs.Calls.{IsForgetStatus, forgotten_by, IsAddressTold};

use crate::handle::HistoryHandle;
use crate::status::{ABSENT, CLOSED, DONE, NO_UNITS, OUT_OF_MEMORY};
use history_sessions::ForgetFault;
use std::alloc::Global;

/// Forgets the atomic law's unit at an address: loads may then return anything from its bytes.
/// Other units are judged on.
///
/// 0: done. 100: closed. 101: too little memory. 108: the law has no units. After each but 0 the
/// history is as it was.
pub fn forget(alloc: Global, handle: &mut HistoryHandle, address: u64) -> u32
    ensures status { (b : Option Session) → IsBehind handle.old b → IsForgetStatus result b }
    ensures history { (b : Option Session)
        → IsBehind handle.old b
        → IsBehind handle.new (forgotten_by result b address) }
    ensures coverage { coverage_behind handle.new ≡ coverage_behind handle.old }
{
    let Some(mut history) = handle.take(alloc) else {
        return CLOSED;
    };
    let told = history.as_mut().session.forget(address);
    handle.keep(history);
    match told {
        Ok(()) => DONE,
        Err(ForgetFault::NoUnits) => NO_UNITS,
        Err(ForgetFault::OutOfMemory) => OUT_OF_MEMORY,
    }
}

/// Where the unit begins that left an answer undecided, until an event is taken or a unit
/// forgotten.
///
/// 0: told. 1: none. 100: closed. Only 0 writes `address`.
pub fn undecided(alloc: Global, handle: &mut HistoryHandle, address: &mut u64) -> u32
    ensures address { (b : Option Session)
        → IsBehind handle.old b
        → IsAddressTold result address.old address.new b }
    ensures same { behind handle.new ≡ behind handle.old }
{
    let Some(history) = handle.take(alloc) else {
        return CLOSED;
    };
    let found = history.as_ref().session.undecided();
    handle.keep(history);
    match found {
        Some(first) => {
            *address = first;
            DONE
        }
        None => ABSENT,
    }
}
