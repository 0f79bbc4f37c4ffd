//! Events of a history behind a handle.
ghost use Rattle.std.specs.Prelude.{Option};
ghost use Rattle.memory_histories.specs.declared.events.HistoryEvent.TheVariants.{LoadRequest, LoadResponse, StoreRequest, StoreResponse};
ghost use Rattle.history_sessions.specs.Session.{Session};
ghost use Rattle.history_handles.specs.Behind.{IsBehind};
ghost use Rattle.history_handles.specs.Calls.{IsEventTold};
ghost use Rattle.history_handles.specs.Coverage.{IsEventCounted};

use crate::handle::HistoryHandle;
use crate::status::{CLOSED, DONE, judge_number};
use memory_histories::HistoryEvent;
use std::alloc::Global;

/// A load of `length` bytes from `address` on is requested under this number; bit `k` of `enables`
/// enables byte `k`, and what is answered of the others isn't judged.
///
/// 0: taken. 100: closed. 151: 0 bytes, more than 64, or beyond the last address. 152: no byte is
/// enabled. 153: the number has an open load. 101: too little memory. 104: 2^64 - 1 events were taken; never by the atomic law.
/// After each but 0 nothing has changed.
pub fn load_request(
    alloc: Global,
    handle: &mut HistoryHandle,
    number: u64,
    address: u64,
    length: usize,
    enables: u64,
) -> u32
    ensures told { (b : Option Session)
        → IsBehind handle.old b
        → IsEventTold result handle.old handle.new b (LoadRequest number address length enables) }
    ensures coverage { (b : Option Session)
        → IsBehind handle.old b
        → IsEventCounted result handle.old handle.new b (LoadRequest number address length enables) }
{
    let event = HistoryEvent::LoadRequest {
        number,
        address,
        length,
        enables,
    };
    tell(alloc, handle, event)
}

/// The load open under this number is answered with these bytes.
///
/// 0: taken. 154: no such load. 155: another length was requested. 156: it may not return one of
/// the bytes. 105, by the atomic law alone: too many ways to follow at a unit, or more than 65,536
/// words are kept of it; [`undecided`](crate::undecided) tells which. Others, and what they leave:
/// as of [`load_request`].
pub fn load_response(alloc: Global, handle: &mut HistoryHandle, number: u64, bytes: &[u8]) -> u32
    ensures told { (b : Option Session)
        → IsBehind handle.old b
        → IsEventTold result handle.old handle.new b (LoadResponse number bytes.entry) }
    ensures coverage { (b : Option Session)
        → IsBehind handle.old b
        → IsEventCounted result handle.old handle.new b (LoadResponse number bytes.entry) }
{
    tell(alloc, handle, HistoryEvent::LoadResponse { number, bytes })
}

/// A store of these bytes from `address` on is requested; bit `k` of `enables` enables byte `k`.
///
/// As of [`load_request`], with stores.
pub fn store_request(
    alloc: Global,
    handle: &mut HistoryHandle,
    number: u64,
    address: u64,
    bytes: &[u8],
    enables: u64,
) -> u32
    ensures told { (b : Option Session)
        → IsBehind handle.old b
        → IsEventTold result handle.old handle.new b (StoreRequest number address bytes.entry enables) }
    ensures coverage { (b : Option Session)
        → IsBehind handle.old b
        → IsEventCounted result handle.old handle.new b (StoreRequest number address bytes.entry enables) }
{
    tell(
        alloc,
        handle,
        HistoryEvent::StoreRequest {
            number,
            address,
            bytes,
            enables,
        },
    )
}

/// The store open under this number is answered.
///
/// 0: taken. 154: no such store. Others as of [`load_response`].
pub fn store_response(alloc: Global, handle: &mut HistoryHandle, number: u64) -> u32
    ensures told { (b : Option Session)
        → IsBehind handle.old b
        → IsEventTold result handle.old handle.new b (StoreResponse number) }
    ensures coverage { (b : Option Session)
        → IsBehind handle.old b
        → IsEventCounted result handle.old handle.new b (StoreResponse number) }
{
    tell(alloc, handle, HistoryEvent::StoreResponse { number })
}

// Compiled into each caller, which knows the event's kind: the event is never written to memory.
#[inline(always)]
#[tactic(auto, using(crate::proofs::Telling::is_taken, crate::proofs::Telling::is_not_taken))]
fn tell(alloc: Global, handle: &mut HistoryHandle, event: HistoryEvent) -> u32
    ensures told { (b : Option Session)
        → IsBehind handle.old b
        → IsEventTold result handle.old handle.new b event.entry }
    ensures coverage { (b : Option Session)
        → IsBehind handle.old b
        → IsEventCounted result handle.old handle.new b event.entry }
{
    let Some(mut history) = handle.take(alloc) else {
        return CLOSED;
    };
    let told = history.as_mut().session.step(event);
    handle.keep(history);
    match told {
        Ok(()) => DONE,
        Err(fault) => judge_number(fault),
    }
}
