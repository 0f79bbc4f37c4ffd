//! The history behind a handle: it is opened, told the events of a memory, asked, and given up.
ghost use Rattle.std.specs.Prelude.{◌≡◌, ◌≢◌, None, Option};
ghost use Rattle.memory_histories.specs.declared.events.HistoryEvent.TheVariants.{LoadRequest, LoadResponse, StoreRequest, StoreResponse};
ghost use Rattle.history_handles.specs.Behind.{behind, IsBehind, Session};
ghost use Rattle.history_handles.specs.Opening.{chosen, open_fault, IsTold, IsOpened, told_status};
ghost use Rattle.history_handles.specs.Why.{IsWhyTold};
ghost use Rattle.history_handles.specs.Calls.{IsEventTold, IsSetTold, IsForgetStatus, forgotten_by, IsAddressTold, IsCounted};
ghost use Rattle.history_handles.specs.Calls.{IsOperationTold, operation_asked};
ghost use Rattle.history_handles.specs.Coverage.{IsEventCounted, coverage_behind, told_begun, begun_in, AreCountsTold};

use history_handles::{HistoryCounts, HistoryHandle, OCTETS, Operation, ReasonRow};
use std::alloc::Global;

/// Opens a history without an event behind a closed handle, to be judged by a law over units of so many bytes.
#[unsafe(no_mangle)]
pub extern "C" fn kroft_history_open(
    alloc: Global,
    handle: &mut HistoryHandle,
    law: u32,
    unit: u32,
    rest: u32,
    image: &[u8],
) -> u32
    ensures status { IsTold result (open_fault (behind handle.old) law unit rest) }
    ensures opened { result ≡ 0 → IsOpened (behind handle.new) (chosen law unit rest) image.now }
    ensures uncovered { result ≡ 0 → coverage_behind handle.new ≡ None }
    ensures unchanged { result ≢ 0 → behind handle.new ≡ behind handle.old }
{
    history_handles::open_history(alloc, handle, law, unit, rest, image)
}

/// Gives the history up, with all its memory.
#[unsafe(no_mangle)]
pub extern "C" fn kroft_history_close(alloc: Global, handle: &mut HistoryHandle) -> u32
    ensures status { result ≡ told_status (behind handle.old) }
    ensures closed { behind handle.new ≡ None }
{
    history_handles::free_history(alloc, handle)
}

/// A load is requested under this number, of the enabled ones of `length` bytes from `address` on.
#[unsafe(no_mangle)]
pub extern "C" fn kroft_history_load_request(
    alloc: Global,
    handle: &mut HistoryHandle,
    number: u64,
    address: u64,
    length: usize,
    enables: u64,
) -> u32
    ensures told { (b : Option Session)
        → IsBehind handle.old b
        → IsEventTold result handle.old handle.new b (LoadRequest number address length enables) }
    ensures coverage { (b : Option Session)
        → IsBehind handle.old b
        → IsEventCounted result handle.old handle.new b (LoadRequest number address length enables) }
{
    history_handles::load_request(alloc, handle, number, address, length, enables)
}

/// The load that is open under this number is answered with these bytes.
#[unsafe(no_mangle)]
pub extern "C" fn kroft_history_load_response(
    alloc: Global,
    handle: &mut HistoryHandle,
    number: u64,
    bytes: &[u8],
) -> u32
    ensures told { (b : Option Session)
        → IsBehind handle.old b
        → IsEventTold result handle.old handle.new b (LoadResponse number bytes.entry) }
    ensures coverage { (b : Option Session)
        → IsBehind handle.old b
        → IsEventCounted result handle.old handle.new b (LoadResponse number bytes.entry) }
{
    history_handles::load_response(alloc, handle, number, bytes)
}

/// A store is requested under this number, of the enabled ones of these bytes from `address` on.
#[unsafe(no_mangle)]
pub extern "C" fn kroft_history_store_request(
    alloc: Global,
    handle: &mut HistoryHandle,
    number: u64,
    address: u64,
    bytes: &[u8],
    enables: u64,
) -> u32
    ensures told { (b : Option Session)
        → IsBehind handle.old b
        → IsEventTold result handle.old handle.new b (StoreRequest number address bytes.entry enables) }
    ensures coverage { (b : Option Session)
        → IsBehind handle.old b
        → IsEventCounted result handle.old handle.new b (StoreRequest number address bytes.entry enables) }
{
    history_handles::store_request(alloc, handle, number, address, bytes, enables)
}

/// The store that is open under this number is answered.
#[unsafe(no_mangle)]
pub extern "C" fn kroft_history_store_response(
    alloc: Global,
    handle: &mut HistoryHandle,
    number: u64,
) -> u32
    ensures told { (b : Option Session)
        → IsBehind handle.old b
        → IsEventTold result handle.old handle.new b (StoreResponse number) }
    ensures coverage { (b : Option Session)
        → IsBehind handle.old b
        → IsEventCounted result handle.old handle.new b (StoreResponse number) }
{
    history_handles::store_response(alloc, handle, number)
}

/// What an open load may return for the byte at an address, if it is answered now: a set of 256 bits.
#[unsafe(no_mangle)]
pub extern "C" fn kroft_history_may_return(
    alloc: Global,
    handle: &mut HistoryHandle,
    number: u64,
    address: u64,
    set: &mut [u8; OCTETS],
) -> u32
    ensures set { (b : Option Session)
        → IsBehind handle.old b
        → IsSetTold result handle.old set.old set.new b number address }
    ensures same { behind handle.new ≡ behind handle.old }
{
    history_handles::may_return(alloc, handle, number, address, set)
}

/// What [`kroft_history_load_response`] would say of these bytes, the first wrong one, and why: who stored it last, and who overwrote that.
#[unsafe(no_mangle)]
pub extern "C" fn kroft_history_why(
    alloc: Global,
    handle: &mut HistoryHandle,
    number: u64,
    bytes: &[u8],
    row: &mut ReasonRow,
) -> u32
    ensures why { (b : Option Session)
        → IsBehind handle.old b
        → IsWhyTold result handle.old row.old row.new b number bytes.now (LoadResponse number bytes.entry) }
    ensures same { behind handle.new ≡ behind handle.old }
{
    history_handles::why(alloc, handle, number, bytes, row)
}

/// Forgets the unit of an address, of a history by the atomic law: its bytes are unknown from there on.
#[unsafe(no_mangle)]
pub extern "C" fn kroft_history_forget(
    alloc: Global,
    handle: &mut HistoryHandle,
    address: u64,
) -> u32
    ensures status { (b : Option Session) → IsBehind handle.old b → IsForgetStatus result b }
    ensures history { (b : Option Session)
        → IsBehind handle.old b
        → IsBehind handle.new (forgotten_by result b address) }
    ensures coverage { coverage_behind handle.new ≡ coverage_behind handle.old }
{
    history_handles::forget(alloc, handle, address)
}

/// Where the unit begins that left an answer undecided.
#[unsafe(no_mangle)]
pub extern "C" fn kroft_history_undecided(
    alloc: Global,
    handle: &mut HistoryHandle,
    address: &mut u64,
) -> u32
    ensures address { (b : Option Session)
        → IsBehind handle.old b
        → IsAddressTold result address.old address.new b }
    ensures same { behind handle.new ≡ behind handle.old }
{
    history_handles::undecided(alloc, handle, address)
}

/// The open load or store at place `n`, in the order of the requests, and how many there are.
#[unsafe(no_mangle)]
pub extern "C" fn kroft_history_unanswered(
    alloc: Global,
    handle: &mut HistoryHandle,
    kind: u32,
    n: u64,
    operation: &mut Operation,
    count: &mut u64,
) -> u32
    ensures operation { (b : Option Session)
        → IsBehind handle.old b
        → IsOperationTold result operation.old operation.new (operation_asked b kind n) }
    ensures count { (b : Option Session)
        → IsBehind handle.old b
        → IsCounted b kind count.old count.new }
    ensures same { behind handle.new ≡ behind handle.old }
{
    history_handles::unanswered(alloc, handle, kind, n, operation, count)
}

/// Counts each answer of what is requested from here on.
#[unsafe(no_mangle)]
pub extern "C" fn kroft_history_cover(alloc: Global, handle: &mut HistoryHandle) -> u32
    ensures status { result ≡ told_begun (behind handle.old) }
    ensures history { (b : Option Session) → IsBehind handle.old b → IsBehind handle.new b }
    ensures coverage { coverage_behind handle.new ≡ begun_in (behind handle.old) }
{
    history_handles::cover(alloc, handle)
}

/// What was counted since then.
#[unsafe(no_mangle)]
pub extern "C" fn kroft_history_coverage(
    alloc: Global,
    handle: &mut HistoryHandle,
    counts: &mut HistoryCounts,
) -> u32
    ensures counts { AreCountsTold result counts.old counts.new (behind handle.old) }
    ensures same { behind handle.new ≡ behind handle.old }
{
    history_handles::coverage(alloc, handle, counts)
}
