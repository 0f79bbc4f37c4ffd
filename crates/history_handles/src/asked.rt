//! What a history behind a handle is asked.
ghost use Rattle.std.specs.Prelude.{◌≡◌, Option, Some, length, slice_get};
ghost use Rattle.history_sessions.specs.Kept.{IsKept};
ghost use Rattle.history_sessions.specs.Session.{Session};
ghost use Rattle.history_handles.specs.Behind.{behind, IsBehind};
ghost use Rattle.history_handles.specs.Calls.{IsSetTold, IsRowTold, IsCounted, IsOperationTold, open_of, operation_asked};

use crate::handle::HistoryHandle;
use crate::rows::{OCTETS, Operation, row_of, write_set};
use crate::status::{ABSENT, CLOSED, DONE, NO_ROOM, judge_number};
use history_reasons::OpenOperation;
use history_sessions::{HistorySession, JudgeFault};
use memory_histories::ByteSet;
use std::alloc::Global;

const LOADS: u32 = 0;

const STORES: u32 = 1;

/// What an open load may return for one byte alone, if answered now: bit `k` of `set[n]` is byte
/// `8n + k`.
///
/// 0: `set` has it. 1: no such load asks for that byte. 109: `set` hasn't 32 bytes. 100: closed.
/// 105, 101: by the atomic law, as of [`load_response`](crate::load_response). Only 0 writes `set`.
#[tactic(auto, using(crate::proofs::Telling::is_set))]
pub fn may_return(
    alloc: Global,
    handle: &mut HistoryHandle,
    number: u64,
    address: u64,
    set: &mut [u8],
) -> u32
    ensures set { (b : Option Session)
        → IsBehind handle.old b
        → IsSetTold result handle.old set.old set.new b number address }
    ensures same { behind handle.new ≡ behind handle.old }
{
    let Some(history) = handle.take(alloc) else {
        return CLOSED;
    };
    let found = history.as_ref().session.may_return(number, address);
    handle.keep(history);
    if set.len() != OCTETS {
        return NO_ROOM;
    }
    told_set(found, set)
}

fn told_set(found: Result<Option<ByteSet>, JudgeFault>, set: &mut [u8]) -> u32
    requires { length set.old ≡ OCTETS }
    ensures { IsRowTold result set.old set.new found }
{
    match found {
        Ok(Some(bytes)) => {
            write_set(bytes, set);
            DONE
        }
        Ok(None) => ABSENT,
        Err(fault) => judge_number(fault),
    }
}

/// The open load, or store, at place `n` in the order of requests, and how many there are. `kind` 0
/// asks for loads, 1 for stores.
///
/// 0: told. 1: there is none at `n`: `operation` stays. 100: closed, nothing is written.
pub fn unanswered(
    alloc: Global,
    handle: &mut HistoryHandle,
    kind: u32,
    n: u64,
    operation: &mut Operation,
    count: &mut u64,
) -> u32
    ensures operation { (b : Option Session)
        → IsBehind handle.old b
        → IsOperationTold result operation.old operation.new (operation_asked b kind n) }
    ensures count { (b : Option Session)
        → IsBehind handle.old b
        → IsCounted b kind count.old count.new }
    ensures same { behind handle.new ≡ behind handle.old }
{
    let Some(history) = handle.take(alloc) else {
        return CLOSED;
    };
    let found = row_of(open_at(&history.as_ref().session, kind, n as usize));
    *count = open_count(&history.as_ref().session, kind) as u64;
    handle.keep(history);
    told(found, operation)
}

fn open_at(session: &HistorySession, kind: u32, n: usize) -> Option<OpenOperation>
    ensures { (s : Session) → IsKept session.now s → result ≡ slice_get (open_of s kind) n }
{
    match kind {
        LOADS => session.open_load(n),
        STORES => session.open_store(n),
        _ => None,
    }
}

fn open_count(session: &HistorySession, kind: u32) -> usize
    ensures { (s : Session) → IsKept session.now s → result ≡ length (open_of s kind) }
{
    match kind {
        LOADS => session.open_load_count(),
        STORES => session.open_store_count(),
        _ => 0,
    }
}

fn told(found: Option<Operation>, operation: &mut Operation) -> u32
    ensures { IsOperationTold result operation.old operation.new (Some found) }
{
    match found {
        Some(open) => {
            *operation = open;
            DONE
        }
        None => ABSENT,
    }
}
