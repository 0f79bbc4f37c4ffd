//! What is counted of the history behind a handle.
ghost use Rattle.std.specs.Prelude.{◌≡◌, Option};
ghost use Rattle.history_sessions.specs.Session.{Session};
ghost use Rattle.history_handles.specs.Behind.{behind, IsBehind};
ghost use Rattle.history_handles.specs.Coverage.{coverage_behind, told_begun, begun_in, AreCountsTold};

use crate::handle::HistoryHandle;
use crate::rows::{HistoryCounts, counts_row};
use crate::status::{ABSENT, CLOSED, DONE};
use std::alloc::Global;

/// Counts each answer of what is requested from here on; if it counted already, anew. From then on
/// a load's answer takes longer: each of its bytes is asked about as by
/// [`may_return`](crate::may_return).
///
/// 0: done. 100: closed.
pub fn cover(alloc: Global, handle: &mut HistoryHandle) -> u32
    ensures status { result ≡ told_begun (behind handle.old) }
    ensures history { (b : Option Session) → IsBehind handle.old b → IsBehind handle.new b }
    ensures coverage { coverage_behind handle.new ≡ begun_in (behind handle.old) }
{
    let Some(mut history) = handle.take(alloc) else {
        return CLOSED;
    };
    history.as_mut().session.cover(alloc);
    handle.keep(history);
    DONE
}

/// What was counted since [`cover`].
///
/// 0: told. 1: nothing is counted. 100: closed. Only 0 writes `counts`.
pub fn coverage(alloc: Global, handle: &mut HistoryHandle, counts: &mut HistoryCounts) -> u32
    ensures counts { AreCountsTold result counts.old counts.new (behind handle.old) }
    ensures same { behind handle.new ≡ behind handle.old }
{
    let Some(history) = handle.take(alloc) else {
        return CLOSED;
    };
    let found = history.as_ref().session.coverage();
    handle.keep(history);
    match found {
        Some(told) => {
            *counts = counts_row(told);
            DONE
        }
        None => ABSENT,
    }
}
