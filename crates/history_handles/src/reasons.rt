//! Why a load's answer is wrong.
ghost use Rattle.std.specs.Prelude.{◌≡◌, Option};
ghost use Rattle.memory_histories.specs.declared.events.HistoryEvent.TheVariants.{LoadResponse};
ghost use Rattle.history_sessions.specs.Session.{Session};
ghost use Rattle.history_handles.specs.Behind.{behind, IsBehind};
ghost use Rattle.history_handles.specs.Why.{IsWhyTold, IsRowTold, place_of, reason_row, byte_row};

use crate::handle::HistoryHandle;
use crate::rows::ReasonRow;
use crate::status::{CLOSED, DONE, WRONG_BYTE, judge_number};
use history_reasons::{FoundReason, Reason};
use history_sessions::JudgeFault;
use memory_histories::{HistoryEvent, HistoryFault};
use std::alloc::Global;

const NO_REASON: u32 = 160;

const NEVER_THERE: u32 = 161;

const FIRST_OVERWRITTEN: u32 = 162;

const STORE_OVERWRITTEN: u32 = 163;

const NOT_TOGETHER: u32 = 164;

/// What [`load_response`](crate::load_response) would say of these bytes, were there room. 156:
/// `row` has the first wrong byte, by the atomic law in the lowest wrong unit, and why. Told is the
/// first byte from there on, in its unit, that the regular law explains. With it come its last
/// store and the last one to overwrite that before the load, by the order of requests.
///
/// Other numbers: as there, but 101 by the atomic law alone, and `row` stays.
///
/// The regular and the flat law have a byte as unit. Below 8,192 stored bytes no byte has a reason
/// exactly if the regular law allows all of the unit. Then `row` has the first wrong place, and 164
/// by the atomic law, 160 by the flat. Later the last 4,096 to 8,191 are kept: 163 or 160.
#[tactic(auto, using(crate::proofs::Whys::is_why))]
pub fn why(
    alloc: Global,
    handle: &mut HistoryHandle,
    number: u64,
    bytes: &[u8],
    row: &mut ReasonRow,
) -> u32
    ensures why { (b : Option Session)
        → IsBehind handle.old b
        → IsWhyTold result handle.old row.old row.new b number bytes.now (LoadResponse number bytes.entry) }
    ensures same { behind handle.new ≡ behind handle.old }
{
    let Some(history) = handle.take(alloc) else {
        return CLOSED;
    };
    let found = history
        .as_ref()
        .session
        .fault(HistoryEvent::LoadResponse { number, bytes });
    let reason = history
        .as_ref()
        .session
        .reason(number, bytes, place_of(found));
    let together = history.as_ref().session.is_together();
    handle.keep(history);
    told_row(found, together, reason, row)
}

fn place_of(found: Option<JudgeFault>) -> usize
    ensures { result ≡ place_of found }
{
    match found {
        Some(JudgeFault::Refused(HistoryFault::WrongByte { place })) => place,
        _ => 0,
    }
}

fn told_row(
    found: Option<JudgeFault>,
    together: bool,
    reason: Option<FoundReason>,
    row: &mut ReasonRow,
) -> u32
    ensures { IsRowTold result row.old row.new together reason found }
{
    match found {
        None => DONE,
        Some(JudgeFault::Refused(HistoryFault::WrongByte { place })) => {
            *row = reason_row(place as u64, together, reason);
            WRONG_BYTE
        }
        Some(fault) => judge_number(fault),
    }
}

fn reason_row(place: u64, together: bool, reason: Option<FoundReason>) -> ReasonRow
    ensures { result ≡ reason_row place together reason }
{
    match reason {
        Some(found) => byte_row(place, found.place as u64, found.reason),
        None => ReasonRow {
            wrong_place: place,
            place,
            stored: 0,
            stored_at: 0,
            overwritten_by: 0,
            overwritten_at: 0,
            reason: if together { NOT_TOGETHER } else { NO_REASON },
        },
    }
}

fn byte_row(wrong_place: u64, place: u64, reason: Reason) -> ReasonRow
    ensures { result ≡ byte_row wrong_place place reason }
{
    let mut row = ReasonRow {
        wrong_place,
        place,
        stored: 0,
        stored_at: 0,
        overwritten_by: 0,
        overwritten_at: 0,
        reason: NEVER_THERE,
    };
    match reason {
        Reason::NeverThere => {}
        Reason::InitialOverwritten { by } => {
            row.overwritten_by = by.number;
            row.overwritten_at = by.began;
            row.reason = FIRST_OVERWRITTEN;
        }
        Reason::StoreOverwritten { stored, by } => {
            row.stored = stored.number;
            row.stored_at = stored.began;
            row.overwritten_by = by.number;
            row.overwritten_at = by.began;
            row.reason = STORE_OVERWRITTEN;
        }
    }
    row
}
