//! Why a line of a history isn't taken.

ghost use Rattle.std.specs.Prelude.{◌≡◌, IfOk};
ghost use Rattle.history_sessions.specs.Words.{operation_under};
ghost use Rattle.history_sessions.specs.declared.faults.JudgeFault.TheVariants as judge;
ghost use Rattle.history_sessions.specs.Kept.{IsFaultOf};
ghost use Rattle.history_sessions.specs.Session.{Session};
ghost use Rattle.history_text.specs.Lines.{seen};
ghost use Rattle.history_text.specs.Notes.{byte_address as address_at};
ghost use Rattle.history_text.specs.Refusals.{kind_of as kind_seen, number_of as number_seen, request_cause as cause_of_request};
ghost use Rattle.history_text.specs.Refusals.{Stands, IsAnswerCause, IsResponseCause, IsCause, IsRefusal};

use crate::answers::{OperationKind, Refusal, RefusalCause};
use crate::events::OwnedEvent;
use crate::notes::wrong_byte;
use history_sessions::{HistoryFault, HistorySession, OpenOperation};
use std::alloc::{AllocError, Global};
use trace_text::TraceFault;

// Why the lines so far are the last ones that are read.
#[derive(Drop)]
pub(crate) enum Stop {
    Refused(Refusal),
    Undecided { line: u64, address: u64 },
    Fault(TraceFault),
}

impl From<AllocError> for Stop {
    ghost use Rattle.trace_text.specs.declared.fault.TraceFault.TheVariants.{OutOfMemory};
    ghost use Rattle.history_text.specs.declared.refusals.Stop.TheVariants.{Fault};

    ghost from_gives = { λ _fault stop. stop ≡ Fault OutOfMemory };

    fn from(_fault: AllocError) -> Stop {
        Stop::Fault(TraceFault::OutOfMemory)
    }
}

// The address of the byte at a place.
pub(crate) fn byte_address(load: OpenOperation, place: u64) -> u64
    ensures { result ≡ address_at load place }
{
    load.address.wrapping_add(place)
}

// What the operation of an event is.
pub(crate) fn kind_of(event: &OwnedEvent) -> OperationKind
    ensures { result ≡ kind_seen (seen event.now) }
{
    match event {
        OwnedEvent::LoadRequest { .. } | OwnedEvent::LoadResponse { .. } => OperationKind::Load,
        OwnedEvent::StoreRequest { .. } | OwnedEvent::StoreResponse { .. } => OperationKind::Store,
    }
}

// Its number.
pub(crate) fn number_of(event: &OwnedEvent) -> u64
    ensures { result ≡ number_seen (seen event.now) }
{
    match event {
        OwnedEvent::LoadRequest { number, .. }
        | OwnedEvent::LoadResponse { number, .. }
        | OwnedEvent::StoreRequest { number, .. }
        | OwnedEvent::StoreResponse { number } => *number,
    }
}

// The cause of a request's refusal.
fn request_cause(address: u64, length: u64, fault: HistoryFault) -> RefusalCause
    ensures { result ≡ cause_of_request address length fault }
{
    match fault {
        HistoryFault::NumberInUse => RefusalCause::NumberInUse,
        HistoryFault::NoByteEnabled => RefusalCause::NoByteEnabled,
        _ => RefusalCause::OutOfRange { address, length },
    }
}

// What is told of an event that is refused.
pub(crate) fn refusal(
    alloc: Global,
    session: &HistorySession,
    line: u64,
    event: &OwnedEvent,
    fault: HistoryFault,
) -> Result<Refusal, AllocError>
    ensures { IfOk result (λ refusal. (s : Session) → Stands session.now s
        → IsFaultOf s.history (seen event.now) (judge.Refused fault)
        → IsRefusal s line (seen event.now) refusal) }
{
    let cause = cause(alloc, session, event, fault)?;
    Ok(Refusal {
        line,
        kind: kind_of(event),
        number: number_of(event),
        cause,
    })
}

// Why it is refused.
fn cause(
    alloc: Global,
    session: &HistorySession,
    event: &OwnedEvent,
    fault: HistoryFault,
) -> Result<RefusalCause, AllocError>
    ensures { IfOk result (λ cause. (s : Session) → Stands session.now s → IsCause s (seen event.now) fault cause) }
{
    match event {
        OwnedEvent::LoadRequest {
            number: _,
            address,
            length,
        } => Ok(request_cause(*address, *length, fault)),
        OwnedEvent::LoadResponse { number, bytes } => {
            response_cause(alloc, session, *number, bytes.as_slice(), fault)
        }
        OwnedEvent::StoreRequest {
            number: _,
            address,
            bytes,
            enables: _,
        } => Ok(request_cause(*address, bytes.len() as u64, fault)),
        OwnedEvent::StoreResponse { .. } => Ok(RefusalCause::NotOpen),
    }
}

// Why a load's answer is refused.
fn response_cause(
    alloc: Global,
    session: &HistorySession,
    number: u64,
    bytes: &[u8],
    fault: HistoryFault,
) -> Result<RefusalCause, AllocError>
    ensures { IfOk result (λ cause. (s : Session) → Stands session.now s
        → IsResponseCause s (operation_under number s.loads) bytes.now fault cause) }
{
    match session.load_under(number) {
        None => Ok(RefusalCause::NotOpen),
        Some(load) => answer_cause(alloc, session, load, bytes, fault),
    }
}

// Why the answer to this open load is refused.
fn answer_cause(
    alloc: Global,
    session: &HistorySession,
    load: OpenOperation,
    bytes: &[u8],
    fault: HistoryFault,
) -> Result<RefusalCause, AllocError>
    ensures { IfOk result (λ cause. (s : Session) → Stands session.now s
        → IsAnswerCause s load bytes.now fault cause) }
{
    match fault {
        HistoryFault::WrongLength => Ok(RefusalCause::WrongLength {
            requested: load.length as u64,
            returned: bytes.len() as u64,
        }),
        HistoryFault::WrongByte { place } => {
            let address = byte_address(load, place as u64);
            let allowed = session.allowed(load.number, address);
            wrong_byte(alloc, session, load, bytes, place, allowed)
        }
        _ => Ok(RefusalCause::NotOpen),
    }
}
