//! Of a history that its law refuses, a short one that it refuses too.

ghost use Rattle.std.specs.Prelude.{◌≡◌, ◌⊎◌, true, Ok, IfOk, IfErr};
ghost use Rattle.std.specs.String.{string_bytes};
ghost use Rattle.history_sessions.specs.Session.{session_opening};
ghost use Rattle.trace_text.specs.declared.fault.TraceFault.TheVariants.{OutOfMemory, Read};
ghost use Rattle.history_text.specs.Histories.{Judges};
ghost use Rattle.history_text.specs.Shrinking.{IsRefusedText, what_is_wrong, AreAlike, IsShort, ShrinkFails};
ghost use Rattle.history_text.specs.declared.answers.HistoryEnd.TheVariants as history;
ghost use Rattle.history_text.specs.declared.answers.Refusal.{Refusal as RefusalValue};

use crate::answers::{HistoryEnd, Refusal, RefusalCause};
use crate::cutting::Cutting;
use crate::events::OwnedEvent;
use crate::gathering::{Gathering, NumberedEvent, gather};
use crate::histories::judge_by_law;
use crate::unit_operations::UnitSpan;
use flat_model::TwoDigits;
use history_sessions::{HistoryLaw, Rest};
use std::alloc::{AllocError, Global};
use std::fmt;
use trace_text::{Source, TraceFault};

/// What became of a history, with a short one that is refused for the same answer, if it is.
#[derive(Drop)]
pub struct ShrunkHistory {
    /// What became of it.
    pub end: HistoryEnd,
    /// The short one as text; empty if the law doesn't refuse the history.
    pub text: String,
}

// Two digits for each byte.
#[derive(Clone, Copy)]
struct Digits<'a>(&'a [u8]);

impl fmt::Display for Digits<'_> {
    fn fmt<W: fmt::Write>(&self, f: &mut fmt::Formatter<W>) -> fmt::Result {
        for byte in self.0 {
            let digits = TwoDigits(*byte);
            write!(f, "{digits}")?;
        }
        Ok(())
    }
}

// The enables of so many bytes, unless all are enabled.
#[derive(Clone, Copy)]
struct Enables {
    enables: u64,
    count: usize,
}

impl Enables {
    fn has(self, place: usize) -> bool {
        place < 64 && (self.enables >> place) % 2 == 1
    }

    fn has_all(self) -> bool {
        (0..self.count).all(|place| self.has(place))
    }
}

impl fmt::Display for Enables {
    fn fmt<W: fmt::Write>(&self, f: &mut fmt::Formatter<W>) -> fmt::Result {
        if self.has_all() {
            return Ok(());
        }
        f.write_str(" ")?;
        for place in 0..self.count {
            f.write_str(if self.has(place) { "1" } else { "0" })?;
        }
        Ok(())
    }
}

impl fmt::Display for OwnedEvent {
    fn fmt<W: fmt::Write>(&self, f: &mut fmt::Formatter<W>) -> fmt::Result {
        match self {
            OwnedEvent::LoadRequest {
                number,
                address,
                length,
            } => write!(f, "load-request {number} 0x{address:x} {length}"),
            OwnedEvent::LoadResponse { number, bytes } => {
                let digits = Digits(bytes.as_slice());
                write!(f, "load-response {number} {digits}")
            }
            OwnedEvent::StoreRequest {
                number,
                address,
                bytes,
                enables,
            } => {
                let digits = Digits(bytes.as_slice());
                let enables = Enables {
                    enables: *enables,
                    count: bytes.len(),
                };
                write!(f, "store-request {number} 0x{address:x} {digits}{enables}")
            }
            OwnedEvent::StoreResponse { number } => write!(f, "store-response {number}"),
        }
    }
}

// The words that judge a history so, but for its image.
fn words_of(alloc: Global, law: HistoryLaw, rest: Rest) -> Result<String, AllocError> {
    let name = law.name();
    let unknown = match rest {
        Rest::Zeros => "",
        Rest::Unknown => " --unknown",
    };
    match law {
        HistoryLaw::Atomic { unit, .. } => {
            let bytes = unit.bytes();
            format!(in alloc; "# kroft history --law {name} --unit {bytes}{unknown}\n")
        }
        _ => format!(in alloc; "# kroft history --law {name}{unknown}\n"),
    }
}

// An event, behind the number of its line.
fn push_event(
    alloc: Global,
    text: &mut String,
    line: u64,
    event: &OwnedEvent,
) -> Result<(), AllocError> {
    let lines = format!(in alloc; "# line {line}\n{event}\n")?;
    text.push_str(lines.as_str())
}

// The refused line, and the request that it disagrees with.
fn push_pair(
    alloc: Global,
    text: &mut String,
    cause: &RefusalCause,
    kept: &Gathering,
) -> Result<(), AllocError> {
    if let (RefusalCause::NumberInUse | RefusalCause::WrongLength { .. }, Some(request)) = (
        cause,
        &kept.request,
    ) {
        push_event(alloc, text, request.line, &request.event)?;
    }
    if let Some(refused) = &kept.refused {
        push_event(alloc, text, refused.line, &refused.event)?;
    }
    Ok(())
}

// What the image has of a unit.
fn image_of<'a>(image: &'a [u8], unit: UnitSpan) -> &'a [u8] {
    let from = unit.first.min(image.len() as u64) as usize;
    let behind = &image[from..];
    &behind[..behind.len().min(unit.size as usize)]
}

// The operations of a unit that can't be left out.
fn push_unit(
    alloc: Global,
    text: &mut String,
    law: HistoryLaw,
    image: &[u8],
    rest: Rest,
    unit: UnitSpan,
    kept: &Gathering,
) -> Result<(), AllocError> {
    let operations = kept.operations.as_slice();
    let steps = kept.steps.as_slice();
    let cutting = Cutting {
        alloc,
        law,
        image: image_of(image, unit),
        rest,
        operations,
        steps,
    };
    let out = cutting.most_left_out()?;
    for step in steps {
        if let Some(operation) = operations.get(step.place) {
            if !out.has(step.place) {
                let event = operation.event(unit.first, step.is_response);
                push_event(alloc, text, operation.line_of(step.is_response), &event)?;
            }
        }
    }
    Ok(())
}

// The short history as text.
fn text_of(
    alloc: Global,
    law: HistoryLaw,
    image: &[u8],
    rest: Rest,
    cause: &RefusalCause,
    kept: &Gathering,
) -> Result<String, AllocError> {
    let mut text = words_of(alloc, law, rest)?;
    match kept.unit {
        Some(unit) => push_unit(alloc, &mut text, law, image, rest, unit, kept)?,
        None => push_pair(alloc, &mut text, cause, kept)?,
    }
    Ok(text)
}

// Judges a text.
fn judge_text(
    alloc: Global,
    text: &[u8],
    law: HistoryLaw,
    image: &[u8],
    rest: Rest,
) -> Result<HistoryEnd, TraceFault>
    ensures { IfOk result (λ end. (refusal : RefusalValue) → end ≡ history.Refused refusal
        → IsRefusedText (session_opening law image.now rest) text.now refusal) }
{
    let mut reader = text;
    judge_by_law(alloc, &mut reader, law, image, rest)
}

// What is wrong, and where; not what else might have been there.
#[derive(Clone, Copy)]
enum Wrong {
    Range { address: u64, length: u64 },
    Enables,
    NumberInUse,
    NotOpen,
    Length { requested: u64, returned: u64 },
    Byte { address: u64, returned: u8 },
    Unit { address: u64 },
}

fn wrong_of(cause: &RefusalCause) -> Wrong
    ensures { result ≡ what_is_wrong cause.now }
{
    match cause {
        RefusalCause::OutOfRange { address, length } => Wrong::Range {
            address: *address,
            length: *length,
        },
        RefusalCause::NoByteEnabled => Wrong::Enables,
        RefusalCause::NumberInUse => Wrong::NumberInUse,
        RefusalCause::NotOpen => Wrong::NotOpen,
        RefusalCause::WrongLength {
            requested,
            returned,
        } => Wrong::Length {
            requested: *requested,
            returned: *returned,
        },
        RefusalCause::WrongByte {
            address,
            returned,
            ..
        } => Wrong::Byte {
            address: *address,
            returned: *returned,
        },
        RefusalCause::NoMoment { address, .. } => Wrong::Unit { address: *address },
    }
}

fn is_same(wrong: Wrong, other: Wrong) -> bool
    ensures { result ≡ true → wrong ≡ other }
{
    match (wrong, other) {
        (
            Wrong::Range { address, length },
            Wrong::Range {
                address: there,
                length: long,
            },
        ) => address == there && length == long,
        (Wrong::Enables, Wrong::Enables) => true,
        (Wrong::NumberInUse, Wrong::NumberInUse) => true,
        (Wrong::NotOpen, Wrong::NotOpen) => true,
        (
            Wrong::Length {
                requested,
                returned,
            },
            Wrong::Length {
                requested: wanted,
                returned: got,
            },
        ) => requested == wanted && returned == got,
        (
            Wrong::Byte { address, returned },
            Wrong::Byte {
                address: there,
                returned: got,
            },
        ) => address == there && returned == got,
        (Wrong::Unit { address }, Wrong::Unit { address: there }) => address == there,
        _ => false,
    }
}

// Whether the same is wrong of the same operation.
fn are_alike(refusal: &Refusal, other: &Refusal) -> bool
    ensures { result ≡ true → AreAlike refusal.now other.now }
{
    refusal.kind == other.kind
        && refusal.number == other.number
        && is_same(wrong_of(&refusal.cause), wrong_of(&other.cause))
}

// Whether a text is refused for the same as this.
fn is_refused_alike(
    alloc: Global,
    text: &str,
    law: HistoryLaw,
    image: &[u8],
    rest: Rest,
    refusal: &Refusal,
) -> Result<bool, AllocError>
    ensures { IfOk result (λ is. is ≡ true → IsShort (session_opening law image.now rest) (history.Refused refusal.now) text.now) }
{
    match judge_text(alloc, text.as_bytes(), law, image, rest) {
        Ok(HistoryEnd::Refused(again)) => Ok(are_alike(&again, refusal)),
        Err(TraceFault::OutOfMemory) => Err(AllocError),
        _ => Ok(false),
    }
}

// Of a history that is refused so, what is written.
fn shrunk<R: Source>(
    alloc: Global,
    reader: &mut R,
    law: HistoryLaw,
    image: &[u8],
    rest: Rest,
    refusal: &Refusal,
) -> Result<String, TraceFault>
    ensures short { IfOk result (λ text. IsShort (session_opening law image.now rest) (history.Refused refusal.now) (string_bytes text)) }
    ensures fault { IfErr result (λ fault. (fault ≡ OutOfMemory) ⊎ (fault ≡ Read)) }
{
    let kept = gather(alloc, reader, law, refusal)?;
    let text = text_of(alloc, law, image, rest, &refusal.cause, &kept)?;
    if is_refused_alike(alloc, text.as_str(), law, image, rest, refusal)? {
        Ok(text)
    } else {
        Err(TraceFault::Read)
    }
}

/// Judges a history as [`judge_by_law`] does, and if the law refuses it, makes of it a short one that the law refuses for the
/// same answer at the same byte. `again` reads the same history once more, up to the refused line.
///
/// The first line of the text has the words that judge it so, but for the image. Each event stands behind the number of its
/// line, and an operation has its bytes in the refused unit alone: by the regular and the flat law that is one byte. A refusal
/// of no unit has its line alone, with the open request that it disagrees with.
///
/// A fault is as there; [`TraceFault::Read`] says too that the second reading gave another history.
pub fn shrink_by_law<R: Source>(
    alloc: Global,
    reader: &mut R,
    again: &mut R,
    law: HistoryLaw,
    image: &[u8],
    rest: Rest,
) -> Result<ShrunkHistory, TraceFault>
    ensures judged { IfOk result (λ shrunk. Judges R.gave R.failed (session_opening law image.now rest) reader.old reader.new
        (Ok shrunk.end)) }
    ensures short { IfOk result (λ shrunk. IsShort (session_opening law image.now rest) shrunk.end (string_bytes shrunk.text)) }
    ensures fault { IfErr result (ShrinkFails R.gave R.failed (session_opening law image.now rest) reader.old reader.new) }
{
    let end = judge_by_law(alloc, reader, law, image, rest)?;
    let text = match &end {
        HistoryEnd::Refused(refusal) => shrunk(alloc, again, law, image, rest, refusal)?,
        _ => String::new(alloc),
    };
    Ok(ShrunkHistory { end, text })
}
