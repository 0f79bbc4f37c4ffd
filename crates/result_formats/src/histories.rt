//! What became of a history, in a format.

ghost use Rattle.std.specs.Prelude.{◌≡◌, map, IfOk, string_bytes};
ghost use Rattle.std.specs.Option.{option_copied};
ghost use Rattle.named_fields.specs.Formats.{object_text, said};
ghost use Rattle.history_sessions.specs.History.{law_text};
ghost use Rattle.history_text.specs.Answers.{kind_text};
ghost use Rattle.result_formats.specs.Histories as histories;

use arrayvec::ArrayVec;
use history_text::{
    Alternatives, HistoryEnd, HistoryLaw, HistoryVerdict, LawName, OperationKind, OverwrittenByte,
    Refusal, RefusalCause, bytes_in_set,
};
use named_fields::{Field, Figure, Object, VerdictFormat};
use std::alloc::{AllocError, Global};
use std::fmt;

// ---- the law

fn law_name(law: LawName) -> &'static str
    ensures { result.now ≡ law_text law }
{
    match law {
        LawName::Flat => "flat",
        LawName::Atomic => "atomic",
        LawName::Regular => "regular",
    }
}

// The size of a unit.
fn unit_of(law: HistoryLaw) -> Option<u64>
    ensures { result ≡ histories.unit_of law }
{
    match law {
        HistoryLaw::Atomic { unit, .. } => Some(unit.bytes()),
        HistoryLaw::Flat | HistoryLaw::Regular => None,
    }
}

// ---- the end

fn verdict_name(end: &HistoryEnd) -> &'static str
    ensures { result.now ≡ histories.verdict_name end.now }
{
    match end {
        HistoryEnd::OfLaw { .. } => "of_law",
        HistoryEnd::Refused(_) => "refused",
        HistoryEnd::Undecided { .. } => "undecided",
    }
}

// How many events it has.
fn events_in(end: &HistoryEnd) -> Option<u64>
    ensures { result ≡ histories.events_in end.now }
{
    match end {
        HistoryEnd::OfLaw { events, .. } => Some(*events),
        _ => None,
    }
}

// How many operations are open.
fn open_in(end: &HistoryEnd) -> Option<u64>
    ensures { result ≡ histories.open_in end.now }
{
    match end {
        HistoryEnd::OfLaw { open, .. } => Some(*open),
        _ => None,
    }
}

// The line at which it ends.
fn line_in(end: &HistoryEnd) -> Option<u64>
    ensures { result ≡ histories.line_in end.now }
{
    match end {
        HistoryEnd::OfLaw { .. } => None,
        HistoryEnd::Refused(refusal) => Some(refusal.line),
        HistoryEnd::Undecided { line, .. } => Some(*line),
    }
}

// The verdict under a law.
fn end_fields(law: HistoryLaw, end: &HistoryEnd) -> [Field<'static>; 6]
    ensures { map said result ≡ histories.end_named law end.now }
{
    [
        Field::called("verdict", verdict_name(end)),
        Field::called("law", law_name(law.name())),
        Field::count_if("unit", unit_of(law)),
        Field::count_if("events", events_in(end)),
        Field::count_if("open", open_in(end)),
        Field::count_if("line", line_in(end)),
    ]
}

// ---- a refusal

fn refusal_in(end: &HistoryEnd) -> Option<&Refusal>
    ensures { option_copied result ≡ histories.refusal_in end.now }
{
    match end {
        HistoryEnd::Refused(refusal) => Some(refusal),
        _ => None,
    }
}

fn kind_name(kind: OperationKind) -> &'static str
    ensures { result.now ≡ kind_text kind }
{
    match kind {
        OperationKind::Load => "load",
        OperationKind::Store => "store",
    }
}

// The operation that is refused.
fn operation_fields(refusal: Option<&Refusal>) -> [Field<'static>; 2]
    ensures { map said result ≡ histories.operation_named (option_copied refusal.entry) }
{
    match refusal {
        None => [Field::missing("operation"), Field::missing("number")],
        Some(refusal) => [
            Field::called("operation", kind_name(refusal.kind)),
            Field::count("number", refusal.number),
        ],
    }
}

fn cause_in(refusal: Option<&Refusal>) -> Option<&RefusalCause>
    ensures { option_copied result ≡ histories.cause_in (option_copied refusal.entry) }
{
    match refusal {
        None => None,
        Some(refusal) => Some(&refusal.cause),
    }
}

fn cause_name(cause: &RefusalCause) -> &'static str
    ensures { result.now ≡ histories.cause_name cause.now }
{
    match cause {
        RefusalCause::OutOfRange { .. } => "out_of_range",
        RefusalCause::NoByteEnabled => "no_byte_enabled",
        RefusalCause::NumberInUse => "number_in_use",
        RefusalCause::NotOpen => "not_open",
        RefusalCause::WrongLength { .. } => "wrong_length",
        RefusalCause::WrongByte { .. } => "wrong_byte",
        RefusalCause::NoMoment { .. } => "no_moment",
    }
}

fn cause_field(cause: Option<&RefusalCause>) -> Field<'static>
    ensures { said result ≡ histories.cause_named (option_copied cause.entry) }
{
    match cause {
        None => Field::missing("cause"),
        Some(cause) => Field::called("cause", cause_name(cause)),
    }
}

fn cause_address(cause: &RefusalCause) -> Option<u64>
    ensures { result ≡ histories.cause_address cause.now }
{
    match cause {
        RefusalCause::OutOfRange { address, .. } => Some(*address),
        RefusalCause::WrongByte { address, .. } => Some(*address),
        RefusalCause::NoMoment { address, .. } => Some(*address),
        _ => None,
    }
}

// The address that the verdict is about.
fn address_in(end: &HistoryEnd) -> Option<u64>
    ensures { result ≡ histories.address_in end.now }
{
    match end {
        HistoryEnd::OfLaw { .. } => None,
        HistoryEnd::Refused(refusal) => cause_address(&refusal.cause),
        HistoryEnd::Undecided { address, .. } => Some(*address),
    }
}

// How many bytes an operation out of range has.
fn length_in(cause: Option<&RefusalCause>) -> Option<u64>
    ensures { result ≡ histories.length_in (option_copied cause.entry) }
{
    match cause {
        Some(RefusalCause::OutOfRange { length, .. }) => Some(*length),
        _ => None,
    }
}

// How many bytes a load asked for.
fn requested_in(cause: Option<&RefusalCause>) -> Option<u64>
    ensures { result ≡ histories.requested_in (option_copied cause.entry) }
{
    match cause {
        Some(RefusalCause::WrongLength { requested, .. }) => Some(*requested),
        _ => None,
    }
}

// How many it returned.
fn returned_length_in(cause: Option<&RefusalCause>) -> Option<u64>
    ensures { result ≡ histories.returned_length_in (option_copied cause.entry) }
{
    match cause {
        Some(RefusalCause::WrongLength { returned, .. }) => Some(*returned),
        _ => None,
    }
}

// The byte that it may not return.
fn returned_field(cause: Option<&RefusalCause>) -> Field<'static>
    ensures { said result ≡ histories.returned_named (option_copied cause.entry) }
{
    match cause {
        Some(RefusalCause::WrongByte { returned, .. }) => Field {
            name: "returned",
            figure: Figure::OfByte(*returned),
        },
        _ => Field::missing("returned"),
    }
}

// The bytes that it may return; none where that isn't told.
fn allowed_in(cause: Option<&RefusalCause>) -> ArrayVec<u8, 256>
    ensures { result.items ≡ histories.allowed_in (option_copied cause.entry) }
{
    match cause {
        Some(RefusalCause::WrongByte { allowed, .. }) => bytes_in_set(*allowed),
        _ => ArrayVec::new(),
    }
}

// Whether it says which bytes the load may return.
fn is_wrong_byte(cause: Option<&RefusalCause>) -> bool
    ensures { result ≡ histories.is_wrong_byte (option_copied cause.entry) }
{
    match cause {
        Some(RefusalCause::WrongByte { .. }) => true,
        _ => false,
    }
}

// The bytes that it may return as a field, if it says them.
fn may_field(is_told: bool, allowed: &[u8]) -> Field<'_>
    ensures { said result ≡ histories.may_told is_told allowed.now }
{
    if is_told {
        Field::bytes("may", allowed)
    } else {
        Field::missing("may")
    }
}

// Where those bytes come from, in the words of the text.
fn sources_field(is_told: bool, sources: &[u8]) -> Field<'_>
    ensures { said result ≡ histories.sources_told is_told sources.now }
{
    if is_told {
        Field::quoted("may_from", sources)
    } else {
        Field::missing("may_from")
    }
}

// Who overwrote a byte that came.
fn overwritten_in(cause: Option<&RefusalCause>) -> Option<OverwrittenByte>
    ensures { result ≡ histories.overwritten_in (option_copied cause.entry) }
{
    match cause {
        Some(RefusalCause::WrongByte { overwritten, .. }) => *overwritten,
        Some(RefusalCause::NoMoment { overwritten, .. }) => *overwritten,
        _ => None,
    }
}

// The same as fields.
fn overwritten_fields(overwritten: Option<OverwrittenByte>) -> [Field<'static>; 3]
    ensures { map said result ≡ histories.overwritten_named overwritten }
{
    match overwritten {
        None => [
            Field::missing("overwritten"),
            Field::missing("overwritten_address"),
            Field::missing("overwritten_by"),
        ],
        Some(it) => {
            let byte = Field {
                name: "overwritten",
                figure: Figure::OfByte(it.byte),
            };
            [
                byte,
                Field::count("overwritten_address", it.address),
                Field::count("overwritten_by", it.number),
            ]
        }
    }
}

// Why it is refused, and the address that the verdict is about.
fn why_fields<'a>(
    address: Option<u64>,
    cause: Option<&RefusalCause>,
    allowed: &'a [u8],
) -> [Field<'a>; 7]
    requires { allowed.now ≡ histories.allowed_in (option_copied cause) }
    ensures { map said result ≡ histories.why_named address (option_copied cause.entry) }
{
    [
        cause_field(cause),
        Field::count_if("address", address),
        Field::count_if("length", length_in(cause)),
        Field::count_if("requested", requested_in(cause)),
        Field::count_if("returned_length", returned_length_in(cause)),
        returned_field(cause),
        may_field(is_wrong_byte(cause), allowed),
    ]
}

// Which stores are concerned.
fn store_fields<'a>(cause: Option<&RefusalCause>, sources: &'a [u8]) -> [Field<'a>; 4]
    requires { sources.now ≡ histories.sources_in (option_copied cause) }
    ensures { map said result ≡ histories.stores_named (option_copied cause.entry) }
{
    let [byte, address, by] = overwritten_fields(overwritten_in(cause));
    [
        sources_field(is_wrong_byte(cause), sources),
        byte,
        address,
        by,
    ]
}

// ---- the whole

// How many fields the verdict of a history has.
const HISTORY_FIELDS: usize = 19;

// The fields of a verdict.
#[tactic(auto, unfolding(crate::specs::Histories::history_named))]
fn history_fields<'a>(
    law: HistoryLaw,
    end: &HistoryEnd,
    allowed: &'a [u8],
    sources: &'a [u8],
) -> [Field<'a>; HISTORY_FIELDS]
    requires allowed { allowed.now ≡ histories.allowed_in (histories.cause_in (histories.refusal_in end.now)) }
    requires sources { sources.now ≡ histories.sources_in (histories.cause_in (histories.refusal_in end.now)) }
    ensures { map said result ≡ histories.history_named law end.now }
{
    let refusal = refusal_in(end);
    let cause = cause_in(refusal);
    let [verdict, name, unit, events, open, line] = end_fields(law, end);
    let [operation, number] = operation_fields(refusal);
    let [c0, c1, c2, c3, c4, c5, c6] = why_fields(address_in(end), cause, allowed);
    let [s0, s1, s2, s3] = store_fields(cause, sources);
    [
        verdict, name, unit, events, open, line, operation, number, c0, c1, c2, c3, c4, c5, c6, s0,
        s1, s2, s3,
    ]
}

// Where the bytes come from that a load may return, in the words of the text; nothing where that isn't told.
fn sources_in(alloc: Global, cause: Option<&RefusalCause>) -> Result<String, AllocError>
    ensures { IfOk result (λ text. string_bytes text ≡ histories.sources_in (option_copied cause.entry)) }
{
    match cause {
        Some(RefusalCause::WrongByte { sources, .. }) => {
            let alternatives = Alternatives(sources.as_slice());
            format!(in alloc; "{alternatives}")
        }
        _ => Ok(String::new(alloc)),
    }
}

// The verdict as an object, with the bytes that a load may return and where they come from.
fn object_in<'a>(
    alloc: Global,
    law: HistoryLaw,
    end: &HistoryEnd,
    allowed: &'a [u8],
    sources: &'a [u8],
) -> Result<String, AllocError>
    requires allowed { allowed.now ≡ histories.allowed_in (histories.cause_in (histories.refusal_in end.now)) }
    requires sources { sources.now ≡ histories.sources_in (histories.cause_in (histories.refusal_in end.now)) }
    ensures { IfOk result (λ text. string_bytes text ≡ object_text (histories.history_named law end.now)) }
{
    let fields = history_fields(law, end, allowed, sources);
    let object = Object(&fields);
    format!(in alloc; "{object}")
}

/// What became of a history under a law, in a format, with no line feed at its end. `AllocError` says that there was too
/// little memory.
#[tactic(auto, unfolding(crate::specs::Histories::history_in, named_fields::specs::Formats::verdict_in))]
pub fn history_in(
    alloc: Global,
    format: VerdictFormat,
    law: HistoryLaw,
    end: &HistoryEnd,
) -> Result<String, AllocError>
    ensures { IfOk result (λ text. string_bytes text ≡ histories.history_in format law end.now) }
{
    match format {
        VerdictFormat::Text => {
            let law = law.name();
            let verdict = HistoryVerdict { law, end };
            format!(in alloc; "{verdict}")
        }
        VerdictFormat::Json => {
            let cause = cause_in(refusal_in(end));
            let allowed = allowed_in(cause);
            let sources = sources_in(alloc, cause)?;
            object_in(alloc, law, end, allowed.as_slice(), sources.as_bytes())
        }
    }
}
