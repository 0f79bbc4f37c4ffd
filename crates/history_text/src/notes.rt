//! The stores that made a byte wrong, and those that it may come from.

ghost use Rattle.std.specs.Prelude.{◌≡◌, ◌++◌, OnOk, IfOk, map, slice_get};
ghost use Rattle.history_sessions.specs.Session.{Session};
ghost use Rattle.history_text.specs.Answers.{bytes_in_set as set_bytes};
ghost use Rattle.history_text.specs.Refusals.{Stands, IsWrong};
ghost use Rattle.history_text.specs.Notes.{line_number, source_named, named_with, alternatives_for, alternatives_of, overwriter_of};
ghost use Rattle.history_text.specs.Notes.{overwritten_by, overwritten_of, overwritten_in};

use crate::answers::{AllowedByte, ByteSource, OverwrittenByte, RefusalCause, bytes_in_set};
use crate::refusals::byte_address;
use history_sessions::{
    ByteSet, FoundReason, HistorySession, OpenOperation, Reason, Source, StoreByte,
};
use std::alloc::{AllocError, Global};

pub(crate) fn wrong_byte(
    alloc: Global,
    session: &HistorySession,
    load: OpenOperation,
    bytes: &[u8],
    place: usize,
    allowed: Option<ByteSet>,
) -> Result<RefusalCause, AllocError>
    ensures { IfOk result (λ cause. (s : Session) → Stands session.now s
        → IsWrong s load bytes.now place (slice_get bytes.now place) allowed cause) }
{
    let address = byte_address(load, place as u64);
    let overwritten = overwritten(session, load, bytes, place);
    let Some(allowed) = allowed else {
        return Ok(RefusalCause::NoMoment {
            address,
            overwritten,
        });
    };
    let Some(returned) = byte_at(bytes, place) else {
        return Ok(RefusalCause::NotOpen);
    };
    let sources = alternatives(alloc, session, load.number, address, allowed)?;
    Ok(RefusalCause::WrongByte {
        address,
        returned,
        allowed,
        sources,
        overwritten,
    })
}

fn alternatives(
    alloc: Global,
    session: &HistorySession,
    number: u64,
    address: u64,
    set: ByteSet,
) -> Result<Vec<AllowedByte>, AllocError>
    ensures { IfOk result (λ all. (s : Session) → Stands session.now s
        → all.items ≡ alternatives_of s number address (set_bytes set)) }
{
    let bytes = bytes_in_set(set);
    alternatives_among(alloc, session, number, address, bytes.as_slice())
}

fn alternatives_among(
    alloc: Global,
    session: &HistorySession,
    number: u64,
    address: u64,
    bytes: &[u8],
) -> Result<Vec<AllowedByte>, AllocError>
    ensures { IfOk result (λ all. (s : Session) → Stands session.now s
        → all.items ≡ alternatives_of s number address bytes.now) }
{
    let mut all = Vec::new(alloc);
    for byte in bytes {
        let sources = session.sources(alloc, number, address, *byte)?;
        add_alternatives(&mut all, *byte, sources.as_slice())?;
    }
    Ok(all)
}

fn overwritten(
    session: &HistorySession,
    load: OpenOperation,
    bytes: &[u8],
    place: usize,
) -> Option<OverwrittenByte>
    ensures { (s : Session) → Stands session.now s → result ≡ overwritten_in s load bytes.now place }
{
    overwritten_of(load, bytes, session.reason(load.number, bytes, place))
}

fn line_number(store: &StoreByte) -> u64
    ensures { result ≡ line_number store.now }
{
    store.began.saturating_add(1)
}

fn source_named(source: &Source) -> ByteSource
    ensures { result ≡ source_named source.now }
{
    match source {
        Source::Initial => ByteSource::Initial,
        Source::Store(store) => ByteSource::Store {
            number: store.number,
            line: line_number(store),
        },
    }
}

fn add_alternatives(
    all: &mut Vec<AllowedByte>,
    byte: u8,
    sources: &[Source],
) -> Result<(), AllocError>
    ensures { OnOk result (all.new.items ≡ all.old.items ++ alternatives_for byte sources.now) }
{
    if sources.is_empty() {
        let source = ByteSource::Unknown;
        all.push(AllowedByte { byte, source })?;
        return Ok(());
    }
    add_sources(all, byte, sources)
}

fn add_sources(all: &mut Vec<AllowedByte>, byte: u8, sources: &[Source]) -> Result<(), AllocError>
    ensures { OnOk result (all.new.items ≡ all.old.items
        ++ map (named_with byte) sources.now) }
{
    for source in sources {
        let source = source_named(source);
        all.push(AllowedByte { byte, source })?;
    }
    Ok(())
}

fn overwriter_of(reason: Reason) -> Option<StoreByte>
    ensures { result ≡ overwriter_of reason }
{
    match reason {
        Reason::NeverThere => None,
        Reason::InitialOverwritten { by } => Some(by),
        Reason::StoreOverwritten { stored: _, by } => Some(by),
    }
}

fn byte_at(bytes: &[u8], place: usize) -> Option<u8>
    ensures { result ≡ slice_get bytes.now place }
{
    bytes.get(place).copied()
}

fn overwritten_of(
    load: OpenOperation,
    bytes: &[u8],
    found: Option<FoundReason>,
) -> Option<OverwrittenByte>
    ensures { result ≡ overwritten_of load bytes.now found }
{
    match found {
        None => None,
        Some(found) => {
            let by = overwriter_of(found.reason);
            let byte = byte_at(bytes, found.place);
            overwritten_by(load, found.place, by, byte)
        }
    }
}

fn overwritten_by(
    load: OpenOperation,
    place: usize,
    by: Option<StoreByte>,
    byte: Option<u8>,
) -> Option<OverwrittenByte>
    ensures { result ≡ overwritten_by load place by byte }
{
    match (by, byte) {
        (Some(by), Some(byte)) => Some(OverwrittenByte {
            byte,
            address: byte_address(load, place as u64),
            number: by.number,
        }),
        (Some(_), None) => None,
        (None, _) => None,
    }
}
