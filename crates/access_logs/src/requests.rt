//! The requests of an access are written.
ghost use Rattle.std.specs.Prelude.{◌≡◌, ◌≤◌, ◌<◌, OnOk, OnErr};
ghost use Rattle.trace_text.specs.Streams.{Moves, Stopped};
ghost use Rattle.flat_model.specs.declared.Event.TheVariants as event;
ghost use Rattle.access_logs.specs.declared.access.TheConstants.{MAX_TOUCHED};
ghost use Rattle.access_logs.specs.Accesses.{IsWithin};
ghost use Rattle.access_logs.specs.Requests.{tag_behind, loads_of, stores_of, requests_of, request_text, requests_text};
ghost use Rattle.access_logs.specs.Requests.{tag_after as next_tag};

use crate::access::{Access, AccessKind};
use crate::pages::Pages;
use flat_model::{Lanes, Word};
use trace_text::{Failed, LineText, Sink, write_whole};

/// How many tags there are.
const TAGS: u64 = u16::MAX as u64 + 1;

/// The tag so many loads on.
pub(crate) fn tag_behind(tag: u16, loads: u64) -> u16
    requires { loads ≤ MAX_TOUCHED }
    ensures { result ≡ tag_behind tag loads }
{
    ((u64::from(tag) + loads) % TAGS) as u16
}

// The line of a load.
fn put_load(out: &mut LineText, tag: u16, at: u32)
    ensures { out.new ≡ request_text (event.Load tag at) }
{
    out.clear();
    out.push_bytes(b"load ");
    out.push_decimal(u32::from(tag));
    out.push(b' ');
    out.push_decimal(at);
    out.push(b'\n');
}

// The line of a store.
fn put_store(out: &mut LineText, at: u32, lanes: Lanes, word: Word)
    ensures { out.new ≡ request_text (event.Store at word lanes) }
{
    out.clear();
    out.push_bytes(b"store ");
    out.push_decimal(at);
    out.push(b' ');
    out.push_lanes(lanes);
    out.push(b' ');
    out.push_word(word);
    out.push(b'\n');
}

fn write_loads<W: Sink>(
    writer: &mut W,
    out: &mut LineText,
    pages: &Pages,
    tag: u16,
    access: Access,
) -> Result<(), Failed>
    requires { IsWithin access }
    ensures ok { OnOk result
        (Moves W.took writer.old (requests_text (loads_of pages.now tag access)) writer.new) }
    ensures err { OnErr result
        (Stopped W.took W.refused writer.old (requests_text (loads_of pages.now tag access)) writer.new) }
{
    for i in 0..access.word_count() {
        let at = pages.memory_word(access.first_word() + i);
        put_load(out, tag_behind(tag, i), at);
        write_whole(writer, out.as_bytes())?;
    }
    Ok(())
}

fn write_stores<W: Sink>(
    writer: &mut W,
    out: &mut LineText,
    pages: &Pages,
    number: u64,
    access: Access,
) -> Result<(), Failed>
    requires { IsWithin access }
    ensures ok { OnOk result
        (Moves W.took writer.old (requests_text (stores_of pages.now number access)) writer.new) }
    ensures err { OnErr result
        (Stopped W.took W.refused writer.old (requests_text (stores_of pages.now number access))
        writer.new) }
{
    for i in 0..access.word_count() {
        let word = access.first_word() + i;
        let at = pages.memory_word(word);
        put_store(out, at, access.lanes(word), access.word(number, word));
        write_whole(writer, out.as_bytes())?;
    }
    Ok(())
}

/// The next load's tag behind an access.
pub(crate) fn tag_after(tag: u16, access: Access) -> u16
    requires { IsWithin access }
    ensures { result ≡ next_tag tag access }
{
    match access.kind {
        AccessKind::Load | AccessKind::Modify => tag_behind(tag, access.word_count()),
        AccessKind::Store => tag,
    }
}

pub(crate) fn write_access<W: Sink>(
    writer: &mut W,
    out: &mut LineText,
    pages: &Pages,
    tag: u16,
    number: u64,
    access: Access,
) -> Result<(), Failed>
    requires { IsWithin access }
    ensures ok { OnOk result
        (Moves W.took writer.old (requests_text (requests_of pages.now tag number access)) writer.new) }
    ensures err { OnErr result
        (Stopped W.took W.refused writer.old (requests_text (requests_of pages.now tag number access))
        writer.new) }
{
    match access.kind {
        AccessKind::Load => write_loads(writer, out, pages, tag, access),
        AccessKind::Store => write_stores(writer, out, pages, number, access),
        AccessKind::Modify => {
            write_loads(writer, out, pages, tag, access)?;
            write_stores(writer, out, pages, number, access)
        }
    }
}
