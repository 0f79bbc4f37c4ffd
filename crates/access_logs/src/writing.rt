//! A log is read by lines, and its requests are written.
ghost use Rattle.std.specs.Prelude.{◌≡◌, [], ◌+◌, ◌/◌, ◌≤◌, ◌<◌, length, Some, None, OnOk, OnErr, IfErr, Ok};
ghost use Rattle.trace_text.specs.declared.fault.TheConstants.{BUFFER_LEN, MAX_PAIR};
ghost use Rattle.access_logs.specs.declared.pages.TheConstants.{MAX_PAGES, PAGE_WORDS};
ghost use Rattle.access_logs.specs.declared.writing.TheConstants.{MOST_LOG_LINES};
ghost use Rattle.access_logs.specs.Accesses.{IsWithin};
ghost use Rattle.access_logs.specs.Logs.{log_start, state_with, fault_by, Requested, Asked, Refuses, Halts, HaltsAt, Ends};

use crate::access::Access;
use crate::fault::{LogFault, NoRoom};
use crate::format::LogFormat;
use crate::pages::{PAGE_WORDS, Pages};
use crate::requests::{tag_after, write_access};
use std::alloc::Global;
use trace_text::{
    BUFFER_LEN, Collector, Failed, LineText, MAX_PAIR, Sink, Source, Stop, TraceFault, Uncollected,
    read_lines_within,
};

/// The most words that pages are mapped to.
pub const MAX_WORDS: u32 = flat_model::MAX_WORDS;

/// The most lines of a log.
pub const MOST_LOG_LINES: u64 = u64::MAX;

// The writing of a log's requests.
#[derive(Drop)]
pub(crate) struct Writing<'a, W, F> {
    pub(crate) writer: &'a mut W,
    pub(crate) format: &'a F,
    pub(crate) out: LineText,
    pub(crate) room: u64,
    pub(crate) pages: Pages,
    // The tag of the next load.
    pub(crate) tag: u16,
    // How many lines went before.
    pub(crate) lines: u64,
    pub(crate) no_room: Option<NoRoom>,
}

impl<'a, W: Sink, F: LogFormat> Writing<'a, W, F> {
    // Flushes what is written, and keeps the line's fault; a refused flush takes its place.
    fn refuse(&mut self, line: u64)
        requires { self.old.no_room ≡ None }
        ensures refuses { Refuses W.took W.unflushed self.old.writer.now line self.old.pages self.new.writer.now
            self.new.no_room }
        ensures same { self.new.writer.ghost_name ≡ self.old.writer.ghost_name }
    {
        if self.writer.flush_all().is_ok() {
            let pages = self.pages.len() as u64;
            self.no_room = Some(NoRoom { line, pages });
        }
    }

    fn ask(&mut self, number: u64, access: Access) -> Result<(), Uncollected>
        requires within { IsWithin access }
        requires number { number ≡ self.old.lines + 1 }
        requires room { self.old.room ≤ MAX_PAGES }
        requires fits { length self.old.pages ≤ self.old.room }
        requires none { self.old.no_room ≡ None }
        ensures ok { OnOk result
            (Asked W.took self.old.room self.old.writer.now
            (state_with self.old.pages self.old.tag self.old.lines) (Some access) self.new.writer.now
            (state_with self.new.pages self.new.tag (self.new.lines + 1))) }
        ensures lines { OnOk result (self.new.lines ≡ self.old.lines) }
        ensures room { OnOk result (self.new.room ≡ self.old.room) }
        ensures none { OnOk result (self.new.no_room ≡ None) }
        ensures err { IfErr result (λ miss. miss ≡ Uncollected.Halted) }
        ensures halts { OnErr result
            (Halts W.took W.refused W.unflushed self.old.room self.old.writer.now
            (state_with self.old.pages self.old.tag self.old.lines) access self.new.writer.now
            self.new.no_room) }
        ensures same { self.new.writer.ghost_name ≡ self.old.writer.ghost_name }
    {
        self.pages.touch_all(access);
        if self.pages.len() as u64 > self.room {
            self.refuse(number);
            return Err(Uncollected::Halted);
        }
        write_access(
            self.writer,
            &mut self.out,
            &self.pages,
            self.tag,
            number,
            access,
        )?;
        self.tag = tag_after(self.tag, access);
        Ok(())
    }
}

impl<'a, W: Sink, F: LogFormat> Collector for Writing<'a, W, F> {
    ghost fault_in = { fault_by F.access_in };

    ghost longest = { MAX_PAIR };

    ghost most_lines = { MOST_LOG_LINES };

    ghost went = { λ s texts t. Requested W.took F.access_in t.room s.writer.now texts t.writer.now
        (state_with t.pages t.tag t.lines)
        × (t.room ≡ s.room) × (t.room ≤ MAX_PAGES) × (t.no_room ≡ None) };

    ghost stopped = { λ s text t. HaltsAt W.took W.refused W.unflushed F.access_in s.room s.writer.now
        (state_with s.pages s.tag s.lines) text t.writer.now t.no_room };

    ghost paused = { λ s t. W.took s.writer.now [] t.writer.now };

    ghost unpaused = { λ s t. W.unflushed s.writer.now t.writer.now × (t.no_room ≡ s.no_room) };

    ghost holds_same = { λ s t. t.writer.ghost_name ≡ s.writer.ghost_name };

    fn collect(&mut self, number: u64, text: &[u8]) -> Result<(), Uncollected> {
        let said = self.format.access_said(text)?;
        match said {
            None => {
                self.lines = number;
                Ok(())
            }
            Some(access) => {
                self.ask(number, access)?;
                self.lines = number;
                Ok(())
            }
        }
    }

    fn pause(&mut self) -> Result<(), Failed> {
        self.writer.flush_all()?;
        Ok(())
    }
}

fn write_through<R: Source, W: Sink, F: LogFormat>(
    reader: &mut R,
    writing: &mut Writing<W, F>,
    buffer: &mut [u8],
) -> Result<(), LogFault>
    requires buffer { length buffer.old ≡ BUFFER_LEN }
    requires room { writing.old.room ≤ MAX_PAGES }
    requires fresh { state_with writing.old.pages writing.old.tag writing.old.lines ≡ log_start }
    requires none { writing.old.no_room ≡ None }
    ensures ends { Ends R.gave R.failed W.took W.refused W.unflushed F.access_in writing.old.room
        reader.old reader.new writing.old.writer.now writing.new.writer.now result }
    ensures same { writing.new.writer.ghost_name ≡ writing.old.writer.ghost_name }
{
    match read_lines_within(reader, writing, MAX_PAIR, MOST_LOG_LINES, buffer) {
        Ok(()) => Ok(()),
        Err(Stop::Fault(fault)) => Err(LogFault::Trace(fault)),
        Err(Stop::Halted) => Err(match writing.no_room {
            Some(fault) => LogFault::NoRoom(fault),
            None => LogFault::Trace(TraceFault::Write),
        }),
    }
}

/// Writes the loads and stores of a log as lines of a trace, over `words` words of memory.
///
/// Each word that a load touches is a line `load TAG AT`, each one of a store `store AT MASK WORD`,
/// upwards; a modification loads, then stores. Tags run from 0 to 65,535 and begin again. Bytes
/// outside the mask are 0. Memory holds as many pages as fit whole.
///
/// [`LogFault::Trace`]: the first line with a fault, by [`LogFormat::access_said`] or longer than
/// 768 bytes; or a stream failed; or there are more than [`MOST_LOG_LINES`]. [`LogFault::NoRoom`]:
/// the first line that touches a page without room. Nothing of that line is written; all lines
/// before are, and flushed unless the writer failed. `OutOfMemory` comes before any read or write.
/// No error is tried again.
///
/// 4,096 bytes are allocated before the first read; pages stand on the stack. A line takes some
/// twenty steps a word, and a search if its page isn't the last line's. The writer is flushed
/// before each read and at the end.
pub fn write_requests<R: Source, W: Sink, F: LogFormat>(
    alloc: Global,
    reader: &mut R,
    writer: &mut W,
    format: &F,
    words: u32,
) -> Result<(), LogFault>
    requires { words ≤ MAX_WORDS }
    ensures { Ends R.gave R.failed W.took W.refused W.unflushed F.access_in (words / PAGE_WORDS) reader.old
        reader.new writer.old writer.new result }
{
    let mut buffer = vec![in alloc; 0u8; BUFFER_LEN]?;
    let mut writing = Writing {
        writer,
        format,
        out: LineText::new(),
        room: u64::from(words) / PAGE_WORDS,
        pages: Pages::new(),
        tag: 0,
        lines: 0,
        no_room: None,
    };
    write_through(reader, &mut writing, &mut buffer)
}
