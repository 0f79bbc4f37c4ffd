//! A log read whole: requests in groups by access.
ghost use Rattle.std.specs.Prelude.{◌≡◌, [], ◌+◌, ◌/◌, ◌≤◌, ◌<◌, ◌^◌, ◌++◌, ◌∷◌, length, None, OnOk, OnErr, IfOk, IfErr};
ghost use Rattle.std.specs.List.{AllByRecursion};
ghost use Rattle.trace_text.specs.Codes.{most_lines};
ghost use Rattle.trace_text.specs.Requests.{IsRequest};
ghost use Rattle.trace_text.specs.declared.fault.TheConstants.{BUFFER_LEN, MAX_PAIR};
ghost use Rattle.access_logs.specs.declared.pages.TheConstants.{MAX_PAGES, PAGE_WORDS};
ghost use Rattle.access_logs.specs.declared.writing.TheConstants.{MOST_LOG_LINES};
ghost use Rattle.access_logs.specs.declared.access.TheConstants.{MAX_TOUCHED};
ghost use Rattle.access_logs.specs.Accesses.{IsWithin, first_word_of};
ghost use Rattle.access_logs.specs.Requests.{load_of, store_of, loads_of, stores_of, requests_of};
ghost use Rattle.access_logs.specs.Logs.{log_start, state_with, fault_by};
ghost use Rattle.access_logs.specs.Reads.{LogSays, LogFails, Kept, KeptMore, Halts, HaltsAt};

use crate::access::{Access, AccessKind};
use crate::fault::{LogFault, NoRoom};
use crate::format::LogFormat;
use crate::pages::{PAGE_WORDS, Pages};
use crate::requests::{tag_after, tag_behind};
use crate::writing::{MAX_WORDS, MOST_LOG_LINES};
use flat_model::Event;
use std::alloc::Global;
use trace_text::{
    BUFFER_LEN, Collector, Failed, MAX_LINES, MAX_PAIR, Source, Stop, TraceFault, Uncollected,
    read_lines_within,
};

/// An access and its requests.
#[derive(Clone, Copy, Debug, PartialEq, Eq)]
pub struct AccessGroup {
    /// What the access does.
    pub kind: AccessKind,
    /// As [`Access::request_count`] says.
    pub requests: u64,
}

/// What a log says.
#[derive(Drop)]
pub struct LogRequests {
    /// Its requests, in order.
    pub requests: Vec<Event>,
    /// Each access's group, in the order of the requests.
    pub groups: Vec<AccessGroup>,
}

fn load(pages: &Pages, tag: u16, access: Access, i: u64) -> Event
    requires within { IsWithin access }
    requires few { i ≤ MAX_TOUCHED }
    ensures { result ≡ load_of pages.now tag access i }
{
    Event::Load {
        tag: tag_behind(tag, i),
        at: pages.memory_word(access.first_word() + i),
    }
}

fn store(pages: &Pages, number: u64, access: Access, i: u64) -> Event
    requires within { IsWithin access }
    requires last { first_word_of access + i < 2 ^ 62 }
    ensures { result ≡ store_of pages.now number access i }
{
    let word = access.first_word() + i;
    Event::Store {
        at: pages.memory_word(word),
        word: access.word(number, word),
        lanes: access.lanes(word),
    }
}

// Keeps a request.
fn push(requests: &mut Vec<Event>, request: Event) -> Result<(), Uncollected>
    ensures ok { OnOk result (requests.new.items ≡ requests.old.items ++ request ∷ []) }
    ensures err { IfErr result (λ miss. miss ≡ Uncollected.Halted) }
{
    requests.push(request)?;
    Ok(())
}

// Keeps loads, with tags from this one on.
fn push_loads(
    requests: &mut Vec<Event>,
    pages: &Pages,
    tag: u16,
    access: Access,
) -> Result<(), Uncollected>
    requires { IsWithin access }
    ensures ok { OnOk result (requests.new.items ≡ requests.old.items ++ loads_of pages.now tag access) }
    ensures err { IfErr result (λ miss. miss ≡ Uncollected.Halted) }
{
    for i in 0..access.word_count() {
        push(requests, load(pages, tag, access, i))?;
    }
    Ok(())
}

fn push_stores(
    requests: &mut Vec<Event>,
    pages: &Pages,
    number: u64,
    access: Access,
) -> Result<(), Uncollected>
    requires { IsWithin access }
    ensures ok { OnOk result (requests.new.items ≡ requests.old.items ++ stores_of pages.now number access) }
    ensures err { IfErr result (λ miss. miss ≡ Uncollected.Halted) }
{
    for i in 0..access.word_count() {
        push(requests, store(pages, number, access, i))?;
    }
    Ok(())
}

fn push_access(
    requests: &mut Vec<Event>,
    pages: &Pages,
    tag: u16,
    number: u64,
    access: Access,
) -> Result<(), Uncollected>
    requires { IsWithin access }
    ensures ok { OnOk result
        (requests.new.items ≡ requests.old.items ++ requests_of pages.now tag number access) }
    ensures err { IfErr result (λ miss. miss ≡ Uncollected.Halted) }
{
    match access.kind {
        AccessKind::Load => push_loads(requests, pages, tag, access),
        AccessKind::Store => push_stores(requests, pages, number, access),
        AccessKind::Modify => {
            push_loads(requests, pages, tag, access)?;
            push_stores(requests, pages, number, access)
        }
    }
}

// The reading of a log.
#[derive(Drop)]
pub(crate) struct LogReading<'a, F> {
    pub(crate) format: &'a F,
    pub(crate) room: u64,
    pub(crate) pages: Pages,
    // The tag of the next load.
    pub(crate) tag: u16,
    // How many lines went before.
    pub(crate) lines: u64,
    pub(crate) requests: Vec<Event>,
    pub(crate) groups: Vec<AccessGroup>,
    // Why an access has no room, if so.
    pub(crate) fault: Option<LogFault>,
}

impl<'a, F: LogFormat> LogReading<'a, F> {
    fn keep(&mut self, number: u64, access: Access) -> Result<(), Uncollected>
        requires within { IsWithin access }
        requires number { number ≡ self.old.lines + 1 }
        requires room { self.old.room ≤ MAX_PAGES }
        requires pages { length self.old.pages ≤ self.old.room }
        requires few { length self.old.requests.items ≤ most_lines }
        requires none { self.old.fault ≡ None }
        ensures ok { OnOk result
            (KeptMore self.old.room (state_with self.old.pages self.old.tag self.old.lines)
            self.old.requests.items self.old.groups.items access
            (state_with self.new.pages self.new.tag (self.new.lines + 1)) self.new.requests.items
            self.new.groups.items) }
        ensures lines { OnOk result (self.new.lines ≡ self.old.lines) }
        ensures room { OnOk result (self.new.room ≡ self.old.room) }
        ensures none { OnOk result (self.new.fault ≡ None) }
        ensures err { IfErr result (λ miss. miss ≡ Uncollected.Halted) }
        ensures halts { OnErr result
            (Halts self.old.room (state_with self.old.pages self.old.tag self.old.lines)
            (length self.old.requests.items) access self.new.fault) }
    {
        self.pages.touch_all(access);
        let pages = self.pages.len() as u64;
        if pages > self.room {
            self.fault = Some(LogFault::NoRoom(NoRoom {
                line: number,
                pages,
            }));
            return Err(Uncollected::Halted);
        }
        let group = AccessGroup {
            kind: access.kind,
            requests: access.request_count(),
        };
        if self.requests.len() as u64 + group.requests > MAX_LINES {
            self.fault = Some(LogFault::Trace(TraceFault::TooManyLines));
            return Err(Uncollected::Halted);
        }
        push_access(&mut self.requests, &self.pages, self.tag, number, access)?;
        self.groups.push(group)?;
        self.tag = tag_after(self.tag, access);
        Ok(())
    }
}

impl<'a, F: LogFormat> Collector for LogReading<'a, F> {
    ghost fault_in = { fault_by F.access_in };

    ghost longest = { MAX_PAIR };

    ghost most_lines = { MOST_LOG_LINES };

    ghost went = { λ s texts t. Kept F.access_in t.room texts (state_with t.pages t.tag t.lines)
        t.requests.items t.groups.items
        × (t.room ≡ s.room) × (t.room ≤ MAX_PAGES) × (t.fault ≡ None) };

    ghost stopped = { λ s text t. HaltsAt F.access_in s.room (state_with s.pages s.tag s.lines) (length s.requests.items) text t.fault };

    ghost paused = { λ s t. t ≡ s };

    ghost unpaused = { λ s t. ⊥ };

    ghost holds_same = { λ s t. Unit {0} };

    fn collect(&mut self, number: u64, text: &[u8]) -> Result<(), Uncollected> {
        let said = self.format.access_said(text)?;
        match said {
            None => {
                self.lines = number;
                Ok(())
            }
            Some(access) => {
                self.keep(number, access)?;
                self.lines = number;
                Ok(())
            }
        }
    }

    fn pause(&mut self) -> Result<(), Failed> {
        Ok(())
    }
}

fn read_through<R: Source, F: LogFormat>(
    reader: &mut R,
    reading: &mut LogReading<F>,
    buffer: &mut [u8],
) -> Result<(), LogFault>
    requires buffer { length buffer.old ≡ BUFFER_LEN }
    requires room { reading.old.room ≤ MAX_PAGES }
    requires fresh { state_with reading.old.pages reading.old.tag reading.old.lines ≡ log_start }
    requires requests { reading.old.requests.items ≡ [] }
    requires groups { reading.old.groups.items ≡ [] }
    requires none { reading.old.fault ≡ None }
    ensures said { OnOk result
        (LogSays R.gave F.access_in reading.old.room reader.old reader.new reading.new.requests.items
        reading.new.groups.items) }
    ensures fault { IfErr result
        (LogFails R.gave R.failed F.access_in reading.old.room reader.old reader.new) }
{
    match read_lines_within(reader, reading, MAX_PAIR, MOST_LOG_LINES, buffer) {
        Ok(()) => Ok(()),
        Err(Stop::Fault(fault)) => Err(LogFault::Trace(fault)),
        Err(Stop::Halted) => Err(match reading.fault {
            Some(fault) => fault,
            None => LogFault::Trace(TraceFault::OutOfMemory),
        }),
    }
}

/// Reads a log: the requests that [`write_requests`](crate::write_requests) writes over as many
/// words, in groups by access.
///
/// The faults are that call's, without `Write`: the first faulty line, or the first without room.
/// `TooManyLines` also says that there are more than 16,777,216 requests. A fault returns no
/// request; the reader may have been read beyond it. `OutOfMemory` may replace any answer.
///
/// 4,096 bytes are allocated before the first read, and more for what is returned.
pub fn read_log<R: Source, F: LogFormat>(
    alloc: Global,
    reader: &mut R,
    format: &F,
    words: u32,
) -> Result<LogRequests, LogFault>
    requires { words ≤ MAX_WORDS }
    ensures said { IfOk result
        (λ log. LogSays R.gave F.access_in (words / PAGE_WORDS) reader.old reader.new log.requests.items
        log.groups.items) }
    ensures requests { IfOk result (λ log. AllByRecursion IsRequest log.requests.items) }
    ensures fault { IfErr result
        (LogFails R.gave R.failed F.access_in (words / PAGE_WORDS) reader.old reader.new) }
{
    let mut buffer = vec![in alloc; 0u8; BUFFER_LEN]?;
    let mut reading = LogReading {
        format,
        room: u64::from(words) / PAGE_WORDS,
        pages: Pages::new(),
        tag: 0,
        lines: 0,
        requests: Vec::new(alloc),
        groups: Vec::new(alloc),
        fault: None,
    };
    read_through(reader, &mut reading, &mut buffer)?;
    Ok(LogRequests {
        requests: reading.requests,
        groups: reading.groups,
    })
}
