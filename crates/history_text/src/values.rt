//! The lines of a history are written, and behind each answer to a load what it may have returned.

ghost use Rattle.std.specs.Prelude.{◌≡◌, ◌<◌, ℕ, List, [], ◌∷◌, ◌++◌, length, true, false, Ok, Some, IfOk, IfErr, OnOk};
ghost use Rattle.std.specs.Fmt.{WritesOnOk};
ghost use Rattle.std.specs.Option.{option_map};
ghost use Rattle.trace_text.specs.Streams.{Moves};
ghost use Rattle.trace_text.specs.declared.fault.TheConstants.{BUFFER_LEN, MAX_PAIR};
ghost use Rattle.history_sessions.specs.Kept.{IsKept};
ghost use Rattle.history_sessions.specs.Session.{Session, session_opening};
ghost use Rattle.history_text.specs.Lines.{line_of, seen_by};
ghost use Rattle.history_text.specs.Histories.{most_lines, history_fault, HasJudged, WereJudged};
ghost use Rattle.history_text.specs.Values.{any_text, set_text, sets_text, values_text, IsReturned, AreSetsFrom, AreValues, IsTold, Told};
ghost use Rattle.history_text.specs.Values.{TellStops, Flushes, WereTold, WriteStops, Writes, write_stop};

use crate::answers::{HistoryEnd, bytes_in_set, write_joined};
use crate::events::OwnedEvent;
use crate::lines::read_history_line;
use crate::reading::Judging;
use crate::refusals::{Stop, byte_address};
use history_sessions::{ByteSet, HistoryLaw, HistorySession, JudgeFault, OpenOperation, Rest};
use std::alloc::{AllocError, Global};
use std::fmt;
use std::mem::replace;
use trace_text::{
    BUFFER_LEN, Collector, Failed, MAX_PAIR, Sink, Source, Stop as ReadStop, TraceFault,
    Uncollected, read_lines_within, write_whole,
};

// These bytes, of which one is meant.
fn write_any<W: fmt::Write>(f: &mut fmt::Formatter<W>, bytes: &[u8]) -> fmt::Result
    ensures { WritesOnOk W.write_str_gives f.old result (any_text bytes.now) f.new }
{
    if bytes.len() == 256 {
        f.write_str("??")
    } else {
        write_joined(f, "|", bytes)
    }
}

// A set of bytes, of which one is meant.
#[derive(Clone, Copy)]
struct AnyOf(Option<ByteSet>);

impl fmt::Display for AnyOf {
    ghost output = { λ any. Some (set_text any.0) };

    fn fmt<W: fmt::Write>(&self, f: &mut fmt::Formatter<W>) -> fmt::Result {
        match self.0 {
            None => f.write_str("-"),
            Some(set) => {
                let bytes = bytes_in_set(set);
                write_any(f, bytes.as_slice())
            }
        }
    }
}

// What is written behind a line.
#[derive(Drop)]
struct Values(Option<Vec<Option<ByteSet>>>);

impl fmt::Display for Values {
    ghost output = { λ values. Some (values_text (option_map (λ sets. sets.items) values.0)) };

    fn fmt<W: fmt::Write>(&self, f: &mut fmt::Formatter<W>) -> fmt::Result {
        match &self.0 {
            None => Ok(()),
            Some(sets) => {
                f.write_str(" ->")?;
                write_sets(f, sets.as_slice())
            }
        }
    }
}

// A set for each byte of a load.
fn write_sets<W: fmt::Write>(f: &mut fmt::Formatter<W>, sets: &[Option<ByteSet>]) -> fmt::Result
    ensures { WritesOnOk W.write_str_gives f.old result (sets_text sets.now) f.new }
{
    for set in sets {
        let any = AnyOf(*set);
        write!(f, " {any}")?;
    }
    Ok(())
}

// What an open load may return at an address; `None`: the judge can't tell.
fn set_at(
    session: &HistorySession,
    number: u64,
    address: u64,
) -> Result<Option<ByteSet>, AllocError>
    ensures { IfOk result (λ set. (s : Session) → IsKept session.now s → IsReturned s.history number address set) }
{
    match session.may_return(number, address) {
        Ok(set) => Ok(set),
        Err(JudgeFault::Undecided { .. }) => Ok(None),
        Err(_) => Err(AllocError),
    }
}

// What an open load may return for each of its bytes.
fn sets_of(
    alloc: Global,
    session: &HistorySession,
    load: OpenOperation,
) -> Result<Vec<Option<ByteSet>>, AllocError>
    ensures length { IfOk result (λ sets. length sets.items ≡ load.length) }
    ensures sets { IfOk result (λ sets. (s : Session) → IsKept session.now s → AreSetsFrom s.history load 0 sets.items) }
{
    let mut sets = Vec::new(alloc);
    for place in 0..load.length {
        let set = set_at(session, load.number, byte_address(load, place as u64))?;
        sets.push(set)?;
    }
    Ok(sets)
}

// What the load that a line answers may have returned.
fn values_of(
    alloc: Global,
    session: &HistorySession,
    event: &Option<OwnedEvent>,
) -> Result<Values, AllocError>
    ensures { IfOk result (λ values. (s : Session) → IsKept session.now s
        → AreValues s (seen_by event.now) (option_map (λ sets. sets.items) values.0)) }
{
    let Some(OwnedEvent::LoadResponse { number, bytes: _ }) = event else {
        return Ok(Values(None));
    };
    match session.load_under(*number) {
        None => Ok(Values(None)),
        Some(load) => Ok(Values(Some(sets_of(alloc, session, load)?))),
    }
}

// What is written of a line: it, and what follows it.
fn told_line(alloc: Global, text: &[u8], values: &Values) -> Result<Vec<u8>, AllocError>
    ensures { IfOk result (λ line. line.items ≡ text.now ++ (values_text (option_map (λ sets. sets.items) values.now.0) ++ 10 ∷ [])) }
{
    let behind = format!(in alloc; "{values}\n")?;
    let mut line = Vec::from_slice(alloc, text)?;
    line.extend_from_slice(behind.as_bytes())?;
    Ok(line)
}

// Writes a line.
fn write_line<W: Sink>(
    writer: &mut W,
    judging: &Judging,
    text: &[u8],
    event: &Option<OwnedEvent>,
) -> Result<(), Stop>
    requires { line_of text.now ≡ Ok (seen_by event.now) }
    ensures ok { OnOk result ((s : Session) → IsKept judging.now.session s
        → (out : List ℕ) × IsTold s text.now out × Moves W.took writer.old out writer.new) }
    ensures stop { IfErr result (λ stop. (s : Session) → IsKept judging.now.session s
        → TellStops W.took W.refused s text.now writer.old writer.new stop) }
{
    let values = values_of(judging.alloc, &judging.session, event)?;
    let line = told_line(judging.alloc, text, &values)?;
    match write_whole(writer, line.as_slice()) {
        Ok(()) => Ok(()),
        Err(_) => Err(Stop::Fault(TraceFault::Write)),
    }
}

// What judges lines, and a writer of them that may have to be flushed.
#[derive(Drop)]
pub(crate) struct Writing<'a, W> {
    pub(crate) writer: &'a mut W,
    pub(crate) judging: &'a mut Judging,
    pub(crate) due: bool,
}

impl<'a, W: Sink> Writing<'a, W> {
    // Writes a line.
    fn write(&mut self, text: &[u8], event: &Option<OwnedEvent>) -> Result<(), Uncollected>
        requires { line_of text.now ≡ Ok (seen_by event.now) }
        ensures ok { OnOk result ((start : Session) (texts : List (List ℕ)) (first : W)
            → HasJudged start texts self.old.judging.now
            → Told W.took start first texts self.old.writer.now
            → Told W.took start first (texts ++ text.now ∷ []) self.new.writer.now) }
        ensures judging { OnOk result (self.new.judging.now ≡ self.old.judging.now) }
        ensures stop { IfErr result (λ miss. (miss ≡ Uncollected.Halted)
            × ((start : Session) (texts : List (List ℕ)) (first : W)
            → HasJudged start texts self.old.judging.now
            → Told W.took start first texts self.old.writer.now
            → WriteStops W.took W.refused start first texts text.now self.new.writer.now self.new.judging.now.stop)) }
        ensures same { self.new.writer.ghost_name ≡ self.old.writer.ghost_name }
        ensures same_judging { self.new.judging.ghost_name ≡ self.old.judging.ghost_name }
    {
        self.due = true;
        match write_line(self.writer, self.judging, text, event) {
            Ok(()) => Ok(()),
            Err(stop) => {
                self.judging.stop = stop;
                Err(Uncollected::Halted)
            }
        }
    }
}

impl<'a, W: Sink> Collector for Writing<'a, W> {
    ghost fault_in = { history_fault };

    ghost longest = { MAX_PAIR };

    ghost most_lines = { most_lines };

    ghost went = { λ s texts t. WereJudged s.judging.now texts t.judging.now
        × WereTold W.took s.judging.now s.writer.now texts t.writer.now
        × (t.due ≡ true → 0 < length texts) };

    ghost stopped = { λ s text t. (start : Session) (texts : List (List ℕ)) (first : W)
        → HasJudged start texts s.judging.now
        → Told W.took start first texts s.writer.now
        → WriteStops W.took W.refused start first texts text t.writer.now t.judging.now.stop };

    ghost paused = { λ s t. Flushes W.took s.due s.writer.now t.writer.now × (t.judging.now ≡ s.judging.now) };

    ghost unpaused = { λ s t. W.unflushed s.writer.now t.writer.now
        × (t.judging.now.stop ≡ write_stop) };

    ghost holds_same = { λ s t. (t.writer.ghost_name ≡ s.writer.ghost_name) × (t.judging.ghost_name ≡ s.judging.ghost_name) };

    fn collect(&mut self, number: u64, text: &[u8]) -> Result<(), Uncollected> {
        let event = read_history_line(text)?;
        self.write(text, &event)?;
        self.judging.judge(number, &event)
    }

    fn pause(&mut self) -> Result<(), Failed> {
        if !self.due {
            return Ok(());
        }
        self.due = false;
        match self.writer.flush_all() {
            Ok(()) => Ok(()),
            Err(_) => {
                self.judging.stop = Stop::Fault(TraceFault::Write);
                Err(Failed)
            }
        }
    }
}

// Reads a history to its end, or as far as it is judged, through a buffer, and writes its lines.
fn write_through<R: Source, W: Sink>(
    reader: &mut R,
    writing: &mut Writing<W>,
    buffer: &mut [u8],
) -> Result<HistoryEnd, TraceFault>
    requires room { length buffer.old ≡ BUFFER_LEN }
    requires due { writing.old.due ≡ false }
    requires begun { (start : Session) × HasJudged start [] writing.old.judging.now }
    ensures ends { (start : Session) → HasJudged start [] writing.old.judging.now
        → Writes R.gave R.failed W.took W.refused W.unflushed start reader.old reader.new
        writing.old.writer.now writing.new.writer.now result }
    ensures same { writing.new.writer.ghost_name ≡ writing.old.writer.ghost_name }
    ensures same_judging { writing.new.judging.ghost_name ≡ writing.old.judging.ghost_name }
{
    match read_lines_within(reader, writing, MAX_PAIR, u64::MAX, buffer) {
        Ok(()) => Ok(writing.judging.end()),
        Err(ReadStop::Fault(fault)) => Err(fault),
        Err(ReadStop::Halted) => {
            let none = Stop::Fault(TraceFault::OutOfMemory);
            replace(&mut writing.judging.stop, none).ended()
        }
    }
}

// The same from the first line on.
fn write_from<R: Source, W: Sink>(
    alloc: Global,
    reader: &mut R,
    writer: &mut W,
    judging: &mut Judging,
) -> Result<HistoryEnd, TraceFault>
    requires { (start : Session) × HasJudged start [] judging.old }
    ensures { (start : Session) → HasJudged start [] judging.old
        → Writes R.gave R.failed W.took W.refused W.unflushed start reader.old reader.new writer.old writer.new result }
{
    let mut buffer = vec![in alloc; 0u8; BUFFER_LEN]?;
    let mut writing = Writing {
        writer,
        judging,
        due: false,
    };
    write_through(reader, &mut writing, &mut buffer)
}

/// Reads a history and judges it as [`judge_by_law`](crate::judge_by_law) does, and writes each line
/// before it is judged, the first that is none of the law too. Behind the answer to an open load stands
/// what it may have returned, for each byte: ` -> 00|5a 5a` says that the first byte may be 00 or 5a, and
/// the second must be 5a; `??` stands for a byte that may be anything, and `-` for one of which the judge
/// can't tell. Each set is of its byte alone.
///
/// A faulty line isn't written, and nothing behind it. [`TraceFault::Write`] says that a write or a flush was refused:
/// a front of a line may be written. A fault is else as there, and all lines before it are written.
///
/// What was written since the last flush is flushed before each read, and so at the end, and before a fault. Behind a
/// line that isn't of the law, or isn't decided, and behind a refusal, nothing is flushed.
pub fn write_values_by_law<R: Source, W: Sink>(
    alloc: Global,
    reader: &mut R,
    writer: &mut W,
    law: HistoryLaw,
    image: &[u8],
    rest: Rest,
) -> Result<HistoryEnd, TraceFault>
    ensures { Writes R.gave R.failed W.took W.refused W.unflushed (session_opening law image.now rest) reader.old
        reader.new writer.old writer.new result }
{
    let session = HistorySession::new(alloc, law, image, rest)?;
    let mut judging = Judging::new(alloc, session);
    write_from(alloc, reader, writer, &mut judging)
}
