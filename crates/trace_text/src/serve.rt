//! Serving: each line is applied and its answer written before the next.
ghost use Rattle.std.specs.Prelude.{◌≡◌, [], ◌+◌, ◌<◌, ◌≤◌, ◌++◌, length, Ok, OnOk, OnErr, Some};
ghost use Rattle.trace_text.specs.declared.fault.TheConstants.{BUFFER_LEN, MAX_LINE, MAX_LINES, MAX_PAIR};
ghost use Rattle.trace_text.specs.declared.text.TheConstants.{MAX_REGISTER_TEXT};
ghost use Rattle.std.specs.Option.{option_to_list};
ghost use Rattle.flat_model.specs.Flat.{flat_run};
ghost use Rattle.trace_text.specs.Streams.{Moves, Stopped};
ghost use Rattle.trace_text.specs.Lines.{line_of};
ghost use Rattle.machine_core.specs.AnyMachine.{flat};
ghost use Rattle.trace_text.specs.Texts.{reply_text, after_line};
ghost use Rattle.trace_text.specs.Serving.{IsWithin, LineServed, Applied, Broken, Ends, no_counts, counted_reply, event_in, answer_to};
ghost use Rattle.trace_text.specs.Serving.{trace_fault};

use crate::fault::{BUFFER_LEN, MAX_LINE, TraceFault};
use crate::lines::{Line, line_said};
use crate::pieces::Failed;
use crate::reading::{Collector, Uncollected, read_lines};
use crate::streams::{Sink, Source};
use crate::text::LineText;
use flat_model::Answer;
use machine_core::AnyMachine;
use std::alloc::Global;

/// What was served, by kind of answer.
#[derive(Clone, Copy, Debug, Default, PartialEq, Eq)]
pub struct Counts {
    /// All lines.
    pub lines: u64,
    /// Accepted events.
    pub accepted: u64,
    /// Events that moved something on.
    pub moved: u64,
    /// Replies taken.
    pub values: u64,
    /// Events with nothing to do.
    pub nothing: u64,
    /// Refused events.
    pub refused: u64,
}

/// Writes all bytes. After [`Failed`] a front of them may be written.
// Inlined, as is all that runs for each line: else one shared copy is called.
#[inline(always)]
pub fn write_whole<W: Sink>(writer: &mut W, bytes: &[u8]) -> Result<(), Failed>
    ensures ok { OnOk result (Moves W.took writer.old bytes.now writer.new) }
    ensures err { OnErr result (Stopped W.took W.refused writer.old bytes.now writer.new) }
{
    let mut rest = bytes;
    while !rest.is_empty() {
        match writer.write_some(rest)? {
            n if n == rest.len() => return Ok(()),
            0 => return Err(Failed),
            n => rest = &rest[n..],
        }
    }
    Ok(())
}

impl Counts {
    #[inline(always)]
    fn count(&mut self, answer: Option<Answer>)
        requires within { IsWithin self.old }
        requires more { self.old.lines < MAX_LINES }
        ensures counts { self.new ≡ counted_reply self.old answer }
        ensures within { IsWithin self.new }
        ensures number { self.new.lines ≡ self.old.lines + 1 }
    {
        self.lines += 1;
        match answer {
            None => {}
            Some(Answer::Accepted) => self.accepted += 1,
            Some(Answer::Moved) => self.moved += 1,
            Some(Answer::Value { .. }) => self.values += 1,
            Some(Answer::Nothing) => self.nothing += 1,
            Some(Answer::Refused(_)) => self.refused += 1,
        }
    }
}

impl LineText {
    #[inline(always)]
    #[tactic(auto, unfolding(crate::specs::Texts::reply_text, crate::specs::Texts::after_line))]
    fn push_reply<M: AnyMachine>(&mut self, machine: &mut M, line: Line) -> Option<Answer>
        requires { length self.old + MAX_REGISTER_TEXT ≤ MAX_PAIR }
        ensures answer { result ≡ answer_to (M.state machine.old) line }
        ensures text { self.new ≡ self.old ++ reply_text (M.state machine.old) line }
        ensures len { length self.new ≤ length self.old + MAX_REGISTER_TEXT }
        ensures after { M.state machine.new ≡ after_line (M.state machine.old) line }
        ensures runs { flat_run (flat (M.state machine.old)) (option_to_list (event_in line))
            (option_to_list (answer_to (M.state machine.old) line))
            ≡ Some (flat (M.state machine.new)) }
    {
        match line {
            Line::Event(event) => {
                let answer = machine.apply(event);
                self.push_answer(answer);
                return Some(answer);
            }
            Line::Register(slot) => self.push_register(machine, slot),
            Line::Bank(at) => self.push_bank(machine.bank_word(at)),
            Line::Settled => self.push_settled(machine.settled()),
        }
        None
    }
}

#[derive(Drop)]
pub(crate) struct Serving<'a, W, M> {
    pub(crate) writer: &'a mut W,
    pub(crate) machine: &'a mut M,
    pub(crate) out: LineText,
    pub(crate) counts: Counts,
}

impl<'a, W: Sink, M: AnyMachine> Serving<'a, W, M> {
    #[inline(always)]
    fn serve(&mut self, text: &[u8], line: Line) -> Result<(), Failed>
        requires short { length text.now ≤ MAX_LINE }
        requires said { line_of text.now ≡ Ok line }
        requires within { IsWithin self.old.counts }
        requires more { self.old.counts.lines < MAX_LINES }
        ensures ok { OnOk result
            (LineServed W.took self.old.writer.now (M.state self.old.machine.now) self.old.counts text.now
            self.new.writer.now (M.state self.new.machine.now) self.new.counts) }
        ensures err { OnErr result
            (Broken W.took W.refused self.old.writer.now (M.state self.old.machine.now) text.now
            self.new.writer.now (M.state self.new.machine.now)) }
        ensures same_writer { self.new.writer.ghost_name ≡ self.old.writer.ghost_name }
        ensures same_machine { self.new.machine.ghost_name ≡ self.old.machine.ghost_name }
    {
        self.out.clear();
        self.out.push_bytes(text);
        self.out.push_bytes(b" -> ");
        let answer = self.out.push_reply(self.machine, line);
        self.counts.count(answer);
        self.out.push(b'\n');
        write_whole(self.writer, self.out.as_bytes())
    }
}

impl<'a, W: Sink, M: AnyMachine> Collector for Serving<'a, W, M> {
    ghost fault_in = { trace_fault };

    ghost longest = { MAX_LINE };

    ghost most_lines = { MAX_LINES };

    ghost went = { λ s texts t. Applied W.took s.writer.now (M.state s.machine.now) texts t.writer.now (M.state t.machine.now) t.counts };

    ghost stopped = { λ s text t. Broken W.took W.refused s.writer.now (M.state s.machine.now) text t.writer.now (M.state t.machine.now) };

    ghost paused = { λ s t. W.took s.writer.now [] t.writer.now × (M.state t.machine.now ≡ M.state s.machine.now) × (t.counts ≡ s.counts) };

    ghost unpaused = { λ s t. W.unflushed s.writer.now t.writer.now × (M.state t.machine.now ≡ M.state s.machine.now) };

    ghost holds_same = { λ s t. (t.writer.ghost_name ≡ s.writer.ghost_name) × (t.machine.ghost_name ≡ s.machine.ghost_name) };

    fn collect(&mut self, _number: u64, text: &[u8]) -> Result<(), Uncollected> {
        let line = line_said(text)?;
        self.serve(text, line)?;
        Ok(())
    }

    fn pause(&mut self) -> Result<(), Failed> {
        self.writer.flush_all()?;
        Ok(())
    }
}

fn serve_through<R: Source, W: Sink, M: AnyMachine>(
    reader: &mut R,
    serving: &mut Serving<W, M>,
    buffer: &mut [u8],
) -> Result<Counts, TraceFault>
    requires room { length buffer.old ≡ BUFFER_LEN }
    requires fresh { serving.old.counts ≡ no_counts }
    ensures ends { Ends R.gave R.failed W.took W.refused W.unflushed reader.old reader.new
        serving.old.writer.now serving.new.writer.now (M.state serving.old.machine.now)
        (M.state serving.new.machine.now) result }
    ensures same_writer { serving.new.writer.ghost_name ≡ serving.old.writer.ghost_name }
    ensures same_core { serving.new.machine.ghost_name ≡ serving.old.machine.ghost_name }
{
    match read_lines(reader, serving, MAX_LINE, buffer) {
        Ok(()) => Ok(serving.counts),
        Err(stop) => Err(stop.fault_or(TraceFault::Write)),
    }
}

/// Serves a trace: each line is applied, and written with ` -> ` and what the machine answers or
/// shows, before the next. Returns the counts.
///
/// On a fault the lines before it were applied and written. After `Write` the last was applied, and
/// a front of its text may be written. `OutOfMemory` comes before any line. No error is tried
/// again. The reader may be read beyond the fault.
///
/// Memory: a buffer of 4,096 bytes. The writer is flushed before each read and at the end; a
/// refused flush is `Write`.
pub fn serve_text<R: Source, W: Sink, M: AnyMachine>(
    alloc: Global,
    reader: &mut R,
    writer: &mut W,
    machine: &mut M,
) -> Result<Counts, TraceFault>
    ensures { Ends R.gave R.failed W.took W.refused W.unflushed reader.old reader.new writer.old writer.new
        (M.state machine.old) (M.state machine.new) result }
{
    let mut buffer = vec![in alloc; 0u8; BUFFER_LEN]?;
    let mut serving = Serving {
        writer,
        machine,
        out: LineText::new(),
        counts: Counts::default(),
    };
    serve_through(reader, &mut serving, &mut buffer)
}
