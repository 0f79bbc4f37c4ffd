//! A text is read to its end, line by line: the one loop over pieces and lines.
ghost use Rattle.std.specs.Prelude.{◌≡◌, ℕ, ◌+◌, ◌≤◌, ◌++◌, ◌∷◌, [], List, None, Option, length, OnOk, OnErr, IfOk, IfErr};
ghost use Rattle.trace_text.specs.declared.fault.TheConstants.{BUFFER_LEN, MAX_LINES, MAX_LINE_LIMIT};
ghost use Rattle.trace_text.specs.declared.lines.LineFault.{LineFault};
ghost use Rattle.trace_text.specs.Collecting.{Misses, AllCollected, Misread, Reads, ReadsWithin, AfterPause};

use crate::fault::{MAX_LINES, TraceFault};
use crate::lines::LineFault;
use crate::pieces::{Failed, begun_fault, end_of_line, fill, keep_end};
use crate::streams::Source;
use std::alloc::AllocFailed;

/// Why a line wasn't taken.
#[derive(Clone, Copy)]
pub enum Uncollected {
    /// It has this fault.
    Fault(LineFault),
    /// The collector stopped.
    Halted,
}

impl From<LineFault> for Uncollected {
    ghost use Rattle.trace_text.specs.declared.reading.Uncollected.TheVariants.{Fault};

    ghost from_gives = { λ fault miss. miss ≡ Fault fault };

    fn from(fault: LineFault) -> Uncollected {
        Uncollected::Fault(fault)
    }
}

impl From<Failed> for Uncollected {
    ghost use Rattle.trace_text.specs.declared.reading.Uncollected.TheVariants.{Halted};

    ghost from_gives = { λ _failed miss. miss ≡ Halted };

    fn from(_failed: Failed) -> Uncollected {
        Uncollected::Halted
    }
}

impl<T: Drop> From<AllocFailed<T>> for Uncollected {
    ghost use Rattle.trace_text.specs.declared.reading.Uncollected.TheVariants.{Halted};

    ghost from_gives = { λ _failed miss. miss ≡ Halted };

    fn from(_failed: AllocFailed<T>) -> Uncollected {
        Uncollected::Halted
    }
}

/// Why a text wasn't read to its end.
#[derive(Clone, Copy)]
pub enum Stop {
    /// A fault of the text or its reader.
    Fault(TraceFault),
    /// The collector stopped.
    Halted,
}

impl From<Failed> for Stop {
    ghost use Rattle.trace_text.specs.declared.reading.Stop.TheVariants.{Halted};

    ghost from_gives = { λ _failed stop. stop ≡ Halted };

    fn from(_failed: Failed) -> Stop {
        Stop::Halted
    }
}

impl Stop {
    /// The fault that is answered, where this one stands for the collector's own.
    pub fn fault_or(self, halted: TraceFault) -> TraceFault
        ensures fault { (fault : TraceFault) → self ≡ Stop.Fault fault → result ≡ fault }
        ensures halted { self ≡ Stop.Halted → result ≡ halted }
    {
        match self {
            Stop::Fault(fault) => fault,
            Stop::Halted => halted,
        }
    }
}

/// What becomes of the lines of a text.
pub trait Collector {
    // The fault of a line, where it has one.
    ghost fault_in: { List ℕ → Option LineFault };

    // How many bytes a line has at most, LF not counted.
    ghost longest: { ℕ };

    // How many lines a text has at most.
    ghost most_lines: { ℕ };

    // From one state to the other, these lines were taken.
    ghost went: { Self → List (List ℕ) → Self → Type 0 };

    // It stopped at this line.
    ghost stopped: { Self → List ℕ → Self → Type 0 };

    // A pause was made.
    ghost paused: { Self → Self → Type 0 };

    // It stopped at a pause.
    ghost unpaused: { Self → Self → Type 0 };

    // It still holds what it borrowed.
    ghost holds_same: { Self → Self → Type 0 };

    /// Takes the line of this number, counted from 1, without its LF. [`Uncollected::Fault`] is the
    /// fault of the line, and leaves the collector as it was. [`Uncollected::Halted`] says that the
    /// collector stopped at a line without a fault, which may be taken in part: [`read_lines`] gives
    /// it no line more, and no pause.
    fn collect(&mut self, number: u64, text: &[u8]) -> Result<(), Uncollected>
        requires went { (start : Self) × (texts : List (List ℕ)) × went start texts self.old
            × (number ≡ length texts + 1) }
        requires few { number ≤ most_lines }
        requires short { length text.now ≤ longest }
        ensures good { OnOk result (fault_in text.now ≡ None) }
        ensures kept { OnOk result
            ((start : Self) (texts : List (List ℕ)) → number ≡ length texts + 1
            → went start texts self.old → went start (texts ++ text.now ∷ []) self.new) }
        ensures miss { IfErr result (Misses stopped (fault_in text.now) self.old text.now self.new) }
        ensures same { (start : Self) → holds_same start self.old → holds_same start self.new };

    /// What is due before the text's reader is waited for, and before a fault is returned. [`Failed`] says
    /// that the collector stopped, all lines before taken: [`read_lines`] gives it no line more, and no
    /// pause.
    fn pause(&mut self) -> Result<(), Failed>
        ensures ok { OnOk result (paused self.old self.new) }
        ensures kept { OnOk result
            ((start : Self) (texts : List (List ℕ)) → went start texts self.old
            → went start texts self.new) }
        ensures err { OnErr result (unpaused self.old self.new) }
        ensures same { (start : Self) → holds_same start self.old → holds_same start self.new };
}

fn collect_ended<C: Collector>(
    collector: &mut C,
    most: usize,
    limit: u64,
    count: &mut u64,
    bytes: &[u8],
) -> Result<usize, Stop>
    requires went { (start : C) × (texts : List (List ℕ)) × C.went start texts collector.old
        × (count.old ≡ length texts) }
    requires few { count.old ≤ limit }
    requires longest { most ≡ C.longest }
    requires limit { limit ≡ C.most_lines }
    ensures ok { IfOk result
        (λ left. AllCollected C.fault_in C.went most limit collector.old count.old bytes.now left
        collector.new count.new) }
    ensures err { IfErr result
        (Misread C.fault_in C.went C.stopped most limit collector.old count.old bytes.now collector.new) }
    ensures same { (start : C) → C.holds_same start collector.old
        → C.holds_same start collector.new }
{
    let mut rest = bytes;
    'lines: while let Some(at) = end_of_line(rest) {
        if *count == limit {
            return Err(Stop::Fault(TraceFault::TooManyLines));
        }
        let number = *count + 1;
        if at > most {
            let fault = LineFault::TooLong;
            return Err(Stop::Fault(TraceFault::Line { number, fault }));
        }
        match collector.collect(number, &rest[..at]) {
            Ok(()) => {}
            Err(miss) => match miss {
                Uncollected::Fault(fault) => {
                    return Err(Stop::Fault(TraceFault::Line { number, fault }));
                }
                Uncollected::Halted => return Err(Stop::Halted),
            },
        }
        *count = number;
        rest = &rest[at + 1..];
    }
    Ok(rest.len())
}

// Makes a pause before a fault is returned.
fn told<C: Collector>(collector: &mut C, fault: TraceFault) -> Stop
    ensures stop { AfterPause C.paused C.unpaused collector.old collector.new fault result }
    ensures same { (start : C) → C.holds_same start collector.old
        → C.holds_same start collector.new }
{
    match collector.pause() {
        Ok(()) => Stop::Fault(fault),
        Err(_) => Stop::Halted,
    }
}

/// Reads a text of at most `limit` lines, each of at most `most` bytes, LF not counted, up to its first
/// end, through a buffer. The collector pauses before each read, and so at the end, and before a fault is returned.
///
/// `most` is at most [`MAX_LINE_LIMIT`](crate::MAX_LINE_LIMIT), and the buffer has
/// [`BUFFER_LEN`](crate::BUFFER_LEN) bytes. [`Stop::Fault`] is the first fault of the text or its
/// reader, the lines before it collected; [`Stop::Halted`] says that the collector stopped.
pub fn read_lines_within<R: Source, C: Collector>(
    reader: &mut R,
    collector: &mut C,
    most: usize,
    limit: u64,
    buffer: &mut [u8],
) -> Result<(), Stop>
    requires longest { most ≡ C.longest }
    requires limit { limit ≡ C.most_lines }
    requires most { most ≤ MAX_LINE_LIMIT }
    requires room { length buffer.old ≡ BUFFER_LEN }
    requires went { C.went collector.old [] collector.old }
    requires same { C.holds_same collector.old collector.old }
    ensures reads { ReadsWithin R.gave R.failed C.fault_in C.went C.stopped C.paused C.unpaused most limit
        reader.old reader.new collector.old collector.new result }
    ensures same { C.holds_same collector.old collector.new }
{
    let mut count = 0u64;
    let mut filled = 0usize;
    'pieces: loop {
        collector.pause()?;
        let Ok(given) = fill(reader, buffer, filled) else {
            return Err(Stop::Fault(TraceFault::Read));
        };
        if given == 0 {
            if filled == 0 {
                return Ok(());
            }
            let number = count + 1;
            let fault = LineFault::NotEnded;
            return Err(Stop::Fault(TraceFault::Line { number, fault }));
        }
        let end = filled + given;
        let left = match collect_ended(collector, most, limit, &mut count, &buffer[..end]) {
            Ok(left) => left,
            Err(Stop::Halted) => return Err(Stop::Halted),
            Err(Stop::Fault(fault)) => return Err(told(collector, fault)),
        };
        if let Some(fault) = begun_fault(count, left, most, limit) {
            return Err(told(collector, fault));
        }
        keep_end(buffer, end - left, end);
        filled = left;
    }
}

/// Reads a text of at most [`MAX_LINES`] lines, as [`read_lines_within`] does.
pub fn read_lines<R: Source, C: Collector>(
    reader: &mut R,
    collector: &mut C,
    most: usize,
    buffer: &mut [u8],
) -> Result<(), Stop>
    requires longest { most ≡ C.longest }
    requires limit { C.most_lines ≡ MAX_LINES }
    requires most { most ≤ MAX_LINE_LIMIT }
    requires room { length buffer.old ≡ BUFFER_LEN }
    requires went { C.went collector.old [] collector.old }
    requires same { C.holds_same collector.old collector.old }
    ensures reads { Reads R.gave R.failed C.fault_in C.went C.stopped C.paused C.unpaused most reader.old
        reader.new collector.old collector.new result }
    ensures same { C.holds_same collector.old collector.new }
{
    read_lines_within(reader, collector, most, MAX_LINES, buffer)
}
