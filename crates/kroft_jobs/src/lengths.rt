//! A run's length, measured before any of it is written.

ghost use Rattle.std.specs.Prelude.{◌≡◌, ◌<◌, ◌++◌, true, nat_lt, []};
ghost use Rattle.trace_text.specs.Codes.{most_lines};
ghost use Rattle.kroft_jobs.specs.Lengths as lengths;
ghost use Rattle.kroft_jobs.specs.Lengths.{Measured};

use std::alloc::Global;
use std::io;
use trace_text::{MAX_LINES, Sink};

// A run of no more bytes is kept as it is measured, and driven once.
const MOST_KEPT: usize = 16_777_216;

/// What measuring found.
#[derive(Drop)]
pub(crate) enum RunLength {
    /// Its text and rounds; a check reads it.
    Kept { text: Vec<u8>, rounds: u64 },
    /// A check can read it.
    Readable,
    /// A check doesn't read all lines.
    TooLong,
}

/// Counts a run's lines up to the first one too many, and keeps its text while short.
#[derive(Drop)]
pub(crate) struct RunMeasure {
    // How many lines it took.
    pub(crate) lines: u64,
    pub(crate) is_kept: bool,
    pub(crate) text: Vec<u8>,
}

fn is_end(byte: &u8) -> bool
    ensures { result ≡ lengths.is_end byte.now }
{
    *byte == b'\n'
}

fn line_count(bytes: &[u8]) -> usize
    ensures { result ≡ lengths.line_count bytes.now }
{
    bytes.iter().filter(|byte| is_end(byte)).count()
}

impl RunMeasure {
    /// Before the run's first line.
    pub(crate) fn new(alloc: Global) -> RunMeasure
        ensures lines { result.lines ≡ 0 }
        ensures kept { result.is_kept ≡ true }
        ensures text { result.text.items ≡ [] }
    {
        RunMeasure {
            lines: 0,
            is_kept: true,
            text: Vec::new(alloc),
        }
    }

    fn is_too_long(&self) -> bool
        ensures { result ≡ nat_lt most_lines self.now.lines }
    {
        self.lines > MAX_LINES
    }

    pub(crate) fn length(self, rounds: u64) -> RunLength
        ensures { result ≡ lengths.length_of self rounds }
    {
        if self.is_too_long() {
            RunLength::TooLong
        } else if self.is_kept {
            RunLength::Kept {
                text: self.text,
                rounds,
            }
        } else {
            RunLength::Readable
        }
    }

    // Keeps these bytes, if all was kept and there is room.
    fn keep(&mut self, bytes: &[u8])
        ensures lines { self.new.lines ≡ self.old.lines }
        ensures kept { self.new.is_kept ≡ true
            → (self.old.is_kept ≡ true) × (self.new.text.items ≡ self.old.text.items ++ bytes.now) }
    {
        let room = MOST_KEPT.saturating_sub(self.text.len());
        if !self.is_kept || bytes.len() > room {
            self.is_kept = false;
            return;
        }
        self.is_kept = self.text.extend_from_slice(bytes).is_ok();
    }
}

impl Sink for RunMeasure {
    ghost took = { λ s bytes t. Measured s bytes t };

    ghost refused = { λ s t. most_lines < s.lines };

    ghost unflushed = { λ s t. ⊥ };

    fn write_some(&mut self, buf: &[u8]) -> io::Result<usize> {
        if self.is_too_long() {
            return Ok(0);
        }
        self.lines += line_count(buf) as u64;
        self.keep(buf);
        Ok(buf.len())
    }

    fn flush_all(&mut self) -> io::Result<()> {
        Ok(())
    }
}
