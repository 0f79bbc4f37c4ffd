//! A served trace is checked against flat memory.
ghost use Rattle.std.specs.Prelude.{◌≡◌, ℕ, ◌<◌, List, OnOk, IfOk, IfErr};
ghost use Rattle.trace_text.specs.declared.fault.TheConstants.{MAX_LINES, MAX_PAIR};
ghost use Rattle.flat_model.specs.Flat.{Flat};
ghost use Rattle.flat_model.specs.Memory.{shown};
ghost use Rattle.trace_text.specs.Reading.{ReadWhole, ReadFails};
ghost use Rattle.trace_text.specs.Checks.{step_with, pair_fault, IsJudged, IsJudgedFrom, JudgedFrom, Judges};

use crate::fault::{BUFFER_LEN, MAX_PAIR, TraceFault};
use crate::lines::Line;
use crate::pairs::{Pair, pair_said};
use crate::pieces::Failed;
use crate::reading::{Collector, Uncollected, read_lines};
use crate::streams::Source;
use flat_model::{Answer, Event, FlatMemory, StepFault};
use std::alloc::Global;

/// What a check found.
#[derive(Clone, Copy, Debug, PartialEq, Eq)]
pub enum CheckEnd {
    /// A run of flat memory, of so many steps.
    Flat { steps: u64 },
    /// The first line, counted from 1, whose answer flat memory doesn't give.
    Mismatch { line: u64 },
}

// Not exported, but `pub`: definitions of crates above name it.
#[derive(Clone, Copy)]
pub struct Step {
    pub event: Event,
    pub answer: Answer,
}

fn step_in(pair: Pair) -> Option<Step>
    ensures { result ≡ step_with pair.line pair.answer }
{
    match (pair.line, pair.answer) {
        (Line::Event(event), Some(answer)) => Some(Step { event, answer }),
        _ => None,
    }
}

// A fault in a later line goes before a mismatch, so lines are read on behind one.
#[derive(Drop)]
pub(crate) struct Checking {
    pub(crate) memory: FlatMemory,
    pub(crate) steps: u64,
    pub(crate) mismatch: Option<u64>,
}

impl Checking {
    fn judge(&mut self, number: u64, step: Step) -> Result<(), Uncollected>
        requires few { self.old.steps < MAX_LINES }
        ensures judged { OnOk result
            (Judges number step.event step.answer (shown self.old.memory) self.old.steps self.old.mismatch
            (shown self.new.memory) self.new.steps self.new.mismatch) }
        ensures err { IfErr result (λ miss. miss ≡ Uncollected.Halted) }
    {
        if self.mismatch.is_some() {
            return Ok(());
        }
        match self.memory.step(step.event, step.answer) {
            Ok(()) => {
                self.steps += 1;
                Ok(())
            }
            Err(StepFault::Mismatch) => {
                self.mismatch = Some(number);
                Ok(())
            }
            Err(StepFault::OutOfMemory) => Err(Uncollected::Halted),
        }
    }

    fn told(self) -> Checked
        ensures { (start : Flat) (texts : List (List ℕ))
            → JudgedFrom start texts self.steps self.mismatch (shown self.memory)
            → IsJudgedFrom start texts result.end (shown result.memory) }
    {
        let end = match self.mismatch {
            None => CheckEnd::Flat { steps: self.steps },
            Some(line) => CheckEnd::Mismatch { line },
        };
        Checked {
            end,
            memory: self.memory,
        }
    }
}

impl Collector for Checking {
    ghost fault_in = { pair_fault };

    ghost longest = { MAX_PAIR };

    ghost most_lines = { MAX_LINES };

    ghost went = { λ s texts t. JudgedFrom (shown s.memory) texts t.steps t.mismatch (shown t.memory) };

    ghost stopped = { λ s text t. Unit {0} };

    ghost paused = { λ s t. t ≡ s };

    ghost unpaused = { λ s t. ⊥ };

    ghost holds_same = { λ s t. Unit {0} };

    fn collect(&mut self, number: u64, text: &[u8]) -> Result<(), Uncollected> {
        let pair = pair_said(text)?;
        match step_in(pair) {
            None => Ok(()),
            Some(step) => self.judge(number, step),
        }
    }

    fn pause(&mut self) -> Result<(), Failed> {
        Ok(())
    }
}

/// What a check found, and the memory it ended with.
#[derive(Drop)]
pub struct Checked {
    /// What was found.
    pub end: CheckEnd,
    /// Flat memory behind the steps, or as it was before a mismatch.
    pub memory: FlatMemory,
}

/// Judges a whole served trace from this memory on. A fault anywhere goes before a mismatch.
///
/// Lines are read as by [`read_pair`](crate::read_pair). A fault gives no result: the first in the
/// order of lines, [`TraceFault::OutOfMemory`] at any time, never [`TraceFault::Write`]. The reader
/// may be read beyond it.
///
/// Memory: a buffer of 4,096 bytes, and what owed tags take.
pub fn check_from<R: Source>(
    alloc: Global,
    reader: &mut R,
    memory: FlatMemory,
) -> Result<Checked, TraceFault>
    ensures judged { IfOk result
        (λ checked. (texts : List (List ℕ))
        × ReadWhole R.gave pair_fault MAX_PAIR reader.old reader.new texts
        × IsJudgedFrom (shown memory) texts checked.end (shown checked.memory)) }
    ensures fault { IfErr result
        (ReadFails R.gave R.failed pair_fault MAX_PAIR reader.old reader.new) }
{
    let mut checking = Checking {
        memory,
        steps: 0,
        mismatch: None,
    };
    let mut buffer = vec![in alloc; 0u8; BUFFER_LEN]?;
    match read_lines(reader, &mut checking, MAX_PAIR, &mut buffer) {
        Ok(()) => Ok(checking.told()),
        Err(stop) => Err(stop.fault_or(TraceFault::OutOfMemory)),
    }
}

/// [`check_from`] on `words` words of zeros.
pub fn check_text<R: Source>(
    alloc: Global,
    reader: &mut R,
    words: u32,
) -> Result<CheckEnd, TraceFault>
    ensures judged { IfOk result
        (λ end. (texts : List (List ℕ)) × ReadWhole R.gave pair_fault MAX_PAIR reader.old reader.new texts
        × IsJudged words texts end) }
    ensures fault { IfErr result
        (ReadFails R.gave R.failed pair_fault MAX_PAIR reader.old reader.new) }
{
    let memory = FlatMemory::zeros(alloc, words)?;
    let checked = check_from(alloc, reader, memory)?;
    Ok(checked.end)
}
