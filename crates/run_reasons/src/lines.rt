//! The lines of a recorded run, one by one.

ghost use Rattle.std.specs.Prelude.{◌≡◌, ◌+◌, ◌<◌, ◌^◌, [], Some, None, IfSome, IfNone, IfOk, IfErr, OnOk};
ghost use Rattle.flat_model.specs.Flat.{flat_step};
ghost use Rattle.flat_model.specs.Images.{memory_from};
ghost use Rattle.trace_text.specs.Checks.{step_with, pair_fault};
ghost use Rattle.trace_text.specs.Recorded.{recorded};
ghost use Rattle.trace_text.specs.declared.fault.TheConstants.{MAX_PAIR};
ghost use Rattle.run_reasons.specs.Origins.{beginning, origins_after};
ghost use Rattle.run_reasons.specs.Shown.{shown};
ghost use Rattle.run_reasons.specs.Runs.{most_lines};
ghost use Rattle.run_reasons.specs.Lines.{HasTaken, StopsAt, StepEnds};

use crate::explainer::{Explainer, ReadFault};
use crate::reason::Mismatch;
use flat_model::{Answer, Event, Image};
use std::alloc::{AllocError, Global};
use trace_text::{Collector, Failed, Line, Pair, Uncollected, pair_said};

// What the lines so far explain, and the mismatch that ended the reading.
#[derive(Drop)]
pub(crate) struct Explaining {
    pub(crate) explainer: Explainer,
    pub(crate) lines: u64,
    pub(crate) steps: u64,
    pub(crate) mismatch: Option<Mismatch>,
}

// The event of a line and its answer; nothing where the line only shows something.
fn step_in(pair: Pair) -> Option<(Event, Answer)>
    ensures some { IfSome result (λ step. pair ≡ recorded step.0 step.1) }
    ensures none { IfNone result (step_with pair.line pair.answer ≡ None) }
{
    match (pair.line, pair.answer) {
        (Line::Event(event), Some(answer)) => Some((event, answer)),
        _ => None,
    }
}

impl Explaining {
    // No line yet, over so many words of an image.
    pub(crate) fn new(alloc: Global, image: &Image, words: u32) -> Result<Explaining, AllocError>
        ensures origins { IfOk result (λ e. shown e.explainer ≡ beginning (memory_from image.now words)) }
        ensures taken { IfOk result (λ e. HasTaken (shown e.explainer) [] e) }
    {
        Ok(Explaining {
            explainer: Explainer::new(alloc, image, words)?,
            lines: 0,
            steps: 0,
            mismatch: None,
        })
    }

    // Makes the step of the line of this number.
    fn step(&mut self, number: u64, event: Event, answer: Answer) -> Result<(), Uncollected>
        requires { self.old.steps + 1 < 2 ^ 64 }
        ensures flat { OnOk result (flat_step (shown self.old.explainer).flat event answer
            ≡ Some (shown self.new.explainer).flat) }
        ensures origins { OnOk result (shown self.new.explainer
            ≡ origins_after (shown self.old.explainer) number event answer) }
        ensures steps { OnOk result (self.new.steps ≡ self.old.steps + 1) }
        ensures none { OnOk result (self.new.mismatch ≡ self.old.mismatch) }
        ensures lines { OnOk result (self.new.lines ≡ self.old.lines) }
        ensures err { IfErr result (λ miss. (miss ≡ Uncollected.Halted)
            × StepEnds (shown self.old.explainer) number event answer self.new.mismatch) }
    {
        match self.explainer.read(number, event, answer) {
            Ok(()) => {
                self.steps += 1;
                Ok(())
            }
            Err(ReadFault::Mismatch(mismatch)) => {
                self.mismatch = Some(mismatch);
                Err(Uncollected::Halted)
            }
            Err(ReadFault::OutOfMemory) => {
                self.mismatch = None;
                Err(Uncollected::Halted)
            }
        }
    }
}

impl Collector for Explaining {
    ghost fault_in = { pair_fault };

    ghost longest = { MAX_PAIR };

    ghost most_lines = { most_lines };

    ghost went = { λ s texts t. HasTaken (shown s.explainer) texts t };

    ghost stopped = { λ s text t. StopsAt s text t.mismatch };

    ghost paused = { λ s t. t ≡ s };

    ghost unpaused = { λ s t. ⊥ };

    ghost holds_same = { λ s t. Unit {0} };

    fn collect(&mut self, number: u64, text: &[u8]) -> Result<(), Uncollected> {
        let pair = pair_said(text)?;
        self.lines = number;
        match step_in(pair) {
            None => Ok(()),
            Some((event, answer)) => self.step(number, event, answer),
        }
    }

    fn pause(&mut self) -> Result<(), Failed> {
        Ok(())
    }
}
