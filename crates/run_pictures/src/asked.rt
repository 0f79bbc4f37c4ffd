//! Events of a trace or a recorded run.
ghost use Rattle.std.specs.Prelude.{◌≡◌, ℕ, List, OnOk, IfOk, IfErr};
ghost use Rattle.trace_text.specs.declared.fault.TheConstants.{MAX_LINE, MAX_LINES, MAX_PAIR};
ghost use Rattle.trace_text.specs.Lines.{IsSaid};
ghost use Rattle.trace_text.specs.Reading.{ReadWhole, ReadFails};
ghost use Rattle.run_pictures.specs.Asked as all;

use crate::drawn::MOST_EVENTS;
use flat_model::{Answer, Event};
use std::alloc::Global;
use trace_text::{
    BUFFER_LEN, Collector, Failed, Line, LineFault, MAX_LINE, MAX_PAIR, Pair, Source, TraceFault,
    Uncollected, answer_text, line_said, pair_said, read_lines,
};

/// An event, with the answer that was recorded.
#[derive(Clone, Copy, PartialEq, Eq, Debug)]
pub struct Asked {
    /// The event.
    pub event: Event,
    /// What was recorded; a trace has none.
    pub recorded: Option<Answer>,
}

// A line of a trace, or of a recorded run.
#[tactic(auto, unfolding(crate::specs::Asked::said_of))]
fn said(text: &[u8]) -> Result<Pair, LineFault>
    ensures pair { result ≡ all.said_of text.now }
    ensures fault { IfErr result IsSaid }
{
    if text.len() > MAX_LINE {
        return pair_said(text);
    }
    match line_said(text) {
        Ok(line) => Ok(Pair { line, answer: None }),
        Err(fault) => match pair_said(text) {
            Ok(pair) => Ok(pair),
            Err(_) => Err(fault),
        },
    }
}

fn asked_in(pair: Pair) -> Option<Asked>
    ensures { result ≡ all.asked_with pair.line pair.answer }
{
    match pair.line {
        Line::Event(event) => Some(Asked {
            event,
            recorded: pair.answer,
        }),
        Line::Register(_) | Line::Bank(_) | Line::Settled => None,
    }
}

/// The recorded answer, if it isn't written as the machine's is.
#[tactic(auto, unfolding(crate::specs::Asked::other_answer))]
pub fn other_answer(answer: Answer, recorded: Option<Answer>) -> Option<Answer>
    ensures { result ≡ all.other_answer answer recorded }
{
    let recorded = recorded?;
    if answer_text(answer).as_bytes() == answer_text(recorded).as_bytes() {
        None
    } else {
        Some(recorded)
    }
}

// `None`: too much.
#[derive(Drop)]
pub(crate) struct AskedSoFar {
    pub(crate) kept: Option<Vec<Asked>>,
}

impl AskedSoFar {
    fn keep(&mut self, asked: Asked) -> Result<(), Uncollected>
        ensures ok { OnOk result (all.KeepsOne self.old.kept asked self.new.kept) }
        ensures err { IfErr result (λ miss. miss ≡ Uncollected.Halted) }
    {
        let Some(kept) = &mut self.kept else {
            return Ok(());
        };
        if kept.len() >= MOST_EVENTS {
            self.kept = None;
            return Ok(());
        }
        kept.push(asked)?;
        Ok(())
    }
}

impl Collector for AskedSoFar {
    ghost fault_in = { all.said_fault };

    ghost longest = { MAX_PAIR };

    ghost most_lines = { MAX_LINES };

    ghost went = { λ s texts t. all.Gathered texts t };

    ghost stopped = { λ s text t. Unit {0} };

    ghost paused = { λ s t. t ≡ s };

    ghost unpaused = { λ s t. ⊥ };

    ghost holds_same = { λ s t. Unit {0} };

    fn collect(&mut self, _number: u64, text: &[u8]) -> Result<(), Uncollected> {
        let pair = said(text)?;
        match asked_in(pair) {
            Some(asked) => self.keep(asked),
            None => Ok(()),
        }
    }

    fn pause(&mut self) -> Result<(), Failed> {
        Ok(())
    }
}

/// The events in order, with recorded answers. `None`: more than are drawn. Lines that only show
/// something are passed over.
///
/// A line that neither [`read_line`] nor [`read_pair`] reads has the trace's fault, or the run's if
/// it has more than 64 bytes. The text is read to its end, so a faulty line goes before too many
/// events.
pub fn read_asked<R: Source>(
    alloc: Global,
    reader: &mut R,
) -> Result<Option<Vec<Asked>>, TraceFault>
    ensures read { IfOk result
        (λ found. (texts : List (List ℕ))
        × ReadWhole R.gave all.said_fault MAX_PAIR reader.old reader.new texts
        × all.KeepsFew (all.all_asked texts) found) }
    ensures fault { IfErr result
        (ReadFails R.gave R.failed all.said_fault MAX_PAIR reader.old reader.new) }
{
    let mut so_far = AskedSoFar {
        kept: Some(Vec::new(alloc)),
    };
    let mut buffer = vec![in alloc; 0u8; BUFFER_LEN]?;
    match read_lines(reader, &mut so_far, MAX_PAIR, &mut buffer) {
        Ok(()) => Ok(so_far.kept),
        Err(stop) => Err(stop.fault_or(TraceFault::OutOfMemory)),
    }
}
