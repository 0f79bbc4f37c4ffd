//! The events of a trace.
ghost use Rattle.std.specs.Prelude.{◌≡◌, ℕ, ◌<◌, List, OnOk, IfOk, IfErr};
ghost use Rattle.trace_text.specs.declared.fault.TheConstants.{MAX_LINE, MAX_LINES};
ghost use Rattle.trace_text.specs.Reading.{ReadWhole, ReadFails};
ghost use Rattle.trace_text.specs.Serving.{event_in, trace_fault};
ghost use Rattle.trace_text.specs.Events.{trace_events, KeepsUpTo, Gathered, GathersOne};

use crate::fault::{BUFFER_LEN, MAX_LINE, TraceFault};
use crate::lines::{Line, line_said};
use crate::pieces::Failed;
use crate::reading::{Collector, Uncollected, read_lines};
use crate::streams::Source;
use flat_model::Event;
use std::alloc::Global;

// All are counted, but at most `most` kept.
#[derive(Drop)]
pub(crate) struct Events {
    pub(crate) most: usize,
    pub(crate) count: usize,
    pub(crate) events: Vec<Event>,
}

fn event_told(line: Line) -> Option<Event>
    ensures { result ≡ event_in line }
{
    match line {
        Line::Event(event) => Some(event),
        _ => None,
    }
}

impl Events {
    fn gather(&mut self, event: Option<Event>) -> Result<(), Uncollected>
        requires few { self.old.count < MAX_LINES }
        ensures ok { OnOk result (GathersOne self.old event self.new) }
        ensures err { IfErr result (λ miss. miss ≡ Uncollected.Halted) }
    {
        let Some(event) = event else {
            return Ok(());
        };
        self.count += 1;
        if self.count > self.most {
            return Ok(());
        }
        self.events.push(event)?;
        Ok(())
    }
}

impl Collector for Events {
    ghost fault_in = { trace_fault };

    ghost longest = { MAX_LINE };

    ghost most_lines = { MAX_LINES };

    ghost went = { λ s texts t. Gathered s.most texts t };

    ghost stopped = { λ s text t. Unit {0} };

    ghost paused = { λ s t. t ≡ s };

    ghost unpaused = { λ s t. ⊥ };

    ghost holds_same = { λ s t. Unit {0} };

    fn collect(&mut self, _number: u64, text: &[u8]) -> Result<(), Uncollected> {
        let line = line_said(text)?;
        self.gather(event_told(line))
    }

    fn pause(&mut self) -> Result<(), Failed> {
        Ok(())
    }
}

/// A trace's events in order; `None` for more than `most`. It is read to its end in either case.
///
/// Lines, faults and their order are those of [`read_requests`](crate::read_requests). Lines that
/// only show something are passed over.
pub fn read_events<R: Source>(
    alloc: Global,
    reader: &mut R,
    most: usize,
) -> Result<Option<Vec<Event>>, TraceFault>
    ensures read { IfOk result
        (λ found. (texts : List (List ℕ))
        × ReadWhole R.gave trace_fault MAX_LINE reader.old reader.new texts
        × KeepsUpTo most (trace_events texts) found) }
    ensures fault { IfErr result
        (ReadFails R.gave R.failed trace_fault MAX_LINE reader.old reader.new) }
{
    let mut events = Events {
        most,
        count: 0,
        events: Vec::new(alloc),
    };
    let mut buffer = vec![in alloc; 0u8; BUFFER_LEN]?;
    match read_lines(reader, &mut events, MAX_LINE, &mut buffer) {
        Ok(()) => {}
        Err(stop) => return Err(stop.fault_or(TraceFault::OutOfMemory)),
    }
    if events.count > most {
        return Ok(None);
    }
    Ok(Some(events.events))
}
