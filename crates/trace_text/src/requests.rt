//! The requests of a trace.
ghost use Rattle.std.specs.Prelude.{◌≡◌, ℕ, ◌≤◌, ◌++◌, List, length, OnOk, IfOk, IfErr};
ghost use Rattle.trace_text.specs.declared.fault.TheConstants.{MAX_LINE, MAX_LINES};
ghost use Rattle.std.specs.Option.{option_to_list};
ghost use Rattle.std.specs.List.{AllByRecursion};
ghost use Rattle.trace_text.specs.Reading.{ReadWhole, ReadFails};
ghost use Rattle.trace_text.specs.Serving.{trace_fault};
ghost use Rattle.trace_text.specs.Requests.{IsRequest, request_in, requests_of};

use crate::fault::{BUFFER_LEN, MAX_LINE, TraceFault};
use crate::lines::{Line, line_said};
use crate::pieces::Failed;
use crate::reading::{Collector, Uncollected, read_lines};
use crate::streams::Source;
use flat_model::Event;
use std::alloc::Global;

#[derive(Drop)]
pub(crate) struct Requests {
    pub(crate) events: Vec<Event>,
}

fn request(line: Line) -> Option<Event>
    ensures { result ≡ request_in line }
{
    match line {
        Line::Event(
            event @ (Event::Load { .. }
            | Event::Store { .. }
            | Event::Prefetch { .. }
            | Event::Evict { .. }),
        ) => Some(event),
        _ => None,
    }
}

fn keep(events: &mut Vec<Event>, event: Option<Event>) -> Result<(), Uncollected>
    ensures ok { OnOk result (events.new.items ≡ events.old.items ++ option_to_list event) }
    ensures err { IfErr result (λ miss. miss ≡ Uncollected.Halted) }
{
    let Some(event) = event else {
        return Ok(());
    };
    events.push(event)?;
    Ok(())
}

impl Collector for Requests {
    ghost fault_in = { trace_fault };

    ghost longest = { MAX_LINE };

    ghost most_lines = { MAX_LINES };

    ghost went = { λ s texts t. t.events.items ≡ requests_of texts };

    ghost stopped = { λ s text t. Unit {0} };

    ghost paused = { λ s t. t.events.items ≡ s.events.items };

    ghost unpaused = { λ s t. ⊥ };

    ghost holds_same = { λ s t. Unit {0} };

    fn collect(&mut self, _number: u64, text: &[u8]) -> Result<(), Uncollected> {
        let line = line_said(text)?;
        keep(&mut self.events, request(line))
    }

    fn pause(&mut self) -> Result<(), Failed> {
        Ok(())
    }
}

/// The loads, stores, prefetches and evictions of a trace, in order. Other lines are passed over.
///
/// Lines are read as by [`read_line`](crate::read_line). A fault gives no events: the first in the
/// order of lines, [`TraceFault::OutOfMemory`] at any time, never [`TraceFault::Write`]. The reader
/// may be read beyond it.
pub fn read_requests<R: Source>(alloc: Global, reader: &mut R) -> Result<Vec<Event>, TraceFault>
    ensures read { IfOk result
        (λ events. (texts : List (List ℕ))
        × ReadWhole R.gave trace_fault MAX_LINE reader.old reader.new texts
        × (events.items ≡ requests_of texts)) }
    ensures requests { IfOk result (λ events. AllByRecursion IsRequest events.items) }
    ensures few { IfOk result (λ events. length events.items ≤ MAX_LINES) }
    ensures fault { IfErr result
        (ReadFails R.gave R.failed trace_fault MAX_LINE reader.old reader.new) }
{
    let mut requests = Requests {
        events: Vec::new(alloc),
    };
    let mut buffer = vec![in alloc; 0u8; BUFFER_LEN]?;
    match read_lines(reader, &mut requests, MAX_LINE, &mut buffer) {
        Ok(()) => Ok(requests.events),
        Err(stop) => Err(stop.fault_or(TraceFault::OutOfMemory)),
    }
}
