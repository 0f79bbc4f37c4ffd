//! What a refusal needs of a history, as its lines are read again: the operations of one unit up to the refused line, or
//! the refused line with the request that it disagrees with.

ghost use Rattle.std.specs.Prelude.{◌≡◌, ◌⊎◌, ◌<◌, None, IfErr};
ghost use Rattle.trace_text.specs.declared.fault.TraceFault.TheVariants.{OutOfMemory, Read};
ghost use Rattle.trace_text.specs.declared.fault.TheConstants.{MAX_PAIR};
ghost use Rattle.history_text.specs.Histories.{most_lines, history_fault};

use crate::answers::{OperationKind, Refusal, RefusalCause};
use crate::events::OwnedEvent;
use crate::lines::read_history_line;
use crate::refusals::{kind_of, number_of};
use crate::unit_operations::{UnitOperation, UnitSpan, UnitStep};
use history_sessions::HistoryLaw;
use std::alloc::{AllocError, Global};
use trace_text::{
    BUFFER_LEN, Collector, Failed, MAX_PAIR, Source, Stop as ReadStop, TraceFault, Uncollected,
    read_lines_within,
};

/// An event, and the number of its line.
#[derive(Drop)]
pub(crate) struct NumberedEvent {
    pub(crate) line: u64,
    pub(crate) event: OwnedEvent,
}

/// What was kept of a history up to a line.
#[derive(Drop)]
pub(crate) struct Gathering {
    // The refused line: nothing behind it is read.
    last: u64,
    // Whether that came.
    is_whole: bool,
    kind: OperationKind,
    number: u64,
    // The unit of which the law refuses an answer, if it is one.
    pub(crate) unit: Option<UnitSpan>,
    // The operations there, in the order of requests, and their events in the order of time.
    pub(crate) operations: Vec<UnitOperation>,
    pub(crate) steps: Vec<UnitStep>,
    // The places of those that are open.
    open: Vec<usize>,
    // Without a unit: the refused operation's open request, and the refused line.
    pub(crate) request: Option<NumberedEvent>,
    pub(crate) refused: Option<NumberedEvent>,
}

// How many bytes are judged as one.
fn unit_bytes(law: HistoryLaw) -> u64
    ensures { 0 < result }
{
    match law {
        HistoryLaw::Regular | HistoryLaw::Flat => 1,
        HistoryLaw::Atomic { unit, .. } => unit.bytes(),
    }
}

// The unit of which an answer is refused. A refusal for another cause has none.
fn unit_of(law: HistoryLaw, cause: &RefusalCause) -> Option<UnitSpan> {
    match cause {
        RefusalCause::WrongByte { address, .. } | RefusalCause::NoMoment { address, .. } => {
            Some(UnitSpan::around(*address, unit_bytes(law)))
        }
        _ => None,
    }
}

impl Gathering {
    // Nothing yet of a history that is refused so.
    fn new(alloc: Global, law: HistoryLaw, refusal: &Refusal) -> Gathering {
        Gathering {
            last: refusal.line,
            is_whole: false,
            kind: refusal.kind,
            number: refusal.number,
            unit: unit_of(law, &refusal.cause),
            operations: Vec::new(alloc),
            steps: Vec::new(alloc),
            open: Vec::new(alloc),
            request: None,
            refused: None,
        }
    }

    // The event of a line is kept, if it is needed.
    fn take(&mut self, line: u64, event: OwnedEvent) -> Result<(), AllocError> {
        match self.unit {
            Some(unit) => self.take_in_unit(unit, line, &event),
            None => {
                self.take_of_refused(line, event);
                Ok(())
            }
        }
    }

    fn take_in_unit(
        &mut self,
        unit: UnitSpan,
        line: u64,
        event: &OwnedEvent,
    ) -> Result<(), AllocError> {
        if let Some(operation) = UnitOperation::requested(unit, line, event) {
            let place = self.operations.len();
            self.operations.push(operation)?;
            self.open.push(place)?;
            self.steps.push(UnitStep {
                place,
                is_response: false,
            })?;
        } else if let Some(place) = self.answered_by(event) {
            if let Some(operation) = self.operations.as_mut_slice().get_mut(place) {
                operation.answer(unit, line, event);
            }
            self.steps.push(UnitStep {
                place,
                is_response: true,
            })?;
        }
        Ok(())
    }

    // The place of the operation that is answered, which is open no more.
    fn answered_by(&mut self, event: &OwnedEvent) -> Option<usize> {
        let at = self.open_at(event)?;
        let place = self.open_under(at, event)?;
        if at < self.open.len() {
            self.open.remove(at);
        }
        Some(place)
    }

    // Where the list of the open ones has it. The youngest is looked at first: what is never answered grows old.
    fn open_at(&self, event: &OwnedEvent) -> Option<usize> {
        let count = self.open.len();
        for back in 0..count {
            let at = count - 1 - back;
            if self.open_under(at, event).is_some() {
                return Some(at);
            }
        }
        None
    }

    // The place of the operation that is open at this place of the list, if it is answered so.
    fn open_under(&self, at: usize, event: &OwnedEvent) -> Option<usize> {
        let place = *self.open.as_slice().get(at)?;
        let operation = self.operations.as_slice().get(place)?;
        if operation.is_answered_by(event) {
            Some(place)
        } else {
            None
        }
    }

    fn take_of_refused(&mut self, line: u64, event: OwnedEvent) {
        if line == self.last {
            self.refused = Some(NumberedEvent { line, event });
        } else if kind_of(&event) == self.kind && number_of(&event) == self.number {
            self.request = match event {
                OwnedEvent::LoadRequest { .. } | OwnedEvent::StoreRequest { .. } => {
                    Some(NumberedEvent { line, event })
                }
                _ => None,
            };
        }
    }

    // What a line says is kept, if it is needed. Behind the refused line nothing is.
    fn keep(&mut self, line: u64, event: Option<OwnedEvent>) -> Result<(), Uncollected>
        ensures { IfErr result (λ miss. miss ≡ Uncollected.Halted) }
    {
        if let Some(event) = event {
            if self.take(line, event).is_err() {
                return Err(Uncollected::Halted);
            }
        }
        if line < self.last {
            return Ok(());
        }
        self.is_whole = true;
        Err(Uncollected::Halted)
    }
}

impl Collector for Gathering {
    ghost fault_in = { history_fault };

    ghost longest = { MAX_PAIR };

    ghost most_lines = { most_lines };

    ghost went = { λ s texts t. Unit {0} };

    ghost stopped = { λ s text t. Unit {0} };

    ghost paused = { λ s t. t ≡ s };

    ghost unpaused = { λ s t. ⊥ };

    ghost holds_same = { λ s t. Unit {0} };

    fn collect(&mut self, number: u64, text: &[u8]) -> Result<(), Uncollected> {
        let event = read_history_line(text)?;
        self.keep(number, event)
    }

    fn pause(&mut self) -> Result<(), Failed> {
        Ok(())
    }
}

/// Reads a history up to the refused line, and keeps what the refusal needs. [`TraceFault::Read`]: it has no such line, or
/// can't be read up to there.
pub(crate) fn gather<R: Source>(
    alloc: Global,
    reader: &mut R,
    law: HistoryLaw,
    refusal: &Refusal,
) -> Result<Gathering, TraceFault>
    ensures { IfErr result (λ fault. (fault ≡ OutOfMemory) ⊎ (fault ≡ Read)) }
{
    let mut gathering = Gathering::new(alloc, law, refusal);
    let mut buffer = vec![in alloc; 0u8; BUFFER_LEN]?;
    match read_lines_within(reader, &mut gathering, MAX_PAIR, u64::MAX, &mut buffer) {
        Err(ReadStop::Halted) if gathering.is_whole => Ok(gathering),
        Err(ReadStop::Halted) => Err(TraceFault::OutOfMemory),
        Err(ReadStop::Fault(TraceFault::OutOfMemory)) => Err(TraceFault::OutOfMemory),
        _ => Err(TraceFault::Read),
    }
}
