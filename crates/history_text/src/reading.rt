//! The lines of a history, judged one by one.

ghost use Rattle.std.specs.Prelude.{◌≡◌, ◌+◌, min, Ok, ℕ, List, [], ◌∷◌, ◌++◌, IfOk, IfErr, OnOk, length};
ghost use Rattle.trace_text.specs.declared.fault.TheConstants.{MAX_PAIR};
ghost use Rattle.history_sessions.specs.History.{Passes};
ghost use Rattle.history_sessions.specs.Kept.{IsKept};
ghost use Rattle.history_sessions.specs.Session.{Session, session_after, IsTimely};
ghost use Rattle.history_text.specs.Lines.{line_of, seen, seen_by};
ghost use Rattle.history_text.specs.Histories.{most_lines, history_fault, HasJudged, WereJudged, LineStops};
ghost use Rattle.history_text.specs.Refusals.{Stands, StepStops};

use crate::answers::HistoryEnd;
use crate::events::OwnedEvent;
use crate::lines::read_history_line;
use crate::refusals::{Stop, refusal};
use history_sessions::{HistorySession, JudgeFault};
use std::alloc::Global;
use trace_text::{Collector, Failed, TraceFault, Uncollected};

// What the lines so far add up to, and why the reading stopped, if it did.
#[derive(Drop)]
pub(crate) struct Judging {
    pub(crate) alloc: Global,
    pub(crate) session: HistorySession,
    pub(crate) events: u64,
    pub(crate) lines: u64,
    pub(crate) stop: Stop,
}

impl Judging {
    // No line yet.
    pub(crate) fn new(alloc: Global, session: HistorySession) -> Judging
        ensures { (start : Session) → IsKept session start → IsTimely start → start.seen.moment ≡ 0
            → HasJudged start [] result }
    {
        Judging {
            alloc,
            session,
            events: 0,
            lines: 0,
            stop: Stop::Fault(TraceFault::OutOfMemory),
        }
    }

    // What became of a history that is one of the law.
    pub(crate) fn end(&self) -> HistoryEnd
        ensures { (s : Session) → IsKept self.now.session s
            → result ≡ HistoryEnd.OfLaw self.now.events (min (length s.loads + length s.stores) 18446744073709551615) }
    {
        let loads = self.session.open_load_count() as u64;
        let stores = self.session.open_store_count() as u64;
        HistoryEnd::OfLaw {
            events: self.events,
            open: loads.saturating_add(stores),
        }
    }

    // The line of this number is judged, and this is what it says.
    pub(crate) fn judge(
        &mut self,
        number: u64,
        event: &Option<OwnedEvent>,
    ) -> Result<(), Uncollected>
        requires { number ≡ self.old.lines + 1 }
        ensures ok { OnOk result ((start : Session) (texts : List (List ℕ)) (text : List ℕ)
            → line_of text ≡ Ok (seen_by event.now) → HasJudged start texts self.old
            → HasJudged start (texts ++ text ∷ []) self.new) }
        ensures stop { IfErr result (λ miss. (miss ≡ Uncollected.Halted)
            × ((start : Session) (texts : List (List ℕ)) (text : List ℕ)
            → line_of text ≡ Ok (seen_by event.now) → HasJudged start texts self.old
            → LineStops start texts text self.new.stop)) }
    {
        self.lines = number;
        match event {
            None => {
                self.session.pass();
                Ok(())
            }
            Some(event) => match self.take(number, event) {
                Ok(()) => Ok(()),
                Err(stop) => {
                    self.stop = stop;
                    Err(Uncollected::Halted)
                }
            },
        }
    }

    // The event of the line of this number is taken.
    fn take(&mut self, line: u64, event: &OwnedEvent) -> Result<(), Stop>
        ensures ok { OnOk result ((s : Session) → IsKept self.old.session s
            → Passes s.history (seen event.now) × IsKept self.new.session (session_after s (seen event.now))) }
        ensures events { OnOk result (self.new.events ≡ min (self.old.events + 1) 18446744073709551615) }
        ensures lines { OnOk result (self.new.lines ≡ self.old.lines) }
        ensures stop { IfErr result (λ stop. (s : Session) → Stands self.old.session s
            → StepStops s line (seen event.now) stop) }
    {
        match self.session.step(event.event()) {
            Ok(()) => {
                self.events = self.events.saturating_add(1);
                Ok(())
            }
            Err(JudgeFault::Refused(fault)) => {
                let refusal = refusal(self.alloc, &self.session, line, event, fault)?;
                Err(Stop::Refused(refusal))
            }
            Err(JudgeFault::Undecided { address }) => Err(Stop::Undecided { line, address }),
            Err(JudgeFault::TooLong) => Err(Stop::Fault(TraceFault::TooManyLines)),
            Err(JudgeFault::OutOfMemory) => Err(Stop::Fault(TraceFault::OutOfMemory)),
        }
    }
}

impl Collector for Judging {
    ghost fault_in = { history_fault };

    ghost longest = { MAX_PAIR };

    ghost most_lines = { most_lines };

    ghost went = { WereJudged };

    ghost stopped = { λ s text t. (start : Session) (texts : List (List ℕ)) → HasJudged start texts s
        → LineStops start texts text t.stop };

    ghost paused = { λ s t. t ≡ s };

    ghost unpaused = { λ s t. ⊥ };

    ghost holds_same = { λ s t. Unit {0} };

    fn collect(&mut self, number: u64, text: &[u8]) -> Result<(), Uncollected> {
        let event = read_history_line(text)?;
        self.judge(number, &event)
    }

    fn pause(&mut self) -> Result<(), Failed> {
        Ok(())
    }
}
