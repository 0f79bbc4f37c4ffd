//! What became of each request.
ghost use Rattle.std.specs.Prelude.{◌≡◌, IfOk};
ghost use Rattle.round_driver.specs.Outcomes as outcomes;
ghost use Rattle.round_driver.specs.Walks as walks;

use crate::note::Note;
use crate::round::is_end;
use flat_model::{Answer, Event};
use machine_core::Lookup;
use std::alloc::{AllocError, Global};
use std::marker::Model;

/// What became of a request.
#[derive(Clone, Copy, PartialEq, Eq, Debug)]
pub enum Outcome {
    /// Accepted: its word was at hand.
    Hit,
    /// Accepted: its word was on its way.
    Join,
    /// Accepted: its block was asked for.
    Miss,
    /// An eviction that was accepted.
    Evicted,
    /// It was refused with 1, 2 or 11.
    Denied,
}

/// What became of each request of a run.
#[derive(Drop)]
pub struct Outcomes {
    ended: Vec<Outcome>,
}

impl Model for Outcomes {
    ghost use Rattle.std.specs.Prelude.{List};
    ghost use Rattle.round_driver.specs.declared.outcomes.Outcome.{Outcome};

    ghost Value = { List Outcome };

    ghost view = { λ o. o.ended.items };
}

impl Outcomes {
    /// In the order of the requests.
    pub fn as_slice(&self) -> &[Outcome]
        ensures { result.now ≡ self.now }
    {
        self.ended.as_slice()
    }
}

fn outcome_by(answer: Answer, found: Option<Lookup>) -> Outcome
    ensures { result ≡ outcomes.outcome_by answer found }
{
    match (answer, found) {
        (Answer::Accepted, Some(Lookup::Hit)) => Outcome::Hit,
        (Answer::Accepted, Some(Lookup::Join)) => Outcome::Join,
        (Answer::Accepted, Some(Lookup::Miss)) => Outcome::Miss,
        (Answer::Accepted, None) => Outcome::Evicted,
        _ => Outcome::Denied,
    }
}

fn is_request(event: Event) -> bool
    ensures { result ≡ walks.is_request event }
{
    match event {
        Event::Load { .. } | Event::Store { .. } | Event::Prefetch { .. } | Event::Evict { .. } => {
            true
        }
        _ => false,
    }
}

// The outcomes so far, and the room for them.
#[derive(Drop)]
pub(crate) struct Recording {
    ended: Vec<Outcome>,
    room: usize,
}

impl Model for Recording {
    ghost use Rattle.std.specs.Prelude.{◌≤◌};
    ghost use Rattle.std.specs.Vec.{vec_capacity};
    ghost use Rattle.round_driver.specs.Recordings.{Recorded};

    ghost Value = { Recorded };

    ghost view = { λ r. record { ended = r.ended.items; room = r.room } };

    ghost invariant = { λ r. r.room ≤ vec_capacity r.ended };
}

impl Recording {
    pub(crate) fn new(alloc: Global, room: usize) -> Result<Recording, AllocError>
        ensures { IfOk result (λ r. r ≡ outcomes.nothing_recorded room) }
    {
        let ended = Vec::with_capacity(alloc, room)?;
        Ok(Recording { ended, room })
    }

    fn push(&mut self, outcome: Outcome)
        ensures { self.new ≡ outcomes.with_outcome self.old outcome }
    {
        if self.ended.len() < self.room {
            let _fits = self.ended.push(outcome).is_ok();
        }
    }

    #[tactic(auto, unfolding(crate::specs::Outcomes::with_note))]
    fn record(&mut self, note: &Note)
        ensures { self.new ≡ outcomes.with_note self.old note.now }
    {
        if is_request(note.event) && is_end(note.answer) {
            self.push(outcome_by(note.answer, note.found));
        }
    }

    pub(crate) fn record_all(&mut self, notes: &[Note])
        ensures { self.new ≡ outcomes.with_notes self.old notes.now }
    {
        for note in notes {
            self.record(note);
        }
    }

    // The outcomes.
    pub(crate) fn finish(self) -> Outcomes
        ensures { result ≡ self.ended }
    {
        Outcomes { ended: self.ended }
    }
}
