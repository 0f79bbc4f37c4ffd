//! Rounds that are made one at a time.
ghost use Rattle.std.specs.Prelude.{◌≡◌, ◌≤◌, ◌<◌, IfOk};
ghost use Rattle.flat_model.specs.declared.limits.TheConstants.{MAX_BANKS};
ghost use Rattle.round_driver.specs.Stepping as stepping;
ghost use Rattle.round_driver.specs.Stepping.{one_round, after_one, report_of};

use crate::driving::round;
use crate::note::Note;
use crate::round::Notes;
use crate::schedule::Schedule;
use crate::table::{Counter, Table};
use crate::timing::Timing;
use flat_model::{Answer, Event};
use machine_core::ShapedMachine;
use std::alloc::{AllocError, Global};
use std::marker::Model;

/// The most rounds that one [`Rounds`] makes: 2^48.
pub const MOST_ROUNDS: u64 = 281_474_976_710_656;

/// What a round reports.
#[derive(Clone, Copy, PartialEq, Eq, Debug)]
pub struct RoundReport {
    /// The request that was offered, if any.
    pub asked: Option<Note>,
    /// The take that answered a load, if any.
    pub answered: Option<Note>,
}

/// Rounds that are made one at a time, and their counts.
///
/// They are right while nobody else makes the machine's events: a bank's commands are known by
/// their places in its queue.
#[derive(Drop)]
pub struct Rounds {
    schedule: Schedule,
    counter: Counter,
}

impl Model for Rounds {
    ghost use Rattle.round_driver.specs.Tables.{counting};
    ghost use Rattle.round_driver.specs.Stepping.{RoundsState, IsWithin};

    ghost Value = { RoundsState };

    ghost view = { λ r. record { schedule = r.schedule; counting = counting r.counter } };

    ghost invariant = { λ r. IsWithin r.schedule r.counter };
}

impl Rounds {
    /// Before round 1. Commands that wait in the machine are begun in the first rounds.
    ///
    /// `AllocError`: too little memory. No other call allocates.
    pub fn new(alloc: Global, timing: Timing) -> Result<Rounds, AllocError>
        ensures { IfOk result (λ rounds. rounds ≡ stepping.first_round timing) }
    {
        Ok(Rounds {
            counter: Counter::new(alloc)?,
            schedule: Schedule::new(timing),
        })
    }

    /// How many rounds were made.
    pub fn count(&self) -> u64
        ensures count { result ≡ self.now.schedule.round }
        ensures most { result ≤ MOST_ROUNDS }
    {
        self.schedule.round
    }

    /// Makes one round in this machine, always the same one, and asks this request behind the
    /// moves. A request refused with 3 to 10 is the caller's to offer again.
    pub fn make(&mut self, machine: &mut ShapedMachine, request: Option<Event>) -> RoundReport
        requires banks { machine.old.sizes.banks ≤ MAX_BANKS }
        requires rounds { self.old.schedule.round < MOST_ROUNDS }
        ensures report { result
            ≡ report_of request (one_round machine.old self.old request) }
        ensures machine { machine.new
            ≡ (one_round machine.old self.old request).state }
        ensures rounds { self.new
            ≡ after_one self.old (one_round machine.old self.old request) }
    {
        let mut notes = Notes::new();
        match request {
            Some(event) => {
                let _left = round(machine, &mut self.schedule, &mut notes, &[event]);
            }
            None => {
                let _left = round(machine, &mut self.schedule, &mut notes, &[]);
            }
        }
        self.counter.count_all(notes.as_slice());
        report(request, notes.as_slice())
    }

    /// The counts of the rounds so far.
    pub fn table(&self) -> Table
        ensures { result ≡ stepping.table_so_far self.now }
    {
        self.counter.table_after(self.schedule.round)
    }
}

fn report(request: Option<Event>, notes: &[Note]) -> RoundReport
    ensures asked { result.asked ≡ stepping.asked_in request notes.now }
    ensures answered { result.answered ≡ stepping.answered_in notes.now }
{
    RoundReport {
        asked: match request {
            Some(_) => notes.last().copied(),
            None => None,
        },
        answered: notes.iter().copied().find(|note| is_value(note.answer)),
    }
}

fn is_value(answer: Answer) -> bool
    ensures { result ≡ stepping.is_value answer }
{
    match answer {
        Answer::Value { .. } => true,
        _ => false,
    }
}
