//! Flat memory as a value, and the replay of a run over it.

ghost use Rattle.std.specs.Prelude.{◌≡◌, ◌≢◌, Err, ◌+◌, true, length, replicate, None, Some, nat_lt, slice_get, IfOk, IfErr, OnOk, OnErr};
ghost use Rattle.std.specs.Prelude.{◌<◌, ◌≤◌};
ghost use Rattle.std.specs.List.{count_by};
ghost use Rattle.std.specs.HashMap.{spare};
ghost use Rattle.flat_model.specs.Flat.{Flat, opening, word_at, stored, with_due, may_answer, flat_after, flat_run, flat_step};
ghost use Rattle.flat_model.specs.declared.memory.ReplayFault.TheVariants.{Lengths};
ghost use Rattle.flat_model.specs.Words.{zero_word};
ghost use Rattle.flat_model.specs.Memory.{shown, FaultIs, StepFaultIs, is_load, more_owed};

use crate::answers::may_answer;
use crate::faults::FaultText;
use crate::{Answer, Event, Lanes, Word, merge};
use std::alloc::{AllocError, Global};
use std::collections::HashMap;
use thiserror::Error;

/// Why a replay failed. The memory is as it was.
#[derive(Clone, Copy, PartialEq, Eq, Debug, Error)]
#[error("{}", FaultText(self))]
pub enum ReplayFault {
    /// Not as many answers as events.
    Lengths,
    /// The first answer, counted from 0, that flat memory doesn't give.
    Mismatch { place: usize },
    /// Too little memory.
    OutOfMemory,
}

impl From<AllocError> for ReplayFault {
    ghost use Rattle.std.specs.Prelude.{◌≡◌};
    ghost use Rattle.flat_model.specs.declared.memory.ReplayFault.TheVariants.{OutOfMemory};

    ghost from_gives = { λ e f. f ≡ OutOfMemory };

    fn from(_fault: AllocError) -> ReplayFault {
        ReplayFault::OutOfMemory
    }
}

/// Why no step was made. The memory is as it was.
#[derive(Clone, Copy, PartialEq, Eq, Debug, Error)]
#[error("{}", FaultText(self))]
pub enum StepFault {
    /// Flat memory doesn't answer so.
    Mismatch,
    /// Too little memory for an owed word.
    OutOfMemory,
}

impl From<AllocError> for StepFault {
    ghost use Rattle.std.specs.Prelude.{◌≡◌};
    ghost use Rattle.flat_model.specs.declared.memory.StepFault.TheVariants.{OutOfMemory};

    ghost from_gives = { λ e f. f ≡ OutOfMemory };

    fn from(_fault: AllocError) -> StepFault {
        StepFault::OutOfMemory
    }
}

/// Memory's words, and what each tag is owed.
#[derive(Drop)]
pub struct FlatMemory {
    words: Vec<Word>,
    due: HashMap<u16, Word>,
}

#[tactic(auto, unfolding(crate::specs::Memory::shown))]
impl FlatMemory {
    /// Memory with these words, fewer than 2^32; no tag is owed one. `AllocError`: too little
    /// memory.
    pub fn new(alloc: Global, image: &[Word]) -> Result<FlatMemory, AllocError>
        ensures { IfOk result (λ m. shown m ≡ opening image.now) }
    {
        let words = Vec::from_slice(alloc, image)?;
        let due = HashMap::new(alloc);
        Ok(FlatMemory { words, due })
    }

    /// Memory with so many zeros.
    pub fn zeros(alloc: Global, words: u32) -> Result<FlatMemory, AllocError>
        ensures shown { IfOk result (λ m. shown m ≡ opening (replicate words zero_word)) }
        ensures words { IfOk result (λ m. length (shown m).mem ≡ words) }
    {
        let words = vec![in alloc; Word::default(); words as usize]?;
        let due = HashMap::new(alloc);
        Ok(FlatMemory { words, due })
    }

    /// `None` outside memory.
    pub fn word(&self, at: u32) -> Option<Word>
        ensures { result ≡ slice_get (shown self.now).mem at }
    {
        self.words.get(at as usize).copied()
    }

    /// What a tag is owed.
    pub fn due_word(&self, tag: u16) -> Option<Word>
        ensures { result ≡ (shown self.now).due tag }
    {
        self.due.get(&tag).copied()
    }

    /// Makes one step of a run: an event and its answer. [`StepFault::Mismatch`] says that it isn't
    /// flat. Only an accepted load takes memory, for the word owed.
    pub fn step(&mut self, event: Event, answer: Answer) -> Result<(), StepFault>
        ensures ok { OnOk result
            (flat_step (shown self.old) event answer ≡ Some (shown self.new)) }
        ensures fault { IfErr result (StepFaultIs (shown self.old) event answer) }
        ensures unchanged { OnErr result (shown self.new ≡ shown self.old) }
    {
        if !self.may_answer(event, answer) {
            return Err(StepFault::Mismatch);
        }
        self.make_room(event, answer)?;
        self.change(event, answer);
        Ok(())
    }

    /// Makes the steps of a whole run. [`ReplayFault::Lengths`] is found first, and all memory is
    /// taken before a pair is looked at.
    pub fn replay(
        &mut self,
        alloc: Global,
        events: &[Event],
        answers: &[Answer],
    ) -> Result<(), ReplayFault>
        ensures ok { OnOk result
            (flat_run (shown self.old) events.now answers.now ≡ Some (shown self.new)) }
        ensures lengths { length events.now ≢ length answers.now → result ≡ Err Lengths }
        ensures fault { IfErr result (FaultIs (shown self.old) events.now answers.now) }
        ensures unchanged { OnErr result (shown self.new ≡ shown self.old) }
    {
        if events.len() != answers.len() {
            return Err(ReplayFault::Lengths);
        }
        let mut next = self.copy_with_room(alloc, loads_in(events))?;
        next.follow(events, answers)?;
        *self = next;
        Ok(())
    }

    fn follow(&mut self, events: &[Event], answers: &[Answer]) -> Result<(), ReplayFault>
        requires lengths { length events.now ≡ length answers.now }
        requires room { count_by is_load events.now ≤ spare self.old.due }
        ensures ok { OnOk result
            (flat_run (shown self.old) events.now answers.now ≡ Some (shown self.new)) }
        ensures fault { IfErr result (FaultIs (shown self.old) events.now answers.now) }
    {
        for place in 0..events.len() {
            let event = events[place];
            let answer = answers[place];
            if !self.may_answer(event, answer) {
                return Err(ReplayFault::Mismatch { place });
            }
            self.change(event, answer);
        }
        Ok(())
    }

    fn make_room(&mut self, event: Event, answer: Answer) -> Result<(), AllocError>
        ensures same { shown self.new ≡ shown self.old }
        ensures room { OnOk result (more_owed event answer ≤ spare self.new.due) }
        ensures needed { OnErr result (more_owed event answer ≡ 1) }
    {
        match (event, answer) {
            (Event::Load { .. }, Answer::Accepted) => self.due.reserve(1),
            _ => Ok(()),
        }
    }

    fn copy_with_room(&self, alloc: Global, room: usize) -> Result<FlatMemory, AllocError>
        ensures same { IfOk result (λ m. shown m ≡ shown self.now) }
        ensures room { IfOk result (λ m. room ≤ spare m.due) }
    {
        let words = Vec::from_slice(alloc, self.words.as_slice())?;
        let mut due = self.due.clone()?;
        due.reserve(room)?;
        Ok(FlatMemory { words, due })
    }

    fn has_word(&self, at: u32) -> bool
        ensures { result ≡ nat_lt at (length (shown self.now).mem) }
    {
        (at as usize) < self.words.len()
    }

    fn may_answer(&self, event: Event, answer: Answer) -> bool
        ensures { result ≡ may_answer (shown self.now) event answer }
    {
        let inside = match event {
            Event::Load { at, .. } | Event::Store { at, .. } | Event::Prefetch { at } => {
                self.has_word(at)
            }
            _ => false,
        };
        let owed = match (event, answer) {
            (Event::Load { tag, .. }, _) | (Event::Take { .. }, Answer::Value { tag, .. }) => {
                self.due_word(tag)
            }
            _ => None,
        };
        may_answer(event, answer, inside, owed)
    }

    fn change(&mut self, event: Event, answer: Answer)
        requires may { may_answer (shown self.old) event answer ≡ true }
        requires room { more_owed event answer ≤ spare self.old.due }
        ensures shown { shown self.new ≡ flat_after (shown self.old) event answer }
        ensures room { spare self.old.due ≤ spare self.new.due + more_owed event answer }
    {
        match (event, answer) {
            (Event::Load { tag, at }, Answer::Accepted) => self.owe(tag, at),
            (Event::Store { at, word, lanes }, Answer::Accepted) => self.store(at, word, lanes),
            (Event::Take { place: _ }, Answer::Value { tag, word: _ }) => self.pay(tag),
            _ => {}
        }
    }

    fn owe(&mut self, tag: u16, at: u32)
        requires inside { at < length (shown self.old).mem }
        requires room { 0 < spare self.old.due }
        ensures mem { (shown self.new).mem ≡ (shown self.old).mem }
        ensures due { (shown self.new).due
            ≡ with_due (shown self.old).due tag (Some (word_at (shown self.old).mem at)) }
        ensures room { spare self.old.due ≤ spare self.new.due + 1 }
    {
        let word = self.words[at as usize];
        let _owed = self.due.insert(tag, word);
    }

    fn store(&mut self, at: u32, word: Word, lanes: Lanes)
        requires { at < length (shown self.old).mem }
        ensures mem { (shown self.new).mem ≡ stored (shown self.old).mem at word lanes }
        ensures due { self.new.due ≡ self.old.due }
    {
        let old = self.words[at as usize];
        self.words[at as usize] = merge(old, word, lanes);
    }

    fn pay(&mut self, tag: u16)
        ensures shown { shown self.new
            ≡ record { mem = (shown self.old).mem; due = with_due (shown self.old).due tag None } }
        ensures room { spare self.old.due ≤ spare self.new.due }
    {
        self.due.remove(&tag);
    }
}

// No other event makes a tag owed.
fn loads_in(events: &[Event]) -> usize
    ensures { result ≡ count_by is_load events.now }
{
    events.iter().filter(|event| is_load(event)).count()
}

fn is_load(event: &Event) -> bool
    ensures { result ≡ is_load event.now }
{
    matches!(event, Event::Load { .. })
}
