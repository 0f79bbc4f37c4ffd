//! What a run of rounds counted beside its table.
ghost use Rattle.std.specs.Prelude.{◌≡◌, ◌<◌, ◌≤◌, ◌+◌, ◌*◌, ◌^◌, replicate, slice_set, slice_index_or, length, IfOk};
ghost use Rattle.flat_model.specs.declared.limits.TheConstants.{MAX_REGS};
ghost use Rattle.round_driver.specs.declared.round.TheConstants.{MOST_NOTES};
ghost use Rattle.round_driver.specs.declared.table.TheConstants.{TAGS};
ghost use Rattle.round_driver.specs.Details as details;
ghost use Rattle.round_driver.specs.Details.{finds_total, kinds_total, sets_total, told_total, told_rounds, ends_total};

use crate::machine::MachineNumbers;
use crate::note::Note;
use crate::outcomes::Outcomes;
use crate::table::{TAGS, Table};
use crate::tally::Tally;
use crate::waits::Waits;
use flat_model::{Answer, Cause, Event};
use machine_core::Lookup;
use std::alloc::{AllocError, Global};
use std::marker::Model;

/// Accepted requests of one kind, by what they found.
#[derive(Clone, Copy, PartialEq, Eq, Debug, Default)]
pub struct Finds {
    /// All of them.
    pub accepted: u64,
    /// Those whose word was at hand.
    pub hits: u64,
    /// Those whose word was on its way already.
    pub joins: u64,
    /// Those whose block was asked for.
    pub misses: u64,
}

impl Finds {
    fn count(&mut self, found: Option<Lookup>)
        requires { finds_total self.old < 2 ^ 63 }
        ensures value { self.new ≡ details.with_find self.old found }
        ensures total { finds_total self.new ≤ finds_total self.old + 2 }
    {
        self.accepted += 1;
        match found {
            Some(Lookup::Hit) => self.hits += 1,
            Some(Lookup::Join) => self.joins += 1,
            Some(Lookup::Miss) => self.misses += 1,
            None => {}
        }
    }
}

/// Accepted requests by their kind.
#[derive(Clone, Copy, PartialEq, Eq, Debug, Default)]
pub struct ByKind {
    /// Loads.
    pub loads: Finds,
    /// Stores.
    pub stores: Finds,
    /// Prefetches.
    pub prefetches: Finds,
}

impl ByKind {
    fn count(&mut self, event: Event, found: Option<Lookup>)
        requires { kinds_total self.old < 2 ^ 63 }
        ensures value { self.new ≡ details.with_kind self.old event found }
        ensures total { kinds_total self.new ≤ kinds_total self.old + 2 }
    {
        match event {
            Event::Load { .. } => self.loads.count(found),
            Event::Store { .. } => self.stores.count(found),
            Event::Prefetch { .. } => self.prefetches.count(found),
            _ => {}
        }
    }
}

/// Accepted loads, stores and prefetches by the set of their block.
#[derive(Drop)]
pub struct BySet {
    /// Those whose word was at hand.
    pub hits: Tally,
    /// Those whose word was on its way already.
    pub joins: Tally,
    /// Those whose block was asked for.
    pub misses: Tally,
}

impl BySet {
    fn new(alloc: Global, sets: usize) -> Result<BySet, AllocError>
        ensures { IfOk result (λ b. b ≡ details.no_sets sets) }
    {
        Ok(BySet {
            hits: Tally::new(alloc, sets)?,
            joins: Tally::new(alloc, sets)?,
            misses: Tally::new(alloc, sets)?,
        })
    }

    fn count(&mut self, set: usize, found: Option<Lookup>)
        requires { sets_total self.old < 2 ^ 63 }
        ensures value { self.new ≡ details.with_found_in self.old set found }
        ensures total { sets_total self.new ≤ sets_total self.old + 1 }
    {
        match found {
            Some(Lookup::Hit) => self.hits.count(set),
            Some(Lookup::Join) => self.joins.count(set),
            Some(Lookup::Miss) => self.misses.count(set),
            None => {}
        }
    }
}

/// All that a run of rounds counted. An access of a program to two words is two requests.
#[derive(Drop)]
pub struct Details {
    /// The table.
    pub table: Table,
    /// Accepted requests by their kind.
    pub kinds: ByKind,
    /// Accepted requests by the set of their block.
    pub sets: BySet,
    /// Rounds by the registers in use at their end.
    pub registers: Tally,
    /// Rounds by the loads that were owed a value at their end.
    pub owed: Tally,
    /// The waits of answered loads from the round that accepted them.
    pub waits: Waits,
    /// The same from the round that first asked for them.
    pub waits_from_asking: Waits,
    /// What became of each request.
    pub outcomes: Outcomes,
}

// A round for each tag.
#[derive(Drop)]
pub(crate) struct TagRounds {
    rounds: Vec<u64>,
}

impl Model for TagRounds {
    ghost use Rattle.std.specs.Prelude.{List, ℕ, ◌≤◌, length};
    ghost use Rattle.round_driver.specs.declared.table.TheConstants.{TAGS};

    ghost Value = { List ℕ };

    ghost view = { λ t. t.rounds.items };

    ghost invariant = { λ t. TAGS ≤ length t.rounds.items };
}

impl TagRounds {
    // Round 0 for each tag.
    fn new(alloc: Global) -> Result<TagRounds, AllocError>
        ensures { IfOk result (λ t. t ≡ replicate TAGS 0) }
    {
        let rounds = vec![in alloc; 0u64; TAGS]?;
        Ok(TagRounds { rounds })
    }

    // The round of a tag.
    fn get(&self, tag: u16) -> u64
        ensures { result ≡ slice_index_or self.now tag 0 }
    {
        self.rounds[tag as usize]
    }

    // A tag has another round.
    fn set(&mut self, tag: u16, round: u64)
        ensures { self.new ≡ slice_set self.old tag round }
    {
        self.rounds[tag as usize] = round;
    }
}

/// What is counted of notes, and what a load's wait takes.
#[derive(Drop)]
pub(crate) struct Told {
    pub(crate) kinds: ByKind,
    pub(crate) sets: BySet,
    pub(crate) waits: Waits,
    pub(crate) waits_from_asking: Waits,
    // When each tag's last load was accepted, and when it was first asked.
    accepted_in: TagRounds,
    asked_in: TagRounds,
    // When the stalled request at hand was first asked.
    stalled_since: Option<u64>,
}

impl Told {
    // Nothing was told.
    pub(crate) fn new(alloc: Global, numbers: MachineNumbers) -> Result<Told, AllocError>
        ensures { IfOk result (λ t. t ≡ details.nothing_told numbers) }
    {
        Ok(Told {
            kinds: ByKind::default(),
            sets: BySet::new(alloc, numbers.sets as usize)?,
            waits: Waits::new(alloc)?,
            waits_from_asking: Waits::new(alloc)?,
            accepted_in: TagRounds::new(alloc)?,
            asked_in: TagRounds::new(alloc)?,
            stalled_since: None,
        })
    }

    fn first_asked(&self, round: u64) -> u64
        ensures { result ≡ details.first_asked self.now round }
    {
        match self.stalled_since {
            Some(first) => first,
            None => round,
        }
    }

    fn count_found(&mut self, numbers: MachineNumbers, note: &Note)
        requires room { told_total self.old < 2 ^ 62 }
        requires words { 0 < numbers.block_words }
        requires sets { 0 < numbers.sets }
        ensures value { self.new ≡ details.with_found_of numbers self.old note.now }
        ensures total { told_total self.new ≤ told_total self.old + 3 }
    {
        self.kinds.count(note.event, note.found);
        match note.event {
            Event::Load { at, .. } | Event::Store { at, .. } | Event::Prefetch { at } => {
                self.sets.count(numbers.set_of(at), note.found)
            }
            _ => {}
        }
    }

    fn count_accepted(&mut self, numbers: MachineNumbers, note: &Note)
        requires room { told_total self.old < 2 ^ 62 }
        requires words { 0 < numbers.block_words }
        requires sets { 0 < numbers.sets }
        ensures value { self.new ≡ details.with_accepted numbers self.old note.now }
        ensures total { told_total self.new ≤ told_total self.old + 4 }
        ensures rounds { told_rounds self.new ≡ told_rounds self.old }
    {
        let first = self.first_asked(note.round);
        self.count_found(numbers, note);
        if let Event::Load { tag, .. } = note.event {
            self.accepted_in.set(tag, note.round);
            self.asked_in.set(tag, first);
        }
        self.stalled_since = None;
    }

    fn count_value(&mut self, tag: u16, round: u64)
        requires room { told_total self.old < 2 ^ 62 }
        requires rounds { told_rounds self.old < 2 ^ 127 }
        ensures value { self.new ≡ details.with_value self.old tag round }
        ensures total { told_total self.new ≤ told_total self.old + 4 }
        ensures rounds { told_rounds self.new ≤ told_rounds self.old + 2 ^ 65 }
    {
        let accepted = self.accepted_in.get(tag);
        let asked = self.asked_in.get(tag);
        self.waits.count(round.saturating_sub(accepted));
        self.waits_from_asking.count(round.saturating_sub(asked));
    }

    #[tactic(auto, unfolding(crate::specs::Details::counted))]
    fn count(&mut self, numbers: MachineNumbers, note: &Note)
        requires room { told_total self.old < 2 ^ 62 }
        requires rounds { told_rounds self.old < 2 ^ 127 }
        requires words { 0 < numbers.block_words }
        requires sets { 0 < numbers.sets }
        ensures counts { self.new ≡ details.counted numbers self.old note.now }
        ensures total { told_total self.new ≤ told_total self.old + 4 }
        ensures rounds { told_rounds self.new ≤ told_rounds self.old + 2 ^ 65 }
    {
        match note.answer {
            Answer::Accepted => self.count_accepted(numbers, note),
            Answer::Value { tag, .. } => self.count_value(tag, note.round),
            Answer::Refused(cause) => {
                let first = self.first_asked(note.round);
                self.stalled_since = if cause.passes() { Some(first) } else { None };
            }
            Answer::Moved | Answer::Nothing => {}
        }
    }

    pub(crate) fn count_all(&mut self, numbers: MachineNumbers, notes: &[Note])
        requires few { length notes.now ≤ MOST_NOTES }
        requires room { told_total self.old < 2 ^ 61 }
        requires rounds { told_rounds self.old < 2 ^ 126 }
        requires words { 0 < numbers.block_words }
        requires sets { 0 < numbers.sets }
        ensures counts { self.new ≡ details.counted_all numbers self.old notes.now }
        ensures total { told_total self.new ≤ told_total self.old + 4 * MOST_NOTES }
        ensures rounds { told_rounds self.new ≤ told_rounds self.old + MOST_NOTES * 2 ^ 65 }
    {
        for note in notes {
            self.count(numbers, note);
        }
    }

    fn owed(&self) -> u64
        ensures { result ≡ details.owed_of self.now }
    {
        self.kinds.loads.accepted.saturating_sub(self.waits.loads)
    }
}

// Rounds by how they ended.
#[derive(Drop)]
pub(crate) struct RoundEnds {
    pub(crate) registers: Tally,
    pub(crate) owed: Tally,
}

impl RoundEnds {
    // No round was made.
    pub(crate) fn new(alloc: Global, numbers: MachineNumbers) -> Result<RoundEnds, AllocError>
        requires { numbers.regs ≤ MAX_REGS }
        ensures { IfOk result (λ e. e ≡ details.no_ends numbers) }
    {
        Ok(RoundEnds {
            registers: Tally::new(alloc, numbers.regs + 1)?,
            owed: Tally::new(alloc, numbers.replies as usize + 1)?,
        })
    }

    pub(crate) fn count(&mut self, registers: u32, told: &Told)
        requires { ends_total self.old < 2 ^ 62 }
        ensures value { self.new ≡ details.with_end self.old registers (details.owed_of told.now) }
        ensures total { ends_total self.new ≤ ends_total self.old + 2 }
    {
        self.registers.count(registers as usize);
        self.owed.count(told.owed() as usize);
    }
}
