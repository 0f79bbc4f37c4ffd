//! What a run of rounds counted.
ghost use Rattle.std.specs.Prelude.{◌≡◌, ◌<◌, ◌≤◌, ◌+◌, ◌*◌, ◌^◌, length, IfOk};
ghost use Rattle.flat_model.specs.Causes.{passes};
ghost use Rattle.round_driver.specs.declared.round.TheConstants.{MOST_NOTES};
ghost use Rattle.round_driver.specs.declared.table.TheConstants.{TAGS};
ghost use Rattle.round_driver.specs.Tables as tables;
ghost use Rattle.round_driver.specs.Tables.{counting, total};

use crate::note::Note;
use flat_model::{Answer, Cause, Event};
use machine_core::Lookup;
use std::alloc::{AllocError, Global};

/// What a run of rounds counted.
#[derive(Clone, Copy, PartialEq, Eq, Debug, Default)]
pub struct Table {
    /// Rounds made; of a list, also the last one, in which nothing moves.
    pub rounds: u64,
    /// Requests that were accepted.
    pub accepted: u64,
    /// Refused with 1, 2 or 11.
    pub denied: u64,
    /// Accepted: the word was at hand.
    pub hits: u64,
    /// Accepted: the word was on its way.
    pub joins: u64,
    /// Accepted: the block was asked for.
    pub misses: u64,
    /// Requests that weren't over in the round that first asked them: refused with 3 to 10.
    pub stalled: u64,
    /// Rounds lost by the request at hand, by the cause.
    pub lost: LostRounds,
    /// Loads that were answered.
    pub values: u64,
    /// Rounds from acceptance to answer, of all answered loads.
    pub waited: u128,
    /// The most of these for one load.
    pub longest: u64,
    /// The most registers in use at once.
    pub registers: u32,
    /// Words that were written back.
    pub written: u64,
}

/// Lost rounds by the cause.
#[derive(Clone, Copy, PartialEq, Eq, Debug, Default)]
pub struct LostRounds {
    /// 3: the tag is in use.
    pub tag_in_use: u64,
    /// 4: the limit of outstanding loads is reached.
    pub replies_full: u64,
    /// 5: four loads wait for the word.
    pub targets_full: u64,
    /// 6: not answered by a machine of this repository.
    pub block_queued: u64,
    /// 7: no register is free.
    pub no_register: u64,
    /// 8: every way of the set waits for words.
    pub set_pending: u64,
    /// 9: the write queue has too few places.
    pub queue_full: u64,
    /// 10: a bank has too little room.
    pub bank_full: u64,
}

impl LostRounds {
    // Counts a lost round, and says whether the cause passes.
    fn count(&mut self, cause: Cause) -> bool
        requires { tables.lost_total self.old < 2 ^ 63 }
        ensures passes { result ≡ passes cause }
        ensures lost { self.new ≡ tables.with_lost self.old cause }
        ensures total { tables.lost_total self.new ≤ tables.lost_total self.old + 1 }
    {
        match cause {
            Cause::TagInUse => self.tag_in_use += 1,
            Cause::RepliesFull => self.replies_full += 1,
            Cause::TargetsFull => self.targets_full += 1,
            Cause::BlockQueued => self.block_queued += 1,
            Cause::NoRegister => self.no_register += 1,
            Cause::SetPending => self.set_pending += 1,
            Cause::QueueFull => self.queue_full += 1,
            Cause::BankFull => self.bank_full += 1,
            _ => return false,
        }
        true
    }
}

pub(crate) const TAGS: usize = u16::MAX as usize + 1;

// The counts so far, when each tag's load was accepted, and whether the request stalled.
#[derive(Drop)]
pub(crate) struct Counter {
    pub(crate) table: Table,
    pub(crate) since: Vec<u64>,
    pub(crate) is_stalled: bool,
}

impl Counter {
    pub(crate) fn new(alloc: Global) -> Result<Counter, AllocError>
        ensures nothing { IfOk result (λ c. counting c ≡ tables.nothing) }
        ensures tags { IfOk result (λ c. TAGS ≤ length c.since.items) }
    {
        let since = vec![in alloc; 0u64; TAGS]?;
        Ok(Counter {
            table: Table::default(),
            since,
            is_stalled: false,
        })
    }

    fn count_found(&mut self, note: &Note)
        requires { total self.old.table < 2 ^ 62 }
        ensures found { counting self.new
            ≡ tables.with_found (counting self.old) note.now.found note.now.registers }
        ensures total { total self.new.table ≤ total self.old.table + 1 }
        ensures waited { self.new.table.waited ≡ self.old.table.waited }
    {
        match note.found {
            Some(Lookup::Hit) => self.table.hits += 1,
            Some(Lookup::Join) => self.table.joins += 1,
            Some(Lookup::Miss) => self.table.misses += 1,
            None => {}
        }
        self.table.registers = self.table.registers.max(note.registers);
    }

    fn count_accepted(&mut self, note: &Note)
        requires room { total self.old.table < 2 ^ 61 }
        requires tags { TAGS ≤ length self.old.since.items }
        ensures accepted { counting self.new
            ≡ tables.with_accepted (counting self.old) note.now }
        ensures total { total self.new.table ≤ total self.old.table + 2 }
        ensures waited { self.new.table.waited ≡ self.old.table.waited }
        ensures tags { TAGS ≤ length self.new.since.items }
    {
        self.table.accepted += 1;
        self.is_stalled = false;
        if let Event::Load { tag, .. } = note.event {
            self.since[tag as usize] = note.round;
        }
        self.count_found(note);
    }

    fn count_refused(&mut self, cause: Cause)
        requires { total self.old.table < 2 ^ 61 }
        ensures refused { counting self.new ≡ tables.with_refused (counting self.old) cause }
        ensures total { total self.new.table ≤ total self.old.table + 2 }
        ensures waited { self.new.table.waited ≡ self.old.table.waited }
        ensures tags { self.new.since ≡ self.old.since }
    {
        if self.table.lost.count(cause) {
            if !self.is_stalled {
                self.table.stalled += 1;
            }
            self.is_stalled = true;
        } else {
            self.table.denied += 1;
            self.is_stalled = false;
        }
    }

    fn count_value(&mut self, tag: u16, round: u64)
        requires room { total self.old.table < 2 ^ 61 }
        requires waits { self.old.table.waited < 2 ^ 127 }
        requires tags { TAGS ≤ length self.old.since.items }
        ensures value { counting self.new ≡ tables.with_value (counting self.old) tag round }
        ensures total { total self.new.table ≤ total self.old.table + 1 }
        ensures waited { self.new.table.waited ≤ self.old.table.waited + 2 ^ 64 }
        ensures tags { self.new.since ≡ self.old.since }
    {
        let wait = round.saturating_sub(self.since[tag as usize]);
        self.table.values += 1;
        self.table.waited += u128::from(wait);
        self.table.longest = self.table.longest.max(wait);
    }

    #[tactic(auto, unfolding(crate::specs::Tables::counted))]
    fn count(&mut self, note: &Note)
        requires room { total self.old.table < 2 ^ 61 }
        requires waits { self.old.table.waited < 2 ^ 127 }
        requires tags { TAGS ≤ length self.old.since.items }
        ensures counts { counting self.new ≡ tables.counted (counting self.old) note.now }
        ensures total { total self.new.table ≤ total self.old.table + 2 }
        ensures waited { self.new.table.waited ≤ self.old.table.waited + 2 ^ 64 }
        ensures tags { TAGS ≤ length self.new.since.items }
    {
        match note.answer {
            Answer::Accepted => self.count_accepted(note),
            Answer::Value { tag, .. } => self.count_value(tag, note.round),
            Answer::Refused(cause) => self.count_refused(cause),
            Answer::Moved => {
                if let Event::Drain = note.event {
                    self.table.written += 1;
                }
            }
            Answer::Nothing => {}
        }
    }

    pub(crate) fn count_all(&mut self, notes: &[Note])
        requires few { length notes.now ≤ MOST_NOTES }
        requires room { total self.old.table < 2 ^ 60 }
        requires waits { self.old.table.waited < 2 ^ 126 }
        requires tags { TAGS ≤ length self.old.since.items }
        ensures counts { counting self.new
            ≡ tables.counted_all (counting self.old) notes.now }
        ensures total { total self.new.table ≤ total self.old.table + 2 * MOST_NOTES }
        ensures waited { self.new.table.waited ≤ self.old.table.waited + MOST_NOTES * 2 ^ 64 }
        ensures tags { TAGS ≤ length self.new.since.items }
    {
        for note in notes {
            self.count(note);
        }
    }

    pub(crate) fn table_after(&self, rounds: u64) -> Table
        ensures { result ≡ tables.with_rounds (counting self.now) rounds }
    {
        Table {
            rounds,
            ..self.table
        }
    }
}
