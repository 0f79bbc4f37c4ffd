//! The steps of the cache side.
ghost use Rattle.std.specs.Prelude.{◌≡◌, ◌<◌, length, None};
ghost use Rattle.station_parts.specs.Ids.{cache_id};
ghost use Rattle.station_parts.specs.SideState.{state_of};
ghost use Rattle.station_parts.specs.SideSteps.{SideSteps, StepMakes};

use crate::asking::{answer_ask, event_for, value_told, verdict_of};
use crate::ends::{Look, look_at, pop_at, push_at};
use crate::parts::{CacheSide, Stepped};
use cache_unit::laws::each_step_makes_forms;
use flat_model::{Answer, Event};
use station_journal::{Ask, Entry, PORT_TAGS, SideFault, Source};

impl CacheSide {
    /// [`CacheSide::step_with`] with [`Look::All`].
    pub fn step(&mut self, source: Source) -> Stepped
        ensures { SideSteps source self.old self.new result }
    {
        self.step_with(source, Look::All)
    }

    /// Makes one step with a source's first item, or the one at its place. The journal notes it, with what
    /// the unit answered.
    ///
    /// With [`Look::IfNeeded`] an end looks if it knows no item of the source, no place for what it tells,
    /// or fewer places at a bank than a block has words.
    ///
    /// In this order:
    /// - `Faulted` if the side is faulted, and nothing changes;
    /// - `JournalFull` if the journal has no room for an entry, and nothing changes;
    /// - `Idle` if no item of the source is known, or no room for it: in the stack, at the bank of the
    ///   write queue's front, or for what its port would be told, for `Done` too. Nothing changes, but that
    ///   more may be known of the far ends;
    /// - `Faulted` if a bank's word goes beyond the reads sent to it, or else if no register waits for it.
    ///   The word is lost, [`CacheSide::fault`] says which, and nothing else changes: the side is faulted
    ///   for good;
    /// - else `Did`: an ask is told its verdict, and a ready value goes to the port of its tag. `BankFull`
    ///   says that the room known at a bank was too small. `Done` is noted as [`Entry::Ended`], and told
    ///   nothing.
    pub fn step_with(&mut self, source: Source, look: Look) -> Stepped
        ensures { SideSteps source self.old self.new result }
    {
        if self.fault.is_some() {
            return Stepped::Faulted;
        }
        if self.journal.len() >= self.limit as usize {
            return Stepped::JournalFull;
        }
        match source {
            Source::Ask(port) => self.ask(port, look),
            Source::Word(bank) => self.bring(bank, look),
            Source::Stack(place) => self.process(place),
            Source::Drain => self.drain(look),
            Source::Reply(place) => self.reply(place, look),
        }
    }

    fn process(&mut self, place: u32) -> Stepped
        requires sound { self.old.fault ≡ None }
        requires room { length self.old.journal.items < self.old.limit }
        ensures makes { StepMakes (Source.Stack place) (state_of self.old) (state_of self.new) result }
        ensures same { cache_id self.new ≡ cache_id self.old }
    {
        if place >= self.unit.stack_len() {
            return Stepped::Idle;
        }
        each_step_makes_forms();
        let answer = self.unit.process(place);
        self.journal.push_reserved(Entry::Step {
            source: Source::Stack(place),
            event: Event::Process { place },
            answer,
        });
        Stepped::Did
    }

    fn drain(&mut self, look: Look) -> Stepped
        requires sound { self.old.fault ≡ None }
        requires room { length self.old.journal.items < self.old.limit }
        ensures makes { StepMakes Source.Drain (state_of self.old) (state_of self.new) result }
        ensures same { cache_id self.new ≡ cache_id self.old }
    {
        let Some(front) = self.unit.queue_entry(0) else {
            return Stepped::Idle;
        };
        if self.row.look(front.at % self.sizes.banks, look, 1) == 0 {
            return Stepped::Idle;
        }
        each_step_makes_forms();
        let answer = self.unit.drain(&mut self.row);
        self.journal.push_reserved(Entry::Step {
            source: Source::Drain,
            event: Event::Drain,
            answer,
        });
        Stepped::Did
    }

    fn ask(&mut self, port: u32, look: Look) -> Stepped
        requires sound { self.old.fault ≡ None }
        requires room { length self.old.journal.items < self.old.limit }
        ensures makes { StepMakes (Source.Ask port) (state_of self.old) (state_of self.new) result }
        ensures same { cache_id self.new ≡ cache_id self.old }
    {
        if look_at(&mut self.tellings, port, look) == 0 {
            return Stepped::Idle;
        }
        let Some(ask) = pop_at(&mut self.asks, port, look) else {
            return Stepped::Idle;
        };
        if let Ask::Done = ask {
            self.journal.push_reserved(Entry::Ended { port });
            return Stepped::Did;
        }
        self.row
            .look_all(self.sizes.banks, look, self.sizes.block_words as usize);
        each_step_makes_forms();
        let answer = answer_ask(&mut self.unit, &mut self.row, port, ask);
        push_at(&mut self.tellings, port, verdict_of(answer));
        self.journal.push_reserved(Entry::Step {
            source: Source::Ask(port),
            event: event_for(port, ask),
            answer,
        });
        Stepped::Did
    }

    fn reply(&mut self, place: u32, look: Look) -> Stepped
        requires sound { self.old.fault ≡ None }
        requires room { length self.old.journal.items < self.old.limit }
        ensures makes { StepMakes (Source.Reply place) (state_of self.old) (state_of self.new) result }
        ensures same { cache_id self.new ≡ cache_id self.old }
    {
        let Some(Answer::Value { tag, word }) = self.unit.reply(place) else {
            return Stepped::Idle;
        };
        let port = u32::from(tag / PORT_TAGS);
        if look_at(&mut self.tellings, port, look) == 0 {
            return Stepped::Idle;
        }
        each_step_makes_forms();
        let answer = self.unit.take(place);
        push_at(&mut self.tellings, port, value_told(tag, word));
        self.journal.push_reserved(Entry::Step {
            source: Source::Reply(place),
            event: Event::Take { place },
            answer,
        });
        Stepped::Did
    }

    fn bring(&mut self, bank: u32, look: Look) -> Stepped
        requires sound { self.old.fault ≡ None }
        requires room { length self.old.journal.items < self.old.limit }
        ensures makes { StepMakes (Source.Word bank) (state_of self.old) (state_of self.new) result }
        ensures same { cache_id self.new ≡ cache_id self.old }
    {
        if self.unit.stack_len() >= self.sizes.depth {
            return Stepped::Idle;
        }
        let Some(word) = pop_at(&mut self.answers, bank, look) else {
            return Stepped::Idle;
        };
        if !self.row.is_called(bank) {
            self.fault = Some(SideFault::Uncalled { bank });
            return Stepped::Faulted;
        }
        each_step_makes_forms();
        let Answer::Moved = self.unit.arrive(word.slot, word.i, word.word) else {
            self.fault = Some(SideFault::Stray {
                bank,
                slot: word.slot,
                i: word.i,
            });
            return Stepped::Faulted;
        };
        self.row.note_word(bank);
        self.journal.push_reserved(Entry::Step {
            source: Source::Word(bank),
            event: Event::Arrive { bank, place: 0 },
            answer: Answer::Moved,
        });
        Stepped::Did
    }
}
