//! The machine: a cache unit and the banks of its memory.
ghost use Rattle.std.specs.Prelude.{◌≡◌, ◌≢◌, ℕ, ◌+◌, ◌*◌, ◌<◌, ◌≤◌, ◌↔◌, length, IfOk, IfErr, IfSome, OnOk, OnErr, IsTrue, IsNone};
ghost use Rattle.std.specs.Prelude.{None, Some, slice_get};
ghost use Rattle.std.specs.Option.{option_map};
ghost use Rattle.flat_model.specs.Flat.{flat_step, flat_run, word_at};
ghost use Rattle.machine_core.specs.Words.{StrayWord};
ghost use Rattle.memory_banks.specs.Memory.{fault_of};
ghost use Rattle.cache_law.specs.Views as views;
ghost use Rattle.cache_law.specs.Lookups.{lookup};
ghost use Rattle.memory_banks.specs.Banks.{bank_at};
ghost use Rattle.machine_core.specs.Machine as machine;
ghost use Rattle.machine_core.specs.Pump as driver;
ghost use Rattle.machine_core.specs.Law.{most_weight, IsKept, IsServed};
ghost use Rattle.machine_core.specs.Whole.{bad_size, bank_word_view, with_answer, Serves, IsWholeState};

use crate::drive::{all_served, next_event};
use crate::step::{step, walk};
use crate::weigh::{weight_of_banks, weight_of_registers};
use cache_unit::{Lookup, ShapedUnit, Sizes, bad_size};
use flat_model::{Answer, Event, Lanes, MakeFault, ShapeField, Word};
use input_stack::Entry;
use memory_banks::{BankAnswer, Banks, Command};
use miss_registers::{FieldView, Owed, RegisterView};
use std::alloc::{AllocError, Global};
use std::marker::Model;
use write_queue::Queued;

/// A cache unit over the banks of its memory, with the numbers of its [`Sizes`].
#[derive(Drop)]
pub struct ShapedMachine {
    unit: ShapedUnit,
    banks: Banks,
}

impl Model for ShapedMachine {
    ghost use Rattle.machine_core.specs.Machine.{MachineState};

    ghost Value = { MachineState };

    ghost use Rattle.machine_core.specs.Whole.{state_of, IsWhole};

    ghost view = { λ a. state_of a.unit a.banks };

    ghost invariant = { λ a. IsWhole a.unit a.banks };
}

impl ShapedMachine {
    /// A machine in which nothing has happened, over the words of the image.
    ///
    /// `BadShape` names the first number out of its range, the image's length last, before anything
    /// is allocated. `OutOfMemory`: too little memory, and none is kept.
    pub fn new(alloc: Global, sizes: &Sizes, image: &[Word]) -> Result<Self, MakeFault>
        ensures ok { IfOk result
            (λ m. m ≡ record { sizes = sizes.now; machine = machine.opening sizes.now image.now }) }
        ensures in_range { OnOk result
            (bad_size sizes.now (length image.now) ≡ None) }
        ensures fault { IfErr result
            (λ e. e ≡ fault_of (bad_size sizes.now (length image.now))) }
        ensures flat { IfOk result
            (λ m. machine.flat_of m.sizes m.machine
            ≡ record { mem = image.now; due = λ tag. None }) }
        ensures kept { IfOk result (λ m. IsKept m.sizes m.machine) }
    {
        if let Some(field) = bad_field(sizes, image.len()) {
            return Err(MakeFault::BadShape(field));
        }
        let unit = ShapedUnit::new(alloc, sizes)?;
        let banks = Banks::over(alloc, image, &sizes.shape())?;
        Ok(ShapedMachine { unit, banks })
    }

    /// Makes one event. A stray word (13) never comes.
    #[inline(always)]
    pub fn apply(&mut self, event: Event) -> Answer
        ensures answer { result ≡ (machine.apply self.old.sizes self.old.machine event).answer }
        ensures machine { self.new
            ≡ record self.old {
              machine =
                  (machine.apply self.old.sizes self.old.machine event).machine;
            } }
        ensures flat { flat_step (machine.flat_of self.old.sizes self.old.machine) event result
            ≡ Some (machine.flat_of self.new.sizes self.new.machine) }
        ensures never_stray { result ≢ Answer.Refused StrayWord }
        ensures at_rest { driver.weight self.old.machine ≡ 0 → Serves self.old.sizes event result }
        ensures kept { IsKept self.new.sizes self.new.machine }
    {
        step(&mut self.unit, &mut self.banks, event)
    }

    /// Makes all events, and returns their answers. Memory is allocated first: without it nothing
    /// changes.
    pub fn run(&mut self, alloc: Global, events: &[Event]) -> Result<Vec<Answer>, AllocError>
        ensures answers { IfOk result
            (λ answers. answers.items ≡ machine.told self.old.sizes self.old.machine events.now) }
        ensures machine { OnOk result
            (self.new ≡ record self.old
            { machine = machine.walked self.old.sizes self.old.machine events.now }) }
        ensures unchanged { OnErr result (self.new ≡ self.old) }
        ensures flat { IfOk result
            (λ answers. flat_run (machine.flat_of self.old.sizes self.old.machine) events.now
            answers.items ≡ Some (machine.flat_of self.new.sizes self.new.machine)) }
        ensures kept { IsKept self.new.sizes self.new.machine }
    {
        let ShapedMachine { unit, banks } = self;
        let mut answers = Vec::with_capacity(alloc, events.len())?;
        walk(unit, banks, events, &mut answers);
        Ok(answers)
    }

    /// What is on its way, weighed by the pumps that it may take: from 0 to `4 * regs * block_words
    /// + replies + 2 * write_queue + banks * bank_queue`.
    ///
    /// After as many pumps it is 0. Then each load, prefetch and store with a lane inside memory is
    /// accepted, and an eviction is accepted or refused with 1 or 11.
    pub fn weight(&self) -> u64
        ensures value { result ≡ driver.weight self.now.machine }
        ensures within { result ≤ most_weight self.now.sizes }
        ensures served { IsServed self.now.sizes self.now.machine }
        ensures whole { IsWholeState self.now }
    {
        let unit = 2 * u64::from(self.unit.stack_len())
            + u64::from(self.unit.replies_len())
            + 2 * u64::from(self.unit.queue_len());
        weight_of_banks(&self.banks, self.unit.sizes().banks)
            + unit
            + weight_of_registers(&self.unit)
    }

    /// Makes the first possible event, and returns it with its answer. The order: take the first
    /// reply, process the stack's first word, arrive from the lowest bank with an answer, serve the
    /// lowest one with a command, drain. `None`: the weight is 0.
    pub fn pump(&mut self) -> Option<(Event, Answer)>
        ensures event { result
            ≡ option_map (with_answer self.old.sizes self.old.machine)
            (driver.pumped self.old.sizes self.old.machine) }
        ensures machine { self.new
            ≡ record self.old {
              machine = driver.after_event self.old.sizes self.old.machine
                  (driver.pumped self.old.sizes self.old.machine);
            } }
        ensures rests { IsNone result ↔ (driver.weight self.old.machine ≡ 0) }
        ensures lowers { IfSome result
            (λ p. driver.weight self.new.machine < driver.weight self.old.machine) }
        ensures flat { IfSome result
            (λ p. flat_step (machine.flat_of self.old.sizes self.old.machine) p.0 p.1
            ≡ Some (machine.flat_of self.new.sizes self.new.machine)) }
        ensures kept { IsKept self.new.sizes self.new.machine }
    {
        let event = next_event(&self.unit, &self.banks)?;
        Some((event, self.apply(event)))
    }

    /// Whether no register is valid, no word dirty, and the queues of writes and banks are empty.
    /// Banks then hold flat memory; replies may be ready.
    pub fn settled(&self) -> bool
        ensures value { result ≡ machine.settled self.now.machine }
        ensures banks { IsTrue result → (at : ℕ) → at < self.now.sizes.words
            → machine.bank_word self.now.sizes self.now.machine at
            ≡ word_at (machine.flat_of self.now.sizes self.now.machine).mem at }
    {
        self.unit.clean() && all_served(&self.banks, self.unit.sizes().banks)
    }

    /// The word of memory as it stands in its bank, if there is one.
    pub fn bank_word(&self, at: u32) -> Option<Word>
        ensures { result ≡ bank_word_view self.now.sizes self.now.machine at }
    {
        self.banks.word(at)
    }

    /// The register in `slot`, if there is one.
    pub fn register(&self, slot: u32) -> Option<RegisterView>
        ensures { result ≡ views.register_view self.now.machine.cache slot }
    {
        self.unit.register(slot)
    }

    /// Word `i` of a register's block, if there is one.
    pub fn field(&self, slot: u32, i: u32) -> Option<FieldView>
        ensures { result ≡ views.field_view self.now.sizes self.now.machine.cache slot i }
    {
        self.unit.field(slot, i)
    }

    /// The load at `place` among those that wait for a register's word `i`, oldest first.
    pub fn target(&self, slot: u32, i: u32, place: u32) -> Option<Owed>
        ensures { result ≡ views.target_view self.now.machine.cache slot i place }
    {
        self.unit.target(slot, i, place)
    }

    /// The numbers it was made with.
    pub fn sizes(&self) -> &Sizes
        ensures { result.now ≡ self.now.sizes }
    {
        self.unit.sizes()
    }

    /// What a request for the word at `at` would find now; `None` if memory has no such word.
    pub fn find(&self, at: u32) -> Option<Lookup>
        ensures { result ≡ lookup self.now.sizes self.now.machine.cache at }
    {
        self.unit.find(at)
    }

    /// Answers in a bank that may arrive; 0 without such a bank.
    pub fn answers(&self, bank: u32) -> u32
        ensures { result ≡ length (bank_at self.now.machine.banks bank).answers }
    {
        self.banks.answers(bank)
    }

    /// Commands that wait at a bank; 0 without such a bank.
    pub fn commands(&self, bank: u32) -> u32
        ensures { result ≡ length (bank_at self.now.machine.banks bank).queue }
    {
        self.banks.queued(bank)
    }

    /// The command at `place` of a bank's queue, the next one at 0.
    pub fn command_at(&self, bank: u32, place: u32) -> Option<Command>
        ensures { result ≡ slice_get (bank_at self.now.machine.banks bank).queue place }
    {
        self.banks.command_at(bank, place)
    }

    /// The answer at `place` of a bank, the oldest at 0. An arrival with this place brings it.
    pub fn answer_at(&self, bank: u32, place: u32) -> Option<BankAnswer>
        ensures { result ≡ slice_get (bank_at self.now.machine.banks bank).answers place }
    {
        self.banks.answer_at(bank, place)
    }

    /// Words in the input stack.
    pub fn stack_len(&self) -> u32
        ensures { result ≡ length self.now.machine.cache.stack }
    {
        self.unit.stack_len()
    }

    /// The stack's entry at `place`, the oldest at 0.
    pub fn stack_entry(&self, place: u32) -> Option<Entry>
        ensures { result ≡ slice_get self.now.machine.cache.stack place }
    {
        self.unit.stack_entry(place)
    }

    /// Words in the write queue.
    pub fn queue_len(&self) -> u32
        ensures { result ≡ length self.now.machine.cache.queue }
    {
        self.unit.queue_len()
    }

    /// The queue's entry at `place`, the next one at 0.
    pub fn queue_entry(&self, place: u32) -> Option<Queued>
        ensures { result ≡ slice_get self.now.machine.cache.queue place }
    {
        self.unit.queue_entry(place)
    }

    /// How many replies stand ready.
    pub fn replies_len(&self) -> u32
        ensures { result ≡ length self.now.machine.cache.ready }
    {
        self.unit.replies_len()
    }

    /// What a take at `place` would answer.
    pub fn reply(&self, place: u32) -> Option<Answer>
        ensures { result ≡ views.reply_view self.now.machine.cache place }
    {
        self.unit.reply(place)
    }

    /// The block that a frame holds, if any. Set `s` has the frames from `s * ways` on.
    pub fn frame_block(&self, frame: u32) -> Option<u32>
        ensures { result ≡ views.frame_view self.now.machine.cache frame }
    {
        self.unit.frame_block(frame)
    }

    /// The buffer's word `i` of a frame's block, if there is one. Of a word on its way only the
    /// code's lanes have come.
    pub fn buffer_word(&self, frame: u32, i: u32) -> Option<Word>
        ensures { result ≡ views.word_view self.now.machine.cache frame i }
    {
        self.unit.buffer_word(frame, i)
    }

    /// That word's dirty lanes: stored since the frame took the block, and not yet in memory.
    pub fn dirty(&self, frame: u32, i: u32) -> Option<Lanes>
        ensures { result ≡ views.dirty_view self.now.machine.cache frame i }
    {
        self.unit.dirty(frame, i)
    }
}

// The first number out of its range, the image's length last.
fn bad_field(sizes: &Sizes, image: usize) -> Option<ShapeField>
    ensures { result ≡ bad_size sizes.now image }
{
    if let Some(field) = bad_size(sizes) {
        return Some(field);
    }
    if image == sizes.words as usize {
        None
    } else {
        Some(ShapeField::Image)
    }
}
