//! A machine with its numbers in its type.
ghost use Rattle.std.specs.Prelude.{◌≡◌, ◌≢◌, ℕ, ◌<◌, ◌≤◌, ◌↔◌, length, IfOk, IfErr, IfSome, OnOk, OnErr, IsTrue, IsNone, None, Some};
ghost use Rattle.std.specs.Prelude.{slice_get};
ghost use Rattle.std.specs.Option.{option_map};
ghost use Rattle.flat_model.specs.Flat.{flat_step, flat_run, word_at};
ghost use Rattle.machine_core.specs.Words.{StrayWord};
ghost use Rattle.memory_banks.specs.Memory.{fault_of};
ghost use Rattle.memory_banks.specs.Banks.{bank_at};
ghost use Rattle.cache_law.specs.Shown.{sizes_of};
ghost use Rattle.cache_law.specs.Views as views;
ghost use Rattle.cache_law.specs.Lookups.{lookup};
ghost use Rattle.machine_core.specs.Machine as machine;
ghost use Rattle.machine_core.specs.Pump as driver;
ghost use Rattle.machine_core.specs.Law.{most_weight, IsKept, IsServed};
ghost use Rattle.machine_core.specs.Whole.{bad_field, bank_word_view, with_answer, Serves, IsWholeState};

use crate::machine::ShapedMachine;
use cache_unit::{Lookup, sizes_of};
use flat_model::{Answer, Event, Lanes, MakeFault, Shape, Word};
use input_stack::Entry;
use memory_banks::{BankAnswer, Command};
use miss_registers::{FieldView, Owed, RegisterView};
use std::alloc::{AllocError, Global};
use std::marker::Model;
use write_queue::Queued;

/// A [`ShapedMachine`] of `WAYS` (1 to 8) ways, `WORDS` (1 to 16) words a block, `REGS` (1 to 16)
/// registers and `DEPTH` (1 to 16) places in the stack. Each call does what that one's does.
#[derive(Drop)]
pub struct Machine<const WAYS: usize, const WORDS: usize, const REGS: usize, const DEPTH: usize> {
    machine: ShapedMachine,
}

impl<const WAYS: usize, const WORDS: usize, const REGS: usize, const DEPTH: usize> Model
    for Machine<WAYS, WORDS, REGS, DEPTH> {
    ghost use Rattle.machine_core.specs.Machine.{MachineState};

    ghost Value = { MachineState };

    ghost use Rattle.machine_core.specs.Whole.{IsOfType};

    ghost view = { λ a. a.machine };

    ghost invariant = { λ a. IsOfType WAYS WORDS REGS DEPTH a.machine.sizes };
}

impl<const WAYS: usize, const WORDS: usize, const REGS: usize, const DEPTH: usize> Machine<
    WAYS,
    WORDS,
    REGS,
    DEPTH,
> {
    /// A machine in which nothing has happened, over the words of the image. The faults are those
    /// of [`ShapedMachine::new`].
    pub fn new(alloc: Global, shape: Shape, image: &[Word]) -> Result<Self, MakeFault>
        ensures ok { IfOk result
            (λ m. m ≡ record {
              sizes = sizes_of WAYS WORDS REGS DEPTH shape;
              machine = machine.opening (sizes_of WAYS WORDS REGS DEPTH shape) image.now;
            }) }
        ensures in_range { OnOk result
            (bad_field (sizes_of WAYS WORDS REGS DEPTH shape) (length image.now) ≡ None) }
        ensures fault { IfErr result
            (λ e. e ≡ fault_of (bad_field (sizes_of WAYS WORDS REGS DEPTH shape)
            (length image.now))) }
        ensures flat { IfOk result
            (λ m. machine.flat_of m.sizes m.machine
            ≡ record { mem = image.now; due = λ tag. None }) }
        ensures kept { IfOk result (λ m. IsKept m.sizes m.machine) }
    {
        if let Some(field) = cache_unit::bad_field::<WAYS, WORDS, REGS, DEPTH>(&shape) {
            return Err(MakeFault::BadShape(field));
        }
        let sizes = sizes_of::<WAYS, WORDS, REGS, DEPTH>(&shape);
        let machine = ShapedMachine::new(alloc, &sizes, image)?;
        Ok(Machine { machine })
    }

    /// Makes one event. [`ShapedMachine::apply`] says more.
    #[inline(always)]
    pub fn apply(&mut self, event: Event) -> Answer
        ensures answer { result ≡ (machine.apply self.old.sizes self.old.machine event).answer }
        ensures machine { self.new
            ≡ record self.old {
              machine =
                  (machine.apply self.old.sizes self.old.machine event).machine;
            } }
        ensures flat { flat_step (machine.flat_of self.old.sizes self.old.machine) event result
            ≡ Some (machine.flat_of self.new.sizes self.new.machine) }
        ensures never_stray { result ≢ Answer.Refused StrayWord }
        ensures at_rest { driver.weight self.old.machine ≡ 0 → Serves self.old.sizes event result }
        ensures kept { IsKept self.new.sizes self.new.machine }
    {
        self.machine.apply(event)
    }

    /// Makes all events, one after another.
    pub fn run(&mut self, alloc: Global, events: &[Event]) -> Result<Vec<Answer>, AllocError>
        ensures answers { IfOk result
            (λ answers. answers.items ≡ machine.told self.old.sizes self.old.machine events.now) }
        ensures machine { OnOk result
            (self.new ≡ record self.old
            { machine = machine.walked self.old.sizes self.old.machine events.now }) }
        ensures unchanged { OnErr result (self.new ≡ self.old) }
        ensures flat { IfOk result
            (λ answers. flat_run (machine.flat_of self.old.sizes self.old.machine) events.now
            answers.items ≡ Some (machine.flat_of self.new.sizes self.new.machine)) }
        ensures kept { IsKept self.new.sizes self.new.machine }
    {
        self.machine.run(alloc, events)
    }

    /// What is on its way, as [`ShapedMachine::weight`].
    pub fn weight(&self) -> u64
        ensures value { result ≡ driver.weight self.now.machine }
        ensures within { result ≤ most_weight self.now.sizes }
        ensures served { IsServed self.now.sizes self.now.machine }
        ensures whole { IsWholeState self.now }
    {
        self.machine.weight()
    }

    /// As [`ShapedMachine::pump`]: makes the first possible event. `None`: the weight is 0.
    pub fn pump(&mut self) -> Option<(Event, Answer)>
        ensures event { result
            ≡ option_map (with_answer self.old.sizes self.old.machine)
            (driver.pumped self.old.sizes self.old.machine) }
        ensures machine { self.new
            ≡ record self.old {
              machine = driver.after_event self.old.sizes self.old.machine
                  (driver.pumped self.old.sizes self.old.machine);
            } }
        ensures rests { IsNone result ↔ (driver.weight self.old.machine ≡ 0) }
        ensures lowers { IfSome result
            (λ p. driver.weight self.new.machine < driver.weight self.old.machine) }
        ensures flat { IfSome result
            (λ p. flat_step (machine.flat_of self.old.sizes self.old.machine) p.0 p.1
            ≡ Some (machine.flat_of self.new.sizes self.new.machine)) }
        ensures kept { IsKept self.new.sizes self.new.machine }
    {
        self.machine.pump()
    }

    /// Whether no register is valid, no word dirty, and the queues of writes and banks are empty.
    /// Banks then hold flat memory; replies may be ready.
    pub fn settled(&self) -> bool
        ensures value { result ≡ machine.settled self.now.machine }
        ensures banks { IsTrue result → (at : ℕ) → at < self.now.sizes.words
            → machine.bank_word self.now.sizes self.now.machine at
            ≡ word_at (machine.flat_of self.now.sizes self.now.machine).mem at }
    {
        self.machine.settled()
    }

    /// The word of memory as it stands in its bank, if there is one.
    pub fn bank_word(&self, at: u32) -> Option<Word>
        ensures { result ≡ bank_word_view self.now.sizes self.now.machine at }
    {
        self.machine.bank_word(at)
    }

    /// The register in `slot`, if there is one.
    pub fn register(&self, slot: u32) -> Option<RegisterView>
        ensures { result ≡ views.register_view self.now.machine.cache slot }
    {
        self.machine.register(slot)
    }

    /// Word `i` of a register's block, if there is one.
    pub fn field(&self, slot: u32, i: u32) -> Option<FieldView>
        ensures { result ≡ views.field_view self.now.sizes self.now.machine.cache slot i }
    {
        self.machine.field(slot, i)
    }

    /// The load at `place` among those that wait for a register's word `i`, oldest first.
    pub fn target(&self, slot: u32, i: u32, place: u32) -> Option<Owed>
        ensures { result ≡ views.target_view self.now.machine.cache slot i place }
    {
        self.machine.target(slot, i, place)
    }

    /// What a request for the word at `at` would find now; `None` if memory has no such word.
    pub fn find(&self, at: u32) -> Option<Lookup>
        ensures { result ≡ lookup self.now.sizes self.now.machine.cache at }
    {
        self.machine.find(at)
    }

    /// Answers in a bank that may arrive; 0 without such a bank.
    pub fn answers(&self, bank: u32) -> u32
        ensures { result ≡ length (bank_at self.now.machine.banks bank).answers }
    {
        self.machine.answers(bank)
    }

    /// Commands that wait at a bank; 0 without such a bank.
    pub fn commands(&self, bank: u32) -> u32
        ensures { result ≡ length (bank_at self.now.machine.banks bank).queue }
    {
        self.machine.commands(bank)
    }

    /// The command at `place` of a bank's queue, the next one at 0.
    pub fn command_at(&self, bank: u32, place: u32) -> Option<Command>
        ensures { result ≡ slice_get (bank_at self.now.machine.banks bank).queue place }
    {
        self.machine.command_at(bank, place)
    }

    /// The answer at `place` of a bank, the oldest at 0. An arrival with this place brings it.
    pub fn answer_at(&self, bank: u32, place: u32) -> Option<BankAnswer>
        ensures { result ≡ slice_get (bank_at self.now.machine.banks bank).answers place }
    {
        self.machine.answer_at(bank, place)
    }

    /// Words in the input stack.
    pub fn stack_len(&self) -> u32
        ensures { result ≡ length self.now.machine.cache.stack }
    {
        self.machine.stack_len()
    }

    /// The stack's entry at `place`, the oldest at 0.
    pub fn stack_entry(&self, place: u32) -> Option<Entry>
        ensures { result ≡ slice_get self.now.machine.cache.stack place }
    {
        self.machine.stack_entry(place)
    }

    /// Words in the write queue.
    pub fn queue_len(&self) -> u32
        ensures { result ≡ length self.now.machine.cache.queue }
    {
        self.machine.queue_len()
    }

    /// The queue's entry at `place`, the next one at 0.
    pub fn queue_entry(&self, place: u32) -> Option<Queued>
        ensures { result ≡ slice_get self.now.machine.cache.queue place }
    {
        self.machine.queue_entry(place)
    }

    /// How many replies stand ready.
    pub fn replies_len(&self) -> u32
        ensures { result ≡ length self.now.machine.cache.ready }
    {
        self.machine.replies_len()
    }

    /// What a take at `place` would answer.
    pub fn reply(&self, place: u32) -> Option<Answer>
        ensures { result ≡ views.reply_view self.now.machine.cache place }
    {
        self.machine.reply(place)
    }

    /// The block that a frame holds, if any. Set `s` has the frames from `s * ways` on.
    pub fn frame_block(&self, frame: u32) -> Option<u32>
        ensures { result ≡ views.frame_view self.now.machine.cache frame }
    {
        self.machine.frame_block(frame)
    }

    /// The buffer's word `i` of a frame's block, if there is one. Of a word on its way only the
    /// code's lanes have come.
    pub fn buffer_word(&self, frame: u32, i: u32) -> Option<Word>
        ensures { result ≡ views.word_view self.now.machine.cache frame i }
    {
        self.machine.buffer_word(frame, i)
    }

    /// That word's dirty lanes: stored since the frame took the block, and not yet in memory.
    pub fn dirty(&self, frame: u32, i: u32) -> Option<Lanes>
        ensures { result ≡ views.dirty_view self.now.machine.cache frame i }
    {
        self.machine.dirty(frame, i)
    }

    /// The numbers beside those of its type.
    pub fn shape(&self) -> Shape
        ensures { sizes_of WAYS WORDS REGS DEPTH result ≡ self.now.sizes }
    {
        self.machine.sizes().shape()
    }

    /// The same machine without numbers in its type.
    pub fn into_shaped(self) -> ShapedMachine
        ensures { result ≡ self.entry }
    {
        self.machine
    }
}
