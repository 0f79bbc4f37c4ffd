//! A unit with its numbers in its type.
ghost use Rattle.std.specs.Prelude.{◌≡◌, ◌≤◌, length, slice_get, IfOk, IfErr, OnOk, None};
ghost use Rattle.memory_banks.specs.Memory.{fault_of};
ghost use Rattle.cache_law.specs.State.{opening_cache, tags};
ghost use Rattle.cache_law.specs.Shown.{sizes_of};
ghost use Rattle.cache_unit.specs.Limits as limits;
ghost use Rattle.cache_law.specs.Lookups.{lookup};
ghost use Rattle.cache_law.specs.Sound.{IsSound};
ghost use Rattle.cache_law.specs.Steps as steps;
ghost use Rattle.cache_law.specs.Steps.{request_step};
ghost use Rattle.cache_law.specs.Views as views;
ghost use Rattle.cache_unit.specs.Makes.{Makes, MakesOver};

use crate::{Lookup, Request, ShapedUnit, bad_field, sizes_of};
use flat_model::{Answer, Lanes, MakeFault, Shape, Word};
use input_stack::Entry;
use memory_banks::Lines;
use miss_registers::{FieldView, Owed, RegisterView};
use std::alloc::Global;
use std::marker::Model;
use write_queue::Queued;

/// A [`ShapedUnit`] of `WAYS` (1 to 8) ways, `WORDS` (1 to 16) words a block, `REGS` (1 to 16)
/// registers and `DEPTH` (1 to 16) places in the stack. Each call does what that one's does.
#[derive(Drop)]
pub struct CacheUnit<const WAYS: usize, const WORDS: usize, const REGS: usize, const DEPTH: usize> {
    unit: ShapedUnit,
}

impl<const WAYS: usize, const WORDS: usize, const REGS: usize, const DEPTH: usize> Model
    for CacheUnit<WAYS, WORDS, REGS, DEPTH> {
    ghost use Rattle.cache_law.specs.State.{UnitState};

    ghost Value = { UnitState };

    ghost view = { λ a. a.unit };
}

impl<const WAYS: usize, const WORDS: usize, const REGS: usize, const DEPTH: usize> CacheUnit<
    WAYS,
    WORDS,
    REGS,
    DEPTH,
> {
    /// An empty unit.
    ///
    /// `BadShape` names the first number out of its range, by [`bad_field`]. `OutOfMemory`: too
    /// little memory, and none is kept.
    pub fn new(alloc: Global, shape: &Shape) -> Result<Self, MakeFault>
        ensures ok { IfOk result
            (λ u. u ≡ record {
              sizes = sizes_of WAYS WORDS REGS DEPTH shape.now;
              cache = opening_cache (sizes_of WAYS WORDS REGS DEPTH shape.now);
            }) }
        ensures in_range { OnOk result
            (limits.bad_field (sizes_of WAYS WORDS REGS DEPTH shape.now) ≡ None) }
        ensures fault { IfErr result
            (λ e. e ≡ fault_of (limits.bad_field (sizes_of WAYS WORDS REGS DEPTH shape.now))) }
    {
        if let Some(field) = bad_field::<WAYS, WORDS, REGS, DEPTH>(shape) {
            return Err(MakeFault::BadShape(field));
        }
        let sizes = sizes_of::<WAYS, WORDS, REGS, DEPTH>(shape);
        let unit = ShapedUnit::new(alloc, &sizes)?;
        Ok(CacheUnit { unit })
    }

    /// Sends the write queue's front to its bank.
    pub fn drain<L: Lines>(&mut self, lines: &mut L) -> Answer
        ensures { MakesOver L.sent_to L.room_of L.same
            (steps.drain_step self.old.sizes (L.room_of lines.old) self.old.cache)
            self.old lines.old result self.new lines.new }
    {
        self.unit.drain(lines)
    }

    /// Gives a block up.
    pub fn evict(&mut self, block: u32) -> Answer
        ensures { Makes (steps.evict_step self.old.sizes self.old.cache block)
            self.old result self.new }
    {
        self.unit.evict(block)
    }

    /// Takes the ready reply at `place`.
    pub fn take(&mut self, place: u32) -> Answer
        ensures { Makes (steps.take_step self.old.cache place) self.old result self.new }
    {
        self.unit.take(place)
    }

    /// Pushes a word from memory onto the stack.
    pub fn arrive(&mut self, slot: u32, i: u32, word: Word) -> Answer
        ensures { Makes (steps.arrive_step self.old.sizes self.old.cache slot i word)
            self.old result self.new }
    {
        self.unit.arrive(slot, i, word)
    }

    /// Takes the word at `place` out of the stack.
    pub fn process(&mut self, place: u32) -> Answer
        ensures { Makes (steps.process_step self.old.cache place) self.old result self.new }
    {
        self.unit.process(place)
    }

    /// Serves a request.
    #[inline(always)]
    pub fn request<L: Lines>(&mut self, request: Request, lines: &mut L) -> Answer
        ensures { MakesOver L.sent_to L.room_of L.same
            (request_step self.old.sizes (L.room_of lines.old) self.old.cache request)
            self.old lines.old result self.new lines.new }
    {
        self.unit.request(request, lines)
    }

    /// What a request would find now.
    pub fn find(&self, at: u32) -> Option<Lookup>
        ensures { result ≡ lookup self.now.sizes self.now.cache at }
    {
        self.unit.find(at)
    }

    /// How many loads are awaited or ready.
    pub fn owed(&self) -> u32
        ensures value { result ≡ length (tags self.now.cache) }
        ensures few { result ≤ self.now.sizes.replies }
        ensures sound { IsSound self.now.sizes self.now.cache }
    {
        self.unit.owed()
    }

    /// Words in the input stack.
    pub fn stack_len(&self) -> u32
        ensures { result ≡ length self.now.cache.stack }
    {
        self.unit.stack_len()
    }

    /// The stack's entry at `place`.
    pub fn stack_entry(&self, place: u32) -> Option<Entry>
        ensures { result ≡ slice_get self.now.cache.stack place }
    {
        self.unit.stack_entry(place)
    }

    /// Words in the write queue.
    pub fn queue_len(&self) -> u32
        ensures { result ≡ length self.now.cache.queue }
    {
        self.unit.queue_len()
    }

    /// The queue's entry at `place`.
    pub fn queue_entry(&self, place: u32) -> Option<Queued>
        ensures { result ≡ slice_get self.now.cache.queue place }
    {
        self.unit.queue_entry(place)
    }

    /// How many values stand ready.
    pub fn replies_len(&self) -> u32
        ensures { result ≡ length self.now.cache.ready }
    {
        self.unit.replies_len()
    }

    /// What a take at `place` would answer.
    pub fn reply(&self, place: u32) -> Option<Answer>
        ensures { result ≡ views.reply_view self.now.cache place }
    {
        self.unit.reply(place)
    }

    /// The register in `slot`, if there is one.
    pub fn register(&self, slot: u32) -> Option<RegisterView>
        ensures { result ≡ views.register_view self.now.cache slot }
    {
        self.unit.register(slot)
    }

    /// Word `i` of a register's block, if there is one.
    pub fn field(&self, slot: u32, i: u32) -> Option<FieldView>
        ensures { result ≡ views.field_view self.now.sizes self.now.cache slot i }
    {
        self.unit.field(slot, i)
    }

    /// The load at `place` among those that wait for a register's word `i`, oldest first.
    pub fn target(&self, slot: u32, i: u32, place: u32) -> Option<Owed>
        ensures { result ≡ views.target_view self.now.cache slot i place }
    {
        self.unit.target(slot, i, place)
    }

    /// The block that a frame holds, if any.
    pub fn frame_block(&self, frame: u32) -> Option<u32>
        ensures { result ≡ views.frame_view self.now.cache frame }
    {
        self.unit.frame_block(frame)
    }

    /// The buffer's word `i` of a frame's block, if there is one.
    pub fn buffer_word(&self, frame: u32, i: u32) -> Option<Word>
        ensures { result ≡ views.word_view self.now.cache frame i }
    {
        self.unit.buffer_word(frame, i)
    }

    /// That word's dirty lanes: stored since the frame took the block.
    pub fn dirty(&self, frame: u32, i: u32) -> Option<Lanes>
        ensures { result ≡ views.dirty_view self.now.cache frame i }
    {
        self.unit.dirty(frame, i)
    }

    /// Whether no register is valid, no lane dirty and the write queue empty.
    pub fn clean(&self) -> bool
        ensures { result ≡ views.is_clean self.now.cache }
    {
        self.unit.clean()
    }
}
