//! Words that the cache has given up and that go to memory: first in, first out.
//!
//! - First call: [`WriteQueue::new`], then [`WriteQueue::push`] for each dirty word of a victim.
//! - Caller: `cache_unit`, which sends [`WriteQueue::front`] to its bank and then pops it.
//!
//! A word may have several entries; in each lane the newest one's byte counts
//! ([`WriteQueue::newest`]). The queue has room for whole blocks; the caller looks at
//! [`WriteQueue::room`] before it pushes.
#![tactic(auto)]

ghost use Rattle.std.specs.List.{list_any};
ghost use Rattle.std.specs.Prelude.{◌≡◌, ◌-◌, ◌<◌, ◌==◌, [], ◌∷◌, ◌++◌, length, drop, slice_get, if◌then◌else◌, IsTrue, IfOk, IfErr, OnOk};
ghost use Rattle.write_queue.specs.Queue.{queue, is_limit, IsQueue};
ghost use Rattle.write_queue.specs.Queue as spec;

use circular_buffer::HeapCircularBuffer;
use flat_model::{Lanes, MAX_WRITE_QUEUE, MakeFault, ShapeField, Word, merge};
use std::alloc::Global;
use std::marker::Model;

/// The bytes of `word` in `lanes` go to the word at `at`, in `block`.
#[derive(Clone, Copy, PartialEq, Eq, Debug, Default)]
pub struct Queued {
    /// The block that was given up.
    pub block: u32,
    /// The address of the word in memory.
    pub at: u32,
    /// Only bytes in the lanes count.
    pub word: Word,
    /// The lanes to be written.
    pub lanes: Lanes,
}

/// A word's newest queued bytes; zeros elsewhere.
#[derive(Clone, Copy, PartialEq, Eq, Debug, Default)]
pub struct Forward {
    /// Bytes for memory.
    pub word: Word,
    /// Lanes that an entry has.
    pub lanes: Lanes,
}

/// At most 256 words, first in, first out.
#[derive(Drop)]
pub struct WriteQueue {
    waiting: HeapCircularBuffer<Queued>,
}

impl Model for WriteQueue {
    ghost use Rattle.write_queue.specs.Queue.{Queue, queue, IsQueue};

    ghost Value = { Queue };

    ghost view = { λ a. queue a.waiting.items a.waiting.capacity };

    ghost invariant = { λ a. IsQueue (queue a.waiting.items a.waiting.capacity) };
}

impl WriteQueue {
    /// An empty queue for `cap` words (1 to 256, or `BadShape(WriteQueue)`). `OutOfMemory`: too
    /// little memory, and none is kept.
    pub fn new(alloc: Global, cap: u32) -> Result<Self, MakeFault>
        ensures ok { IfOk result (λ q. q ≡ queue [] cap) }
        ensures in_range { OnOk result (IsTrue (is_limit cap)) }
        ensures fault { IfErr result (λ e. e ≡ (if is_limit cap then MakeFault.OutOfMemory
            else MakeFault.BadShape ShapeField.WriteQueue)) }
    {
        if cap < 1 || cap > MAX_WRITE_QUEUE {
            return Err(MakeFault::BadShape(ShapeField::WriteQueue));
        }
        let waiting = HeapCircularBuffer::with_capacity(alloc, cap as usize)?;
        Ok(WriteQueue { waiting })
    }

    /// How many words wait.
    pub fn len(&self) -> u32
        ensures value { result ≡ length self.now.entries }
        ensures within { IsQueue self.now }
    {
        self.waiting.len() as u32
    }

    /// How many more words the queue takes.
    pub fn room(&self) -> u32
        ensures value { result ≡ self.now.limit - length self.now.entries }
        ensures within { IsQueue self.now }
    {
        (self.waiting.capacity() - self.waiting.len()) as u32
    }

    /// Puts a word last, if there is room.
    pub fn push(&mut self, entry: Queued)
        requires { length self.old.entries < self.old.limit }
        ensures { self.new ≡ queue (self.old.entries ++ entry ∷ []) self.old.limit }
    {
        let _ = self.waiting.try_push_back(entry);
    }

    /// The oldest word, if any.
    pub fn front(&self) -> Option<Queued>
        ensures { result ≡ slice_get self.now.entries 0 }
    {
        self.waiting.front().copied()
    }

    /// Takes the oldest word out. `None` changes nothing.
    pub fn pop(&mut self) -> Option<Queued>
        ensures value { result ≡ slice_get self.old.entries 0 }
        ensures rest { self.new ≡ queue (drop 1 self.old.entries) self.old.limit }
    {
        self.waiting.pop_front()
    }

    /// The word at `place`, the oldest at 0.
    pub fn get(&self, place: u32) -> Option<Queued>
        ensures { result ≡ slice_get self.now.entries place }
    {
        self.waiting.get(place as usize).copied()
    }

    /// Whether a word of the block waits.
    pub fn holds_block(&self, block: u32) -> bool
        ensures { result ≡ list_any (λ q. q.block == block) self.now.entries }
    {
        self.waiting.iter().any(|q| q.block == block)
    }

    /// The newest queued bytes of the word at `at`.
    pub fn newest(&self, at: u32) -> Forward
        ensures { result ≡ spec.newest self.now.entries at }
    {
        let mut word = Word::default();
        let mut lanes = Lanes::none();
        for q in self.waiting.iter() {
            if q.at == at {
                word = merge(word, q.word, q.lanes);
                lanes = lanes.joined(q.lanes);
            }
        }
        Forward { word, lanes }
    }
}
