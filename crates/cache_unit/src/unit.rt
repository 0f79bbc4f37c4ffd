//! The cache unit.
ghost use Rattle.std.specs.Prelude.{◌≡◌, ℕ, ◌+◌, ◌≤◌, ◌++◌, length, false, Some};
ghost use Rattle.flat_model.specs.declared.limits.TheConstants.{MAX_REGS};
ghost use Rattle.cache_unit.specs.declared.unit.TheConstants.{REPLY_PLACES};
ghost use Rattle.cache_directory.specs.Frames as dir;
ghost use Rattle.cache_law.specs.Steps as steps;
ghost use Rattle.cache_law.specs.Views as views;
ghost use Rattle.cache_unit.specs.Makes.{Makes, MakesOver};
ghost use Rattle.cache_law.specs.State.{frame_of};
ghost use Rattle.cache_law.specs.Causes.{lacks_places};
ghost use Rattle.cache_law.specs.Steps.{filled_live, CanFill};
ghost use Rattle.miss_registers.specs.Registers as regs;
ghost use Rattle.miss_registers.specs.Whole.{IsWhole};

mod make;
mod miss;
mod present;
mod request;
mod views;

use crate::victim::{dirty_words, vacate};
use crate::{Reply, Sizes};
use arrayvec::ArrayVec;
use cache_directory::FrameTable;
use flat_model::{Answer, Cause, Lanes, MAX_REPLIES, Word, merge};
use input_stack::{ArrivalStack, Entry};
use memory_banks::{Command, Lines};
use miss_registers::{OwedList, RegisterTable};
use std::marker::Model;
use write_queue::{Queued, WriteQueue};

// Room for every ready load.
const REPLY_PLACES: usize = MAX_REPLIES as usize;

/// A cache with the numbers of its [`Sizes`].
///
/// Block `b` has the words from `b * block_words` on, set `s` the frames from `s * ways` on.
/// Commands go to the banks over [`Lines`]; words come back by [`ShapedUnit::arrive`]. Only
/// [`ShapedUnit::new`] allocates.
///
/// Each changing call is one step of a sound unit.
/// [`each_step_makes_forms`](crate::laws::each_step_makes_forms) tells what it makes of bytes that
/// haven't come.
#[derive(Drop)]
pub struct ShapedUnit {
    sizes: Sizes,
    directory: FrameTable,
    registers: RegisterTable,
    stack: ArrivalStack,
    queue: WriteQueue,
    ready: ArrayVec<Reply, REPLY_PLACES>,
}

impl Model for ShapedUnit {
    ghost use Rattle.cache_law.specs.State.{UnitState};

    ghost Value = { UnitState };

    ghost use Rattle.cache_unit.specs.View.{unit_shown, IsSoundUnit};

    ghost view = { unit_shown };

    ghost invariant = { IsSoundUnit };
}

impl ShapedUnit {
    /// Sends the write queue's front to its bank. `Nothing`: the queue is empty. Refused (10): the
    /// bank has no room.
    #[tactic(auto, unfolding(cache_law::specs::Steps::drain_step))]
    pub fn drain<L: Lines>(&mut self, lines: &mut L) -> Answer
        ensures { MakesOver L.sent_to L.room_of L.same
            (steps.drain_step self.old.sizes (L.room_of lines.old) self.old.cache)
            self.old lines.old result self.new lines.new }
    {
        let Some(front) = self.queue.front() else {
            return Answer::Nothing;
        };
        let bank = front.at % self.sizes.banks;
        if lines.room(bank) == 0 {
            return Answer::Refused(Cause::BankFull);
        }
        self.queue.pop();
        let place = front.at / self.sizes.banks;
        lines.send(
            bank,
            Command::Write {
                place,
                word: front.word,
                lanes: front.lanes,
            },
        );
        Answer::Moved
    }

    /// Gives a block up: its dirty words are queued, its frame is released, its live register
    /// becomes obsolete. Refused: no such block (1); no frame holds it (11); the write queue has
    /// too few places (9).
    #[inline(never)]
    pub fn evict(&mut self, block: u32) -> Answer
        ensures { Makes (steps.evict_step self.old.sizes self.old.cache block)
            self.old result self.new }
    {
        let words = u64::from(self.sizes.words);
        let first = u64::from(block) * u64::from(self.sizes.block_words);
        if first >= words {
            return Answer::Refused(Cause::OutOfRange);
        }
        let Some(frame) = self.directory.look(self.sizes.ways, block) else {
            return Answer::Refused(Cause::NotPresent);
        };
        let dirty = dirty_words(&self.directory, &self.sizes, frame);
        if self.queue.room() < dirty {
            return Answer::Refused(Cause::QueueFull);
        }
        self.give_up(block, frame);
        Answer::Accepted
    }

    // The block loses its frame; the queue has room.
    fn give_up(&mut self, block: u32, frame: u32)
        requires holds { frame_of self.old.cache block ≡ Some frame }
        requires room { lacks_places self.old.sizes self.old.cache (Some frame) ≡ false }
        ensures { self.new ≡ record self.old
            { cache = steps.evicted self.old.sizes self.old.cache block frame } }
    {
        vacate(&mut self.directory, &mut self.queue, &self.sizes, frame);
        retire(&mut self.registers, block);
    }

    /// Takes the ready reply at `place`, or `Nothing`.
    #[tactic(auto, unfolding(cache_law::specs::Steps::take_step))]
    #[inline(never)]
    pub fn take(&mut self, place: u32) -> Answer
        ensures { Makes (steps.take_step self.old.cache place) self.old result self.new }
    {
        if (place as usize) < self.ready.len() {
            let reply = self.ready.remove(place as usize);
            Answer::Value {
                tag: reply.tag,
                word: reply.word,
            }
        } else {
            Answer::Nothing
        }
    }

    /// Pushes word `i` for the register in `slot`, which came from memory, onto the stack. Refused:
    /// no register waits for it (13); the stack is full (12).
    pub fn arrive(&mut self, slot: u32, i: u32, word: Word) -> Answer
        ensures { Makes (steps.arrive_step self.old.sizes self.old.cache slot i word)
            self.old result self.new }
    {
        if !self.registers.expects(slot, i) {
            return Answer::Refused(Cause::StrayWord);
        }
        match self.stack.push(self.sizes.depth, Entry { slot, i, word }) {
            Ok(()) => {
                self.registers.mark_in_stack(slot, i);
                Answer::Moved
            }
            Err(_) => Answer::Refused(Cause::StackFull),
        }
    }

    /// Takes the word at `place` out of the stack, or `Nothing`. Its loads are answered in order; a
    /// live register's buffer takes the bytes outside the word's code.
    #[tactic(auto, unfolding(cache_law::specs::Steps::process_step))]
    #[inline(never)]
    pub fn process(&mut self, place: u32) -> Answer
        ensures { Makes (steps.process_step self.old.cache place) self.old result self.new }
    {
        let Some(e) = self.stack.remove(place) else {
            return Answer::Nothing;
        };
        let end = self.registers.finish_word(e.slot, e.i);
        fill_live(&mut self.directory, &e, end.live, end.keep, end.last);
        answer_all(&mut self.ready, e.word, &end.send);
        Answer::Moved
    }
}

fn retire(registers: &mut RegisterTable, block: u32)
    requires { length registers.old ≤ MAX_REGS }
    ensures retired { registers.new ≡ steps.obsoleted registers.old (regs.live_for registers.old block) }
    ensures whole { (words regs : ℕ) → IsWhole words regs registers.old
        → IsWhole words regs registers.new }
{
    if let Some(slot) = registers.live_for(block) {
        registers.make_obsolete(slot);
    }
}

#[tactic(auto, unfolding(cache_law::specs::Steps::filled_live))]
fn fill_live(directory: &mut FrameTable, e: &Entry, live: Option<u32>, keep: Lanes, last: bool)
    requires there { CanFill directory.old live e.now.i }
    ensures filled { directory.new ≡ filled_live directory.old live e.now.i e.now.word keep last }
    ensures whole { (ways words : ℕ) → dir.IsWhole ways words directory.old
        → dir.IsWhole ways words directory.new }
{
    if let Some(frame) = live {
        directory.fill(frame, e.i, e.word, keep);
        if last {
            directory.settle_frame(frame);
        }
    }
}

// The loads that waited for a word are answered, in their order.
fn answer_all(ready: &mut ArrayVec<Reply, REPLY_PLACES>, word: Word, send: &OwedList)
    requires { length ready.old.items + length send.now ≤ REPLY_PLACES }
    ensures { ready.new.items ≡ ready.old.items ++ steps.answered word send.now }
{
    for k in 0..send.len() {
        if let Some(owed) = send.get(k) {
            ready.push(Reply {
                tag: owed.tag,
                word: merge(word, owed.held, owed.lanes),
            });
        }
    }
}
