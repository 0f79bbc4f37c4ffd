//! A request for a block that no frame holds.
ghost use Rattle.std.specs.Prelude.{◌≡◌, ◌+◌, ◌*◌, ◌≤◌, false, IfOk, IfErr, Some};
ghost use Rattle.memory_banks.specs.Banks.{HasSent};
ghost use Rattle.cache_law.specs.State.{is_present};
ghost use Rattle.cache_law.specs.Causes.{first_cause, miss_causes};
ghost use Rattle.cache_law.specs.Steps.{fetched, fetches};
ghost use Rattle.cache_law.specs.Miss.{MayTake};

use crate::fetch::{bring_in, choose_frame, words_owed};
use crate::reads::lacks_room;
use crate::{Places, ShapedUnit};
use flat_model::Cause;
use memory_banks::Lines;

impl ShapedUnit {
    // What a miss takes, or the first cause against it.
    #[inline(always)]
    pub(super) fn find_places<L: Lines>(&self, lines: &L, block: u32) -> Result<Places, Cause>
        requires { block * self.now.sizes.block_words + self.now.sizes.block_words ≤ self.now.sizes.words }
        ensures refused { IfErr result
            (λ cause. first_cause
            (miss_causes self.now.sizes (L.room_of lines.now) self.now.cache block)
            ≡ Some cause) }
        ensures found { IfOk result
            (λ places. MayTake self.now.sizes (L.room_of lines.now) self.now.cache block places.frame places.slot) }
    {
        let Some(slot) = self.registers.free_slot() else {
            return Err(Cause::NoRegister);
        };
        let Some(frame) = choose_frame(&self.directory, &self.sizes, block) else {
            return Err(Cause::SetPending);
        };
        if self.queue.room() < words_owed(&self.directory, &self.sizes, frame) {
            return Err(Cause::QueueFull);
        }
        let words = self.sizes.block_words;
        if lacks_room(lines, block * words, words, self.sizes.banks) {
            return Err(Cause::BankFull);
        }
        Ok(Places { frame, slot })
    }

    // Brings an absent block in, unless a cause forbids it. Not inlined: a hit doesn't pay for its
    // locals.
    #[inline(never)]
    pub(super) fn fetch<L: Lines>(&mut self, lines: &mut L, block: u32, places: Places)
        requires absent { is_present self.old.cache block ≡ false }
        requires in_memory { block * self.old.sizes.block_words + self.old.sizes.block_words ≤ self.old.sizes.words }
        requires may_take { MayTake self.old.sizes
            (L.room_of lines.old) self.old.cache block places.frame places.slot }
        ensures unit { self.new
            ≡ record self.old { cache = fetched self.old.sizes self.old.cache block } }
        ensures lines { HasSent L.sent_to L.room_of L.same lines.old lines.new
            (fetches self.old.sizes self.old.cache block) }
    {
        bring_in(
            &mut self.directory,
            &mut self.registers,
            &mut self.queue,
            lines,
            &self.sizes,
            block,
            places,
        );
    }
}
