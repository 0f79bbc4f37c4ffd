//! Requests of the processor.
ghost use Rattle.std.specs.Prelude.{◌≡◌, ℕ, ◌+◌, ◌*◌, ◌≤◌, ◌<◌, nat_lt, nat_le, not, length, IfOk, IfErr, OnErr, OnOk, None, Some};
ghost use Rattle.memory_banks.specs.Banks.{HasSent};
ghost use Rattle.cache_law.specs.State.{frame_of, block_of, place_in, tags};
ghost use Rattle.cache_law.specs.Causes.{found, targets_full};
ghost use Rattle.cache_law.specs.Sound.{IsSound};
ghost use Rattle.cache_unit.specs.Makes.{MakesOver};
ghost use Rattle.cache_law.specs.Lookups.{lookup, lookup_of};
ghost use Rattle.cache_law.specs.Requests.{absence_cause, is_full_for};
ghost use Rattle.cache_law.specs.Steps.{fetched, fetches, load_step, store_step, prefetch_step, request_step};

use crate::unit::present::Finding;
use crate::{Lookup, Request, ShapedUnit};
use flat_model::{Answer, Cause, Lanes, Word};
use memory_banks::Lines;

impl ShapedUnit {
    /// Serves a request. An absent block is brought in first: it takes a frame and a register, and
    /// sends its reads.
    ///
    /// Refused for the first that holds. The word is out of range (1). A store has no lane (2). A
    /// load's tag is owed a value (3), the limit of outstanding loads is reached (4), or, in a
    /// present block, four loads wait for the word (5). Of an absent block: no register is free (7);
    /// every way is pending (8); the write queue lacks places for the victim's dirty words (9); a
    /// bank lacks room for the reads (10).
    #[inline(always)]
    pub fn request<L: Lines>(&mut self, request: Request, lines: &mut L) -> Answer
        ensures { MakesOver L.sent_to L.room_of L.same
            (request_step self.old.sizes (L.room_of lines.old) self.old.cache request)
            self.old lines.old result self.new lines.new }
    {
        match request {
            Request::Load { tag, at } => self.load(tag, at, lines),
            Request::Store { at, word, lanes } => self.store(at, word, lanes, lines),
            Request::Prefetch { at } => self.prefetch(at, lines),
        }
    }

    /// What a request for the word at `at` would find now; `None` if memory has no such word. It
    /// may still be refused.
    pub fn find(&self, at: u32) -> Option<Lookup>
        ensures { result ≡ lookup self.now.sizes self.now.cache at }
    {
        if self.is_outside(at) {
            return None;
        }
        let block = self.block_of(at);
        let i = self.place_in(at);
        Some(self.find_in(block, i))
    }

    fn find_in(&self, block: u32, i: u32) -> Lookup
        requires { i < self.now.sizes.block_words }
        ensures { result ≡ lookup_of self.now.cache block i }
    {
        let Some(frame) = self.directory.look(self.sizes.ways, block) else {
            return Lookup::Miss;
        };
        match self.find_word(block, i, frame) {
            Finding::Here(_) => Lookup::Hit,
            Finding::Coming { .. } => Lookup::Join,
        }
    }

    // Not inlined, as a store isn't: each pays for its own locals.
    #[inline(never)]
    fn load<L: Lines>(&mut self, tag: u16, at: u32, lines: &mut L) -> Answer
        ensures { MakesOver L.sent_to L.room_of L.same
            (load_step self.old.sizes (L.room_of lines.old) self.old.cache tag at)
            self.old lines.old result self.new lines.new }
    {
        if self.is_outside(at) {
            return Answer::Refused(Cause::OutOfRange);
        }
        if self.is_in_use(tag) {
            return Answer::Refused(Cause::TagInUse);
        }
        if self.owes_all() {
            return Answer::Refused(Cause::RepliesFull);
        }
        let block = self.block_of(at);
        let i = self.place_in(at);
        match self.make_present(lines, block) {
            Ok(frame) => self.load_present(tag, block, i, frame),
            Err(cause) => Answer::Refused(cause),
        }
    }

    #[inline(never)]
    fn store<L: Lines>(&mut self, at: u32, word: Word, lanes: Lanes, lines: &mut L) -> Answer
        ensures { MakesOver L.sent_to L.room_of L.same
            (store_step self.old.sizes (L.room_of lines.old) self.old.cache at word lanes)
            self.old lines.old result self.new lines.new }
    {
        if self.is_outside(at) {
            return Answer::Refused(Cause::OutOfRange);
        }
        if !lanes.has_any() {
            return Answer::Refused(Cause::NoLanes);
        }
        let block = self.block_of(at);
        let i = self.place_in(at);
        match self.make_present(lines, block) {
            Ok(frame) => {
                self.store_present(block, i, frame, word, lanes);
                Answer::Accepted
            }
            Err(cause) => Answer::Refused(cause),
        }
    }

    #[inline(never)]
    fn prefetch<L: Lines>(&mut self, at: u32, lines: &mut L) -> Answer
        ensures { MakesOver L.sent_to L.room_of L.same
            (prefetch_step self.old.sizes (L.room_of lines.old) self.old.cache at)
            self.old lines.old result self.new lines.new }
    {
        if self.is_outside(at) {
            return Answer::Refused(Cause::OutOfRange);
        }
        let block = self.block_of(at);
        match self.make_present(lines, block) {
            Ok(_) => Answer::Accepted,
            Err(cause) => Answer::Refused(cause),
        }
    }

    // Whether memory has no such word.
    fn is_outside(&self, at: u32) -> bool
        ensures outside { result ≡ not (nat_lt at self.now.sizes.words) }
        ensures sound { IsSound self.now.sizes self.now.cache }
    {
        at >= self.sizes.words
    }

    fn owes_all(&self) -> bool
        ensures { result ≡ nat_le self.now.sizes.replies (length (tags self.now.cache)) }
    {
        self.owed() >= self.sizes.replies
    }

    // The word's block, wholly in memory if the word is.
    fn block_of(&self, at: u32) -> u32
        ensures value { result ≡ block_of self.now.sizes at }
        ensures within { at < self.now.sizes.words
            → result * self.now.sizes.block_words + self.now.sizes.block_words
            ≤ self.now.sizes.words }
    {
        at / self.sizes.block_words
    }

    fn place_in(&self, at: u32) -> u32
        ensures value { result ≡ place_in self.now.sizes at }
        ensures small { result < self.now.sizes.block_words }
    {
        at % self.sizes.block_words
    }

    // The block's frame. An absent block is brought in, or the first cause against that is
    // answered.
    #[inline(always)]
    fn make_present<L: Lines>(&mut self, lines: &mut L, block: u32) -> Result<u32, Cause>
        requires { block * self.old.sizes.block_words + self.old.sizes.block_words
            ≤ self.old.sizes.words }
        ensures cause { IfErr result
            (λ cause. absence_cause self.old.sizes (L.room_of lines.old) self.old.cache block
            ≡ Some cause) }
        ensures unit_kept { OnErr result (self.new ≡ self.old) }
        ensures lines_kept { OnErr result (lines.new ≡ lines.old) }
        ensures no_cause { OnOk result
            (absence_cause self.old.sizes (L.room_of lines.old) self.old.cache block ≡ None) }
        ensures unit { OnOk result
            (self.new ≡ record self.old { cache = fetched self.old.sizes self.old.cache block }) }
        ensures lines { OnOk result
            (HasSent L.sent_to L.room_of L.same lines.old lines.new
            (fetches self.old.sizes self.old.cache block)) }
        ensures tags_kept { OnOk result (tags self.new.cache ≡ tags self.old.cache) }
        ensures targets { OnOk result
            ((i : ℕ) → targets_full self.new.cache i (found self.new.cache block i)
            ≡ is_full_for self.old.cache block i) }
        ensures held { IfOk result (λ frame. frame_of self.new.cache block ≡ Some frame) }
    {
        if let Some(frame) = self.directory.look(self.sizes.ways, block) {
            return Ok(frame);
        }
        let places = self.find_places(lines, block)?;
        self.fetch(lines, block, places);
        Ok(places.frame)
    }
}
