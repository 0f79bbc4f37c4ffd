//! What the unit shows.
ghost use Rattle.std.specs.Prelude.{◌≡◌, ◌*◌, ◌<◌, length, slice_get, is_some, not};
ghost use Rattle.std.specs.List.{list_all};
ghost use Rattle.flat_model.specs.Words.{has_any};
ghost use Rattle.cache_directory.specs.Frames as dir;
ghost use Rattle.miss_registers.specs.Registers as regs;
ghost use Rattle.miss_registers.specs.Whole.{IsWhole};
ghost use Rattle.cache_law.specs.Views as views;

use crate::victim::dirty_words;
use crate::{Reply, ShapedUnit, Sizes};
use cache_directory::FrameTable;
use flat_model::{Answer, Lanes, Word};
use input_stack::Entry;
use miss_registers::{FieldView, Owed, RegisterTable, RegisterView};
use write_queue::Queued;

impl ShapedUnit {
    /// The numbers it was made with.
    pub fn sizes(&self) -> &Sizes
        ensures { result.now ≡ self.now.sizes }
    {
        &self.sizes
    }

    /// Words in the input stack.
    pub fn stack_len(&self) -> u32
        ensures { result ≡ length self.now.cache.stack }
    {
        self.stack.len()
    }

    /// The stack's entry at `place`.
    pub fn stack_entry(&self, place: u32) -> Option<Entry>
        ensures { result ≡ slice_get self.now.cache.stack place }
    {
        self.stack.get(place)
    }

    /// Words in the write queue.
    pub fn queue_len(&self) -> u32
        ensures { result ≡ length self.now.cache.queue }
    {
        self.queue.len()
    }

    /// The queue's entry at `place`.
    pub fn queue_entry(&self, place: u32) -> Option<Queued>
        ensures { result ≡ slice_get self.now.cache.queue place }
    {
        self.queue.get(place)
    }

    /// How many values stand ready.
    pub fn replies_len(&self) -> u32
        ensures { result ≡ length self.now.cache.ready }
    {
        self.ready.len() as u32
    }

    /// What a take at `place` would answer.
    pub fn reply(&self, place: u32) -> Option<Answer>
        ensures { result ≡ views.reply_view self.now.cache place }
    {
        self.ready.get(place as usize).map(value_of)
    }

    /// The register in `slot`, if there is one.
    pub fn register(&self, slot: u32) -> Option<RegisterView>
        ensures { result ≡ views.register_view self.now.cache slot }
    {
        self.registers.register(slot)
    }

    /// Word `i` of a register's block, if there is one.
    pub fn field(&self, slot: u32, i: u32) -> Option<FieldView>
        ensures { result ≡ views.field_view self.now.sizes self.now.cache slot i }
    {
        self.registers.field(self.sizes.block_words, slot, i)
    }

    /// The load at `place` among those that wait for a register's word `i`, oldest first.
    pub fn target(&self, slot: u32, i: u32, place: u32) -> Option<Owed>
        ensures { result ≡ views.target_view self.now.cache slot i place }
    {
        self.registers.target(slot, i, place)
    }

    // How many frames there are.
    fn frames(&self) -> u32
        ensures { result ≡ length self.now.cache.directory.frames }
    {
        self.sizes.sets * self.sizes.ways
    }

    /// The block that a frame holds, if any.
    pub fn frame_block(&self, frame: u32) -> Option<u32>
        ensures { result ≡ views.frame_view self.now.cache frame }
    {
        if frame < self.frames() {
            self.directory.block_of(frame)
        } else {
            None
        }
    }

    fn has_word(&self, frame: u32, i: u32) -> bool
        ensures { result ≡ is_some (views.cell_view self.now.cache frame i) }
    {
        frame < self.frames()
            && self.directory.block_of(frame).is_some()
            && i < self.sizes.block_words
    }

    /// The buffer's word `i` of a frame's block, if there is one.
    pub fn buffer_word(&self, frame: u32, i: u32) -> Option<Word>
        ensures { result ≡ views.word_view self.now.cache frame i }
    {
        if self.has_word(frame, i) {
            Some(self.directory.word(frame, i))
        } else {
            None
        }
    }

    /// That word's dirty lanes: stored since the frame took the block.
    pub fn dirty(&self, frame: u32, i: u32) -> Option<Lanes>
        ensures { result ≡ views.dirty_view self.now.cache frame i }
    {
        if self.has_word(frame, i) {
            Some(self.directory.dirty(frame, i))
        } else {
            None
        }
    }

    /// Whether no register is valid, no lane dirty and the write queue empty.
    pub fn clean(&self) -> bool
        ensures { result ≡ views.is_clean self.now.cache }
    {
        are_free(&self.registers, self.sizes.regs)
            && are_clean(&self.directory, &self.sizes)
            && self.queue.len() == 0
    }
}

fn is_valid(registers: &RegisterTable, slot: u32) -> bool
    ensures { result ≡ (regs.register_at registers.now slot).valid }
{
    match registers.register(slot) {
        Some(shown) => shown.valid,
        None => false,
    }
}

// Whether no register is valid.
fn are_free(registers: &RegisterTable, count: u32) -> bool
    requires { length registers.now ≡ count }
    ensures { result ≡ list_all (λ r. not r.valid) registers.now }
{
    for slot in 0..count {
        if is_valid(registers, slot) {
            return false;
        }
    }
    true
}

fn is_clean(directory: &FrameTable, sizes: &Sizes, frame: u32) -> bool
    requires whole { dir.IsWhole sizes.now.ways sizes.now.block_words directory.now }
    requires frame { frame < length directory.now.frames }
    ensures { result ≡ list_all (λ cell. not (has_any cell.dirty))
        (dir.frame_at directory.now.frames frame).cells }
{
    match directory.block_of(frame) {
        Some(_) => dirty_words(directory, sizes, frame) == 0,
        None => true,
    }
}

fn are_clean(directory: &FrameTable, sizes: &Sizes) -> bool
    requires whole { dir.IsWhole sizes.now.ways sizes.now.block_words directory.now }
    requires frames { sizes.now.sets * sizes.now.ways ≡ length directory.now.frames }
    ensures { result ≡ list_all
        (λ f. list_all (λ cell. not (has_any cell.dirty)) f.cells) directory.now.frames }
{
    for frame in 0..sizes.sets * sizes.ways {
        if !is_clean(directory, sizes, frame) {
            return false;
        }
    }
    true
}

fn value_of(reply: &Reply) -> Answer
    ensures { result ≡ Answer.Value reply.now.tag reply.now.word }
{
    Answer::Value {
        tag: reply.tag,
        word: reply.word,
    }
}
