//! What became of each tag, and the words its load may have got since.

ghost use Rattle.std.specs.Prelude.{◌≡◌, ◌<◌, ◌≤◌, ◌+◌, false, [], vec_len, vec_capacity, replicate, IfOk, OnOk};
ghost use Rattle.std.specs.List.{list_any};
ghost use Rattle.flat_model.specs.Flat.{same_word};
ghost use Rattle.run_reasons.specs.TagSlots.{IsCounted, is_left, while_open, with_left_word};
ghost use Rattle.run_reasons.specs.declared.tags.TheConstants.{TAGS};

use crate::origins::{AcceptedLoad, TagUse};
use flat_model::Word;
use std::alloc::{AllocError, Global};

const TAGS: usize = u16::MAX as usize + 1;

#[derive(Clone, Copy)]
pub(crate) struct LeftWord {
    pub(crate) at: u32,
    pub(crate) word: Word,
}

// `before`: how many words had been left before its load.
#[derive(Clone, Copy)]
pub(crate) struct TagSlot {
    pub(crate) state: TagUse,
    pub(crate) before: usize,
}

// The words that stores left at words of open loads, the oldest first, are forgotten whenever no
// load is open. So each step takes constant time, and memory grows with those stores alone.
#[derive(Drop)]
pub(crate) struct Tags {
    pub(crate) slots: Vec<TagSlot>,
    pub(crate) counts: Vec<u32>,
    pub(crate) loads: u32,
    pub(crate) left: Vec<LeftWord>,
    ghost all_tags: { vec_len slots ≡ TAGS },
    ghost counted: { IsCounted slots.items counts.items loads left.items },
    ghost forgotten: { loads ≡ 0 → left.items ≡ [] },
}

fn no_uses(alloc: Global, count: usize) -> Result<Vec<TagSlot>, AllocError>
    ensures items { IfOk result (λ v. v.items ≡ replicate count (record { state = TagUse.Never; before = 0 })) }
    ensures len { IfOk result (λ v. vec_len v ≡ count) }
{
    let slot = TagSlot {
        state: TagUse::Never,
        before: 0,
    };
    vec![in alloc; slot; count]
}

fn no_loads(alloc: Global, words: u32) -> Result<Vec<u32>, AllocError>
    ensures items { IfOk result (λ v. v.items ≡ replicate words 0) }
    ensures len { IfOk result (λ v. vec_len v ≡ words) }
{
    vec![in alloc; 0u32; words as usize]
}

fn is_same(one: Word, other: Word) -> bool
    ensures { result ≡ same_word one other }
{
    one.b0 == other.b0 && one.b1 == other.b1 && one.b2 == other.b2 && one.b3 == other.b3
}

fn is_left(left: &LeftWord, at: u32, word: Word) -> bool
    ensures { result ≡ is_left at word left.now }
{
    at == left.at && is_same(left.word, word)
}

fn has_word(left: &[LeftWord], at: u32, word: Word) -> bool
    ensures { result ≡ list_any (is_left at word) left.now }
{
    left.iter().any(|left| is_left(left, at, word))
}

fn forget(left: &mut Vec<LeftWord>, loads: u32)
    ensures { left.new.items ≡ while_open loads left.old.items }
{
    if loads == 0 {
        left.clear();
    }
}

impl Tags {
    ghost use Rattle.run_reasons.specs.Origins.{with_use, without_since, with_left};
    ghost use Rattle.run_reasons.specs.TagSlots.{uses_in, since_in, is_open};

    pub(crate) fn new(alloc: Global, words: u32) -> Result<Tags, AllocError>
        ensures uses { IfOk result (λ t. uses_in t.slots.items ≡ (λ tag. TagUse.Never)) }
        ensures since { IfOk result (λ t. since_in t.left.items t.slots.items ≡ (λ tag. [])) }
        ensures words { IfOk result (λ t. vec_len t.counts ≡ words) }
    {
        let slots = no_uses(alloc, TAGS)?;
        let counts = no_loads(alloc, words)?;
        let left = Vec::new(alloc);
        Ok(Tags {
            slots,
            counts,
            loads: 0,
            left,
        })
    }

    pub(crate) fn use_of(&self, tag: u16) -> TagUse
        ensures { result ≡ uses_in self.now.slots.items tag }
    {
        self.slots[tag as usize].state
    }

    // The word at acceptance doesn't count.
    #[tactic(auto, using(crate::proofs::TagSlots::within_left, crate::proofs::TagSlots::has_stood))]
    pub(crate) fn has_stood(&self, tag: u16, word: Word) -> bool
        ensures { result ≡ list_any (λ w. same_word w word) (since_in self.now.left.items self.now.slots.items tag) }
    {
        let TagSlot { state, before } = self.slots[tag as usize];
        match state {
            TagUse::Loaded(load) => has_word(&self.left.as_slice()[before..], load.at, word),
            _ => false,
        }
    }

    pub(crate) fn make_room(&mut self) -> Result<(), AllocError>
        ensures slots { self.new.slots ≡ self.old.slots }
        ensures counts { self.new.counts ≡ self.old.counts }
        ensures left { self.new.left.items ≡ self.old.left.items }
        ensures room { OnOk result (vec_len self.new.left + 1 ≤ vec_capacity self.new.left) }
    {
        self.left.reserve(1)
    }

    // Kept only if a load of that address is open.
    pub(crate) fn leave(&mut self, at: u32, word: Word)
        requires room { vec_len self.old.left + 1 ≤ vec_capacity self.old.left }
        requires inside { at < vec_len self.old.counts }
        ensures slots { self.new.slots ≡ self.old.slots }
        ensures counts { self.new.counts ≡ self.old.counts }
        ensures since { since_in self.new.left.items self.new.slots.items
            ≡ with_left (uses_in self.old.slots.items) (since_in self.old.left.items self.old.slots.items) at word }
        ensures left { self.new.left.items ≡ with_left_word self.old.slots.items self.old.left.items at word }
    {
        if self.counts[at as usize] > 0 {
            self.left.push_reserved(LeftWord { at, word });
        }
    }

    pub(crate) fn accept(&mut self, tag: u16, load: AcceptedLoad)
        requires { load.at < vec_len self.old.counts }
        ensures uses { uses_in self.new.slots.items ≡ with_use (uses_in self.old.slots.items) tag (TagUse.Loaded load) }
        ensures since { since_in self.new.left.items self.new.slots.items
            ≡ without_since (since_in self.old.left.items self.old.slots.items) tag }
        ensures counts { vec_len self.new.counts ≡ vec_len self.old.counts }
    {
        self.end(tag, TagUse::Never);
        self.begin(tag, load);
    }

    pub(crate) fn take(&mut self, tag: u16, line: u64)
        ensures uses { uses_in self.new.slots.items ≡ with_use (uses_in self.old.slots.items) tag (TagUse.Taken line) }
        ensures since { since_in self.new.left.items self.new.slots.items
            ≡ without_since (since_in self.old.left.items self.old.slots.items) tag }
        ensures counts { vec_len self.new.counts ≡ vec_len self.old.counts }
    {
        self.end(tag, TagUse::Taken { line });
    }

    fn begin(&mut self, tag: u16, load: AcceptedLoad)
        requires free { is_open (uses_in self.old.slots.items tag) ≡ false }
        requires inside { load.at < vec_len self.old.counts }
        ensures uses { uses_in self.new.slots.items ≡ with_use (uses_in self.old.slots.items) tag (TagUse.Loaded load) }
        ensures since { since_in self.new.left.items self.new.slots.items
            ≡ without_since (since_in self.old.left.items self.old.slots.items) tag }
        ensures counts { vec_len self.new.counts ≡ vec_len self.old.counts }
    {
        let at = load.at as usize;
        self.counts[at] += 1;
        self.loads += 1;
        self.slots[tag as usize] = TagSlot {
            state: TagUse::Loaded(load),
            before: self.left.len(),
        };
    }

    fn end(&mut self, tag: u16, state: TagUse)
        requires { is_open state ≡ false }
        ensures uses { uses_in self.new.slots.items ≡ with_use (uses_in self.old.slots.items) tag state }
        ensures since { since_in self.new.left.items self.new.slots.items
            ≡ without_since (since_in self.old.left.items self.old.slots.items) tag }
        ensures counts { vec_len self.new.counts ≡ vec_len self.old.counts }
    {
        match self.use_of(tag) {
            TagUse::Loaded(load) => self.end_load(tag, load, state),
            _ => self.set(tag, state),
        }
    }

    fn set(&mut self, tag: u16, state: TagUse)
        requires free { is_open (uses_in self.old.slots.items tag) ≡ false }
        requires closed { is_open state ≡ false }
        ensures uses { uses_in self.new.slots.items ≡ with_use (uses_in self.old.slots.items) tag state }
        ensures since { since_in self.new.left.items self.new.slots.items
            ≡ without_since (since_in self.old.left.items self.old.slots.items) tag }
        ensures counts { vec_len self.new.counts ≡ vec_len self.old.counts }
    {
        self.slots[tag as usize] = TagSlot { state, before: 0 };
    }

    fn end_load(&mut self, tag: u16, load: AcceptedLoad, state: TagUse)
        requires loaded { uses_in self.old.slots.items tag ≡ TagUse.Loaded load }
        requires closed { is_open state ≡ false }
        ensures uses { uses_in self.new.slots.items ≡ with_use (uses_in self.old.slots.items) tag state }
        ensures since { since_in self.new.left.items self.new.slots.items
            ≡ without_since (since_in self.old.left.items self.old.slots.items) tag }
        ensures counts { vec_len self.new.counts ≡ vec_len self.old.counts }
        ensures left { self.new.left.items ≡ while_open self.new.loads self.old.left.items }
    {
        let at = load.at as usize;
        self.counts[at] -= 1;
        self.loads -= 1;
        self.slots[tag as usize] = TagSlot { state, before: 0 };
        forget(&mut self.left, self.loads);
    }
}
