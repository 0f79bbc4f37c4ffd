//! Registers for blocks of any number of words.
ghost use Rattle.std.specs.Prelude.{◌≡◌, ◌<◌, ◌≤◌, ◌*◌, ℕ, length, slice_set, replicate, IfOk, if◌then◌else◌, true, false};
ghost use Rattle.std.specs.List.{list_any};
ghost use Rattle.miss_registers.specs.declared.TheConstants.{MAX_WAITING};
ghost use Rattle.flat_model.specs.declared.limits.TheConstants.{MAX_BLOCK_WORDS, MAX_REGS};
ghost use Rattle.miss_registers.specs.Registers as spec;
ghost use Rattle.miss_registers.specs.Views as shows;
ghost use Rattle.miss_registers.specs.Whole.{IsWhole};

use crate::slot::Slot;
use crate::{FieldView, Owed, RegisterView, WordEnd};
use flat_model::{Lanes, Word};
use std::alloc::{AllocError, Global};
use std::marker::Model;

/// The registers of missing blocks, numbered from 0. A call is passed the words of a block if it
/// needs them.
#[derive(Drop)]
pub struct RegisterTable {
    slots: Vec<Slot>,
    // Loads that wait: counted, since each load asks.
    awaited: u32,
}

impl Model for RegisterTable {
    ghost use Rattle.std.specs.Prelude.{List, ◌≡◌, length};
    ghost use Rattle.miss_registers.specs.Registers.{Register, waiting_tags};

    ghost Value = { List Register };

    ghost view = { λ a. a.slots.items };

    ghost invariant = { λ a. a.awaited ≡ length (waiting_tags a.slots.items) };
}

impl RegisterTable {
    /// Free registers: 1 to `MAX_REGS`, for blocks of 1 to `MAX_BLOCK_WORDS` words. An error: too
    /// little memory, and none is kept.
    pub fn new(alloc: Global, regs: u32) -> Result<Self, AllocError>
        ensures ok { IfOk result (λ r. r ≡ replicate regs spec.free_register) }
        ensures whole { IfOk result (λ r. (words : ℕ) → 1 ≤ words → words ≤ MAX_BLOCK_WORDS
            → 1 ≤ regs → regs ≤ MAX_REGS → IsWhole words regs r) }
    {
        let slots = free_slots(alloc, regs)?;
        Ok(RegisterTable { slots, awaited: 0 })
    }

    /// The live register of a block, if there is one: the comparator.
    pub fn live_for(&self, block: u32) -> Option<u32>
        requires few { length self.now ≤ MAX_REGS }
        ensures answer { result ≡ spec.live_for self.now block }
    {
        first_live(&self.slots, block)
    }

    /// The lowest free register, if there is one.
    pub fn free_slot(&self) -> Option<u32>
        requires few { length self.now ≤ MAX_REGS }
        ensures answer { result ≡ spec.free_slot self.now }
    {
        first_free(&self.slots)
    }

    /// Takes a free register for a block without a live one. All its words are to come, into
    /// `frame`.
    pub fn allocate(&mut self, words: u32, slot: u32, block: u32, frame: u32)
        requires few_words { words ≤ MAX_BLOCK_WORDS }
        requires slot { slot < length self.old }
        requires free { spec.register_at self.old slot ≡ spec.free_register }
        requires absent { spec.live_for self.old block ≡ None }
        ensures registers { self.new ≡ slice_set self.old slot (spec.fresh words block frame) }
        ensures whole { (regs : ℕ) → IsWhole words regs self.old → IsWhole words regs self.new }
    {
        let register = &mut self.slots[slot as usize];
        register.allocate(words, block, frame);
    }

    /// A load waits for expected word `i` of a live register, behind fewer than 4. It has the bytes
    /// of `held` in these lanes. No waiting load has its tag.
    pub fn await_word(&mut self, slot: u32, i: u32, tag: u16, held: Word, lanes: Lanes)
        requires slot { slot < length self.old }
        requires live { spec.is_live (spec.register_at self.old slot) ≡ true }
        requires expected { spec.expects (spec.register_at self.old slot) i ≡ true }
        requires room { length (spec.field_at self.old slot i).waiting < MAX_WAITING }
        requires few { length (spec.waiting_tags self.old)
            ≤ MAX_REGS * (MAX_BLOCK_WORDS * MAX_WAITING) }
        requires new_tag { spec.tag_waits self.old tag ≡ false }
        ensures registers { self.new ≡ slice_set self.old slot
            (spec.awaited (spec.register_at self.old slot) i
            (record { tag = tag; held = held; lanes = lanes })) }
        ensures whole { (words regs : ℕ) → IsWhole words regs self.old → IsWhole words regs self.new }
    {
        let register = &mut self.slots[slot as usize];
        register.await_word(i, Owed { tag, held, lanes });
        self.awaited += 1;
    }

    /// The lanes join the code of unprocessed word `i` of a live register: the arriving word
    /// mustn't change them. A miss begins a code so.
    pub fn note_store(&mut self, slot: u32, i: u32, lanes: Lanes)
        requires slot { slot < length self.old }
        requires live { spec.is_live (spec.register_at self.old slot) ≡ true }
        requires there { i < length (spec.register_at self.old slot).fields }
        requires unprocessed { (spec.field_at self.old slot i).processed ≡ false }
        ensures registers { self.new
            ≡ slice_set self.old slot (spec.noted (spec.register_at self.old slot) i lanes) }
        ensures whole { (words regs : ℕ) → IsWhole words regs self.old → IsWhole words regs self.new }
    {
        let register = &mut self.slots[slot as usize];
        register.note_store(i, lanes);
    }

    /// Whether word `i` of a register is unprocessed and not in the stack. False without one.
    pub fn expects(&self, slot: u32, i: u32) -> bool
        ensures answer { result ≡ spec.expects (spec.register_at self.now slot) i }
    {
        if (slot as usize) < self.slots.len() {
            let register = &self.slots[slot as usize];
            register.expects(i)
        } else {
            false
        }
    }

    /// Expected word `i` stands in the stack now.
    pub fn mark_in_stack(&mut self, slot: u32, i: u32)
        requires slot { slot < length self.old }
        requires expected { spec.expects (spec.register_at self.old slot) i ≡ true }
        ensures registers { self.new
            ≡ slice_set self.old slot (spec.marked (spec.register_at self.old slot) i) }
        ensures whole { (words regs : ℕ) → IsWhole words regs self.old → IsWhole words regs self.new }
    {
        let register = &mut self.slots[slot as usize];
        register.mark_in_stack(i);
    }

    /// Word `i` of the stack is processed: its loads wait no more, its marks and code are clear.
    /// The register is free behind its last word.
    pub fn finish_word(&mut self, slot: u32, i: u32) -> WordEnd
        requires slot { slot < length self.old }
        requires in_stack { (spec.field_at self.old slot i).in_stack ≡ true }
        requires done { (k : ℕ) → (spec.field_at self.old slot k).processed ≡ true
            → spec.field_at self.old slot k ≡ spec.finished_field }
        ensures registers { self.new
            ≡ slice_set self.old slot (spec.finished (spec.register_at self.old slot) i) }
        ensures send { result.send ≡ (spec.field_at self.old slot i).waiting }
        ensures keep { result.keep ≡ (spec.field_at self.old slot i).code }
        ensures live { result.live ≡ (if (spec.register_at self.old slot).obsolete then None
            else Some (spec.register_at self.old slot).frame) }
        ensures last { result.last
            ≡ spec.is_done (spec.finished_fields (spec.register_at self.old slot) i) }
        ensures whole { (words regs : ℕ) → IsWhole words regs self.old → IsWhole words regs self.new }
    {
        let register = &mut self.slots[slot as usize];
        let end = register.finish_word(i);
        self.awaited -= end.send.len();
        end
    }

    /// A live register loses its frame: its codes are clear, and the comparator doesn't find it.
    /// Its loads wait on.
    pub fn make_obsolete(&mut self, slot: u32)
        requires slot { slot < length self.old }
        requires live { spec.is_live (spec.register_at self.old slot) ≡ true }
        ensures registers { self.new
            ≡ slice_set self.old slot (spec.made_obsolete (spec.register_at self.old slot)) }
        ensures whole { (words regs : ℕ) → IsWhole words regs self.old → IsWhole words regs self.new }
    {
        let register = &mut self.slots[slot as usize];
        register.make_obsolete();
    }

    /// Whether a load with this tag waits.
    pub fn tag_waits(&self, tag: u16) -> bool
        ensures answer { result ≡ spec.tag_waits self.now tag }
    {
        self.awaited > 0 && one_has_tag(&self.slots, tag)
    }

    /// How many loads wait for words.
    pub fn awaited(&self) -> u32
        ensures answer { result ≡ length (spec.waiting_tags self.now) }
    {
        self.awaited
    }

    /// The register in `slot`, if there is one.
    pub fn register(&self, slot: u32) -> Option<RegisterView>
        ensures answer { result ≡ shows.register_view self.now slot }
    {
        if (slot as usize) < self.slots.len() {
            let register = &self.slots[slot as usize];
            Some(register.view())
        } else {
            None
        }
    }

    /// Word `i` of a register, if there is one.
    pub fn field(&self, words: u32, slot: u32, i: u32) -> Option<FieldView>
        ensures answer { result ≡ shows.field_view words self.now slot i }
    {
        if (slot as usize) < self.slots.len() && i < words {
            let register = &self.slots[slot as usize];
            Some(register.field(i))
        } else {
            None
        }
    }

    /// Word `i`'s code; `None` once processed. Empty beyond the block.
    pub fn missing_code(&self, slot: u32, i: u32) -> Option<Lanes>
        requires { slot < length self.now }
        ensures { result ≡ spec.code_of_missing (spec.field_at self.now slot i) }
    {
        let register = &self.slots[slot as usize];
        register.missing_code(i)
    }

    /// How many loads wait for word `i`; none beyond the block.
    pub fn waiting(&self, slot: u32, i: u32) -> u32
        requires { slot < length self.now }
        ensures { result ≡ length (spec.field_at self.now slot i).waiting }
    {
        let register = &self.slots[slot as usize];
        register.waiting(i)
    }

    /// The load at `place` of word `i`'s, oldest first.
    pub fn target(&self, slot: u32, i: u32, place: u32) -> Option<Owed>
        ensures answer { result ≡ shows.target_view self.now slot i place }
    {
        if (slot as usize) < self.slots.len() {
            let register = &self.slots[slot as usize];
            register.target(i, place)
        } else {
            None
        }
    }
}

fn free_slots(alloc: Global, count: u32) -> Result<Vec<Slot>, AllocError>
    ensures { IfOk result (λ slots. slots.items ≡ replicate count spec.free_register) }
{
    let mut slots = Vec::with_capacity(alloc, count as usize)?;
    for _ in 0..count {
        slots.push(Slot::new())?;
    }
    Ok(slots)
}

fn first_live(slots: &[Slot], block: u32) -> Option<u32>
    requires { length slots.now ≤ MAX_REGS }
    ensures { result ≡ spec.live_for slots.now block }
{
    let place = slots
        .iter()
        .position(|register| register.is_live_for(block));
    place.map(|place| place as u32)
}

fn first_free(slots: &[Slot]) -> Option<u32>
    requires { length slots.now ≤ MAX_REGS }
    ensures { result ≡ spec.free_slot slots.now }
{
    let place = slots.iter().position(|register| !register.is_valid());
    place.map(|place| place as u32)
}

fn one_has_tag(slots: &[Slot], tag: u16) -> bool
    ensures { result ≡ list_any (λ r. spec.has_tag (spec.tags_of r) tag) slots.now }
{
    slots.iter().any(|register| register.tag_waits(tag))
}
