//! One register.
ghost use Rattle.std.specs.Prelude.{◌≡◌, ◌<◌, ◌≤◌, ◌&&◌, ◌==◌, length, slice_get, slice_set, slice_index_or, not, if◌then◌else◌, nat_lt};
ghost use Rattle.std.specs.Prelude.{map, replicate, None, Some};
ghost use Rattle.std.specs.List.{list_all, count_by};
ghost use Rattle.miss_registers.specs.declared.TheConstants.{MAX_WAITING};
ghost use Rattle.flat_model.specs.declared.limits.TheConstants.{MAX_BLOCK_WORDS};
ghost use Rattle.miss_registers.specs.Registers as spec;
ghost use Rattle.miss_registers.specs.Targets as kept;
ghost use Rattle.miss_registers.specs.Views as shows;

use crate::marks::Marks;
use crate::targets::Targets;
use crate::{FieldView, Owed, OwedList, RegisterView, WordEnd};
use arrayvec::ArrayVec;
use flat_model::{Lanes, MAX_BLOCK_WORDS};
use std::marker::Model;

/// A register: its block, marks for each word, and waiting loads in one list. A free one keeps
/// nothing.
#[derive(Drop)]
pub struct Slot {
    valid: bool,
    obsolete: bool,
    block: u32,
    frame: u32,
    // For each word of the block.
    marks: ArrayVec<Marks, MAX_BLOCK_WORDS>,
    targets: Targets,
}

impl Model for Slot {
    ghost use Rattle.miss_registers.specs.Registers.{Register};
    ghost use Rattle.miss_registers.specs.Targets.{fields_of, AreKept};

    ghost Value = { Register };

    ghost view = { λ s. record {
      valid = s.valid;
      obsolete = s.obsolete;
      block = s.block;
      frame = s.frame;
      fields = fields_of s.marks.items s.targets;
    } };

    ghost invariant = { λ s. AreKept s.marks.items s.targets };
}

impl Slot {
    /// A free register.
    pub fn new() -> Self
        ensures { result ≡ spec.free_register }
    {
        Slot {
            valid: false,
            obsolete: false,
            block: 0,
            frame: 0,
            marks: ArrayVec::new(),
            targets: Targets::new(),
        }
    }

    /// Whether the register stands for a block.
    pub fn is_valid(&self) -> bool
        ensures { result ≡ self.now.valid }
    {
        self.valid
    }

    /// Whether it is live and stands for this block.
    pub fn is_live_for(&self, block: u32) -> bool
        ensures { result ≡ (spec.is_live self.now && self.now.block == block) }
    {
        self.valid && !self.obsolete && self.block == block
    }

    /// Takes the register; all words are to come.
    pub fn allocate(&mut self, words: u32, block: u32, frame: u32)
        requires { words ≤ MAX_BLOCK_WORDS }
        ensures { self.new ≡ spec.fresh words block frame }
    {
        self.valid = true;
        self.obsolete = false;
        self.block = block;
        self.frame = frame;
        put_clear_marks(&mut self.marks, words);
        self.targets.clear();
    }

    /// Adds a load behind the others.
    pub fn await_word(&mut self, i: u32, owed: Owed)
        requires there { i < length self.old.fields }
        requires room { length (spec.field_of self.old i).waiting < MAX_WAITING }
        ensures { self.new ≡ spec.awaited self.old i owed }
    {
        self.targets.push(i, owed);
    }

    /// The lanes join word `i`'s code.
    pub fn note_store(&mut self, i: u32, lanes: Lanes)
        requires { i < length self.old.fields }
        ensures { self.new ≡ spec.noted self.old i lanes }
    {
        let mut word = marks_at(self.marks.as_slice(), i);
        word.note_store(lanes);
        set_word(&mut self.marks, i, word);
    }

    /// Answers word `i`'s loads, and frees the register behind the last word.
    pub fn finish_word(&mut self, i: u32) -> WordEnd
        requires there { i < length self.old.fields }
        ensures register { self.new ≡ spec.finished self.old i }
        ensures send { result.send ≡ (spec.field_of self.old i).waiting }
        ensures keep { result.keep ≡ (spec.field_of self.old i).code }
        ensures live { result.live ≡ (if self.old.obsolete then None else Some self.old.frame) }
        ensures last { result.last ≡ spec.is_done (spec.finished_fields self.old i) }
    {
        let live = if self.obsolete {
            None
        } else {
            Some(self.frame)
        };
        let mut word = marks_at(self.marks.as_slice(), i);
        let keep = word.code;
        word.finish();
        set_word(&mut self.marks, i, word);
        let send = self.targets.take(i);
        let last = are_processed(self.marks.as_slice());
        if last {
            self.free();
        }
        WordEnd {
            send,
            keep,
            live,
            last,
        }
    }

    fn free(&mut self)
        ensures { self.new ≡ spec.free_register }
    {
        self.valid = false;
        self.obsolete = false;
        self.block = 0;
        self.frame = 0;
        self.marks.clear();
        self.targets.clear();
    }

    /// Unprocessed, and not in the stack.
    pub fn expects(&self, i: u32) -> bool
        ensures { result ≡ spec.expects self.now i }
    {
        self.valid && is_expected(self.marks.as_slice(), i)
    }

    /// Word `i` stands in the input stack.
    pub fn mark_in_stack(&mut self, i: u32)
        requires { i < length self.old.fields }
        ensures { self.new ≡ spec.marked self.old i }
    {
        let mut word = marks_at(self.marks.as_slice(), i);
        word.mark_in_stack();
        set_word(&mut self.marks, i, word);
    }

    /// The buffer is changed no more, and codes are clear.
    pub fn make_obsolete(&mut self)
        ensures { self.new ≡ spec.made_obsolete self.old }
    {
        self.obsolete = true;
        clear_codes(self.marks.as_mut_slice());
    }

    /// Whether a load with this tag waits here.
    pub fn tag_waits(&self, tag: u16) -> bool
        ensures { result ≡ spec.has_tag (spec.tags_of self.now) tag }
    {
        self.targets.has_tag(tag)
    }

    /// What the register shows of itself.
    pub fn view(&self) -> RegisterView
        ensures { result ≡ shows.shown_register self.now }
    {
        RegisterView {
            valid: self.valid,
            obsolete: self.obsolete,
            block: self.block,
            frame: frame_shown(self.valid, self.obsolete, self.frame),
            processed: processed_count(self.marks.as_slice()),
        }
    }

    /// Word `i`; all clear if there is none.
    pub fn field(&self, i: u32) -> FieldView
        ensures { result ≡ shows.shown_field (spec.field_of self.now i) }
    {
        let word = marks_at(self.marks.as_slice(), i);
        shown_word(word, &self.targets.of_word(i))
    }

    /// Word `i`'s code, unless processed.
    pub fn missing_code(&self, i: u32) -> Option<Lanes>
        ensures { result ≡ spec.code_of_missing (spec.field_of self.now i) }
    {
        let word = marks_at(self.marks.as_slice(), i);
        word.missing_code()
    }

    /// How many loads wait for word `i`.
    pub fn waiting(&self, i: u32) -> u32
        ensures { result ≡ length (spec.field_of self.now i).waiting }
    {
        self.targets.of_word(i).len()
    }

    /// The load at a place of word `i`'s.
    pub fn target(&self, i: u32, place: u32) -> Option<Owed>
        ensures { result ≡ slice_get (spec.field_of self.now i).waiting place }
    {
        self.targets.of_word(i).get(place)
    }
}

// A word's marks; none without one.
fn marks_at(marks: &[Marks], i: u32) -> Marks
    ensures { result ≡ slice_index_or marks.now i kept.clear_marks }
{
    marks.get(i as usize).copied().unwrap_or_default()
}

fn is_expected(marks: &[Marks], i: u32) -> bool
    ensures { result ≡ (nat_lt i (length marks.now) && (not (slice_index_or marks.now i kept.clear_marks).processed
        && not (slice_index_or marks.now i kept.clear_marks).in_stack)) }
{
    match marks.get(i as usize) {
        Some(word) => word.is_expected(),
        None => false,
    }
}

fn set_word(marks: &mut ArrayVec<Marks, MAX_BLOCK_WORDS>, i: u32, word: Marks)
    requires { i < length marks.old.items }
    ensures { marks.new.items ≡ slice_set marks.old.items i word }
{
    marks.as_mut_slice()[i as usize] = word;
}

fn shown_word(word: Marks, waiting: &OwedList) -> FieldView
    ensures { result ≡ shows.shown_field (kept.field_with word waiting.now) }
{
    let first = waiting.get(0).unwrap_or_default();
    FieldView {
        send: waiting.len() > 0,
        in_stack: word.in_stack,
        processed: word.processed,
        code: word.code,
        tag: first.tag,
        held_lanes: first.lanes,
        held: first.held,
        targets: waiting.len(),
    }
}

fn are_processed(marks: &[Marks]) -> bool
    ensures { result ≡ list_all (λ m. m.processed) marks.now }
{
    marks.iter().all(|word| word.processed)
}

fn clear_codes(marks: &mut [Marks])
    ensures { marks.new ≡ map kept.marks_without_code marks.old }
{
    for word in marks {
        word.clear_code();
    }
}

// In place: moving all marks costs more than writing some.
fn put_clear_marks(marks: &mut ArrayVec<Marks, MAX_BLOCK_WORDS>, words: u32)
    requires { words ≤ MAX_BLOCK_WORDS }
    ensures { marks.new.items ≡ replicate words kept.clear_marks }
{
    marks.clear();
    for _ in 0..words {
        marks.push(Marks::default());
    }
}

// Only a live register shows its frame.
fn frame_shown(valid: bool, obsolete: bool, frame: u32) -> u32
    ensures { result ≡ (if valid && not obsolete then frame else 0) }
{
    if valid && !obsolete { frame } else { 0 }
}

// How many words are processed.
fn processed_count(marks: &[Marks]) -> u32
    requires { length marks.now ≤ MAX_BLOCK_WORDS }
    ensures { result ≡ count_by (λ m. m.processed) marks.now }
{
    marks.iter().filter(|word| word.processed).count() as u32
}
