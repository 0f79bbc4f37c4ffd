//! Texts of answers and registers.
ghost use Rattle.std.specs.Prelude.{◌≡◌, ℕ, ◌+◌, ◌≤◌, ◌<◌, ◌++◌, ◌∷◌, [], List, Option, length, take};
ghost use Rattle.trace_text.specs.declared.fault.TheConstants.{MAX_PAIR};
ghost use Rattle.trace_text.specs.declared.text.TheConstants.{MAX_HEAD_TEXT, MAX_FIELD_TEXT, MAX_FIELDS_TEXT, MAX_REGISTER_TEXT};
ghost use Rattle.std.specs.List.{flat_map, range_with_len};
ghost use Rattle.flat_model.specs.declared.limits.TheConstants.{MAX_BLOCK_WORDS};
ghost use Rattle.trace_text.specs.Texts.{answer_text as text_of_answer, mark_text, marks_text, held_text, field_text, head_text};
ghost use Rattle.trace_text.specs.Texts.{register_text as text_of_register, bank_text, settled_text, waiting_text, field_text_at};

use crate::fault::MAX_PAIR;
use flat_model::{Answer, MAX_BLOCK_WORDS, Word};
use machine_core::{AnyMachine, FieldView, RegisterView};
use std::marker::Model;

/// In bytes, up to a register's words.
const MAX_HEAD_TEXT: usize = 35;

/// In bytes, for one word.
const MAX_FIELD_TEXT: usize = 40;

const MAX_FIELDS_TEXT: usize = MAX_BLOCK_WORDS * MAX_FIELD_TEXT;

pub(crate) const MAX_REGISTER_TEXT: usize = MAX_HEAD_TEXT + MAX_FIELDS_TEXT;

/// A text of at most 768 bytes.
#[derive(Drop)]
pub struct LineText {
    // Bytes behind `len` are of earlier texts: blanking them for each line would cost more than
    // writing.
    bytes: [u8; MAX_PAIR],
    len: usize,
}

impl Model for LineText {
    ghost Value = { List ℕ };

    ghost view = { λ t. take t.len t.bytes };

    ghost invariant = { λ t. t.len ≤ MAX_PAIR };
}

impl LineText {
    /// Its bytes.
    #[inline(always)]
    pub fn as_bytes(&self) -> &[u8]
        ensures bytes { result.now ≡ self.now }
        ensures short { length result.now ≤ MAX_PAIR }
    {
        &self.bytes[..self.len]
    }

    /// An empty text.
    pub fn new() -> LineText
        ensures { result ≡ [] }
    {
        LineText {
            bytes: [0; MAX_PAIR],
            len: 0,
        }
    }

    /// Empties it.
    pub fn clear(&mut self)
        ensures { self.new ≡ [] }
    {
        self.len = 0;
    }

    /// Adds a byte.
    #[inline(always)]
    pub fn push(&mut self, byte: u8)
        requires { length self.old < MAX_PAIR }
        ensures text { self.new ≡ self.old ++ byte ∷ [] }
        ensures len { length self.new ≡ length self.old + 1 }
    {
        self.bytes[self.len] = byte;
        self.len += 1;
    }

    /// Adds bytes.
    #[inline(always)]
    pub fn push_bytes(&mut self, bytes: &[u8])
        requires { length self.old + length bytes.now ≤ MAX_PAIR }
        ensures text { self.new ≡ self.old ++ bytes.now }
        ensures len { length self.new ≡ length self.old + length bytes.now }
    {
        let end = self.len + bytes.len();
        self.bytes[self.len..end].copy_from_slice(bytes);
        self.len = end;
    }

    #[inline(always)]
    #[tactic(auto, unfolding(crate::specs::Texts::answer_text))]
    pub(crate) fn push_answer(&mut self, answer: Answer)
        requires { length self.old + 25 ≤ MAX_PAIR }
        ensures text { self.new ≡ self.old ++ text_of_answer answer }
        ensures len { length self.new ≤ length self.old + 25 }
    {
        match answer {
            Answer::Accepted => self.push_bytes(b"accepted"),
            Answer::Moved => self.push_bytes(b"moved"),
            Answer::Value { tag, word } => {
                self.push_bytes(b"value ");
                self.push_decimal(u32::from(tag));
                self.push(b' ');
                self.push_word(word);
            }
            Answer::Nothing => self.push_bytes(b"nothing"),
            Answer::Refused(cause) => {
                self.push_bytes(b"refused ");
                self.push_decimal(u32::from(cause.number()));
            }
        }
    }

    fn push_waiting(&mut self, field: FieldView)
        requires { length self.old + 10 ≤ MAX_PAIR }
        ensures text { self.new ≡ self.old ++ waiting_text field }
        ensures len { length self.new ≤ length self.old + 10 }
    {
        if field.send {
            self.push_decimal(field.targets);
        } else {
            self.push(b'-');
        }
    }

    #[tactic(auto, unfolding(crate::specs::Texts::marks_text))]
    fn push_marks(&mut self, field: FieldView)
        requires { length self.old + 12 ≤ MAX_PAIR }
        ensures text { self.new ≡ self.old ++ marks_text field }
        ensures len { length self.new ≤ length self.old + 12 }
    {
        self.push_waiting(field);
        self.push(mark(field.in_stack, b'I'));
        self.push(mark(field.processed, b'P'));
    }

    #[tactic(auto, unfolding(crate::specs::Texts::held_text))]
    fn push_held(&mut self, field: FieldView)
        requires { length self.old + 19 ≤ MAX_PAIR }
        ensures text { self.new ≡ self.old ++ held_text field }
        ensures len { length self.new ≤ length self.old + 19 }
    {
        self.push_tag(field.tag);
        self.push(b' ');
        self.push_lanes(field.held_lanes);
        self.push(b' ');
        self.push_word(field.held);
    }

    #[tactic(auto, unfolding(crate::specs::Texts::field_text))]
    fn push_field(&mut self, field: FieldView)
        requires { length self.old + MAX_FIELD_TEXT ≤ MAX_PAIR }
        ensures text { self.new ≡ self.old ++ field_text field }
        ensures len { length self.new ≤ length self.old + MAX_FIELD_TEXT }
    {
        self.push_bytes(b" [");
        self.push_marks(field);
        self.push(b' ');
        self.push_lanes(field.code);
        self.push(b' ');
        self.push_held(field);
        self.push(b']');
    }

    #[tactic(auto, unfolding(crate::specs::Texts::head_text))]
    fn push_head(&mut self, register: RegisterView)
        requires { length self.old + MAX_HEAD_TEXT ≤ MAX_PAIR }
        ensures text { self.new ≡ self.old ++ head_text register }
        ensures len { length self.new ≤ length self.old + MAX_HEAD_TEXT }
    {
        self.push(mark(register.valid, b'V'));
        self.push(mark(register.obsolete, b'O'));
        self.push(b' ');
        self.push_padded(register.block, 7);
        self.push(b' ');
        self.push_padded(register.frame, 4);
        self.push(b' ');
        self.push_padded(register.processed, 2);
    }

    fn push_field_at<M: AnyMachine>(&mut self, machine: &M, slot: u32, i: u32)
        requires { length self.old + MAX_FIELD_TEXT ≤ MAX_PAIR }
        ensures text { self.new ≡ self.old ++ field_text_at (M.state machine.now) slot i }
        ensures len { length self.new ≤ length self.old + MAX_FIELD_TEXT }
    {
        if let Some(field) = machine.field(slot, i) {
            self.push_field(field);
        }
    }

    fn push_fields<M: AnyMachine>(&mut self, machine: &M, slot: u32)
        requires { length self.old + MAX_FIELDS_TEXT ≤ MAX_PAIR }
        ensures text { self.new
            ≡ self.old ++ flat_map (field_text_at (M.state machine.now) slot) (range_with_len 0 MAX_BLOCK_WORDS) }
        ensures len { length self.new ≤ length self.old + MAX_FIELDS_TEXT }
    {
        for i in 0..MAX_BLOCK_WORDS as u32 {
            self.push_field_at(machine, slot, i);
        }
    }

    #[tactic(auto, unfolding(crate::specs::Texts::register_text))]
    pub(crate) fn push_register<M: AnyMachine>(&mut self, machine: &M, slot: u32)
        requires { length self.old + MAX_REGISTER_TEXT ≤ MAX_PAIR }
        ensures text { self.new ≡ self.old ++ text_of_register (M.state machine.now) slot }
        ensures len { length self.new ≤ length self.old + MAX_REGISTER_TEXT }
    {
        match machine.register(slot) {
            None => self.push_bytes(b"none"),
            Some(register) => {
                self.push_head(register);
                self.push_fields(machine, slot);
            }
        }
    }

    #[tactic(auto, unfolding(crate::specs::Texts::bank_text))]
    pub(crate) fn push_bank(&mut self, word: Option<Word>)
        requires { length self.old + 8 ≤ MAX_PAIR }
        ensures text { self.new ≡ self.old ++ bank_text word }
        ensures len { length self.new ≤ length self.old + 8 }
    {
        match word {
            None => self.push_bytes(b"none"),
            Some(word) => self.push_word(word),
        }
    }

    #[tactic(auto, unfolding(crate::specs::Texts::settled_text))]
    pub(crate) fn push_settled(&mut self, is_settled: bool)
        requires { length self.old + 3 ≤ MAX_PAIR }
        ensures text { self.new ≡ self.old ++ settled_text is_settled }
        ensures len { length self.new ≤ length self.old + 3 }
    {
        self.push_bytes(if is_settled { b"yes".as_slice() } else { b"no" });
    }
}

fn mark(stands: bool, letter: u8) -> u8
    ensures { result ≡ mark_text stands letter }
{
    if stands { letter } else { b'-' }
}

/// `accepted`, `moved`, `nothing`, `refused CAUSE` or `value TAG WORD`.
pub fn answer_text(answer: Answer) -> LineText
    ensures { result ≡ text_of_answer answer }
{
    let mut text = LineText::new();
    text.push_answer(answer);
    text
}

/// A register's text: its marks, block, frame, count of processed words, and a part in brackets for
/// each word. `none` for no such register.
///
/// Marks are `V` for valid and `O` for obsolete. A part has how many loads wait, `I` if in the
/// input stack, `P` if processed, the code, and the first load's tag, held lanes and word. What
/// doesn't apply is `-` or zeros.
pub fn register_text<M: AnyMachine>(machine: &M, slot: u32) -> LineText
    ensures { result ≡ text_of_register (M.state machine.now) slot }
{
    let mut text = LineText::new();
    text.push_register(machine, slot);
    text
}
