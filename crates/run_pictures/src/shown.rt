//! What stands at a place of a picture.

ghost use Rattle.std.specs.Prelude.{Some};
ghost use Rattle.run_pictures.specs.Cells.{shown_text, way_text};

use flat_model::{Lanes, Word};
use std::fmt;

/// Where a word of a register is on its way.
#[derive(Clone, Copy, PartialEq, Eq, Debug)]
pub enum Way {
    /// Its bank hasn't given it, or it hasn't arrived.
    Missing,
    /// In the input stack.
    InStack,
    /// It was processed.
    Processed,
}

impl fmt::Display for Way {
    ghost output = { λ way. Some (way_text way) };

    fn fmt<W: fmt::Write>(&self, f: &mut fmt::Formatter<W>) -> fmt::Result {
        match *self {
            Way::Missing => f.write_str("missing"),
            Way::InStack => f.write_str("in stack"),
            Way::Processed => f.write_str("processed"),
        }
    }
}

/// What stands at a place. Its `Display` is the text. Without a code, dirty bytes or held ones, a
/// word has a variant of its own.
#[derive(Clone, Copy, PartialEq, Eq, Debug)]
pub enum Shown {
    /// Nothing.
    Nothing,
    /// A free register.
    Free,
    /// A register with a frame, and how many words came.
    Valid {
        block: u32,
        frame: u32,
        came: u32,
    },
    /// A register whose block lost its frame.
    Obsolete {
        block: u32,
        came: u32,
    },
    /// A word of a register.
    Field(Way),
    /// The same, with the bytes that were stored before it.
    Coded(Way, Lanes),
    /// A load that waits, and is owed nothing.
    Load {
        tag: u16,
    },
    /// A load, and the word that it is owed.
    Owed {
        tag: u16,
        word: Word,
    },
    /// The same, with the bytes that it has.
    Holding {
        tag: u16,
        word: Word,
        lanes: Lanes,
        held: Word,
    },
    /// A frame's block.
    Block(u32),
    /// A frame's block, of which words are on their way.
    Pending(u32),
    /// A word.
    Word(Word),
    /// A word with bytes that memory doesn't have.
    Dirty(Word, Lanes),
    /// A word for a register.
    Entry {
        slot: u32,
        i: u32,
        word: Word,
    },
    /// Bytes of a word that wait to be written.
    Queued {
        at: u32,
        block: u32,
        lanes: Lanes,
        word: Word,
    },
    /// A read for a register's word.
    Read {
        place: u32,
        slot: u32,
        i: u32,
    },
    /// A write of the lanes of a word.
    Write {
        place: u32,
        lanes: Lanes,
        word: Word,
    },
    /// A value that stands ready.
    Value {
        tag: u16,
        word: Word,
    },
}

impl fmt::Display for Shown {
    ghost output = { λ shown. Some (shown_text shown) };

    fn fmt<W: fmt::Write>(&self, f: &mut fmt::Formatter<W>) -> fmt::Result {
        match *self {
            Shown::Nothing => Ok(()),
            Shown::Free => f.write_str("free"),
            Shown::Valid { block, frame, came } => {
                write!(f, "valid, block {block}, frame {frame}, words came: {came}")
            }
            Shown::Obsolete { block, came } => {
                write!(f, "obsolete, block {block}, words came: {came}")
            }
            Shown::Field(way) => write!(f, "{way}"),
            Shown::Coded(way, code) => write!(f, "{way}, code {code}"),
            Shown::Load { tag } => write!(f, "tag {tag}"),
            Shown::Owed { tag, word } => write!(f, "tag {tag} is owed {word}"),
            Shown::Holding {
                tag,
                word,
                lanes,
                held,
            } => write!(f, "tag {tag} is owed {word}, holds {lanes} {held}"),
            Shown::Block(block) => write!(f, "block {block}"),
            Shown::Pending(block) => write!(f, "block {block}, pending"),
            Shown::Word(word) => write!(f, "{word}"),
            Shown::Dirty(word, dirty) => write!(f, "{word}, dirty {dirty}"),
            Shown::Entry { slot, i, word } => write!(f, "register {slot}, word {i}: {word}"),
            Shown::Queued {
                at,
                block,
                lanes,
                word,
            } => write!(f, "word {at}, block {block}: {lanes} {word}"),
            Shown::Read { place, slot, i } => {
                write!(f, "read place {place}: register {slot}, word {i}")
            }
            Shown::Write { place, lanes, word } => {
                write!(f, "write place {place}: {lanes} {word}")
            }
            Shown::Value { tag, word } => write!(f, "tag {tag}: {word}"),
        }
    }
}
