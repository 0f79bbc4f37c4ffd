//! A sentence with numbers in it.

ghost use Rattle.std.specs.Prelude.{Some};
ghost use Rattle.run_pictures.specs.Phrases.{text_of};

use flat_model::{Lanes, Word};
use std::fmt;

/// A sentence, or part of one. Its `Display` is the text.
#[derive(Clone, Copy)]
pub enum Phrase {
    /// A word alone.
    Word(&'static str),
    /// A word and a number.
    One(&'static str, u32),
    /// A number between two words.
    Between(&'static str, u32, &'static str),
    /// Twice a word and a number.
    Two(&'static str, u32, &'static str, u32),
    /// Two numbers between three words.
    Around(&'static str, u32, &'static str, u32, &'static str),
    /// Which word of a register's block a bank gives.
    Given { bank: u32, i: u32, slot: u32 },
    /// Which bytes of a word go to a bank.
    Sent { lanes: Lanes, at: u32, bank: u64 },
    /// What the load of a tag is answered.
    Taken { tag: u16, word: Word },
    /// Free places of the write queue, and dirty words.
    TooMany { free: u32, dirty: usize },
    /// A bank without room for a command.
    Full { bank: u64 },
    /// A bank, its room, and how many reads it lacks room for.
    Short { bank: u32, room: u32, reads: usize },
}

impl fmt::Display for Phrase {
    ghost output = { λ phrase. Some (text_of phrase) };

    fn fmt<W: fmt::Write>(&self, f: &mut fmt::Formatter<W>) -> fmt::Result {
        match *self {
            Phrase::Word(word) => f.write_str(word),
            Phrase::One(word, n) => write!(f, "{word}{n}"),
            Phrase::Between(word, n, next) => write!(f, "{word}{n}{next}"),
            Phrase::Two(word, n, next, m) => write!(f, "{word}{n}{next}{m}"),
            Phrase::Around(word, n, next, m, last) => write!(f, "{word}{n}{next}{m}{last}"),
            Phrase::Given { bank, i, slot } => {
                write!(f, "bank {bank} gives word {i} of register {slot}'s block")
            }
            Phrase::Sent { lanes, at, bank } => {
                write!(f, "the bytes {lanes} of word {at} go to bank {bank}")
            }
            Phrase::Taken { tag, word } => write!(f, "the load of tag {tag} is answered {word}"),
            Phrase::TooMany { free, dirty } => {
                write!(
                    f,
                    "the write queue has {free} free places for {dirty} dirty words"
                )
            }
            Phrase::Full { bank } => write!(f, "bank {bank} has no room for a command"),
            Phrase::Short { bank, room, reads } => {
                write!(
                    f,
                    "bank {bank} has room for {room} commands, and is to be sent {reads}"
                )
            }
        }
    }
}
