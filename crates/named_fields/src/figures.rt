//! What stands under a name: numbers, words and texts.

ghost use Rattle.std.specs.Prelude.{Some};
ghost use Rattle.named_fields.specs.Formats as formats;

use crate::strings::{Escaped, Numbers, QuotedBytes};
use flat_model::{Answer, Event, TwoDigits, Word};
use std::fmt;

/// What a field says.
#[derive(Clone, Copy, Default)]
pub enum Figure<'a> {
    /// A whole number.
    Count(u128),
    /// A number with two decimals.
    Hundredths {
        /// Its whole part.
        whole: u128,
        /// Its hundredths, below 100.
        part: u128,
    },
    /// Whether something holds.
    Truth(bool),
    /// A name: letters, digits, `_` and spaces.
    Name(&'static str),
    /// A word of memory, as eight hexadecimal digits.
    OfWord(Word),
    /// A byte, as two hexadecimal digits.
    OfByte(u8),
    /// An event, as a trace has it.
    OfEvent(Event),
    /// An answer, as a recorded run has it.
    OfAnswer(Answer),
    /// Numbers, in their order.
    Numbers(&'a [u16]),
    /// Bytes, in their order.
    Bytes(&'a [u8]),
    /// A text, in which any byte may stand.
    Quoted(&'a [u8]),
    /// Nothing: the field doesn't apply.
    #[default]
    Missing,
}

/// As the value of an object's member, and as a cell of a table, which has numbers alone. Words, bytes, events, answers and texts
/// are strings; in a text, a byte that isn't printable ASCII is `\u00` and its two hexadecimal digits. A field that doesn't apply
/// is `null`.
impl<'a> fmt::Display for Figure<'a> {
    ghost output = { λ figure. Some (formats.value_text figure) };

    fn fmt<W: fmt::Write>(&self, f: &mut fmt::Formatter<W>) -> fmt::Result {
        match *self {
            Figure::Count(count) => write!(f, "{count}"),
            Figure::Hundredths { whole, part } => {
                write!(f, "{whole}.{}{}", part / 10, part % 10)
            }
            Figure::Truth(true) => f.write_str("true"),
            Figure::Truth(false) => f.write_str("false"),
            Figure::Name(name) => write!(f, "\"{name}\""),
            Figure::OfWord(word) => write!(f, "\"{word}\""),
            Figure::OfByte(byte) => write!(f, "\"{}\"", TwoDigits(byte)),
            Figure::OfEvent(event) => write!(f, "\"{event}\""),
            Figure::OfAnswer(answer) => write!(f, "\"{answer}\""),
            Figure::Numbers(numbers) => write!(f, "[{}]", Numbers(numbers)),
            Figure::Bytes(bytes) => write!(f, "[{}]", QuotedBytes(bytes)),
            Figure::Quoted(text) => write!(f, "{}", Escaped(text)),
            Figure::Missing => f.write_str("null"),
        }
    }
}
