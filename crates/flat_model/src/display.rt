//! Words, masks, events and answers as in a trace.
ghost use Rattle.std.specs.Prelude.{Some, [], ◌∷◌, ◌≡◌, ◌<◌};
ghost use Rattle.std.specs.Fmt.{WritesOnOk};
ghost use Rattle.flat_model.specs.Texts as texts;

use crate::{Answer, Event, Lanes, Word};
use bitflags::Flags;
use std::fmt;

/// Eight lower-case hexadecimal digits, byte 0 first.
impl fmt::Display for Word {
    ghost output = { λ w. Some (texts.word_text w) };

    #[tactic(auto, unfolding(crate::specs::Texts::word_text))]
    fn fmt<W: fmt::Write>(&self, f: &mut fmt::Formatter<W>) -> fmt::Result {
        write_byte(f, self.b0)?;
        write_byte(f, self.b1)?;
        write_byte(f, self.b2)?;
        write_byte(f, self.b3)
    }
}

fn write_byte<W: fmt::Write>(f: &mut fmt::Formatter<W>, byte: u8) -> fmt::Result
    ensures { WritesOnOk W.write_str_gives f.old result (texts.byte_text byte) f.new }
{
    f.write_char(hex_digit(byte / 16))?;
    f.write_char(hex_digit(byte % 16))
}

/// Shown as two lower-case hexadecimal digits.
#[derive(Clone, Copy, PartialEq, Eq, Debug)]
pub struct TwoDigits(pub u8);

impl fmt::Display for TwoDigits {
    ghost output = { λ byte. Some (texts.byte_text byte.0) };

    fn fmt<W: fmt::Write>(&self, f: &mut fmt::Formatter<W>) -> fmt::Result {
        write_byte(f, self.0)
    }
}

fn hex_digit(n: u8) -> char
    requires { n < 16 }
    ensures { result ≡ texts.hex_digit n }
{
    char::from(if n < 10 { b'0' + n } else { b'a' + (n - 10) })
}

/// Four digits `0` or `1`, lane 0 first.
impl fmt::Display for Lanes {
    ghost output = { λ m. Some (texts.lanes_text m) };

    #[tactic(auto, unfolding(crate::specs::Words::has, crate::specs::Texts::lanes_text))]
    fn fmt<W: fmt::Write>(&self, f: &mut fmt::Formatter<W>) -> fmt::Result {
        write_lane(f, self.contains(Lanes::LANE_0))?;
        write_lane(f, self.contains(Lanes::LANE_1))?;
        write_lane(f, self.contains(Lanes::LANE_2))?;
        write_lane(f, self.contains(Lanes::LANE_3))
    }
}

fn write_lane<W: fmt::Write>(f: &mut fmt::Formatter<W>, is_set: bool) -> fmt::Result
    ensures { WritesOnOk W.write_str_gives f.old result (texts.bit_text is_set ∷ []) f.new }
{
    f.write_str(if is_set { "1" } else { "0" })
}

/// Its line of a trace, without line feed: `store 5 1000 07000000`.
impl fmt::Display for Event {
    ghost output = { λ event. Some (texts.event_text event) };

    fn fmt<W: fmt::Write>(&self, f: &mut fmt::Formatter<W>) -> fmt::Result {
        match *self {
            Event::Load { tag, at } => write!(f, "load {tag} {at}"),
            Event::Store { at, word, lanes } => write!(f, "store {at} {lanes} {word}"),
            Event::Prefetch { at } => write!(f, "prefetch {at}"),
            Event::Evict { block } => write!(f, "evict {block}"),
            Event::Drain => f.write_str("drain"),
            Event::Serve { bank } => write!(f, "serve {bank}"),
            Event::Arrive { bank, place } => write!(f, "arrive {bank} {place}"),
            Event::Process { place } => write!(f, "process {place}"),
            Event::Take { place } => write!(f, "take {place}"),
        }
    }
}

/// As `accepted`, `value 1 07000000`, or `refused 3` for cause 3.
impl fmt::Display for Answer {
    ghost output = { λ answer. Some (texts.answer_text answer) };

    fn fmt<W: fmt::Write>(&self, f: &mut fmt::Formatter<W>) -> fmt::Result {
        match *self {
            Answer::Accepted => f.write_str("accepted"),
            Answer::Moved => f.write_str("moved"),
            Answer::Value { tag, word } => write!(f, "value {tag} {word}"),
            Answer::Nothing => f.write_str("nothing"),
            Answer::Refused(cause) => {
                let number = cause.number();
                write!(f, "refused {number}")
            }
        }
    }
}
