//! Lines and recorded pairs, written as they are read.
ghost use Rattle.std.specs.Prelude.{◌≡◌, ◌++◌, ◌∷◌, [], IfOk, Ok, Some};
ghost use Rattle.std.specs.String.{string_bytes};
ghost use Rattle.trace_text.specs.declared.pairs.Pair.{Pair as PairValue};
ghost use Rattle.trace_text.specs.Codes.{line_feed};
ghost use Rattle.trace_text.specs.Pairs.{pair_of};
ghost use Rattle.trace_text.specs.Written.{line_text};
ghost use Rattle.trace_text.specs.Recorded.{recorded, pair_text, IsFitPair};

use crate::lines::Line;
use crate::pairs::Pair;
use flat_model::{Answer, Event};
use std::alloc::{AllocError, Global};
use std::fmt;

/// Without LF, as `load 1 5`.
impl fmt::Display for Line {
    ghost output = { λ line. Some (line_text line) };

    fn fmt<W: fmt::Write>(&self, f: &mut fmt::Formatter<W>) -> fmt::Result {
        match *self {
            Line::Event(event) => write!(f, "{event}"),
            Line::Register(slot) => write!(f, "reg {slot}"),
            Line::Bank(at) => write!(f, "bank {at}"),
            Line::Settled => f.write_str("settled"),
        }
    }
}

/// Without LF, as `load 1 5 -> accepted`. Nothing follows the arrow of a line that only shows
/// something.
impl fmt::Display for Pair {
    ghost output = { λ pair. Some (pair_text pair) };

    fn fmt<W: fmt::Write>(&self, f: &mut fmt::Formatter<W>) -> fmt::Result {
        let line = self.line;
        match self.answer {
            Some(answer) => write!(f, "{line} -> {answer}"),
            None => write!(f, "{line} -> "),
        }
    }
}

/// A line with LF, for [`read_line`].
pub fn written_line(alloc: Global, line: Line) -> Result<String, AllocError>
    ensures { IfOk result (λ text. string_bytes text ≡ line_text line ++ line_feed ∷ []) }
{
    format!(in alloc; "{line}\n")
}

/// A recorded event with LF, for [`read_pair`](crate::read_pair) and
/// [`check_text`](crate::check_text).
pub fn written_pair(alloc: Global, event: Event, answer: Answer) -> Result<String, AllocError>
    ensures { IfOk result
        (λ text. string_bytes text ≡ pair_text (recorded event answer) ++ line_feed ∷ []) }
{
    let pair = Pair {
        line: Line::Event(event),
        answer: Some(answer),
    };
    format!(in alloc; "{pair}\n")
}

/// A recorded pair is read back from its text. This law's function does nothing.
pub fn recorded_pairs()
    ensures { (pair : PairValue) → IsFitPair pair → pair_of (pair_text pair) ≡ Ok pair }
{}
