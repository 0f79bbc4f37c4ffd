//! Lines of a served trace.
ghost use Rattle.std.specs.Prelude.{◌≡◌, ◌≢◌, ℕ, ◌+◌, ◌<◌, ◌≤◌, List, Some, Ok, length, slice_index, IfSome, IfNone, IfErr};
ghost use Rattle.std.specs.Option.{option_map};
ghost use Rattle.trace_text.specs.Lines.{IsSaid};
ghost use Rattle.trace_text.specs.Pairs.{bare_answer as bare_of, value_of, refusal_of, answer_from as answer_made, answer_of, IsAnswered};
ghost use Rattle.trace_text.specs.Pairs.{arrow_in, pair_with as pair_made, pair_of, ended_pair_of};

use crate::fault::MAX_PAIR;
use crate::fields::{MAX_TAG, number, word};
use crate::lines::{Line, LineFault, cut, line_said, one};
use flat_model::{Answer, Cause};

/// A line and its answer.
#[derive(Clone, Copy, Debug, PartialEq, Eq)]
pub struct Pair {
    /// The line.
    pub line: Line,
    /// The answer to an event.
    pub answer: Option<Answer>,
}

fn bare_answer(answer: Answer, fields: Option<&[u8]>) -> Option<Answer>
    ensures { result ≡ bare_of answer (option_map (λ rest. rest.now) fields.entry) }
{
    match fields {
        None => Some(answer),
        Some(_) => None,
    }
}

fn value(fields: Option<&[u8]>) -> Option<Answer>
    ensures { result ≡ value_of (option_map (λ rest. rest.now) fields.entry) }
{
    let (tag, rest) = cut(fields?);
    let tag = number(tag, MAX_TAG);
    let word = word(rest?);
    Some(Answer::Value {
        tag: tag? as u16,
        word: word?,
    })
}

fn refused(fields: Option<&[u8]>) -> Option<Answer>
    ensures { result ≡ refusal_of (option_map (λ rest. rest.now) fields.entry) }
{
    Some(Answer::Refused(Cause::from_number(one(fields)?)?))
}

#[tactic(auto, unfolding(crate::specs::Pairs::answer_from))]
fn answer_from(kind: &[u8], fields: Option<&[u8]>) -> Option<Answer>
    ensures { result ≡ answer_made kind.now (option_map (λ rest. rest.now) fields.entry) }
{
    if kind == b"accepted".as_slice() {
        bare_answer(Answer::Accepted, fields)
    } else if kind == b"moved".as_slice() {
        bare_answer(Answer::Moved, fields)
    } else if kind == b"value".as_slice() {
        value(fields)
    } else if kind == b"nothing".as_slice() {
        bare_answer(Answer::Nothing, fields)
    } else if kind == b"refused".as_slice() {
        refused(fields)
    } else {
        None
    }
}

#[tactic(auto, unfolding(crate::specs::Pairs::answer_of))]
fn answer_said(text: &[u8]) -> Option<Answer>
    ensures { result ≡ answer_of text.now }
{
    let (kind, fields) = cut(text);
    answer_from(kind, fields)
}

// It stands within some ten bytes, where a search byte by byte is faster.
fn hyphen(text: &[u8]) -> Option<usize>
    ensures some { IfSome result
        (λ at. (at < length text.now) × ((k : ℕ) → k < at → slice_index text.now k ≢ 45)) }
    ensures none { IfNone result ((k : ℕ) → k < length text.now → slice_index text.now k ≢ 45) }
{
    text.iter().position(|byte| *byte == b'-')
}

// No arrow begins before the byte in front of the first hyphen.
fn arrow(text: &[u8]) -> Option<usize>
    ensures value { result ≡ arrow_in text.now }
    ensures bound { IfSome result (λ at. at + 4 ≤ length text.now) }
{
    let begun = hyphen(text)?.saturating_sub(1);
    for at in begun..text.len() {
        if text[at] == b' ' && text[at..].starts_with(b" -> ".as_slice()) {
            return Some(at);
        }
    }
    None
}

fn pair_with(line: Line, answer: &[u8]) -> Result<Pair, LineFault>
    ensures pair { result ≡ pair_made line answer.now }
    ensures fault { IfErr result IsSaid }
{
    match line {
        Line::Event(_) => {
            let answer = answer_said(answer).ok_or(LineFault::Field)?;
            Ok(Pair {
                line,
                answer: Some(answer),
            })
        }
        _ => Ok(Pair { line, answer: None }),
    }
}

#[tactic(auto, unfolding(crate::specs::Pairs::pair_of))]
fn searched_pair(text: &[u8]) -> Result<Pair, LineFault>
    ensures pair { result ≡ pair_of text.now }
    ensures fault { IfErr result IsSaid }
{
    let Some(at) = arrow(text) else {
        return Err(LineFault::Field);
    };
    let line = line_said(&text[..at])?;
    pair_with(line, &text[at + 4..])
}

// Most lines have one of two answers, told by how the text ends.
#[inline(always)]
fn usual_answer(text: &[u8]) -> Option<(&[u8], Answer)>
    ensures { IfSome result (λ usual. IsAnswered text.now usual.0.now usual.1) }
{
    if let Some(line) = text.strip_suffix(b" -> moved".as_slice()) {
        return Some((line, Answer::Moved));
    }
    if let Some(line) = text.strip_suffix(b" -> accepted".as_slice()) {
        return Some((line, Answer::Accepted));
    }
    None
}

fn answered(line: Line, answer: Answer) -> Pair
    ensures { (reply : List ℕ) → answer_of reply ≡ Some answer → Ok result ≡ pair_made line reply }
{
    match line {
        Line::Event(_) => Pair {
            line,
            answer: Some(answer),
        },
        _ => Pair { line, answer: None },
    }
}

/// [`read_pair`] of a line of any length, without its LF.
pub fn pair_said(text: &[u8]) -> Result<Pair, LineFault>
    ensures pair { result ≡ pair_of text.now }
    ensures fault { IfErr result IsSaid }
{
    // A readable line has no hyphen, so an arrow right behind it is the first.
    if let Some((front, answer)) = usual_answer(text) {
        if let Ok(line) = line_said(front) {
            return Ok(answered(line, answer));
        }
    }
    searched_pair(text)
}

/// What a line of a served trace says, of at most 768 bytes and LF.
///
/// What stands before the first ` -> ` is read as by [`read_line`](crate::read_line), and behind it
/// an answer's exact text. Where the line only shows something, that is passed over. With no arrow,
/// or no answer, [`LineFault::Field`] is answered.
pub fn read_pair(bytes: &[u8]) -> Result<Pair, LineFault>
    ensures { result ≡ ended_pair_of bytes.now }
{
    match bytes.split_last() {
        Some((b'\n', text)) => {
            if text.len() > MAX_PAIR {
                return Err(LineFault::TooLong);
            }
            pair_said(text)
        }
        _ => {
            if bytes.len() > MAX_PAIR {
                return Err(LineFault::TooLong);
            }
            Err(LineFault::NotEnded)
        }
    }
}
