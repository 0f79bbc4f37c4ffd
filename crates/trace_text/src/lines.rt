//! Lines of a trace.
ghost use Rattle.std.specs.Prelude.{◌≡◌, ◌≢◌, ℕ, ◌<◌, ◌++◌, List, length, ◌==◌, position, Some, IfSome, IfNone, IfErr};
ghost use Rattle.std.specs.Option.{option_map};
ghost use Rattle.trace_text.specs.Faults.{line_fault_text};
ghost use Rattle.trace_text.specs.Lines.{IsSaid, line_of, ended_line_of, cut_of, name_of, command_told, BeginsNoCommand, command_named};
ghost use Rattle.trace_text.specs.Lines.{one_number, bare as bare_line, load_of, store_of, arrive_of, line_from as line_made};

use crate::fault::{FaultText, MAX_LINE};
use crate::fields::{MAX_NUMBER, MAX_TAG, lanes, number, word};
use flat_model::Event;
use std::fmt;
use thiserror::Error;

/// What a line asks for.
#[derive(Clone, Copy, Debug, PartialEq, Eq)]
pub enum Line {
    /// An event for the machine.
    Event(Event),
    /// Shows this register, which a machine need not have.
    Register(u32),
    /// Shows the word at this address in its bank. It may be out of memory.
    Bank(u32),
    /// Shows whether the machine is settled.
    Settled,
}

/// Why a line can't be read: the first that fits of TooLong, NotEnded, Unknown, Field.
#[derive(Clone, Copy, Debug, PartialEq, Eq, Error)]
#[error("{}", FaultText(self))]
pub enum LineFault {
    /// No command stands up to the first space.
    Unknown,
    /// A field is missing, too many, malformed or too large, or a space is out of place.
    Field,
    /// More than 64 bytes, or 768 when served, come without LF.
    TooLong,
    /// The last byte isn't LF, or there is none.
    NotEnded,
}

/// What follows the line's number.
impl fmt::Display for FaultText<'_, LineFault> {
    ghost output = { λ told. Some (line_fault_text told.0.now) };

    fn fmt<W: fmt::Write>(&self, f: &mut fmt::Formatter<W>) -> fmt::Result {
        f.write_str(match self.0 {
            LineFault::Unknown => "unknown command",
            LineFault::Field => "bad field",
            LineFault::TooLong => "line too long",
            LineFault::NotEnded => "line not ended",
        })
    }
}

#[derive(Clone, Copy)]
enum Command {
    Load,
    Store,
    Prefetch,
    Evict,
    Drain,
    Serve,
    Arrive,
    Process,
    Take,
    Register,
    Bank,
    Settled,
}

fn space(text: &[u8]) -> Option<usize>
    ensures value { result ≡ position (λ b. b == 32) text.now }
    ensures bound { IfSome result (λ at. at < length text.now) }
{
    text.iter().position(|byte| *byte == b' ')
}

/// The bytes up to the first space, and those behind it.
pub fn cut(text: &[u8]) -> (&[u8], Option<&[u8]>)
    ensures front { result.0.now ≡ (cut_of text.now).0 }
    ensures rest { option_map (λ rest. rest.now) result.1 ≡ (cut_of text.now).1 }
{
    match space(text) {
        Some(at) => (&text[..at], Some(&text[at + 1..])),
        None => (text, None),
    }
}

#[inline(always)]
fn behind<'a>(text: &'a [u8], name: &[u8]) -> Option<&'a [u8]>
    ensures some { IfSome result (λ rest. text.now ≡ name.now ++ rest.now) }
    ensures none { IfNone result ((rest : List ℕ) → text.now ≢ name.now ++ rest) }
{
    text.strip_prefix(name)
}

// Each name has its own call, so that it is compared as its few bytes, not as a slice of any
// length.
#[inline(always)]
fn behind_name(text: &[u8], command: Command) -> Option<&[u8]>
    ensures some { IfSome result (λ rest. text.now ≡ name_of command ++ rest.now) }
    ensures none { IfNone result ((rest : List ℕ) → text.now ≢ name_of command ++ rest) }
{
    match command {
        Command::Load => behind(text, b"load"),
        Command::Store => behind(text, b"store"),
        Command::Prefetch => behind(text, b"prefetch"),
        Command::Evict => behind(text, b"evict"),
        Command::Drain => behind(text, b"drain"),
        Command::Serve => behind(text, b"serve"),
        Command::Arrive => behind(text, b"arrive"),
        Command::Process => behind(text, b"process"),
        Command::Take => behind(text, b"take"),
        Command::Register => behind(text, b"reg"),
        Command::Bank => behind(text, b"bank"),
        Command::Settled => behind(text, b"settled"),
    }
}

#[inline(always)]
#[tactic(auto, unfolding(crate::specs::Lines::command_told))]
fn command_told(first: u8, third: u8) -> Option<Command>
    ensures { result ≡ command_told first third }
{
    match (first, third) {
        (b'l', _) => Some(Command::Load),
        (b's', b'o') => Some(Command::Store),
        (b's', b'r') => Some(Command::Serve),
        (b's', _) => Some(Command::Settled),
        (b'p', b'e') => Some(Command::Prefetch),
        (b'p', _) => Some(Command::Process),
        (b'e', _) => Some(Command::Evict),
        (b'd', _) => Some(Command::Drain),
        (b'a', _) => Some(Command::Arrive),
        (b't', _) => Some(Command::Take),
        (b'r', _) => Some(Command::Register),
        (b'b', _) => Some(Command::Bank),
        _ => None,
    }
}

#[inline(always)]
fn begun_command(text: &[u8]) -> Option<(Command, &[u8])>
    ensures some { IfSome result (λ begun. text.now ≡ name_of begun.0 ++ begun.1.now) }
    ensures none { IfNone result (BeginsNoCommand text.now) }
{
    let [first, _, third, ..] = text else {
        return None;
    };
    let command = command_told(*first, *third)?;
    let rest = behind_name(text, command)?;
    Some((command, rest))
}

#[inline(always)]
fn command_said(text: &[u8]) -> Option<(Command, Option<&[u8]>)>
    ensures command { option_map (λ said. said.0) result ≡ command_named (cut_of text.now).0 }
    ensures fields { IfSome result
        (λ said. option_map (λ rest. rest.now) said.1 ≡ (cut_of text.now).1) }
{
    let (command, rest) = begun_command(text)?;
    match rest {
        [] => Some((command, None)),
        [b' ', fields @ ..] => Some((command, Some(fields))),
        _ => None,
    }
}

pub(crate) fn one(fields: Option<&[u8]>) -> Option<u32>
    ensures { result ≡ one_number (option_map (λ rest. rest.now) fields.entry) }
{
    number(fields?, MAX_NUMBER)
}

fn bare(line: Line, fields: Option<&[u8]>) -> Option<Line>
    ensures { result ≡ bare_line line (option_map (λ rest. rest.now) fields.entry) }
{
    match fields {
        None => Some(line),
        Some(_) => None,
    }
}

#[inline(always)]
fn load(fields: Option<&[u8]>) -> Option<Line>
    ensures { result ≡ load_of (option_map (λ rest. rest.now) fields.entry) }
{
    let (tag, rest) = cut(fields?);
    let tag = number(tag, MAX_TAG);
    let at = number(rest?, MAX_NUMBER);
    Some(Line::Event(Event::Load {
        tag: tag? as u16,
        at: at?,
    }))
}

#[inline(always)]
fn store(fields: Option<&[u8]>) -> Option<Line>
    ensures { result ≡ store_of (option_map (λ rest. rest.now) fields.entry) }
{
    let (at, rest) = cut(fields?);
    let (mask, rest) = cut(rest?);
    let at = number(at, MAX_NUMBER);
    let mask = lanes(mask);
    let word = word(rest?);
    Some(Line::Event(Event::Store {
        at: at?,
        word: word?,
        lanes: mask?,
    }))
}

#[inline(always)]
fn arrive(fields: Option<&[u8]>) -> Option<Line>
    ensures { result ≡ arrive_of (option_map (λ rest. rest.now) fields.entry) }
{
    let (bank, rest) = cut(fields?);
    let bank = number(bank, MAX_NUMBER);
    let place = number(rest?, MAX_NUMBER);
    Some(Line::Event(Event::Arrive {
        bank: bank?,
        place: place?,
    }))
}

#[inline(always)]
#[tactic(auto, unfolding(crate::specs::Lines::line_from))]
fn line_from(command: Command, fields: Option<&[u8]>) -> Option<Line>
    ensures { result ≡ line_made command (option_map (λ rest. rest.now) fields.entry) }
{
    match command {
        Command::Load => load(fields),
        Command::Store => store(fields),
        Command::Prefetch => Some(Line::Event(Event::Prefetch { at: one(fields)? })),
        Command::Evict => Some(Line::Event(Event::Evict {
            block: one(fields)?,
        })),
        Command::Drain => bare(Line::Event(Event::Drain), fields),
        Command::Serve => Some(Line::Event(Event::Serve { bank: one(fields)? })),
        Command::Arrive => arrive(fields),
        Command::Process => Some(Line::Event(Event::Process {
            place: one(fields)?,
        })),
        Command::Take => Some(Line::Event(Event::Take {
            place: one(fields)?,
        })),
        Command::Register => Some(Line::Register(one(fields)?)),
        Command::Bank => Some(Line::Bank(one(fields)?)),
        Command::Settled => bare(Line::Settled, fields),
    }
}

/// [`read_line`] of a line of any length, without its LF.
#[inline(always)]
#[tactic(auto, unfolding(crate::specs::Lines::line_of))]
pub fn line_said(text: &[u8]) -> Result<Line, LineFault>
    ensures said { result ≡ line_of text.now }
    ensures fault { IfErr result IsSaid }
{
    match command_said(text) {
        None => Err(LineFault::Unknown),
        Some((command, fields)) => line_from(command, fields).ok_or(LineFault::Field),
    }
}

/// What a line of at most 64 bytes and LF says.
///
/// One space stands between fields. Numbers are decimal: a tag is at most 65,535, others
/// 4,294,967,295. A mask is four digits `0` or `1`, lane 0 first; a word eight digits `0` to `9`,
/// `a` to `f`, byte 0 first. Ranges are the machine's to refuse.
pub fn read_line(bytes: &[u8]) -> Result<Line, LineFault>
    ensures { result ≡ ended_line_of bytes.now }
{
    match bytes.split_last() {
        Some((b'\n', text)) => {
            if text.len() > MAX_LINE {
                return Err(LineFault::TooLong);
            }
            line_said(text)
        }
        _ => {
            if bytes.len() > MAX_LINE {
                return Err(LineFault::TooLong);
            }
            Err(LineFault::NotEnded)
        }
    }
}
