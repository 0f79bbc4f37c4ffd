//! Answers of a judge of histories, and their texts.
ghost use Rattle.std.specs.Prelude.{◌≡◌, ◌<◌, ◌++◌, Some, codes};
ghost use Rattle.std.specs.Fmt.{WritesOnOk};
ghost use Rattle.std.specs.List.{flat_map};
ghost use Rattle.flat_model.specs.Texts.{byte_text};
ghost use Rattle.history_text.specs.Answers.{bytes_in_set as set_bytes, joined_bytes, source_text, allowed_text, alternatives_text};
ghost use Rattle.history_text.specs.Answers.{overwritten_text, overwritten_there_text, address_text, kind_text, cause_text};
ghost use Rattle.history_text.specs.Answers.{refusal_text, open_text as text_of_open, verdict_text, verdict_status};

use arrayvec::ArrayVec;
use flat_model::TwoDigits;
use history_sessions::{ByteSet, LawName};
use std::fmt;

/// A load or a store.
#[derive(Clone, Copy, PartialEq, Eq, Debug)]
pub enum OperationKind {
    /// A load.
    Load,
    /// A store.
    Store,
}

/// Where a byte that a load may return comes from.
#[derive(Clone, Copy, PartialEq, Eq, Debug)]
pub enum ByteSource {
    /// Memory had it at first.
    Initial,
    /// A store put it there.
    Store {
        /// The store's number.
        number: u64,
        /// The line of its request, counted from 1.
        line: u64,
    },
    /// Too far back to be known.
    Unknown,
}

/// A byte that a load may return.
#[derive(Clone, Copy, PartialEq, Eq, Debug)]
pub struct AllowedByte {
    /// The byte.
    pub byte: u8,
    /// Where it comes from.
    pub source: ByteSource,
}

/// A byte that a load returned, and its overwriter: the last store to it before the load.
#[derive(Clone, Copy, PartialEq, Eq, Debug)]
pub struct OverwrittenByte {
    /// The byte.
    pub byte: u8,
    /// Its address.
    pub address: u64,
    /// The store's number.
    pub number: u64,
}

/// Why an event is none of the law.
#[derive(Drop, Debug)]
pub enum RefusalCause {
    /// 0 bytes, more than 64, or beyond the last address.
    OutOfRange {
        address: u64,
        length: u64,
    },
    /// No byte of the store is enabled.
    NoByteEnabled,
    /// Such an operation is open under the number.
    NumberInUse,
    /// No such operation is open under the number.
    NotOpen,
    /// The load was requested with another length.
    WrongLength {
        requested: u64,
        returned: u64,
    },
    /// The first byte that the load may not return.
    WrongByte {
        /// Its address.
        address: u64,
        /// What the load returned.
        returned: u8,
        /// What it may return.
        allowed: ByteSet,
        /// The same in order, each with all its sources: memory first, then stores by line.
        sources: Vec<AllowedByte>,
        /// Who overwrote the returned byte.
        overwritten: Option<OverwrittenByte>,
    },
    /// The load's bytes in this unit stood there together at no moment.
    NoMoment {
        /// The load's first byte in the unit.
        address: u64,
        /// Its first byte there that is wrong for itself, and who overwrote it.
        overwritten: Option<OverwrittenByte>,
    },
}

/// The first line that is none of the law.
#[derive(Drop, Debug)]
pub struct Refusal {
    /// Its number, counted from 1.
    pub line: u64,
    /// The operation's kind.
    pub kind: OperationKind,
    /// The operation's number.
    pub number: u64,
    /// Why.
    pub cause: RefusalCause,
}

/// What became of a readable history.
#[derive(Drop, Debug)]
pub enum HistoryEnd {
    /// It is one of the law.
    OfLaw {
        /// Its events.
        events: u64,
        /// Its open operations.
        open: u64,
    },
    /// It is none, from this line on.
    Refused(Refusal),
    /// The judge can't tell, from this line on.
    Undecided {
        /// The line, counted from 1.
        line: u64,
        /// Where the undecided unit begins.
        address: u64,
    },
}

impl HistoryEnd {
    /// A program's status: 0 for the law, 1 if it is none, or operations are open that must be
    /// answered, 6 if undecided.
    pub fn status(&self, all_answered: bool) -> u8
        ensures { result ≡ verdict_status all_answered self.now }
    {
        match self {
            HistoryEnd::OfLaw { events: _, open } => {
                if all_answered && 0 < *open { 1 } else { 0 }
            }
            HistoryEnd::Refused(_) => 1,
            HistoryEnd::Undecided { .. } => 6,
        }
    }
}

/// What became of a history under a law.
#[derive(Clone, Copy)]
pub struct HistoryVerdict<'a> {
    /// The law.
    pub law: LawName,
    /// What became of it.
    pub end: &'a HistoryEnd,
}

/// A set's bytes in order.
pub fn bytes_in_set(set: ByteSet) -> ArrayVec<u8, 256>
    ensures { result.items ≡ set_bytes set }
{
    let mut bytes = ArrayVec::new();
    for byte in 0..256u16 {
        if set.contains(byte as u8) {
            bytes.push(byte as u8);
        }
    }
    bytes
}

/// As ` (store 3, line 12)`, ` (memory at first)`, or nothing.
impl fmt::Display for ByteSource {
    ghost output = { λ source. Some (source_text source) };

    fn fmt<W: fmt::Write>(&self, f: &mut fmt::Formatter<W>) -> fmt::Result {
        match *self {
            ByteSource::Initial => f.write_str(" (memory at first)"),
            ByteSource::Store { number, line } => { write!(f, " (store {number}, line {line})") }
            ByteSource::Unknown => Ok(()),
        }
    }
}

/// As `5a (store 3, line 12)`.
impl fmt::Display for AllowedByte {
    ghost output = { λ allowed. Some (allowed_text allowed) };

    fn fmt<W: fmt::Write>(&self, f: &mut fmt::Formatter<W>) -> fmt::Result {
        let byte = TwoDigits(self.byte);
        let source = self.source;
        write!(f, "{byte}{source}")
    }
}

/// As `5a (store 3, line 12) or ff (store 4, line 15)`.
#[derive(Clone, Copy)]
pub struct Alternatives<'a>(pub &'a [AllowedByte]);

impl<'a> fmt::Display for Alternatives<'a> {
    ghost output = { λ one. Some (alternatives_text one.0.now) };

    fn fmt<W: fmt::Write>(&self, f: &mut fmt::Formatter<W>) -> fmt::Result {
        match self.0 {
            [] => Ok(()),
            [first, rest @ ..] => {
                write!(f, "{first}")?;
                write_alternatives(f, rest)
            }
        }
    }
}

fn write_alternatives<W: fmt::Write>(
    f: &mut fmt::Formatter<W>,
    alternatives: &[AllowedByte],
) -> fmt::Result
    ensures { WritesOnOk W.write_str_gives f.old result
        (flat_map (λ a. codes " or " ++ allowed_text a) alternatives.now) f.new }
{
    for alternative in alternatives {
        write!(f, " or {alternative}")?;
    }
    Ok(())
}

#[derive(Clone, Copy)]
struct Overwritten(Option<OverwrittenByte>);

impl fmt::Display for Overwritten {
    ghost output = { λ it. Some (overwritten_text it.0) };

    fn fmt<W: fmt::Write>(&self, f: &mut fmt::Formatter<W>) -> fmt::Result {
        match self.0 {
            None => Ok(()),
            Some(it) => {
                let byte = TwoDigits(it.byte);
                let number = it.number;
                write!(f, "; {byte} was overwritten by store {number}")
            }
        }
    }
}

#[derive(Clone, Copy)]
struct OverwrittenThere(Option<OverwrittenByte>);

impl fmt::Display for OverwrittenThere {
    ghost output = { λ it. Some (overwritten_there_text it.0) };

    fn fmt<W: fmt::Write>(&self, f: &mut fmt::Formatter<W>) -> fmt::Result {
        match self.0 {
            None => Ok(()),
            Some(it) => {
                let byte = TwoDigits(it.byte);
                let address = Address(it.address);
                let number = it.number;
                write!(f, "; {byte} at {address} was overwritten by store {number}")
            }
        }
    }
}

pub(crate) fn write_joined<W: fmt::Write>(
    f: &mut fmt::Formatter<W>,
    between: &str,
    bytes: &[u8],
) -> fmt::Result
    ensures { WritesOnOk W.write_str_gives f.old result (joined_bytes between.now bytes.now) f.new }
{
    match bytes {
        [] => Ok(()),
        [first, rest @ ..] => {
            let digits = TwoDigits(*first);
            write!(f, "{digits}")?;
            write_more(f, between, rest)
        }
    }
}

fn write_more<W: fmt::Write>(f: &mut fmt::Formatter<W>, between: &str, bytes: &[u8]) -> fmt::Result
    ensures { WritesOnOk W.write_str_gives f.old result (flat_map (λ c. between.now ++ byte_text c) bytes.now) f.new }
{
    for byte in bytes {
        let digits = TwoDigits(*byte);
        write!(f, "{between}{digits}")?;
    }
    Ok(())
}

// In hexadecimal digits.
#[derive(Clone, Copy)]
struct Address(u64);

impl fmt::Display for Address {
    ghost output = { λ address. Some (address_text address.0) };

    fn fmt<W: fmt::Write>(&self, f: &mut fmt::Formatter<W>) -> fmt::Result {
        let address = self.0;
        write!(f, "0x{address:x}")
    }
}

impl fmt::Display for OperationKind {
    ghost output = { λ kind. Some (kind_text kind) };

    fn fmt<W: fmt::Write>(&self, f: &mut fmt::Formatter<W>) -> fmt::Result {
        f.write_str(match self {
            OperationKind::Load => "load",
            OperationKind::Store => "store",
        })
    }
}

/// What follows the operation's number.
impl fmt::Display for RefusalCause {
    ghost output = { λ cause. Some (cause_text cause) };

    fn fmt<W: fmt::Write>(&self, f: &mut fmt::Formatter<W>) -> fmt::Result {
        match self {
            RefusalCause::OutOfRange { address, length } => {
                let address = Address(*address);
                write!(
                    f,
                    "has {length} bytes at {address}: it must have 1 to 64, all below 2^64"
                )
            }
            RefusalCause::NoByteEnabled => f.write_str("has no byte enabled"),
            RefusalCause::NumberInUse => f.write_str("is open already"),
            RefusalCause::NotOpen => f.write_str("isn't open"),
            RefusalCause::WrongLength {
                requested,
                returned,
            } => write!(f, "returned {returned} bytes, of {requested} requested"),
            RefusalCause::WrongByte {
                address,
                returned,
                allowed: _,
                sources,
                overwritten,
            } => {
                let returned = TwoDigits(*returned);
                let address = Address(*address);
                let one = Alternatives(sources.as_slice());
                let overwritten = Overwritten(*overwritten);
                write!(
                    f,
                    "returned {returned} at {address}, which may be {one}{overwritten}"
                )
            }
            RefusalCause::NoMoment {
                address,
                overwritten,
            } => write_no_moment(f, *address, *overwritten),
        }
    }
}

fn write_no_moment<W: fmt::Write>(
    f: &mut fmt::Formatter<W>,
    address: u64,
    overwritten: Option<OverwrittenByte>,
) -> fmt::Result
    ensures { WritesOnOk W.write_str_gives f.old result
        (cause_text (RefusalCause.NoMoment address overwritten)) f.new }
{
    let address = Address(address);
    let overwritten = OverwrittenThere(overwritten);
    write!(
        f,
        "returned what stood at no moment in the unit with {address}{overwritten}"
    )
}

/// As `line 9: load 7 isn't open`.
impl fmt::Display for Refusal {
    ghost output = { λ refusal. Some (refusal_text refusal) };

    fn fmt<W: fmt::Write>(&self, f: &mut fmt::Formatter<W>) -> fmt::Result {
        let line = self.line;
        let kind = self.kind;
        let number = self.number;
        let cause = &self.cause;
        write!(f, "line {line}: {kind} {number} {cause}")
    }
}

#[derive(Clone, Copy)]
struct StillOpen(u64);

impl fmt::Display for StillOpen {
    ghost output = { λ count. Some (text_of_open count.0) };

    fn fmt<W: fmt::Write>(&self, f: &mut fmt::Formatter<W>) -> fmt::Result {
        let count = self.0;
        if count == 0 {
            return Ok(());
        }
        write!(f, ", {count} operations open")
    }
}

/// One line, without line feed.
impl<'a> fmt::Display for HistoryVerdict<'a> {
    ghost output = { λ verdict. Some (verdict_text verdict) };

    fn fmt<W: fmt::Write>(&self, f: &mut fmt::Formatter<W>) -> fmt::Result {
        let law = self.law;
        match self.end {
            HistoryEnd::OfLaw { events, open } => {
                let still_open = StillOpen(*open);
                write!(f, "history of {events} events is {law}{still_open}")
            }
            HistoryEnd::Refused(refusal) => write!(f, "{refusal}"),
            HistoryEnd::Undecided { line, address } => {
                let address = Address(*address);
                write!(
                    f,
                    "line {line}: undecided: there are too many orders in which the open operations may have taken effect in the unit with {address}"
                )
            }
        }
    }
}
