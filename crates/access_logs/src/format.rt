//! The formats of logs: what a line says.
ghost use Rattle.std.specs.Prelude.{◌≡◌, ◌+◌, ◌<◌, ◌≤◌, ◌^◌, ℕ, List, Option, Result, ◌==◌, length, position, IfSome, IfOk, IfErr};
ghost use Rattle.std.specs.Option.{option_map, option_and_then};
ghost use Rattle.trace_text.specs.Lines.{IsSaid};
ghost use Rattle.trace_text.specs.declared.lines.LineFault.{LineFault};
ghost use Rattle.access_logs.specs.declared.access.Access.{Access};
ghost use Rattle.access_logs.specs.Accesses.{IsWithin};
ghost use Rattle.access_logs.specs.Formats.{extent_of as extent_in, word_extent_of};
ghost use Rattle.access_logs.specs.Formats.{access_by as access_made, said_as as said, is_remark as is_remark_text, kind_of};
ghost use Rattle.access_logs.specs.Formats.{is_name_end as ends_name, behind_space as space_then, data_from as data_said};
ghost use Rattle.access_logs.specs.Formats.{fetch_from as fetch_said, lackey_from as lackey_said, lackey_access, label_of, din_access};

use crate::access::{Access, AccessKind, MAX_SIZE, WORD_BYTES};
use trace_text::{LineFault, cut, hexadecimal, number};

/// A format of logs.
pub trait LogFormat {
    // What a line says: an access, or nothing for a data cache.
    ghost access_in: { List ℕ → Result (Option Access) LineFault };

    /// What a line says, without its LF; `None` if nothing for a data cache, such as a fetch.
    ///
    /// [`LineFault::Unknown`]: the line isn't the format's. [`LineFault::Field`]: a field is
    /// missing, malformed or out of range.
    fn access_said(&self, text: &[u8]) -> Result<Option<Access>, LineFault>
        ensures said { result ≡ access_in text.now }
        ensures within { IfOk result (λ access. IfSome access IsWithin) }
        ensures fault { IfErr result IsSaid };
}

/// What `valgrind --tool=lackey --trace-mem=yes` writes: ` L ADDRESS,SIZE`, ` S ` for a store, ` M
/// ` for a load and a store of the same bytes. `I  ` (a fetch) is passed over, and so is valgrind's
/// own line, which begins with `==`, `--` or `**`. Addresses are hexadecimal, in small letters;
/// sizes are decimal, 1 to 512. All bytes lie below 2^64.
#[derive(Clone, Copy, Debug)]
pub struct Lackey;

/// Dinero's `din`: `0 ADDRESS` reads and `1 ADDRESS` writes the whole word of an address; `2
/// ADDRESS` (a fetch) is passed over. Addresses are hexadecimal, in small letters, below 2^64.
#[derive(Clone, Copy, Debug)]
pub struct Din;

// What a line is about.
#[derive(Clone, Copy)]
enum Reference {
    Fetch,
    Data(AccessKind),
}

fn comma(text: &[u8]) -> Option<usize>
    ensures value { result ≡ position (λ b. b == 44) text.now }
    ensures bound { IfSome result (λ at. at < length text.now) }
{
    text.iter().position(|byte| *byte == b',')
}

fn extent(text: &[u8]) -> Option<(u64, u32)>
    ensures value { result ≡ extent_in text.now }
    ensures some { IfSome result (λ extent. 1 ≤ extent.1) }
    ensures few { IfSome result (λ extent. extent.1 ≤ MAX_SIZE) }
    ensures last { IfSome result (λ extent. extent.0 + extent.1 ≤ 2 ^ 64) }
{
    let at = comma(text)?;
    let address = hexadecimal(&text[..at]);
    let size = number(&text[at + 1..], MAX_SIZE);
    let address = address?;
    let size = size?;
    if size == 0 || address > u64::MAX - u64::from(size - 1) {
        return None;
    }
    Some((address, size))
}

// The word of an address.
fn word_extent(field: Option<&[u8]>) -> Option<(u64, u32)>
    ensures value { result ≡ word_extent_of (option_map (λ text. text.now) field.entry) }
    ensures some { IfSome result (λ extent. 1 ≤ extent.1) }
    ensures few { IfSome result (λ extent. extent.1 ≤ MAX_SIZE) }
    ensures last { IfSome result (λ extent. extent.0 + extent.1 ≤ 2 ^ 64) }
{
    let address = hexadecimal(field?)?;
    Some((address / WORD_BYTES * WORD_BYTES, WORD_BYTES as u32))
}

fn access_by(reference: Reference, extent: (u64, u32)) -> Option<Access>
    requires some { 1 ≤ extent.1 }
    requires few { extent.1 ≤ MAX_SIZE }
    requires last { extent.0 + extent.1 ≤ 2 ^ 64 }
    ensures value { result ≡ access_made reference extent }
    ensures within { IfSome result IsWithin }
{
    match reference {
        Reference::Fetch => None,
        Reference::Data(kind) => Some(Access {
            kind,
            address: extent.0,
            size: extent.1,
        }),
    }
}

fn said_as(
    reference: Option<Reference>,
    extent: Option<(u64, u32)>,
) -> Result<Option<Access>, LineFault>
    requires some { IfSome extent (λ extent. 1 ≤ extent.1) }
    requires few { IfSome extent (λ extent. extent.1 ≤ MAX_SIZE) }
    requires last { IfSome extent (λ extent. extent.0 + extent.1 ≤ 2 ^ 64) }
    ensures value { result ≡ said reference extent }
    ensures within { IfOk result (λ access. IfSome access IsWithin) }
    ensures fault { IfErr result IsSaid }
{
    match (reference, extent) {
        (None, _) => Err(LineFault::Unknown),
        (Some(_), None) => Err(LineFault::Field),
        (Some(reference), Some(extent)) => Ok(access_by(reference, extent)),
    }
}

// Whether it is valgrind's own line.
fn is_remark(text: &[u8]) -> bool
    ensures { result ≡ is_remark_text text.now }
{
    match text {
        [a, b, ..] => *a == *b && (*a == b'=' || *a == b'-' || *a == b'*'),
        _ => false,
    }
}

fn kind_by(letter: u8) -> Option<Reference>
    ensures { result ≡ kind_of letter }
{
    match letter {
        b'L' => Some(Reference::Data(AccessKind::Load)),
        b'S' => Some(Reference::Data(AccessKind::Store)),
        b'M' => Some(Reference::Data(AccessKind::Modify)),
        _ => None,
    }
}

// A name ends at a space or with the line.
fn is_name_end(rest: &[u8]) -> bool
    ensures { result ≡ ends_name rest.now }
{
    match rest {
        [] => true,
        [first, ..] => *first == b' ',
    }
}

// What follows one space.
fn behind_space(rest: &[u8]) -> Option<&[u8]>
    ensures { option_map (λ text. text.now) result ≡ space_then rest.now }
{
    match rest {
        [b' ', fields @ ..] => Some(fields),
        _ => None,
    }
}

fn extent_of(fields: Option<&[u8]>) -> Option<(u64, u32)>
    ensures value { result ≡ option_and_then extent_in (option_map (λ text. text.now) fields.entry) }
    ensures some { IfSome result (λ extent. 1 ≤ extent.1) }
    ensures few { IfSome result (λ extent. extent.1 ≤ MAX_SIZE) }
    ensures last { IfSome result (λ extent. extent.0 + extent.1 ≤ 2 ^ 64) }
{
    extent(fields?)
}

// A line whose name is this letter behind a space.
fn data_from(letter: u8, rest: &[u8]) -> Result<Option<Access>, LineFault>
    ensures value { result ≡ data_said letter rest.now }
    ensures within { IfOk result (λ access. IfSome access IsWithin) }
    ensures fault { IfErr result IsSaid }
{
    let reference = if is_name_end(rest) {
        kind_by(letter)
    } else {
        None
    };
    said_as(reference, extent_of(behind_space(rest)))
}

// A line named `I`, with two spaces behind.
fn fetch_from(rest: &[u8]) -> Result<Option<Access>, LineFault>
    ensures value { result ≡ fetch_said rest.now }
    ensures within { IfOk result (λ access. IfSome access IsWithin) }
    ensures fault { IfErr result IsSaid }
{
    let reference = if is_name_end(rest) {
        Some(Reference::Fetch)
    } else {
        None
    };
    let fields = match behind_space(rest) {
        Some(rest) => behind_space(rest),
        None => None,
    };
    said_as(reference, extent_of(fields))
}

fn lackey_from(text: &[u8]) -> Result<Option<Access>, LineFault>
    ensures value { result ≡ lackey_said text.now }
    ensures within { IfOk result (λ access. IfSome access IsWithin) }
    ensures fault { IfErr result IsSaid }
{
    match text {
        [b'I', rest @ ..] => fetch_from(rest),
        [b' ', letter, rest @ ..] => data_from(*letter, rest),
        _ => Err(LineFault::Unknown),
    }
}

impl LogFormat for Lackey {
    ghost access_in = { lackey_access };

    fn access_said(&self, text: &[u8]) -> Result<Option<Access>, LineFault> {
        if is_remark(text) {
            return Ok(None);
        }
        lackey_from(text)
    }
}

fn label(text: &[u8]) -> Option<Reference>
    ensures { result ≡ label_of text.now }
{
    match text {
        [b'0'] => Some(Reference::Data(AccessKind::Load)),
        [b'1'] => Some(Reference::Data(AccessKind::Store)),
        [b'2'] => Some(Reference::Fetch),
        _ => None,
    }
}

impl LogFormat for Din {
    ghost access_in = { din_access };

    fn access_said(&self, text: &[u8]) -> Result<Option<Access>, LineFault> {
        let (text, field) = cut(text);
        said_as(label(text), word_extent(field))
    }
}
