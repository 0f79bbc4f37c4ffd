//! The bytes of one aligned unit of memory.

ghost use Rattle.std.specs.Prelude.{◌≡◌, ◌==◌, ◌<◌, None, get_or, is_some, slice_get};
ghost use Rattle.std.specs.Option.{option_eq};
ghost use Rattle.atomic_histories.specs.Followed.{is_same_word, are_same_lanes};
ghost use Rattle.std.specs.List.{list_any};
ghost use Rattle.atomic_histories.specs.Words.{at_unit, first_byte, initial_byte, reads_from, read_byte, enabled_byte, stored_byte};
ghost use Rattle.atomic_histories.specs.Words.{at_lane, is_at};
ghost use Rattle.atomic_histories.specs.Words.{written_byte, written, is_as_it_stood, is_word_of, is_first_word};

use crate::unit::{LoadAddress, UnitPlace, Word};
use memory_histories::{ALL_ENABLED, MAX_LENGTH, Rest};

// A byte before the first store: the image's, or the rest's.
fn first_byte(image: Option<u8>, rest: Rest) -> Option<u8>
    ensures { result ≡ first_byte image rest }
{
    match image {
        Some(byte) => Some(byte),
        None => match rest {
            Rest::Zeros => Some(0),
            Rest::Unknown => None,
        },
    }
}

fn byte_at(bytes: &[u8], place: u128) -> Option<u8>
    ensures { result ≡ slice_get bytes.now place }
{
    if place < bytes.len() as u128 {
        Some(bytes[place as usize])
    } else {
        None
    }
}

fn initial_byte(image: &[u8], rest: Rest, address: u128) -> Option<u8>
    ensures { result ≡ initial_byte image.now rest address }
{
    first_byte(byte_at(image, address), rest)
}

#[tactic(auto, using(crate::proofs::Bits::none_above))]
fn enabled_byte(bytes: &[u8], enables: u64, place: u128) -> Option<u8>
    ensures { result ≡ enabled_byte bytes.now enables place }
{
    if place < 64 {
        if (enables >> place as u32) % 2 == 1 {
            byte_at(bytes, place)
        } else {
            None
        }
    } else {
        None
    }
}

/// Where a load reads that is requested so.
pub(crate) fn reads_from(address: u64, enables: u64) -> LoadAddress
    ensures { result ≡ reads_from address enables }
{
    LoadAddress {
        first: address,
        enables,
    }
}

/// The byte that a load's answer gives for an address: none if it isn't enabled.
pub(crate) fn read_byte(from: LoadAddress, bytes: &[u8], address: u128) -> Option<u8>
    ensures { result ≡ read_byte from bytes.now address }
{
    stored_byte(from.first, bytes, from.enables, address)
}

fn stored_byte(from: u64, bytes: &[u8], enables: u64, address: u128) -> Option<u8>
    ensures { result ≡ stored_byte from bytes.now enables address }
{
    let from = u128::from(from);
    if from <= address {
        enabled_byte(bytes, enables, address - from)
    } else {
        None
    }
}

fn initial_lane(unit: UnitPlace, image: &[u8], rest: Rest, lane: u64) -> Option<u8>
    ensures { result ≡ at_lane unit (initial_byte image.now rest) lane }
{
    if lane < unit.size {
        initial_byte(image, rest, u128::from(unit.first) + u128::from(lane))
    } else {
        None
    }
}

pub(crate) fn initial_word(unit: UnitPlace, image: &[u8], rest: Rest) -> Word
    ensures { result ≡ at_unit unit (initial_byte image.now rest) }
{
    [
        initial_lane(unit, image, rest, 0),
        initial_lane(unit, image, rest, 1),
        initial_lane(unit, image, rest, 2),
        initial_lane(unit, image, rest, 3),
        initial_lane(unit, image, rest, 4),
        initial_lane(unit, image, rest, 5),
        initial_lane(unit, image, rest, 6),
        initial_lane(unit, image, rest, 7),
    ]
}

fn stored_lane(unit: UnitPlace, from: u64, bytes: &[u8], enables: u64, lane: u64) -> Option<u8>
    ensures { result ≡ at_lane unit (stored_byte from bytes.now enables) lane }
{
    if lane < unit.size {
        stored_byte(
            from,
            bytes,
            enables,
            u128::from(unit.first) + u128::from(lane),
        )
    } else {
        None
    }
}

// A lane of a store that begins with the unit.
fn enabled_lane(bytes: &[u8], enables: u64, lane: u64) -> Option<u8>
    requires { lane < 8 }
    ensures { result ≡ enabled_byte bytes.now enables lane }
{
    if (enables >> lane) % 2 == 1 {
        bytes.get(lane as usize).copied()
    } else {
        None
    }
}

#[tactic(auto, using(crate::proofs::Bits::stored_from_first))]
fn first_lane(unit: UnitPlace, bytes: &[u8], enables: u64, lane: u64) -> Option<u8>
    requires { lane < 8 }
    ensures { result ≡ at_lane unit (stored_byte unit.first bytes.now enables) lane }
{
    if lane < unit.size {
        enabled_lane(bytes, enables, lane)
    } else {
        None
    }
}

// What it writes in the unit.
fn first_word(unit: UnitPlace, bytes: &[u8], enables: u64) -> Word
    ensures { result ≡ at_unit unit (stored_byte unit.first bytes.now enables) }
{
    [
        first_lane(unit, bytes, enables, 0),
        first_lane(unit, bytes, enables, 1),
        first_lane(unit, bytes, enables, 2),
        first_lane(unit, bytes, enables, 3),
        first_lane(unit, bytes, enables, 4),
        first_lane(unit, bytes, enables, 5),
        first_lane(unit, bytes, enables, 6),
        first_lane(unit, bytes, enables, 7),
    ]
}

// What a store writes in a unit. Most begin with it.
pub(crate) fn stored_word(unit: UnitPlace, from: u64, bytes: &[u8], enables: u64) -> Word
    ensures { result ≡ at_unit unit (stored_byte from bytes.now enables) }
{
    if from == unit.first {
        first_word(unit, bytes, enables)
    } else {
        any_word(unit, from, bytes, enables)
    }
}

// The same of a store that begins anywhere.
fn any_word(unit: UnitPlace, from: u64, bytes: &[u8], enables: u64) -> Word
    ensures { result ≡ at_unit unit (stored_byte from bytes.now enables) }
{
    [
        stored_lane(unit, from, bytes, enables, 0),
        stored_lane(unit, from, bytes, enables, 1),
        stored_lane(unit, from, bytes, enables, 2),
        stored_lane(unit, from, bytes, enables, 3),
        stored_lane(unit, from, bytes, enables, 4),
        stored_lane(unit, from, bytes, enables, 5),
        stored_lane(unit, from, bytes, enables, 6),
        stored_lane(unit, from, bytes, enables, 7),
    ]
}

// Whether a store writes anything there.
pub(crate) fn has_byte(word: Word) -> bool
    ensures { result ≡ list_any is_some word }
{
    word.iter().any(|byte| byte.is_some())
}

/// Whether an operation of so many bytes has one in the unit.
pub(crate) fn is_at(unit: UnitPlace, address: u64, length: usize) -> bool
    ensures { result ≡ is_at unit address length }
{
    let first = u128::from(unit.first);
    let from = u128::from(address);
    from < first + u128::from(unit.size) && first < from + length as u128
}

fn written_byte(byte: Option<u8>, old: Option<u8>) -> Option<u8>
    ensures { result ≡ written_byte byte old }
{
    match byte {
        Some(byte) => Some(byte),
        None => old,
    }
}

// These bytes are written over a word.
#[tactic(auto, using(crate::proofs::Bits::write_more, crate::proofs::Bits::write_past, crate::proofs::Bits::write_all), unfolding(crate::specs::Words::written))]
pub(crate) fn write(word: &mut [Option<u8>], bytes: &[Option<u8>])
    ensures { word.new ≡ written bytes.now word.old }
{
    for k in 0..word.len() {
        if k < bytes.len() {
            word[k] = written_byte(bytes[k], word[k]);
        }
    }
}

/// Whether an answer gives a byte as it stood there.
pub(crate) fn is_as_it_stood(byte: Option<u8>, answer: Option<u8>) -> bool
    ensures { result ≡ is_as_it_stood byte answer }
{
    match byte {
        None => true,
        Some(byte) => match answer {
            None => true,
            Some(answer) => byte == answer,
        },
    }
}

// Whether these bytes are the word's, as far as they lie in the unit and are enabled.
#[tactic(auto, using(crate::proofs::Bits::first_same))]
pub(crate) fn is_word_of(first: u64, word: &[Option<u8>], from: LoadAddress, bytes: &[u8]) -> bool
    ensures { result ≡ is_word_of first word.now from bytes.now }
{
    if from.first == first && from.enables == ALL_ENABLED && bytes.len() <= MAX_LENGTH {
        is_first_word(word, bytes)
    } else {
        is_any_word(first, word, from, bytes)
    }
}

// The same of bytes that begin with the unit and are all enabled.
#[tactic(auto, using(crate::proofs::Bits::first_more, crate::proofs::Bits::first_all), unfolding(crate::specs::Words::is_first_word))]
fn is_first_word(word: &[Option<u8>], bytes: &[u8]) -> bool
    ensures { result ≡ is_first_word word.now bytes.now 0 }
{
    for k in 0..word.len() {
        if !is_as_it_stood(word[k], byte_in(bytes, k)) {
            return false;
        }
    }
    true
}

fn byte_in(bytes: &[u8], place: usize) -> Option<u8>
    ensures { result ≡ slice_get bytes.now place }
{
    bytes.get(place).copied()
}

// The same of bytes that begin anywhere.
#[tactic(auto, using(crate::proofs::Bits::word_more, crate::proofs::Bits::word_all), unfolding(crate::specs::Words::is_word_of))]
fn is_any_word(first: u64, word: &[Option<u8>], from: LoadAddress, bytes: &[u8]) -> bool
    ensures { result ≡ is_word_of first word.now from bytes.now }
{
    for k in 0..word.len() {
        let address = u128::from(first) + k as u128;
        if !is_as_it_stood(word[k], read_byte(from, bytes, address)) {
            return false;
        }
    }
    true
}

fn is_same_lane(word: &Word, other: &Word, lane: usize) -> bool
    requires { lane < 8 }
    ensures { result ≡ option_eq ◌==◌ (get_or word.now lane None) (get_or other.now lane None) }
{
    word[lane] == other[lane]
}

// Whether two words' lanes are the same. Written out it is faster than the arrays' own `==`.
fn are_same_lanes(word: &Word, other: &Word) -> bool
    ensures { result ≡ are_same_lanes 0 8 word.now other.now }
{
    is_same_lane(word, other, 0)
        && is_same_lane(word, other, 1)
        && is_same_lane(word, other, 2)
        && is_same_lane(word, other, 3)
        && is_same_lane(word, other, 4)
        && is_same_lane(word, other, 5)
        && is_same_lane(word, other, 6)
        && is_same_lane(word, other, 7)
}

// Whether two words are the same.
#[tactic(auto, using(crate::proofs::Bits::same_lanes))]
pub(crate) fn is_same_word(word: &Word, other: &Word) -> bool
    ensures { result ≡ is_same_word word.now other.now }
{
    are_same_lanes(word, other)
}
