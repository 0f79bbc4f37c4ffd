//! Stores by unit of eight aligned addresses; a byte is a lane.

ghost use Rattle.std.specs.Prelude.{◌≡◌, ◌*◌, ◌≤◌, ◌<◌, ◌==◌, if◌then◌else◌, true, None, Some, is_some, length, map, take, drop, slice_get};
ghost use Rattle.std.specs.Prelude.{slice_set, slice_index_or};
ghost use Rattle.std.specs.Int.{bit_at};
ghost use Rattle.std.specs.List.{list_any, range_with_len};
ghost use Rattle.memory_histories.specs.Windows.{is_open};
ghost use Rattle.memory_histories.specs.Kept.{unit_of};
ghost use Rattle.memory_histories.specs.Parts.{lane_at, lanes_of, unit_lanes, nothing, empty_part, with_lanes, eight, parts_bytes, part_at};
ghost use Rattle.memory_histories.specs.Parts.{has_lane, is_open_part, is_open_with, cleared, cleared_lanes, without_part, without_parts};

use crate::windows::is_before;

/// The most units in which one operation lies.
pub(crate) const MAX_PARTS: usize = 9;

/// A store's enabled bytes in one unit, with its window.
#[derive(Clone, Copy, PartialEq, Eq, Debug)]
pub struct StorePart {
    /// The number of the store.
    pub number: u64,
    /// Bytes lie from `8 * unit` on.
    pub unit: u64,
    /// `None`: the store writes nothing here.
    pub lanes: [Option<u8>; 8],
    /// The event that requested it, counted from 0.
    pub began: u64,
    /// The event that answered it, if any.
    pub ended: Option<u64>,
}

// The unit of an address.
pub(crate) fn unit_of(address: u64) -> u64
    ensures { result ≡ unit_of address }
{
    address / 8
}

fn stored_lane(from: u64, bytes: &[u8], enables: u64, address: u64) -> Option<u8>
    requires { length bytes.now ≤ 64 }
    ensures { result ≡ lane_at from (lanes_of bytes.now enables) address }
{
    if from <= address && address - from < bytes.len() as u64 {
        enabled_byte(bytes, enables, address - from)
    } else {
        None
    }
}

fn enabled_byte(bytes: &[u8], enables: u64, place: u64) -> Option<u8>
    requires { place < 64 }
    ensures { result ≡ (if bit_at enables place == 1 then slice_get bytes.now place else None) }
{
    if (enables >> place) % 2 == 1 {
        bytes.get(place as usize).copied()
    } else {
        None
    }
}

fn stored_lanes(unit: u64, from: u64, bytes: &[u8], enables: u64) -> [Option<u8>; 8]
    requires unit { unit < 2305843009213693952 }
    requires few { length bytes.now ≤ 64 }
    ensures { result ≡ unit_lanes unit (lane_at from (lanes_of bytes.now enables)) }
{
    let first = 8 * unit;
    [
        stored_lane(from, bytes, enables, first),
        stored_lane(from, bytes, enables, first + 1),
        stored_lane(from, bytes, enables, first + 2),
        stored_lane(from, bytes, enables, first + 3),
        stored_lane(from, bytes, enables, first + 4),
        stored_lane(from, bytes, enables, first + 5),
        stored_lane(from, bytes, enables, first + 6),
        stored_lane(from, bytes, enables, first + 7),
    ]
}

// The same of eight bytes that begin with the unit: written where they are kept.
fn write_whole(lanes: &mut [Option<u8>], bytes: &[u8], enables: u64)
    requires lanes { length lanes.old ≡ 8 }
    requires bytes { length bytes.now ≡ 8 }
    ensures { lanes.new ≡ map (λ k. if bit_at enables k == 1 then slice_get bytes.now k else None) (range_with_len 0 8) }
{
    for k in 0..8 {
        lanes[k] = byte_if((enables >> k) % 2 == 1, bytes[k]);
    }
}

fn byte_if(is_enabled: bool, byte: u8) -> Option<u8>
    ensures { result ≡ (if is_enabled then Some byte else None) }
{
    if is_enabled { Some(byte) } else { None }
}

// Whether a store is of this whole unit.
fn is_whole(unit: u64, from: u64, length: usize) -> bool
    requires { unit < 2305843009213693952 }
    ensures from { result ≡ true → from ≡ 8 * unit }
    ensures length { result ≡ true → length ≡ 8 }
{
    from == 8 * unit && length == 8
}

/// A store's part in a unit, before it has a byte.
pub(crate) fn empty_part(number: u64, unit: u64, moment: u64) -> StorePart
    ensures { result ≡ empty_part number unit moment }
{
    StorePart {
        number,
        unit,
        lanes: [None; 8],
        began: moment,
        ended: None,
    }
}

// The part at a place gets what a store writes there, mostly a whole unit.
pub(crate) fn write_part(
    parts: &mut [StorePart],
    place: usize,
    unit: u64,
    from: u64,
    bytes: &[u8],
    enables: u64,
)
    requires place { place < length parts.old }
    requires unit { unit < 2305843009213693952 }
    requires few { length bytes.now ≤ 64 }
    ensures { parts.new
        ≡ slice_set parts.old place
        (with_lanes (unit_lanes unit (lane_at from (lanes_of bytes.now enables)))
        (slice_index_or parts.old place nothing)) }
{
    if is_whole(unit, from, bytes.len()) {
        write_whole(&mut parts[place].lanes, bytes, enables);
    } else {
        parts[place].lanes = stored_lanes(unit, from, bytes, enables);
    }
}

pub(crate) fn is_open_part(part: &StorePart, number: u64) -> bool
    ensures { result ≡ is_open_part number part.now }
{
    part.ended.is_none() && part.number == number
}

// Whether it has a byte.
pub(crate) fn has_lane(part: &StorePart) -> bool
    ensures { result ≡ has_lane part.now }
{
    has_some(&part.lanes)
}

fn has_some(lanes: &[Option<u8>]) -> bool
    requires { length lanes.now ≤ 8 }
    ensures { result ≡ list_any is_some (take 8 lanes.now) }
{
    any_some(lanes)
}

fn any_some(lanes: &[Option<u8>]) -> bool
    ensures { result ≡ list_any is_some lanes.now }
{
    lanes.iter().any(|lane| lane.is_some())
}

// Whether a store is open under this number.
pub(crate) fn has_open(parts: &[StorePart], number: u64) -> bool
    ensures { result ≡ list_any (is_open number) (parts_bytes parts.now) }
{
    any_open(parts, number)
}

fn any_open(parts: &[StorePart], number: u64) -> bool
    ensures { result ≡ list_any (is_open_with number) parts.now }
{
    parts
        .iter()
        .any(|part| is_open_part(part, number) && has_lane(part))
}

// Lane `lane` of eight.
fn lane_of(lanes: &[Option<u8>; 8], lane: u64) -> Option<u8>
    requires { lane < 8 }
    ensures { slice_get (take 8 lanes.now) lane ≡ Some result }
{
    lanes[lane as usize]
}

// The byte of a part at an address.
pub(crate) fn part_at(part: &StorePart, address: u64) -> Option<u8>
    ensures { result ≡ part_at part.now address }
{
    if part.unit == unit_of(address) {
        lane_of(&part.lanes, address % 8)
    } else {
        None
    }
}

pub(crate) fn lanes_from(part: &StorePart, lane: u64) -> &[Option<u8>]
    requires { lane < 8 }
    ensures { result.now ≡ drop lane (eight part.now) }
{
    &part.lanes[lane as usize..]
}

// A lane that is written over.
fn cleared(over: Option<u8>, lane: Option<u8>) -> Option<u8>
    ensures { result ≡ cleared over lane }
{
    if over.is_some() { None } else { lane }
}

// Writes over those lanes that a store has.
#[tactic(auto, using(crate::proofs::Cleared::clear_more, crate::proofs::Cleared::clear_past, crate::proofs::Cleared::clear_all))]
fn clear_lanes(lanes: &mut [Option<u8>], over: &[Option<u8>])
    ensures { lanes.new ≡ cleared_lanes over.now lanes.old }
{
    for k in 0..lanes.len() {
        if k < over.len() {
            lanes[k] = cleared(over[k], lanes[k]);
        }
    }
}

// What is left of a part once this one is answered.
pub(crate) fn without_part(unit: u64, end: &StorePart, part: StorePart) -> StorePart
    ensures { result ≡ without_part unit end.now part }
{
    let mut left = part;
    if end.unit == unit && (part.unit == end.unit && is_before(part.ended, end.began)) {
        clear_lanes(&mut left.lanes, &end.lanes);
    }
    left
}

// The same once these are answered.
pub(crate) fn without_parts(unit: u64, ending: &[StorePart], part: StorePart) -> StorePart
    ensures { result ≡ without_parts unit ending.now part }
{
    ending
        .iter()
        .fold(part, |left, end| without_part(unit, end, left))
}
