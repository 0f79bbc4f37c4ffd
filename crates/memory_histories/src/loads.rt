//! The open loads with what they may return.

ghost use Rattle.std.specs.Prelude.{◌≡◌, ◌≤◌, ◌<◌, ◌&&◌, ◌++◌, true, IfSome, not, length, map, take, drop, nat_lt};
ghost use Rattle.std.specs.List.{filter, find, fold, list_any, position};
ghost use Rattle.std.specs.Option.{option_map};
ghost use Rattle.memory_histories.specs.Regular.{wrong_place, load_response_fault};
ghost use Rattle.memory_histories.specs.Kept.{after_stores, is_open_of, is_open_at, may_have, enabled_set, shown_set};
ghost use Rattle.memory_histories.specs.Parts.{part_bytes, parts_bytes, with_known};
ghost use Rattle.memory_histories.specs.Loads.{load_open, loads_open, is_load_of, IsOnlyLoad, counted, shown_sets, all_shown_sets};
ghost use Rattle.memory_histories.specs.Loads.{shown_lanes, is_near, response_fault, wrong_in, behind, set_at, first_set_at};

use crate::events::HistoryFault;
use crate::forms::is_enabled;
use crate::parts::{StorePart, lanes_from, unit_of};
use crate::regular::wrong_byte;
use crate::sets::ByteSet;
use crate::spares::keep_spare;

/// An open load, and what each byte may return now.
#[derive(Drop)]
pub struct OpenLoad {
    pub(crate) number: u64,
    pub(crate) address: u64,
    pub(crate) began: u64,
    pub(crate) enables: u64,
    pub(crate) sets: Vec<ByteSet>,
}

fn is_load_of(load: &OpenLoad, number: u64) -> bool
    ensures { result ≡ is_load_of number load.now }
{
    load.number == number
}

// Whether a load is open under this number.
pub(crate) fn has_open_load(loads: &[OpenLoad], number: u64) -> bool
    ensures { result ≡ list_any (is_open_of number) (loads_open loads.now) }
{
    any_load(loads, number)
}

fn any_load(loads: &[OpenLoad], number: u64) -> bool
    ensures { result ≡ list_any (λ o. is_load_of number o && nat_lt 0 (length o.sets.items)) loads.now }
{
    loads
        .iter()
        .any(|load| is_load_of(load, number) && 0 < load.sets.len())
}

// 0 if no load is open under this number.
fn length_of(loads: &[OpenLoad], number: u64) -> u128
    ensures { result ≡ fold counted 0 (filter (is_load_of number) loads.now) }
{
    loads.iter().filter(|load| is_load_of(load, number)).fold(
        0,
        |total: u128, load| total.saturating_add(load.sets.len() as u128),
    )
}

// Why a load of so many bytes may not be answered with these.
fn response_fault(count: u128, given: u128, place: Option<usize>) -> Option<HistoryFault>
    ensures { result ≡ response_fault count given place }
{
    if count == 0 {
        Some(HistoryFault::NotOpen)
    } else if count == given {
        wrong_byte(place)
    } else {
        Some(HistoryFault::WrongLength)
    }
}

fn first_load(loads: &[OpenLoad], number: u64) -> Option<usize>
    ensures place { result ≡ position (is_load_of number) loads.now }
    ensures bound { IfSome result (λ place. place < length loads.now) }
{
    loads.iter().position(|load| is_load_of(load, number))
}

// Whether one of these loads is.
fn has_load(loads: &[OpenLoad], number: u64) -> bool
    ensures { result ≡ list_any (is_load_of number) loads.now }
{
    loads.iter().any(|load| is_load_of(load, number))
}

// Where the open load stands, if it is one alone.
pub(crate) fn only_load(loads: &[OpenLoad], number: u64) -> Option<usize>
    ensures { IfSome result (IsOnlyLoad number loads.now) }
{
    let place = first_load(loads, number)?;
    if has_load(&loads[place + 1..], number) {
        None
    } else {
        Some(place)
    }
}

fn one_response_fault(load: &OpenLoad, bytes: &[u8]) -> Option<HistoryFault>
    ensures { result ≡ load_response_fault may_have (load_open load.now) bytes.now }
{
    response_fault(
        load.sets.len() as u128,
        bytes.len() as u128,
        first_wrong(load, bytes),
    )
}

// Why the open load may not be answered so. It stands here, if it is one alone.
#[inline(always)]
pub(crate) fn load_response_fault(
    loads: &[OpenLoad],
    number: u64,
    place: Option<usize>,
    bytes: &[u8],
) -> Option<HistoryFault>
    requires { IfSome place (IsOnlyLoad number loads.now) }
    ensures { result ≡ load_response_fault may_have (filter (is_open_of number) (loads_open loads.now)) bytes.now }
{
    match place {
        Some(place) => one_response_fault(&loads[place], bytes),
        None => any_response_fault(loads, number, bytes),
    }
}

// The same, however many they are.
#[inline(never)]
fn any_response_fault(loads: &[OpenLoad], number: u64, bytes: &[u8]) -> Option<HistoryFault>
    ensures { result ≡ load_response_fault may_have (filter (is_open_of number) (loads_open loads.now)) bytes.now }
{
    response_fault(
        length_of(loads, number),
        bytes.len() as u128,
        wrong_place(loads, number, bytes),
    )
}

// The first byte that a load may not return.
#[tactic(auto, using(crate::proofs::Opened::wrong_first, crate::proofs::Opened::wrong_more, crate::proofs::Opened::wrong_end))]
fn first_wrong(load: &OpenLoad, bytes: &[u8]) -> Option<usize>
    ensures { result ≡ wrong_place may_have (load_open load.now) bytes.now }
{
    let sets = load.sets.as_slice();
    for k in 0..sets.len().min(bytes.len()) {
        if !sets[k].holds(bytes[k]) && is_enabled(load.enables, k as u64) {
            return Some(k);
        }
    }
    None
}

// The first byte that the load may not return, if it is open under this number.
fn wrong_in(load: &OpenLoad, number: u64, bytes: &[u8]) -> Option<usize>
    ensures place { result ≡ wrong_in number load.now bytes.now }
    ensures bound { IfSome result (λ place. place < length bytes.now) }
{
    if is_load_of(load, number) {
        first_wrong(load, bytes)
    } else {
        None
    }
}

// The bytes behind those of a load, if it is open under this number.
fn behind<'a>(load: &OpenLoad, number: u64, bytes: &'a [u8]) -> &'a [u8]
    ensures { result.now ≡ behind number load.now bytes.entry.now }
{
    if is_load_of(load, number) {
        &bytes[load.sets.len().min(bytes.len())..]
    } else {
        bytes
    }
}

// The first byte that the open load may not return.
fn wrong_place(loads: &[OpenLoad], number: u64, bytes: &[u8]) -> Option<usize>
    ensures { result ≡ wrong_place may_have (filter (is_open_of number) (loads_open loads.now)) bytes.now }
{
    let mut rest = bytes;
    for load in loads {
        match wrong_in(load, number, rest) {
            Some(place) => return Some(bytes.len() - rest.len() + place),
            None => rest = behind(load, number, rest),
        }
    }
    None
}

// Adds a byte, if it is one.
fn add_known(set: &mut ByteSet, lane: Option<u8>)
    ensures { set.new ≡ with_known set.old lane }
{
    if let Some(byte) = lane {
        set.insert(byte);
    }
}

// The sets once these lanes are stored. Most are a whole unit's.
fn show_lanes(sets: &mut [ByteSet], lanes: &[Option<u8>])
    ensures { sets.new ≡ shown_lanes lanes.now sets.old }
{
    if sets.len() == 8 && lanes.len() == 8 {
        show_whole(sets, lanes);
    } else {
        show_each(sets, lanes);
    }
}

// The same of a whole unit.
fn show_whole(sets: &mut [ByteSet], lanes: &[Option<u8>])
    requires sets { length sets.old ≡ 8 }
    requires lanes { length lanes.now ≡ 8 }
    ensures { sets.new ≡ shown_lanes lanes.now sets.old }
{
    for k in 0..8 {
        add_known(&mut sets[k], lanes[k]);
    }
}

// The same of any lanes.
fn show_each(sets: &mut [ByteSet], lanes: &[Option<u8>])
    ensures { sets.new ≡ shown_lanes lanes.now sets.old }
{
    for k in 0..sets.len().min(lanes.len()) {
        add_known(&mut sets[k], lanes[k]);
    }
}

// The sets from an address on, once a part near them is requested.
fn show_sets(sets: &mut [ByteSet], address: u64, part: &StorePart)
    requires { is_near address (length sets.old) part.now ≡ true }
    ensures { sets.new ≡ shown_sets part.now address sets.old }
{
    let first = unit_of(address);
    let lane = address % 8;
    if part.unit == first {
        show_lanes(sets, lanes_from(part, lane));
    } else {
        let before = (8 * (part.unit - first) - lane) as usize;
        show_lanes(&mut sets[before..], lanes_from(part, 0));
    }
}

// Whether one of these bytes lies in the part's unit.
fn is_near(address: u64, length: usize, part: &StorePart) -> bool
    requires { length < 9223372036854775808 }
    ensures { result ≡ is_near address length part.now }
{
    let first = unit_of(address);
    first <= part.unit && part.unit - first < (address % 8 + length as u64 + 7) / 8
}

// The same of any part.
#[tactic(auto, using(crate::proofs::Opened::far))]
fn show_near(sets: &mut [ByteSet], address: u64, part: &StorePart)
    ensures { sets.new ≡ shown_sets part.now address sets.old }
{
    if is_near(address, sets.len(), part) {
        show_sets(sets, address, part);
    }
}

// The sets once these parts are seen.
fn show_seen(sets: &mut [ByteSet], address: u64, parts: &[StorePart])
    ensures { sets.new ≡ all_shown_sets parts.now address sets.old }
{
    for part in parts {
        show_near(sets, address, part);
    }
}

// The same of those behind a place.
pub(crate) fn show_behind(sets: &mut [ByteSet], place: usize, address: u64, parts: &[StorePart])
    requires { place ≤ length sets.old }
    ensures { sets.new ≡ take place sets.old ++ all_shown_sets parts.now address (drop place sets.old) }
{
    show_seen(&mut sets[place..], address, parts);
}

fn show_all(sets: &mut Vec<ByteSet>, address: u64, part: &StorePart)
    ensures { sets.new.items ≡ shown_sets part.now address sets.old.items }
{
    show_near(sets.as_mut_slice(), address, part);
}

fn show_load(load: &mut OpenLoad, part: &StorePart)
    ensures { load_open load.new ≡ map (after_stores (part_bytes part.now)) (load_open load.old) }
{
    show_all(&mut load.sets, load.address, part);
}

pub(crate) fn show_parts(load: &mut OpenLoad, parts: &[StorePart])
    ensures { load_open load.new ≡ map (after_stores (parts_bytes parts.now)) (load_open load.old) }
{
    for part in parts {
        show_load(load, part);
    }
}

#[tactic(auto, using(crate::proofs::Opened::one_shown))]
pub(crate) fn show_part(loads: &mut [OpenLoad], part: &StorePart)
    ensures { loads_open loads.new ≡ map (after_stores (part_bytes part.now)) (loads_open loads.old) }
{
    for load in loads.iter_mut() {
        show_load(load, part);
    }
}

// The set of a byte, which has all 256 if it isn't enabled.
fn enabled_set(enabled: bool, set: ByteSet) -> ByteSet
    ensures { result ≡ enabled_set enabled set }
{
    if enabled { set } else { ByteSet::all() }
}

fn set_at(load: &OpenLoad, number: u64, address: u64) -> Option<ByteSet>
    ensures { result ≡ set_at number address load.now }
{
    if is_load_of(load, number) && load.address <= address {
        let place = address - load.address;
        match load.sets.get(place as usize) {
            Some(set) => Some(enabled_set(is_enabled(load.enables, place), *set)),
            None => None,
        }
    } else {
        None
    }
}

pub(crate) fn open_set(loads: &[OpenLoad], number: u64, address: u64) -> Option<ByteSet>
    ensures { result ≡ option_map shown_set (find (is_open_at number address) (loads_open loads.now)) }
{
    first_set_at(loads, number, address)
}

fn first_set_at(loads: &[OpenLoad], number: u64, address: u64) -> Option<ByteSet>
    ensures { result ≡ first_set_at number address loads.now }
{
    for load in loads {
        if let Some(set) = set_at(load, number, address) {
            return Some(set);
        }
    }
    None
}

// The load is closed. It stands here, if it is one alone.
pub(crate) fn end_load(
    loads: &mut Vec<OpenLoad>,
    spares: &mut Vec<Vec<ByteSet>>,
    number: u64,
    place: Option<usize>,
)
    requires { IfSome place (IsOnlyLoad number loads.old.items) }
    ensures { loads_open loads.new.items ≡ filter (λ o. not (is_open_of number o)) (loads_open loads.old.items) }
{
    match place {
        Some(place) => {
            let ended = loads.remove(place);
            keep_spare(spares, ended.sets);
        }
        None => end_loads(loads, number),
    }
}

fn end_loads(loads: &mut Vec<OpenLoad>, number: u64)
    ensures { loads.new.items ≡ filter (λ o. not (is_load_of number o)) loads.old.items }
{
    loads.retain(|load| !is_load_of(load, number));
}
