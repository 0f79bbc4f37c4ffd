//! What requests and answers change of open operations.

ghost use Rattle.std.specs.Prelude.{◌≡◌, ◌+◌, ◌*◌, ◌≤◌, ◌<◌, [], ◌∷◌, ◌++◌, ◌^◌, IfOk, IfSome, is_some, length, map, take, drop, replicate};
ghost use Rattle.std.specs.Prelude.{not, vec_len, vec_capacity, slice_get, nat_eq};
ghost use Rattle.std.specs.HashMap.{get};
ghost use Rattle.std.specs.List.{filter, list_any, position, range_with_len};
ghost use Rattle.memory_histories.specs.Sets.{no_bytes};
ghost use Rattle.memory_histories.specs.Windows.{store_bytes, load_bytes, is_open};
ghost use Rattle.memory_histories.specs.Kept.{initial_set, is_covered_by, first_set_at, settled_set, settled_at, opened_at, after_stores};
ghost use Rattle.memory_histories.specs.Parts.{part_at, written, part_bytes, parts_bytes, is_open_part, IsOnly};
ghost use Rattle.memory_histories.specs.Loads.{load_open, loads_open};
ghost use Rattle.memory_histories.specs.Shown.{answered_in};

use crate::answered::{KeptUnit, parts_in};
use crate::events::Rest;
use crate::loads::{OpenLoad, show_behind, show_part, show_parts};
use crate::parts::{
    StorePart, empty_part, has_lane, has_open, is_open_part, part_at, unit_of, write_part,
};
use crate::sets::ByteSet;
use crate::windows::LoadByte;
use std::alloc::{AllocError, Global};
use std::collections::HashMap;

/// A byte of an open load, and what it may return now.
#[derive(Clone, Copy, PartialEq, Eq, Debug)]
pub struct OpenByte {
    /// The byte.
    pub load: LoadByte,
    /// What it may return, if it is enabled.
    pub may: ByteSet,
}

// What memory may have had before the first store.
fn initial_set(first: Option<u8>, rest: Rest) -> ByteSet
    ensures { result ≡ initial_set first rest }
{
    match first {
        Some(byte) => ByteSet::none().with(byte),
        None => match rest {
            Rest::Zeros => ByteSet::none().with(0),
            Rest::Unknown => ByteSet::all(),
        },
    }
}

// The same at an address.
fn initial_at(image: &[u8], rest: Rest, address: u64) -> ByteSet
    ensures { result ≡ initial_set (slice_get image.now address) rest }
{
    initial_set(image.get(address as usize).copied(), rest)
}

// Whether a part of an answered store has a byte here.
#[tactic(auto, using(crate::proofs::Pieces::any_there))]
fn is_covered(answered: &[StorePart], address: u64) -> bool
    ensures { result ≡ is_covered_by (parts_bytes answered.now) address }
{
    is_there(answered, address)
}

fn is_there(answered: &[StorePart], address: u64) -> bool
    ensures { result ≡ list_any (λ p. is_some (part_at p address)) answered.now }
{
    answered.iter().any(|part| part_at(part, address).is_some())
}

// What a load may return before answered stores are seen: nothing, if one had the byte.
fn push_first(sets: &mut Vec<ByteSet>, memory: (&[u8], Rest), answered: &[StorePart], address: u64)
    requires { vec_len sets.old + 1 ≤ vec_capacity sets.old }
    ensures items { sets.new.items ≡ sets.old.items
        ++ first_set_at memory.entry.0.now memory.entry.1 (parts_bytes answered.now) address ∷ [] }
    ensures len { vec_len sets.new ≡ vec_len sets.old + 1 }
    ensures room { vec_capacity sets.new ≡ vec_capacity sets.old }
{
    if is_covered(answered, address) {
        sets.push_reserved(ByteSet::none());
    } else {
        push_initial(sets, memory, address);
    }
}

// What memory had before the first store. (Most loaded bytes were stored: a set of none is then
// written with no look at another.)
#[inline(never)]
fn push_initial(sets: &mut Vec<ByteSet>, memory: (&[u8], Rest), address: u64)
    requires { vec_len sets.old + 1 ≤ vec_capacity sets.old }
    ensures items { sets.new.items ≡ sets.old.items ++ initial_set (slice_get memory.entry.0.now address) memory.entry.1 ∷ [] }
    ensures len { vec_len sets.new ≡ vec_len sets.old + 1 }
    ensures room { vec_capacity sets.new ≡ vec_capacity sets.old }
{
    let (image, rest) = memory;
    sets.push_reserved(initial_at(image, rest, address));
}

// The same of so many bytes, mostly a whole unit.
fn add_first_sets(
    sets: &mut Vec<ByteSet>,
    memory: (&[u8], Rest),
    answered: &[StorePart],
    address: u64,
    length: usize,
)
    requires room { vec_len sets.old + length ≤ vec_capacity sets.old }
    requires inside { address + length ≤ 2 ^ 64 }
    ensures items { sets.new.items ≡ sets.old.items
        ++ map (first_set_at memory.entry.0.now memory.entry.1 (parts_bytes answered.now)) (range_with_len address length) }
    ensures len { vec_len sets.new ≡ vec_len sets.old + length }
    ensures room { vec_capacity sets.new ≡ vec_capacity sets.old }
{
    if address % 8 == 0 && length == 8 {
        add_first_whole(sets, memory, answered, unit_of(address));
    } else {
        add_each_first(sets, memory, answered, address, length);
    }
}

// The same of a whole unit: the sets are written at once, and then those that have something are
// looked up.
fn add_first_whole(
    sets: &mut Vec<ByteSet>,
    memory: (&[u8], Rest),
    answered: &[StorePart],
    unit: u64,
)
    requires room { vec_len sets.old + 8 ≤ vec_capacity sets.old }
    requires inside { unit < 2305843009213693952 }
    ensures items { sets.new.items ≡ sets.old.items
        ++ map (first_set_at memory.entry.0.now memory.entry.1 (parts_bytes answered.now)) (range_with_len (8 * unit) 8) }
    ensures len { vec_len sets.new ≡ vec_len sets.old + 8 }
    ensures room { vec_capacity sets.new ≡ vec_capacity sets.old }
{
    let start = sets.len();
    push_none(sets);
    fill_behind(sets.as_mut_slice(), start, memory, answered, unit);
}

// Adds eight sets of no byte.
fn push_none(sets: &mut Vec<ByteSet>)
    requires { vec_len sets.old + 8 ≤ vec_capacity sets.old }
    ensures items { sets.new.items ≡ sets.old.items ++ replicate 8 no_bytes }
    ensures len { vec_len sets.new ≡ vec_len sets.old + 8 }
    ensures room { vec_capacity sets.new ≡ vec_capacity sets.old }
{
    for _k in 0usize..8 {
        sets.push_reserved(ByteSet::none());
    }
}

// The eight empty sets from a place on get what a load may return before answered stores are seen.
fn fill_behind(
    sets: &mut [ByteSet],
    place: usize,
    memory: (&[u8], Rest),
    answered: &[StorePart],
    unit: u64,
)
    requires many { length sets.old ≡ place + 8 }
    requires none { drop place sets.old ≡ replicate 8 no_bytes }
    requires inside { unit < 2305843009213693952 }
    ensures { sets.new ≡ take place sets.old
        ++ map (first_set_at memory.entry.0.now memory.entry.1 (parts_bytes answered.now)) (range_with_len (8 * unit) 8) }
{
    fill_whole(&mut sets[place..], memory, answered, unit);
}

// The same of all sets.
fn fill_whole(sets: &mut [ByteSet], memory: (&[u8], Rest), answered: &[StorePart], unit: u64)
    requires none { sets.old ≡ replicate 8 no_bytes }
    requires inside { unit < 2305843009213693952 }
    ensures { sets.new ≡ map (first_set_at memory.entry.0.now memory.entry.1 (parts_bytes answered.now)) (range_with_len (8 * unit) 8) }
{
    for k in 0..8 {
        fill_first(&mut sets[k], memory, answered, 8 * unit + k as u64);
    }
}

// The same of the set at one address.
fn fill_first(set: &mut ByteSet, memory: (&[u8], Rest), answered: &[StorePart], address: u64)
    requires { set.old ≡ no_bytes }
    ensures { set.new ≡ first_set_at memory.entry.0.now memory.entry.1 (parts_bytes answered.now) address }
{
    if !is_covered(answered, address) {
        put_initial(set, memory, address);
    }
}

// Makes a set what memory had at first.
#[inline(never)]
fn put_initial(set: &mut ByteSet, memory: (&[u8], Rest), address: u64)
    ensures { set.new ≡ initial_set (slice_get memory.entry.0.now address) memory.entry.1 }
{
    let (image, rest) = memory;
    *set = initial_at(image, rest, address);
}

// The same byte by byte.
fn add_each_first(
    sets: &mut Vec<ByteSet>,
    memory: (&[u8], Rest),
    answered: &[StorePart],
    address: u64,
    length: usize,
)
    requires room { vec_len sets.old + length ≤ vec_capacity sets.old }
    requires inside { address + length ≤ 2 ^ 64 }
    ensures items { sets.new.items ≡ sets.old.items
        ++ map (first_set_at memory.entry.0.now memory.entry.1 (parts_bytes answered.now)) (range_with_len address length) }
    ensures len { vec_len sets.new ≡ vec_len sets.old + length }
    ensures room { vec_capacity sets.new ≡ vec_capacity sets.old }
{
    for k in 0..length {
        push_first(sets, memory, answered, address + k as u64);
    }
}

// The sets of a load's bytes in one unit, without open stores.
fn add_piece(
    sets: &mut Vec<ByteSet>,
    memory: (&[u8], Rest),
    answered: &[StorePart],
    address: u64,
    length: usize,
)
    requires room { vec_len sets.old + length ≤ vec_capacity sets.old }
    requires inside { address + length ≤ 2 ^ 64 }
    ensures items { sets.new.items ≡ sets.old.items
        ++ map (settled_set memory.entry.0.now memory.entry.1 (parts_bytes answered.now)) (range_with_len address length) }
    ensures len { vec_len sets.new ≡ vec_len sets.old + length }
    ensures room { vec_capacity sets.new ≡ vec_capacity sets.old }
{
    let start = sets.len();
    add_first_sets(sets, memory, answered, address, length);
    show_behind(sets.as_mut_slice(), start, address, answered);
}

// The sets of a requested load, without open stores. Most lie in one unit.
fn add_sets(
    sets: &mut Vec<ByteSet>,
    memory: (&[u8], Rest, &HashMap<u64, KeptUnit>),
    address: u64,
    length: usize,
)
    requires room { vec_len sets.old + length ≤ vec_capacity sets.old }
    requires some { 1 ≤ length }
    requires inside { address + length ≤ 2 ^ 64 }
    ensures { sets.new.items ≡ sets.old.items
        ++ map (settled_at memory.entry.0.now memory.entry.1 (answered_in (get nat_eq memory.entry.2.now)))
        (range_with_len address length) }
{
    let (image, rest, units) = memory;
    if address % 8 + length as u64 <= 8 {
        let answered = parts_in(units, unit_of(address));
        add_piece(sets, (image, rest), answered, address, length);
    } else {
        add_pieces(sets, memory, address, length);
    }
}

// The same unit by unit.
fn add_pieces(
    sets: &mut Vec<ByteSet>,
    memory: (&[u8], Rest, &HashMap<u64, KeptUnit>),
    address: u64,
    length: usize,
)
    requires room { vec_len sets.old + length ≤ vec_capacity sets.old }
    requires some { 1 ≤ length }
    requires inside { address + length ≤ 2 ^ 64 }
    ensures { sets.new.items ≡ sets.old.items
        ++ map (settled_at memory.entry.0.now memory.entry.1 (answered_in (get nat_eq memory.entry.2.now)))
        (range_with_len address length) }
{
    let (image, rest, units) = memory;
    let first = unit_of(address);
    let end = unit_of(address + (length as u64 - 1)) + 1;
    for unit in first..end {
        let from = address.max(8 * unit);
        let done = (from - address) as usize;
        let count = (length - done).min(8 - (from % 8) as usize);
        add_piece(sets, (image, rest), parts_in(units, unit), from, count);
    }
}

// A requested load, without open stores.
fn settled_load(
    sets: Vec<ByteSet>,
    memory: (&[u8], Rest, &HashMap<u64, KeptUnit>),
    number: u64,
    address: u64,
    length: usize,
    enables: u64,
    moment: u64,
) -> OpenLoad
    requires empty { sets.items ≡ [] }
    requires room { length ≤ vec_capacity sets }
    requires some { 1 ≤ length }
    requires inside { address + length ≤ 2 ^ 64 }
    ensures { load_open result
        ≡ map (opened_at memory.entry.0.now memory.entry.1 [] (answered_in (get nat_eq memory.entry.2.now)))
        (load_bytes number address length enables moment) }
{
    let mut sets = sets;
    add_sets(&mut sets, memory, address, length);
    OpenLoad {
        number,
        address,
        began: moment,
        enables,
        sets,
    }
}

// A requested load, with its sets in this room.
pub(crate) fn open_load(
    room: Vec<ByteSet>,
    memory: (&[u8], Rest, &[StorePart], &HashMap<u64, KeptUnit>),
    number: u64,
    address: u64,
    length: usize,
    enables: u64,
    moment: u64,
) -> OpenLoad
    requires empty { room.items ≡ [] }
    requires room { length ≤ vec_capacity room }
    requires some { 1 ≤ length }
    requires inside { address + length ≤ 2 ^ 64 }
    ensures { load_open result
        ≡ map (opened_at memory.entry.0.now memory.entry.1 (parts_bytes memory.entry.2.now)
        (answered_in (get nat_eq memory.entry.3.now)))
        (load_bytes number address length enables moment) }
{
    let (image, rest, stores, units) = memory;
    let mut load = settled_load(
        room,
        (image, rest, units),
        number,
        address,
        length,
        enables,
        moment,
    );
    show_parts(&mut load, stores);
    load
}

// Keeps a part of a store, and shows it to open loads. It is written and read where it stands.
fn add_part(
    stores: &mut Vec<StorePart>,
    loads: &mut [OpenLoad],
    part: StorePart,
    from: u64,
    bytes: &[u8],
    enables: u64,
)
    requires room { vec_len stores.old + 1 ≤ vec_capacity stores.old }
    requires unit { part.unit < 2305843009213693952 }
    requires few { length bytes.now ≤ 64 }
    ensures stores { stores.new.items ≡ stores.old.items ++ written from bytes.now enables part ∷ [] }
    ensures len { vec_len stores.new ≡ vec_len stores.old + 1 }
    ensures capacity { vec_capacity stores.new ≡ vec_capacity stores.old }
    ensures loads { loads_open loads.new ≡ map (after_stores (part_bytes (written from bytes.now enables part))) (loads_open loads.old) }
{
    let place = stores.len();
    push_written(stores, part, from, bytes, enables);
    show_part(loads, &stores[place]);
}

fn push_written(stores: &mut Vec<StorePart>, part: StorePart, from: u64, bytes: &[u8], enables: u64)
    requires room { vec_len stores.old + 1 ≤ vec_capacity stores.old }
    requires unit { part.unit < 2305843009213693952 }
    requires few { length bytes.now ≤ 64 }
    ensures stores { stores.new.items ≡ stores.old.items ++ written from bytes.now enables part ∷ [] }
    ensures len { vec_len stores.new ≡ vec_len stores.old + 1 }
    ensures capacity { vec_capacity stores.new ≡ vec_capacity stores.old }
{
    let place = stores.len();
    stores.push_reserved(part);
    write_part(
        stores.as_mut_slice(),
        place,
        part.unit,
        from,
        bytes,
        enables,
    );
}

// A store is requested: its parts are kept, and open loads may see them. (Most stores lie in one
// unit.)
pub(crate) fn add_store(
    stores: &mut Vec<StorePart>,
    loads: &mut [OpenLoad],
    number: u64,
    address: u64,
    bytes: &[u8],
    enables: u64,
    moment: u64,
)
    requires room { vec_len stores.old + 9 ≤ vec_capacity stores.old }
    requires some { 1 ≤ length bytes.now }
    requires few { length bytes.now ≤ 64 }
    requires inside { address + length bytes.now ≤ 2 ^ 64 }
    ensures stores { parts_bytes stores.new.items ≡ parts_bytes stores.old.items ++ store_bytes number address bytes.now enables moment }
    ensures loads { loads_open loads.new ≡ map (after_stores (store_bytes number address bytes.now enables moment)) (loads_open loads.old) }
{
    if address % 8 + bytes.len() as u64 <= 8 {
        let part = empty_part(number, unit_of(address), moment);
        add_part(stores, loads, part, address, bytes, enables);
    } else {
        add_parts(stores, loads, number, address, bytes, enables, moment);
    }
}

// The same unit by unit.
fn add_parts(
    stores: &mut Vec<StorePart>,
    loads: &mut [OpenLoad],
    number: u64,
    address: u64,
    bytes: &[u8],
    enables: u64,
    moment: u64,
)
    requires room { vec_len stores.old + 9 ≤ vec_capacity stores.old }
    requires some { 1 ≤ length bytes.now }
    requires few { length bytes.now ≤ 64 }
    requires inside { address + length bytes.now ≤ 2 ^ 64 }
    ensures stores { parts_bytes stores.new.items ≡ parts_bytes stores.old.items ++ store_bytes number address bytes.now enables moment }
    ensures loads { loads_open loads.new ≡ map (after_stores (store_bytes number address bytes.now enables moment)) (loads_open loads.old) }
{
    let first = unit_of(address);
    let last = unit_of(address + (bytes.len() as u64 - 1));
    for unit in first..last + 1 {
        let part = empty_part(number, unit, moment);
        add_part(stores, loads, part, address, bytes, enables);
    }
}

fn has_open_part(stores: &[StorePart], number: u64) -> bool
    ensures { result ≡ list_any (is_open_part number) stores.now }
{
    stores.iter().any(|part| is_open_part(part, number))
}

fn first_open_part(stores: &[StorePart], number: u64) -> Option<usize>
    ensures place { result ≡ position (is_open_part number) stores.now }
    ensures bound { IfSome result (λ place. place < length stores.now) }
{
    stores.iter().position(|part| is_open_part(part, number))
}

// Where a store's part stands, if it is the only one.
pub(crate) fn only_part(stores: &[StorePart], number: u64) -> Option<usize>
    ensures { IfSome result (IsOnly number stores.now) }
{
    let place = first_open_part(stores, number)?;
    if has_open_part(&stores[place + 1..], number) {
        None
    } else {
        Some(place)
    }
}

// Whether a store is open; its only part, if it has one alone, stands here.
pub(crate) fn has_open_at(stores: &[StorePart], number: u64, place: Option<usize>) -> bool
    requires { IfSome place (IsOnly number stores.now) }
    ensures { result ≡ list_any (is_open number) (parts_bytes stores.now) }
{
    match place {
        Some(place) => has_lane(&stores[place]),
        None => has_open(stores, number),
    }
}

#[tactic(auto, using(crate::proofs::Pieces::filter_open))]
pub(crate) fn open_store(
    alloc: Global,
    stores: &[StorePart],
    number: u64,
) -> Result<Vec<StorePart>, AllocError>
    ensures { IfOk result (λ v. parts_bytes v.items ≡ filter (is_open number) (parts_bytes stores.now)) }
{
    open_parts(alloc, stores, number)
}

fn open_parts(
    alloc: Global,
    stores: &[StorePart],
    number: u64,
) -> Result<Vec<StorePart>, AllocError>
    ensures { IfOk result (λ v. v.items ≡ filter (is_open_part number) stores.now) }
{
    stores
        .iter()
        .filter(|part| is_open_part(part, number))
        .copied()
        .collect(alloc)
}

#[tactic(auto, using(crate::proofs::Pieces::filter_others))]
pub(crate) fn end_store(stores: &mut Vec<StorePart>, number: u64)
    ensures { parts_bytes stores.new.items ≡ filter (λ s. not (is_open number s)) (parts_bytes stores.old.items) }
{
    end_parts(stores, number);
}

fn end_parts(stores: &mut Vec<StorePart>, number: u64)
    ensures { stores.new.items ≡ filter (λ p. not (is_open_part number p)) stores.old.items }
{
    stores.retain(|part| !is_open_part(part, number));
}
