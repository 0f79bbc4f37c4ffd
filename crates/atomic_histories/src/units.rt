//! The units that an event touches.

ghost use Rattle.std.specs.Prelude.{◌≡◌, ◌+◌, ◌*◌, ◌/◌, ◌^◌, ◌<◌, ◌≤◌, length, nat_eq, ℕ, ◌++◌, ◌∷◌, [], false, IfOk, IfErr, OnOk};
ghost use Rattle.std.specs.HashMap.{get, spare};
ghost use Rattle.atomic_histories.specs.Followed.{first_ways, ways_after, needs_too_many};
ghost use Rattle.atomic_histories.specs.Held.{bytes_of_open, covered, units_of, is_without};
ghost use Rattle.atomic_histories.specs.Few.{IsFewFor};
ghost use Rattle.atomic_histories.specs.Judge.{bytes_of, place_from, place_in, put_from, ChangedFaultIs};
ghost use Rattle.atomic_histories.specs.Shown.{shown_unit, words_in};

use crate::answers::ways_after;
use crate::forms::open_under;
use crate::kept::KeptUnit;
use crate::memory::{AtomicFault, UnitSize, fault_of};
use crate::unit::{Operation, UnitPlace};
use crate::words::initial_word;
use memory_histories::{HistoryEvent, HistoryFault, Rest};
use std::alloc::{AllocError, Global};
use std::collections::HashMap;

// The first address of an open operation, and its length.
fn bytes_of_open(operation: Option<Operation>) -> (u64, usize)
    ensures { result ≡ bytes_of_open operation }
{
    match operation {
        None => (0, 0),
        Some(operation) => (operation.address, operation.length),
    }
}

/// The same of an event's operation.
pub(crate) fn covered(
    loads: &[Operation],
    stores: &[Operation],
    event: HistoryEvent,
) -> (u64, usize)
    ensures { result ≡ covered (record { loads = loads.now; stores = stores.now }) event.entry }
{
    match event {
        HistoryEvent::LoadRequest {
            number: _,
            address,
            length,
            enables: _,
        } => (address, length),
        HistoryEvent::LoadResponse { number, bytes: _ } => bytes_of_open(open_under(loads, number)),
        HistoryEvent::StoreRequest {
            number: _,
            address,
            bytes,
            enables: _,
        } => (address, bytes.len()),
        HistoryEvent::StoreResponse { number } => bytes_of_open(open_under(stores, number)),
    }
}

// How many units bytes lie in.
#[tactic(auto, using(crate::proofs::Ranges::units_fit))]
pub(crate) fn units_of(size: UnitSize, address: u64, length: usize) -> u64
    ensures counts { result ≡ units_of (bytes_of size) address length }
    ensures fits { (address / bytes_of size + result) * bytes_of size ≤ 2 ^ 64 }
{
    let end = (u128::from(address) + length as u128).min(1 << 64);
    let last = end.saturating_sub(1) as u64;
    (last / size.bytes()).saturating_sub(address / size.bytes()) + 1
}

// A unit that no operation has touched.
pub(crate) fn untouched_unit(
    alloc: Global,
    place: UnitPlace,
    image: &[u8],
    rest: Rest,
) -> Result<KeptUnit, AllocError>
    ensures shown { IfOk result (λ u. shown_unit u ≡ first_ways image.now rest place) }
    ensures stretches { IfOk result (λ u. u.stretches.items ≡ []) }
{
    KeptUnit::untouched(alloc, initial_word(place, image, rest))
}

pub(crate) fn add_unit(units: &mut Vec<KeptUnit>, unit: KeptUnit) -> Result<(), AllocError>
    ensures { OnOk result (units.new.items ≡ units.old.items ++ unit ∷ []) }
{
    units.push(unit)?;
    Ok(())
}

#[tactic(auto, using(crate::proofs::Ranges::stopped_unit))]
pub(crate) fn changed_unit(
    alloc: Global,
    place: UnitPlace,
    unit: &KeptUnit,
    event: HistoryEvent,
    limit: usize,
    loads: &[Operation],
) -> Result<KeptUnit, AtomicFault>
    ensures unit { IfOk result (λ u. shown_unit u ≡ ways_after place (shown_unit unit.now) event.entry) }
    ensures few { OnOk result (needs_too_many limit place (shown_unit unit.now) event.entry ≡ false) }
    ensures words { OnOk result (IsFewFor (shown_unit unit.now) event.entry) }
    ensures left { OnOk result (is_without (shown_unit unit.now) (ways_after place (shown_unit unit.now) event.entry) ≡ false) }
    ensures fault { IfErr result
        (ChangedFaultIs limit place (words_in unit.now.stretches.items) (shown_unit unit.now) event.entry
        loads.now) }
{
    let after = match ways_after(alloc, place, unit, event, limit) {
        Ok(after) => after,
        Err(stop) => return Err(fault_of(stop, place.first)),
    };
    if after.pairs.is_empty() && !unit.pairs.is_empty() {
        let place = place_in(loads, event, place.first);
        return Err(AtomicFault::Refused(HistoryFault::WrongByte { place }));
    }
    Ok(after)
}

/// Keeps these units, the first under this number.
#[tactic(auto, using(crate::proofs::Ranges::put_last))]
pub(crate) fn put_units(units: &mut HashMap<u64, KeptUnit>, from: u64, changes: Vec<KeptUnit>)
    requires room { length changes.items ≤ spare units.old }
    requires fits { from + length changes.items ≤ 2 ^ 64 }
    ensures { (k : ℕ) → get nat_eq units.new k ≡ put_from (get nat_eq units.old) from changes.items k }
{
    let mut changes = changes;
    while let Some(unit) = changes.pop() {
        put_unit(units, from + changes.len() as u64, unit);
    }
}

// This unit is kept from now on.
pub(crate) fn put_unit(units: &mut HashMap<u64, KeptUnit>, number: u64, unit: KeptUnit)
    requires { 0 < spare units.old }
    ensures at { (k : ℕ) → get nat_eq units.new k ≡ put_from (get nat_eq units.old) number (unit ∷ []) k }
    ensures room { spare units.old ≤ spare units.new + 1 }
{
    let _before = units.insert(number, unit);
}

// The place in an answer of this unit's first byte.
pub(crate) fn place_in(loads: &[Operation], event: HistoryEvent, first: u64) -> usize
    ensures { result ≡ place_in loads.now event.entry first }
{
    match event {
        HistoryEvent::LoadResponse { number, bytes: _ } => {
            place_from(open_under(loads, number), first)
        }
        _ => 0,
    }
}

fn place_from(load: Option<Operation>, first: u64) -> usize
    ensures { result ≡ place_from load first }
{
    match load {
        None => 0,
        Some(load) => first.saturating_sub(load.address) as usize,
    }
}
