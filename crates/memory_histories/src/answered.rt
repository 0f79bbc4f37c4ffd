//! Bytes of answered stores that a load may still see, by unit of eight aligned addresses.

ghost use Rattle.std.specs.Prelude.{◌≡◌, ◌+◌, ◌≤◌, ◌<◌, ◌++◌, ◌∷◌, [], ℕ, IfOk, OnOk, OnErr, None, map, nat_eq, length, vec_len};
ghost use Rattle.std.specs.Prelude.{vec_capacity};
ghost use Rattle.std.specs.HashMap.{get, spare};
ghost use Rattle.std.specs.List.{All, filter, list_any};
ghost use Rattle.memory_histories.specs.Kept.{answered_after};
ghost use Rattle.memory_histories.specs.Parts.{part_bytes, parts_bytes, has_lane, without_part, without_parts, answered_part, joined_parts};
ghost use Rattle.memory_histories.specs.Shown.{parts_in, answered_in, is_of_unit, put_units, IsAfter, HasUnit};

use crate::parts::{StorePart, has_lane, without_part, without_parts};
use std::alloc::{AllocError, Global};
use std::collections::HashMap;

/// What is kept of a unit.
#[derive(Drop)]
pub struct KeptUnit {
    pub(crate) parts: Vec<StorePart>,
}

/// A unit, and what is kept of it now.
#[derive(Drop)]
pub struct UnitChange {
    pub(crate) unit: u64,
    pub(crate) after: KeptUnit,
}

// What is kept of a unit.
pub(crate) fn parts_in(units: &HashMap<u64, KeptUnit>, unit: u64) -> &[StorePart]
    ensures { result.now ≡ parts_in (get nat_eq units.entry.now) unit }
{
    match units.get(&unit) {
        Some(kept) => kept.parts.as_slice(),
        None => &[],
    }
}

// Drops what these parts have overwritten.
fn drop_overwritten(parts: &mut Vec<StorePart>, unit: u64, ending: &[StorePart])
    ensures few { vec_len parts.new ≤ vec_len parts.old }
    ensures room { vec_capacity parts.new ≡ vec_capacity parts.old }
    ensures items { parts.new.items ≡ filter has_lane (map (without_parts unit ending.now) parts.old.items) }
{
    clear_overwritten(parts.as_mut_slice(), unit, ending);
    drop_empty(parts);
}

fn drop_empty(parts: &mut Vec<StorePart>)
    ensures few { vec_len parts.new ≤ vec_len parts.old }
    ensures room { vec_capacity parts.new ≡ vec_capacity parts.old }
    ensures items { parts.new.items ≡ filter has_lane parts.old.items }
{
    parts.retain(|part| has_lane(part));
}

fn clear_overwritten(parts: &mut [StorePart], unit: u64, ending: &[StorePart])
    ensures { parts.new ≡ map (without_parts unit ending.now) parts.old }
{
    for part in parts.iter_mut() {
        *part = without_parts(unit, ending, *part);
    }
}

// Drops what this part has overwritten.
fn drop_under(parts: &mut Vec<StorePart>, part: &StorePart)
    ensures few { vec_len parts.new ≤ vec_len parts.old }
    ensures room { vec_capacity parts.new ≡ vec_capacity parts.old }
    ensures items { parts.new.items ≡ filter has_lane (map (without_part part.now.unit part.now) parts.old.items) }
{
    clear_under(parts.as_mut_slice(), part);
    drop_empty(parts);
}

fn clear_under(parts: &mut [StorePart], end: &StorePart)
    ensures { parts.new ≡ map (without_part end.now.unit end.now) parts.old }
{
    for part in parts.iter_mut() {
        *part = without_part(end.unit, end, *part);
    }
}

fn answered_part(part: StorePart, moment: u64) -> StorePart
    ensures { result ≡ answered_part moment part }
{
    StorePart {
        ended: Some(moment),
        ..part
    }
}

// Adds those parts that lie in the unit.
fn add_joined(
    parts: &mut Vec<StorePart>,
    unit: u64,
    ending: &[StorePart],
    moment: u64,
) -> Result<(), AllocError>
    ensures { OnOk result (parts.new.items ≡ parts.old.items ++ joined_parts moment ending.now unit) }
{
    for part in ending {
        if part.unit == unit {
            parts.push(answered_part(*part, moment))?;
        }
    }
    Ok(())
}

// A unit once the store with these parts is answered.
#[tactic(auto, using(crate::proofs::Pieces::after_parts))]
fn after_answer(
    alloc: Global,
    answered: &[StorePart],
    unit: u64,
    ending: &[StorePart],
    moment: u64,
) -> Result<KeptUnit, AllocError>
    ensures { IfOk result
        (λ u. parts_bytes u.parts.items
        ≡ answered_after moment (parts_bytes ending.now) unit (parts_bytes answered.now)) }
{
    let mut parts = Vec::with_capacity(alloc, answered.len().saturating_add(ending.len()))?;
    parts.extend_from_slice(answered)?;
    drop_overwritten(&mut parts, unit, ending);
    add_joined(&mut parts, unit, ending, moment)?;
    Ok(KeptUnit { parts })
}

// A unit once its part of a store is answered, the store's only one.
#[tactic(auto, using(crate::proofs::Pieces::after_part))]
fn join_part(parts: &mut Vec<StorePart>, part: &StorePart, moment: u64) -> Result<(), AllocError>
    ensures ok { OnOk result
        (parts_bytes parts.new.items
        ≡ answered_after moment (part_bytes part.now) part.now.unit (parts_bytes parts.old.items)) }
    ensures err { OnErr result (parts.new.items ≡ parts.old.items) }
{
    parts.reserve(1)?;
    drop_under(parts, part);
    parts.push_reserved(answered_part(*part, moment));
    Ok(())
}

fn add_unit(
    alloc: Global,
    units: &mut HashMap<u64, KeptUnit>,
    part: &StorePart,
    moment: u64,
) -> Result<(), AllocError>
    requires { get nat_eq units.old part.now.unit ≡ None }
    ensures ok { OnOk result
        ((unit : ℕ) → answered_in (get nat_eq units.new) unit
        ≡ answered_after moment (part_bytes part.now) unit (answered_in (get nat_eq units.old) unit)) }
    ensures err { OnErr result ((unit : ℕ) → answered_in (get nat_eq units.new) unit ≡ answered_in (get nat_eq units.old) unit) }
{
    units.reserve(1)?;
    let mut parts = Vec::with_capacity(alloc, 2)?;
    parts.push_reserved(answered_part(*part, moment));
    let after = KeptUnit { parts };
    put_unit(
        units,
        UnitChange {
            unit: part.unit,
            after,
        },
    );
    Ok(())
}

// The same of all units.
pub(crate) fn answer_part(
    alloc: Global,
    units: &mut HashMap<u64, KeptUnit>,
    part: &StorePart,
    moment: u64,
) -> Result<(), AllocError>
    ensures ok { OnOk result
        ((unit : ℕ) → answered_in (get nat_eq units.new) unit
        ≡ answered_after moment (part_bytes part.now) unit (answered_in (get nat_eq units.old) unit)) }
    ensures err { OnErr result ((unit : ℕ) → answered_in (get nat_eq units.new) unit ≡ answered_in (get nat_eq units.old) unit) }
{
    match units.get_mut(&part.unit) {
        Some(kept) => join_part(&mut kept.parts, part, moment),
        None => add_unit(alloc, units, part, moment),
    }
}

// Whether this unit changes.
fn has_unit(changes: &[UnitChange], unit: u64) -> bool
    ensures { result ≡ list_any (is_of_unit unit) changes.now }
{
    changes.iter().any(|change| change.unit == unit)
}

// The units of these bytes once their store is answered.
pub(crate) fn changes(
    alloc: Global,
    units: &HashMap<u64, KeptUnit>,
    ending: &[StorePart],
    moment: u64,
) -> Result<Vec<UnitChange>, AllocError>
    ensures after { IfOk result (λ cs. All (IsAfter moment (parts_bytes ending.now) (answered_in (get nat_eq units.now))) cs.items) }
    ensures whole { IfOk result (λ cs. All (HasUnit cs.items) ending.now) }
{
    let mut changes = Vec::new(alloc);
    for part in ending {
        let unit = part.unit;
        if !has_unit(changes.as_slice(), unit) {
            let answered = parts_in(units, unit);
            let after = after_answer(alloc, answered, unit, ending, moment)?;
            changes.push(UnitChange { unit, after })?;
        }
    }
    Ok(changes)
}

fn put_unit(units: &mut HashMap<u64, KeptUnit>, change: UnitChange)
    requires { 0 < spare units.old }
    ensures at { (unit : ℕ) → answered_in (get nat_eq units.new) unit ≡ put_units (answered_in (get nat_eq units.old)) (change ∷ []) unit }
    ensures room { spare units.old ≤ spare units.new + 1 }
{
    let _before = units.insert(change.unit, change.after);
}

// These units change.
#[tactic(auto, using(crate::proofs::Units::put_last))]
pub(crate) fn put_changes(units: &mut HashMap<u64, KeptUnit>, changes: Vec<UnitChange>)
    requires { length changes.items ≤ spare units.old }
    ensures { (unit : ℕ) → answered_in (get nat_eq units.new) unit ≡ put_units (answered_in (get nat_eq units.old)) changes.items unit }
{
    let mut changes = changes;
    while let Some(change) = changes.pop() {
        put_unit(units, change);
    }
}
