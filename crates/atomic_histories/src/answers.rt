//! The ways of a unit after an event.

ghost use Rattle.std.specs.Prelude.{ℕ, ◌≡◌, ◌++◌, [], true, false, List, Some, IfOk, IfErr, OnOk};
ghost use Rattle.std.specs.List.{filter, find};
ghost use Rattle.atomic_histories.specs.declared.stretches.Stretch.{Stretch};
ghost use Rattle.atomic_histories.specs.declared.unit.UnitPlace.{UnitPlace};
ghost use Rattle.atomic_histories.specs.Followed.{is_under, cons_any, pair_on, gathered, pair_got, pair_missed, with_hope, word_aim};
ghost use Rattle.atomic_histories.specs.Followed.{answered_load, answered_store, load_needs_more, needs_more, needs_too_many, effect_aim};
ghost use Rattle.atomic_histories.specs.Followed.{ways_without_load, ways_without_store, ways_after, has_many_words, is_too_wide};
ghost use Rattle.atomic_histories.specs.Few.{KeepsFew, IsFewFor};
ghost use Rattle.atomic_histories.specs.Shares.{past_any, IsInAny};
ghost use Rattle.atomic_histories.specs.Parts.{IsPart, AreParts};
ghost use Rattle.atomic_histories.specs.Shown.{pasts, shown, shown_all, shown_unit, AreIn, StopIs, words_in};

use crate::kept::KeptUnit;
use crate::loads::find_load;
use crate::pairs::{FollowedPair, Wanted};
use crate::search::{Asked, MOST_WORDS, Stop, search};
use crate::splits::{Split, split_stretches};
use crate::stretches::{Before, words_in};
use crate::unit::{UnitPlace, WatchedLoad};
use crate::words::{has_byte, is_at, is_word_of, reads_from, stored_word};
use memory_histories::HistoryEvent;
use std::alloc::{AllocError, Global};

// The past on a pair's ways on which a load may have its answer.
fn past_got(
    unit: UnitPlace,
    load: &WatchedLoad,
    bytes: &[u8],
    split: &Split,
    pair: &FollowedPair,
) -> Option<Before>
    ensures pair { (ss : List Stretch) → IsPart unit bytes.now load.now ss split.now pair.now
        → pair_on (shown ss pair.now) (past_any (pasts ss) result)
        ≡ pair_got unit bytes.now load.now (shown ss pair.now) }
    ensures is_in { (ss : List Stretch) → IsPart unit bytes.now load.now ss split.now pair.now → IsInAny ss result }
{
    if is_word_of(unit.first, &pair.word, load.address, bytes) {
        Some(pair.past)
    } else {
        split.got(pair.past)
    }
}

// The same on the others, if they may still come to it.
fn past_missed(
    unit: UnitPlace,
    load: &WatchedLoad,
    bytes: &[u8],
    split: &Split,
    pair: &FollowedPair,
) -> Option<Before>
    ensures pair { (ss : List Stretch) → IsPart unit bytes.now load.now ss split.now pair.now
        → cons_any (pair_on (shown ss pair.now) (past_any (pasts ss) result)) []
        ≡ filter (word_aim unit load.now.address bytes.now).hope
        (cons_any (pair_missed unit bytes.now load.now (shown ss pair.now)) []) }
    ensures is_in { (ss : List Stretch) → IsPart unit bytes.now load.now ss split.now pair.now → IsInAny ss result }
{
    let address = load.address;
    if is_word_of(unit.first, &pair.word, address, bytes) {
        return None;
    }
    let wanted = Wanted::Answer {
        unit,
        address,
        bytes,
    };
    if pair.hopes(wanted) {
        split.missed(pair.past)
    } else {
        None
    }
}

// Adds a pair's ways with this past, if there are any.
fn add_part(
    alloc: Global,
    parts: &mut Vec<FollowedPair>,
    pair: &FollowedPair,
    past: Option<Before>,
) -> Result<(), AllocError>
    ensures shown { OnOk result
        ((ss : List Stretch)
        → shown_all ss parts.new.items
        ≡ shown_all ss parts.old.items
        ++ cons_any (pair_on (shown ss pair.now) (past_any (pasts ss) past)) []) }
    ensures are_in { OnOk result ((ss : List Stretch) → AreIn ss parts.old.items → IsInAny ss past → AreIn ss parts.new.items) }
{
    match past {
        None => Ok(()),
        Some(past) => {
            let part = pair.with_past(alloc, past)?;
            parts.push(part)?;
            Ok(())
        }
    }
}

// The ways on which a load may have its answer.
fn pairs_got(
    alloc: Global,
    unit: UnitPlace,
    load: &WatchedLoad,
    bytes: &[u8],
    split: &Split,
    pairs: &[FollowedPair],
) -> Result<Vec<FollowedPair>, AllocError>
    ensures shown { IfOk result
        (λ ps. (ss : List Stretch) → AreParts unit bytes.now load.now ss split.now pairs.now
        → shown_all ss ps.items ≡ gathered (pair_got unit bytes.now load.now) (shown_all ss pairs.now)) }
    ensures are_in { IfOk result (λ ps. (ss : List Stretch) → AreParts unit bytes.now load.now ss split.now pairs.now → AreIn ss ps.items) }
{
    let mut parts = Vec::new(alloc);
    for pair in pairs {
        let past = past_got(unit, load, bytes, split, pair);
        add_part(alloc, &mut parts, pair, past)?;
    }
    Ok(parts)
}

// Those on which it hasn't, and may still come to it.
fn pairs_missed(
    alloc: Global,
    unit: UnitPlace,
    load: &WatchedLoad,
    bytes: &[u8],
    split: &Split,
    pairs: &[FollowedPair],
) -> Result<Vec<FollowedPair>, AllocError>
    ensures shown { IfOk result
        (λ ps. (ss : List Stretch) → AreParts unit bytes.now load.now ss split.now pairs.now
        → shown_all ss ps.items
        ≡ with_hope (word_aim unit load.now.address bytes.now)
        (gathered (pair_missed unit bytes.now load.now) (shown_all ss pairs.now))) }
    ensures are_in { IfOk result (λ ps. (ss : List Stretch) → AreParts unit bytes.now load.now ss split.now pairs.now → AreIn ss ps.items) }
{
    let mut parts = Vec::new(alloc);
    for pair in pairs {
        let past = past_missed(unit, load, bytes, split, pair);
        add_part(alloc, &mut parts, pair, past)?;
    }
    Ok(parts)
}

// The pairs on whose ways a load may have its answer, once stores take effect where they have to.
fn pairs_answering(
    alloc: Global,
    unit: UnitPlace,
    kept: &mut KeptUnit,
    load: &WatchedLoad,
    bytes: &[u8],
    limit: usize,
) -> Result<Vec<FollowedPair>, Stop>
    requires { AreIn kept.old.stretches.items kept.old.pairs.items }
    ensures found { IfOk result
        (λ ps. shown_all kept.new.stretches.items ps.items
        ≡ answered_load unit bytes.now (Some load.now) (shown_unit kept.old)) }
    ensures loads { kept.new.loads ≡ kept.old.loads }
    ensures moment { kept.new.moment ≡ kept.old.moment }
    ensures few { OnOk result (load_needs_more limit unit bytes.now (Some load.now) (shown_unit kept.old) ≡ false) }
    ensures stop { IfErr result (StopIs (load_needs_more limit unit bytes.now (Some load.now) (shown_unit kept.old))) }
{
    let wanted = Wanted::Answer {
        unit,
        address: load.address,
        bytes,
    };
    let split = split_stretches(alloc, &mut kept.stretches, unit, load, bytes)?;
    let got = pairs_got(alloc, unit, load, bytes, &split, kept.pairs.as_slice())?;
    let missed = pairs_missed(alloc, unit, load, bytes, &split, kept.pairs.as_slice())?;
    let asked = Asked {
        loads: kept.loads.as_slice(),
        moment: kept.moment,
    };
    search(
        alloc,
        &mut kept.stretches,
        asked,
        got,
        missed,
        wanted,
        limit,
    )
}

fn follow_load(
    alloc: Global,
    unit: UnitPlace,
    kept: &mut KeptUnit,
    load: Option<WatchedLoad>,
    bytes: &[u8],
    limit: usize,
) -> Result<(), Stop>
    requires { AreIn kept.old.stretches.items kept.old.pairs.items }
    ensures after { OnOk result
        (shown_unit kept.new
        ≡ record {
          loads = (shown_unit kept.old).loads;
          moment = kept.old.moment;
          pairs = answered_load unit bytes.now load (shown_unit kept.old);
        }) }
    ensures few { OnOk result (load_needs_more limit unit bytes.now load (shown_unit kept.old) ≡ false) }
    ensures stop { IfErr result (StopIs (load_needs_more limit unit bytes.now load (shown_unit kept.old))) }
{
    match load {
        None => Ok(()),
        Some(load) => {
            kept.pairs = pairs_answering(alloc, unit, kept, &load, bytes, limit)?;
            Ok(())
        }
    }
}

// A load is answered.
fn answer_load(
    alloc: Global,
    unit: UnitPlace,
    kept: &mut KeptUnit,
    number: u64,
    bytes: &[u8],
    limit: usize,
) -> Result<(), Stop>
    requires { AreIn kept.old.stretches.items kept.old.pairs.items }
    ensures after { OnOk result
        (shown_unit kept.new
        ≡ ways_without_load number (shown_unit kept.old)
        (answered_load unit bytes.now (find (is_under number) (shown_unit kept.old).loads)
        (shown_unit kept.old))) }
    ensures few { OnOk result
        (load_needs_more limit unit bytes.now (find (is_under number) (shown_unit kept.old).loads)
        (shown_unit kept.old)
        ≡ false) }
    ensures stop { IfErr result
        (StopIs (load_needs_more limit unit bytes.now (find (is_under number) (shown_unit kept.old).loads)
        (shown_unit kept.old))) }
{
    let load = find_load(kept.loads.as_slice(), number);
    follow_load(alloc, unit, kept, load, bytes, limit)?;
    kept.close_load(alloc, number)?;
    Ok(())
}

// A store is answered.
fn answer_store(alloc: Global, kept: &mut KeptUnit, number: u64, limit: usize) -> Result<(), Stop>
    requires { AreIn kept.old.stretches.items kept.old.pairs.items }
    ensures after { OnOk result
        (shown_unit kept.new
        ≡ ways_without_store number (shown_unit kept.old) (answered_store number (shown_unit kept.old))) }
    ensures few { OnOk result
        (needs_more limit (shown_unit kept.old).loads (shown_unit kept.old).moment (effect_aim number) []
        (shown_unit kept.old).pairs
        ≡ false) }
    ensures stop { IfErr result
        (StopIs
        (needs_more limit (shown_unit kept.old).loads (shown_unit kept.old).moment (effect_aim number) []
        (shown_unit kept.old).pairs)) }
{
    let pairs = std::mem::replace(&mut kept.pairs, Vec::new(alloc));
    let asked = Asked {
        loads: kept.loads.as_slice(),
        moment: kept.moment,
    };
    kept.pairs = search(
        alloc,
        &mut kept.stretches,
        asked,
        Vec::new(alloc),
        pairs,
        Wanted::Effect { number },
        limit,
    )?;
    kept.close_store(number);
    Ok(())
}

// An event comes. After an error nothing is known of the unit.
fn follow(
    alloc: Global,
    unit: UnitPlace,
    kept: &mut KeptUnit,
    event: HistoryEvent,
    limit: usize,
) -> Result<(), Stop>
    requires { AreIn kept.old.stretches.items kept.old.pairs.items }
    ensures after { OnOk result (shown_unit kept.new ≡ ways_after unit (shown_unit kept.old) event.entry) }
    ensures few { OnOk result (needs_too_many limit unit (shown_unit kept.old) event.entry ≡ false) }
    ensures stop { IfErr result (λ stop. (words : ℕ) → StopIs (is_too_wide limit unit words (shown_unit kept.old) event.entry) stop) }
{
    match event {
        HistoryEvent::LoadRequest {
            number,
            address,
            length,
            enables,
        } => {
            if is_at(unit, address, length) {
                kept.request_load(number, reads_from(address, enables))?;
            }
            Ok(())
        }
        HistoryEvent::LoadResponse { number, bytes } => {
            answer_load(alloc, unit, kept, number, bytes, limit)
        }
        HistoryEvent::StoreRequest {
            number,
            address,
            bytes,
            enables,
        } => {
            let stored = stored_word(unit, address, bytes, enables);
            if has_byte(stored) {
                kept.request_store(number, stored)?;
            }
            Ok(())
        }
        HistoryEvent::StoreResponse { number } => answer_store(alloc, kept, number, limit),
    }
}

// Whether an answer needs too many words, of the unit or of a copy without unused ones. A forgotten
// unit needs none.
fn has_too_many_words(kept: &KeptUnit, copy: &KeptUnit, event: HistoryEvent) -> bool
    requires { shown_unit copy.now ≡ shown_unit kept.now }
    ensures many { result ≡ true → (limit : ℕ) (unit : UnitPlace)
        → is_too_wide limit unit (words_in kept.now.stretches.items) (shown_unit kept.now) event.entry
        ≡ true }
    ensures few { result ≡ false → IsFewFor (shown_unit kept.now) event.entry }
{
    match event {
        HistoryEvent::LoadResponse {
            number: _,
            bytes: _,
        } => have_too_many_words(kept, copy),
        HistoryEvent::StoreResponse { number: _ } => have_too_many_words(kept, copy),
        _ => false,
    }
}

#[tactic(auto, using(crate::proofs::Few::few_words, crate::proofs::Few::few_ways, crate::proofs::Few::few_copy, crate::proofs::Few::few_copied))]
fn have_too_many_words(kept: &KeptUnit, copy: &KeptUnit) -> bool
    requires { shown_unit copy.now ≡ shown_unit kept.now }
    ensures many { result ≡ true → has_many_words (words_in kept.now.stretches.items) (shown_unit kept.now) ≡ true }
    ensures few { result ≡ false → KeepsFew (shown_unit kept.now) }
{
    if copy.stretches.len() <= MOST_WORDS {
        return false;
    }
    if kept.pairs.is_empty() {
        return false;
    }
    if words_in(kept.stretches.as_slice()) <= MOST_WORDS {
        return false;
    }
    words_in(copy.stretches.as_slice()) > MOST_WORDS
}

// A unit's ways after an event: none if it isn't of the law.
pub(crate) fn ways_after(
    alloc: Global,
    unit: UnitPlace,
    kept: &KeptUnit,
    event: HistoryEvent,
    limit: usize,
) -> Result<KeptUnit, Stop>
    ensures after { IfOk result (λ after. shown_unit after ≡ ways_after unit (shown_unit kept.now) event.entry) }
    ensures few { OnOk result (needs_too_many limit unit (shown_unit kept.now) event.entry ≡ false) }
    ensures words { OnOk result (IsFewFor (shown_unit kept.now) event.entry) }
    ensures stop { IfErr result (StopIs (is_too_wide limit unit (words_in kept.now.stretches.items) (shown_unit kept.now) event.entry)) }
{
    let mut after = kept.copied(alloc)?;
    if has_too_many_words(kept, &after, event) {
        return Err(Stop::TooManyWays);
    }
    follow(alloc, unit, &mut after, event, limit)?;
    after.renew_room();
    Ok(after)
}
