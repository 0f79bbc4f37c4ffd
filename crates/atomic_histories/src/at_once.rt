//! Events that a unit takes with no search.

ghost use Rattle.std.specs.Prelude.{◌≡◌, ◌≢◌, ◌<◌, ◌∷◌, [], true, false, length, slice_index_or, None, Some, IfOk};
ghost use Rattle.std.specs.Prelude.{IfSome, OnErr, nat_eq, ℕ};
ghost use Rattle.std.specs.HashMap.{get};
ghost use Rattle.std.specs.List.{find};
ghost use Rattle.atomic_histories.specs.declared.unit.OpenStore.{OpenStore};
ghost use Rattle.atomic_histories.specs.declared.pairs.FollowedPair.{FollowedPair};
ghost use Rattle.atomic_histories.specs.AtOnce.{IsUnitTaken};
ghost use Rattle.atomic_histories.specs.Pasts.{begins, cut_for, got, missed, oldest, overwritten};
ghost use Rattle.atomic_histories.specs.Law.{done_store, may_answer_store};
ghost use Rattle.atomic_histories.specs.Followed.{Ways, is_answer, is_under, loads_without, moment_with, answered_load, answered_store};
ghost use Rattle.atomic_histories.specs.Followed.{load_needs_more, needs_more, needs_too_many, effect_aim};
ghost use Rattle.atomic_histories.specs.Followed.{ways_without_load, ways_without_store};
ghost use Rattle.atomic_histories.specs.Few.{KeepsFew, IsFewFor};
ghost use Rattle.atomic_histories.specs.Judge.{kept_or, words_of};
ghost use Rattle.atomic_histories.specs.Shown.{past_at, pasts, shown, shown_unit};
ghost use Rattle.atomic_histories.specs.Taken.{IsUnitKept, IsTakenTo, IsNextWord};

use crate::kept::KeptUnit;
use crate::loads::{end_load, find_load, oldest_without};
use crate::pairs::FollowedPair;
use crate::search::MOST_WORDS;
use crate::splits::is_answer;
use crate::stretches::{Before, Stretch, overwrite, past_on};
use crate::unit::{LoadAddress, OpenStore, UnitPlace, WatchedLoad, Word};
use crate::words::{has_byte, is_at, is_word_of, reads_from, stored_word, write};
use memory_histories::HistoryEvent;
use std::alloc::{AllocError, Global};
use std::collections::HashMap;

// Whether the ways have come to one pair, and there is room for the word that it may overwrite.
// Otherwise the search may have to tell of too many words.
#[tactic(auto, using(crate::proofs::Few::few_stretches))]
fn is_ready(unit: &KeptUnit, limit: usize) -> bool
    ensures one { result ≡ true → length unit.now.pairs.items ≡ 1 }
    ensures some { result ≡ true → 0 < limit }
    ensures words { result ≡ true → KeepsFew (shown_unit unit.now) }
{
    let kept = unit.stretches.len();
    limit != 0 && unit.pairs.len() == 1 && kept < unit.room && kept <= MOST_WORDS
}

// Whether a load may have its answer from an earlier word, on a past of one word after another.
// Then it has so on all its ways. None overwritten before the load's request is looked for.
fn has_stood(
    place: UnitPlace,
    load: &WatchedLoad,
    bytes: &[u8],
    stretches: &[Stretch],
    past: Before,
) -> bool
    ensures got { result ≡ true
        → got (is_answer place load.now.address load.now.since bytes.now)
        (past_at (pasts stretches.now) past)
        ≡ Some (past_at (pasts stretches.now) past) }
    ensures missed { result ≡ true
        → missed (is_answer place load.now.address load.now.since bytes.now)
        (past_at (pasts stretches.now) past)
        ≡ None }
{
    let mut before = past;
    let mut end = stretches.len();
    while let Before::Behind(i) = before {
        if i >= end {
            return false;
        }
        match stretches[i] {
            Stretch::Overwritten {
                word,
                moment,
                before: earlier,
            } => {
                if is_answer(place, load, bytes, &word, moment) {
                    return true;
                }
                if moment < load.since {
                    return false;
                }
                before = earlier;
                end = i;
            }
            Stretch::Either { one: _, other: _ } => return false,
        }
    }
    false
}

// Whether a load may have its answer from the word of now or an earlier one, on each way.
fn has_answer(
    place: UnitPlace,
    load: &WatchedLoad,
    bytes: &[u8],
    stretches: &[Stretch],
    pair: &FollowedPair,
) -> bool
    ensures found { result ≡ true → (u : Ways) → u.pairs ≡ shown stretches.now pair.now ∷ []
        → answered_load place bytes.now (Some load.now) u ≡ u.pairs }
    ensures few { result ≡ true → (limit : ℕ) (u : Ways) → u.pairs ≡ shown stretches.now pair.now ∷ []
        → load_needs_more limit place bytes.now (Some load.now) u ≡ false }
{
    is_word_of(place.first, &pair.word, load.address, bytes)
        || has_stood(place, load, bytes, stretches, pair.past)
}

// The past once the word of now is overwritten behind an answer, if nothing stood there before:
// only a load that is left may ask for the word. `None` never comes.
fn past_behind(
    stretches: &mut Vec<Stretch>,
    loads: &[WatchedLoad],
    number: u64,
    moment: u64,
    word: Word,
) -> Result<Option<Before>, AllocError>
    ensures some { IfOk result
        (λ past. IfSome past
        (λ b. past_at (pasts stretches.new.items) b
        ≡ overwritten (loads_without number loads.now) moment word begins)) }
    ensures cut { IfOk result
        (λ past. IfSome past
        (λ b. cut_for (oldest (loads_without number loads.now))
        (overwritten (loads_without number loads.now) moment word begins)
        ≡ overwritten (loads_without number loads.now) moment word begins)) }
    ensures none { IfOk result (λ past. past ≡ None → stretches.new.items ≡ stretches.old.items) }
    ensures err { OnErr result (stretches.new.items ≡ stretches.old.items) }
{
    match oldest_without(loads, number) {
        None => Ok(Some(Before::Nothing)),
        Some(since) => {
            if moment < since {
                return Ok(None);
            }
            let past = overwrite(stretches, word, moment, Before::Nothing)?;
            Ok(Some(past))
        }
    }
}

// The word that the one store makes, if it is the answer's and no earlier one.
fn next_word(
    place: UnitPlace,
    pair: &FollowedPair,
    address: LoadAddress,
    bytes: &[u8],
) -> Option<Word>
    ensures { IfSome result (IsNextWord place address bytes.now pair.now) }
{
    if pair.past != Before::Nothing || pair.stores.len() != 1 || pair.stores[0].is_done {
        return None;
    }
    if is_word_of(place.first, &pair.word, address, bytes) {
        return None;
    }
    let mut word = pair.word;
    write(&mut word, &pair.stores[0].bytes);
    if is_word_of(place.first, &word, address, bytes) {
        Some(word)
    } else {
        None
    }
}

fn take_effect(pair: &mut FollowedPair, word: Word, past: Before)
    requires { length pair.old.stores.items ≡ 1 }
    ensures word { pair.new.word ≡ word }
    ensures past { pair.new.past ≡ past }
    ensures stores { (s : OpenStore) → pair.old.stores.items ≡ s ∷ [] → pair.new.stores.items ≡ done_store s ∷ [] }
{
    let store = pair.stores[0];
    pair.stores[0] = OpenStore {
        is_done: true,
        ..store
    };
    pair.word = word;
    pair.past = past;
}

impl KeptUnit {
    // No load is open under this number, and nothing is kept for it alone.
    fn drop_load(&mut self, number: u64)
        ensures loads { self.new.loads.items ≡ loads_without number self.old.loads.items }
        ensures moment { self.new.moment ≡ moment_with self.old.moment (loads_without number self.old.loads.items) }
        ensures pairs { self.new.pairs ≡ self.old.pairs }
        ensures stretches { self.new.stretches ≡ self.old.stretches }
    {
        end_load(&mut self.loads, number);
        if self.loads.is_empty() {
            self.moment = 0;
        }
    }

    // Answers a load with the word of now, or that of the one store.
    fn answer_load_at_once(
        &mut self,
        alloc: Global,
        place: UnitPlace,
        number: u64,
        bytes: &[u8],
    ) -> Result<bool, AllocError>
        requires { length self.old.pairs.items ≡ 1 }
        ensures ok { IfOk result
            (IsTakenTo (ways_without_load number (shown_unit self.old)
            (answered_load place bytes.now (find (is_under number) (shown_unit self.old).loads)
            (shown_unit self.old)))
            self.old self.new) }
        ensures few { (limit : ℕ) → 0 < limit → IfOk result
            (λ taken. taken ≡ true
            → load_needs_more limit place bytes.now (find (is_under number) (shown_unit self.old).loads)
            (shown_unit self.old)
            ≡ false) }
        ensures err { OnErr result (IsUnitKept self.old self.new) }
    {
        match find_load(self.loads.as_slice(), number) {
            None => Ok(false),
            Some(load) => {
                let stretches = self.stretches.as_slice();
                if has_answer(place, &load, bytes, stretches, &self.pairs[0]) {
                    self.close_load(alloc, number)?;
                    return Ok(true);
                }
                self.answer_later_load(place, number, load, bytes)
            }
        }
    }

    // Answers a load that can only have the word of the one store.
    fn answer_later_load(
        &mut self,
        place: UnitPlace,
        number: u64,
        load: WatchedLoad,
        bytes: &[u8],
    ) -> Result<bool, AllocError>
        requires one { length self.old.pairs.items ≡ 1 }
        requires load { find (is_under number) self.old.loads.items ≡ Some load }
        ensures ok { IfOk result
            (IsTakenTo (ways_without_load number (shown_unit self.old)
            (answered_load place bytes.now (Some load) (shown_unit self.old)))
            self.old self.new) }
        ensures few { (limit : ℕ) → 0 < limit → IfOk result
            (λ taken. taken ≡ true
            → load_needs_more limit place bytes.now (Some load) (shown_unit self.old) ≡ false) }
        ensures err { OnErr result (IsUnitKept self.old self.new) }
    {
        let word = match next_word(place, &self.pairs[0], load.address, bytes) {
            None => return Ok(false),
            Some(word) => word,
        };
        let now = self.pairs[0].word;
        let loads = self.loads.as_slice();
        let past = match past_behind(&mut self.stretches, loads, number, self.moment, now)? {
            None => return Ok(false),
            Some(past) => past,
        };
        take_effect(&mut self.pairs[0], word, past);
        self.drop_load(number);
        Ok(true)
    }

    // Answers a store in effect, or one that takes effect now while no other is open.
    fn answer_store_at_once(&mut self, number: u64) -> Result<bool, AllocError>
        requires { length self.old.pairs.items ≡ 1 }
        ensures ok { IfOk result
            (IsTakenTo
            (ways_without_store number (shown_unit self.old) (answered_store number (shown_unit self.old)))
            self.old self.new) }
        ensures few { (limit : ℕ) → 0 < limit → IfOk result
            (λ taken. taken ≡ true
            → needs_more limit (shown_unit self.old).loads (shown_unit self.old).moment (effect_aim number) []
            (shown_unit self.old).pairs
            ≡ false) }
        ensures err { OnErr result (IsUnitKept self.old self.new) }
    {
        if self.pairs[0].has_effect(number) {
            self.close_store(number);
            return Ok(true);
        }
        if self.pairs[0].stores.len() != 1 {
            return Ok(false);
        }
        self.answer_last_store(number)
    }

    // The one store is answered, which takes effect.
    fn answer_last_store(&mut self, number: u64) -> Result<bool, AllocError>
        requires one { length self.old.pairs.items ≡ 1 }
        requires last { (d : FollowedPair) → length (slice_index_or self.old.pairs.items 0 d).stores.items ≡ 1 }
        requires waits { (d : FollowedPair) → may_answer_store number (slice_index_or self.old.pairs.items 0 d).stores.items ≡ false }
        ensures ok { IfOk result
            (IsTakenTo
            (ways_without_store number (shown_unit self.old) (answered_store number (shown_unit self.old)))
            self.old self.new) }
        ensures few { (limit : ℕ) → 0 < limit
            → needs_more limit (shown_unit self.old).loads (shown_unit self.old).moment (effect_aim number) []
            (shown_unit self.old).pairs
            ≡ false }
        ensures err { OnErr result (IsUnitKept self.old self.new) }
    {
        let now = self.pairs[0].word;
        let past = self.pairs[0].past;
        let loads = self.loads.as_slice();
        let past = past_on(&mut self.stretches, loads, self.moment, now, past)?;
        let pair = &mut self.pairs[0];
        let store = pair.stores[0];
        write(&mut pair.word, &store.bytes);
        pair.stores.clear();
        pair.past = past;
        Ok(true)
    }
}

// Takes an event that needs no search. None is stopped there, since one pair is followed at a time.
pub(crate) fn take_at_once(
    alloc: Global,
    place: UnitPlace,
    unit: &mut KeptUnit,
    event: HistoryEvent,
    limit: usize,
) -> Result<bool, AllocError>
    ensures ok { IfOk result (λ taken. IsUnitTaken place event.entry (shown_unit unit.old) (shown_unit unit.new) taken) }
    ensures few { IfOk result (λ taken. taken ≡ true → needs_too_many limit place (shown_unit unit.old) event.entry ≡ false) }
    ensures words { IfOk result (λ taken. taken ≡ true → IsFewFor (shown_unit unit.old) event.entry) }
    ensures same { IfOk result (λ taken. taken ≡ false → IsUnitKept unit.old unit.new) }
    ensures err { OnErr result (IsUnitKept unit.old unit.new) }
{
    match event {
        HistoryEvent::LoadRequest {
            number,
            address,
            length,
            enables,
        } => {
            if is_at(place, address, length) {
                unit.request_load(number, reads_from(address, enables))?;
            }
            Ok(true)
        }
        HistoryEvent::LoadResponse { number, bytes } => {
            if !is_ready(unit, limit) {
                return Ok(false);
            }
            unit.answer_load_at_once(alloc, place, number, bytes)
        }
        HistoryEvent::StoreRequest {
            number,
            address,
            bytes,
            enables,
        } => {
            let stored = stored_word(place, address, bytes, enables);
            if has_byte(stored) {
                unit.request_store(number, stored)?;
            }
            Ok(true)
        }
        HistoryEvent::StoreResponse { number } => {
            if !is_ready(unit, limit) {
                return Ok(false);
            }
            unit.answer_store_at_once(number)
        }
    }
}

pub(crate) fn take_at(
    alloc: Global,
    units: &mut HashMap<u64, KeptUnit>,
    number: u64,
    place: UnitPlace,
    event: HistoryEvent,
    limit: usize,
) -> Result<bool, AllocError>
    ensures ok { IfOk result
        (λ taken. (first : Ways)
        → IsUnitTaken place event.entry (kept_or (get nat_eq units.old number) first)
        (kept_or (get nat_eq units.new number) first) taken) }
    ensures few { IfOk result
        (λ taken. taken ≡ true → (first : Ways)
        → needs_too_many limit place (kept_or (get nat_eq units.old number) first) event.entry ≡ false) }
    ensures words { IfOk result
        (λ taken. taken ≡ true → (first : Ways) → IsFewFor (kept_or (get nat_eq units.old number) first) event.entry) }
    ensures same { IfOk result (λ taken. taken ≡ false → words_of (get nat_eq units.new number) ≡ words_of (get nat_eq units.old number)) }
    ensures others { (k : ℕ) → k ≢ number → get nat_eq units.new k ≡ get nat_eq units.old k }
    ensures err { OnErr result
        ((first : Ways)
        → kept_or (get nat_eq units.new number) first ≡ kept_or (get nat_eq units.old number) first) }
    ensures err_words { OnErr result (words_of (get nat_eq units.new number) ≡ words_of (get nat_eq units.old number)) }
{
    match units.get_mut(&number) {
        Some(unit) => take_at_once(alloc, place, unit, event, limit),
        None => Ok(false),
    }
}
