//! The search for pairs that meet an answer's goal.

ghost use Rattle.std.specs.Prelude.{◌≡◌, ◌+◌, ◌<◌, ◌++◌, ◌||◌, [], false, List, length, take, drop, slice_index_or, IfOk, IfErr, OnOk};
ghost use Rattle.std.specs.List.{filter};
ghost use Rattle.atomic_histories.specs.declared.unit.OpenStore.{OpenStore};
ghost use Rattle.atomic_histories.specs.declared.stretches.Stretch.{Stretch};
ghost use Rattle.atomic_histories.specs.Followed.{pair_after, cons_effect, effects, effects_from, with_pairs, out_of, next_of, out_after};
ghost use Rattle.atomic_histories.specs.Followed.{next_after, rounds, found as found_pairs, are_too_many, needs_more, never};
ghost use Rattle.atomic_histories.specs.May.{reached_in, is_reach_over};
ghost use Rattle.atomic_histories.specs.Marks.{IsFollowed};
ghost use Rattle.atomic_histories.specs.Shown.{past_at, pasts, shown, shown_all, IsIn, AreIn, Grows, aim_of, StopIs};

use crate::followed::Followed;
use crate::pairs::{FollowedPair, Wanted};
use crate::stretches::{Before, Stretch, past_on};
use crate::unit::WatchedLoad;
use std::alloc::{AllocError, Global};

/// The most words that a unit keeps, since the oldest open load's request, for a verdict on an
/// answer.
pub const MOST_WORDS: usize = 65_536;

/// Why there is no verdict.
#[derive(Clone, Copy, PartialEq, Eq, Debug)]
pub enum Stop {
    /// More pairs than the limit, or more words than [`MOST_WORDS`].
    TooManyWays,
    /// There was too little memory.
    NoMemory,
}

impl From<AllocError> for Stop {
    ghost use Rattle.std.specs.Prelude.{◌≡◌};
    ghost use Rattle.atomic_histories.specs.declared.search.Stop.TheVariants.{NoMemory};

    ghost from_gives = { λ e f. f ≡ NoMemory };

    fn from(_fault: AllocError) -> Stop {
        Stop::NoMemory
    }
}

// Open loads while stores take effect, and the moment.
#[derive(Clone, Copy)]
pub(crate) struct Asked<'a> {
    pub(crate) loads: &'a [WatchedLoad],
    pub(crate) moment: u64,
}

// Follows the pair once store `i` takes effect, unless it has, or no stores can lead from there to
// what is wanted.
fn add_effect(
    alloc: Global,
    stretches: &mut Vec<Stretch>,
    next: &mut Followed,
    pair: &FollowedPair,
    past: Before,
    i: usize,
    wanted: Wanted,
) -> Result<(), AllocError>
    requires place { i < length pair.now.stores.items }
    requires followed { IsFollowed next.old }
    requires pairs { AreIn stretches.old.items next.old.pairs.items }
    requires past { IsIn stretches.old.items past }
    ensures pairs { OnOk result
        ((d : OpenStore)
        → shown_all stretches.new.items next.new.pairs.items
        ≡ with_pairs (shown_all stretches.old.items next.old.pairs.items)
        (filter (aim_of wanted.entry).hope
        (cons_effect (slice_index_or pair.now.stores.items i d).is_done
        (pair_after (past_at (pasts stretches.old.items) past) (shown stretches.old.items pair.now)
        (take i pair.now.stores.items) (slice_index_or pair.now.stores.items i d)
        (drop (i + 1) pair.now.stores.items))
        []))) }
    ensures are_in { OnOk result (AreIn stretches.new.items next.new.pairs.items) }
    ensures grows { OnOk result (Grows stretches.old.items stretches.new.items) }
    ensures followed { OnOk result (IsFollowed next.new) }
{
    let store = pair.stores[i];
    if store.is_done {
        return Ok(());
    }
    let on = pair.after(alloc, i, past)?;
    if on.hopes(wanted) {
        next.add(stretches, on)?;
    }
    Ok(())
}

// The same for each of its stores.
fn add_effects_after(
    alloc: Global,
    stretches: &mut Vec<Stretch>,
    next: &mut Followed,
    pair: &FollowedPair,
    past: Before,
    wanted: Wanted,
) -> Result<(), AllocError>
    requires followed { IsFollowed next.old }
    requires pairs { AreIn stretches.old.items next.old.pairs.items }
    requires past { IsIn stretches.old.items past }
    ensures pairs { OnOk result
        (shown_all stretches.new.items next.new.pairs.items
        ≡ with_pairs (shown_all stretches.old.items next.old.pairs.items)
        (filter (aim_of wanted.entry).hope
        (effects_from (past_at (pasts stretches.old.items) past) (shown stretches.old.items pair.now) []
        pair.now.stores.items))) }
    ensures are_in { OnOk result (AreIn stretches.new.items next.new.pairs.items) }
    ensures grows { OnOk result (Grows stretches.old.items stretches.new.items) }
    ensures followed { OnOk result (IsFollowed next.new) }
{
    for i in 0..pair.stores.len() {
        add_effect(alloc, stretches, next, pair, past, i, wanted)?;
    }
    Ok(())
}

// Follows each pair with one more store in effect. The word is overwritten once for all.
fn add_effects(
    alloc: Global,
    stretches: &mut Vec<Stretch>,
    asked: Asked,
    next: &mut Followed,
    pair: &FollowedPair,
    wanted: Wanted,
) -> Result<(), AllocError>
    requires pair { IsIn stretches.old.items pair.now.past }
    requires followed { IsFollowed next.old }
    requires pairs { AreIn stretches.old.items next.old.pairs.items }
    ensures pairs { OnOk result
        (shown_all stretches.new.items next.new.pairs.items
        ≡ with_pairs (shown_all stretches.old.items next.old.pairs.items)
        (filter (aim_of wanted.entry).hope
        (effects asked.entry.loads.now asked.entry.moment (shown stretches.old.items pair.now)))) }
    ensures are_in { OnOk result (AreIn stretches.new.items next.new.pairs.items) }
    ensures grows { OnOk result (Grows stretches.old.items stretches.new.items) }
    ensures followed { OnOk result (IsFollowed next.new) }
{
    if pair.is_done() {
        return Ok(());
    }
    let past = past_on(stretches, asked.loads, asked.moment, pair.word, pair.past)?;
    add_effects_after(alloc, stretches, next, pair, past, wanted)
}

// Puts out a wanted pair; from another stores take effect.
fn follow(
    alloc: Global,
    stretches: &mut Vec<Stretch>,
    asked: Asked,
    pair: FollowedPair,
    wanted: Wanted,
    out: &mut Followed,
    next: &mut Followed,
) -> Result<(), AllocError>
    requires pair { IsIn stretches.old.items pair.past }
    requires out_followed { IsFollowed out.old }
    requires next_followed { IsFollowed next.old }
    requires out_in { AreIn stretches.old.items out.old.pairs.items }
    requires next_in { AreIn stretches.old.items next.old.pairs.items }
    ensures out { OnOk result
        (shown_all stretches.new.items out.new.pairs.items
        ≡ out_of (aim_of wanted.entry).goal (shown_all stretches.old.items out.old.pairs.items)
        (shown stretches.old.items pair)) }
    ensures next { OnOk result
        (shown_all stretches.new.items next.new.pairs.items
        ≡ next_of asked.entry.loads.now asked.entry.moment (aim_of wanted.entry)
        (shown_all stretches.old.items next.old.pairs.items) (shown stretches.old.items pair)) }
    ensures out_in { OnOk result (AreIn stretches.new.items out.new.pairs.items) }
    ensures next_in { OnOk result (AreIn stretches.new.items next.new.pairs.items) }
    ensures grows { OnOk result (Grows stretches.old.items stretches.new.items) }
    ensures out_followed { OnOk result (IsFollowed out.new) }
    ensures next_followed { OnOk result (IsFollowed next.new) }
{
    if pair.meets(wanted) {
        out.add(stretches, pair)?;
        return Ok(());
    }
    add_effects(alloc, stretches, asked, next, &pair, wanted)?;
    Ok(())
}

// One round of the search.
fn round(
    alloc: Global,
    stretches: &mut Vec<Stretch>,
    asked: Asked,
    pairs: Vec<FollowedPair>,
    wanted: Wanted,
    out: &mut Followed,
) -> Result<Vec<FollowedPair>, AllocError>
    requires pairs { AreIn stretches.old.items pairs.items }
    requires followed { IsFollowed out.old }
    requires out_in { AreIn stretches.old.items out.old.pairs.items }
    ensures out { OnOk result
        (shown_all stretches.new.items out.new.pairs.items
        ≡ out_after (aim_of wanted.entry).goal (shown_all stretches.old.items out.old.pairs.items)
        (shown_all stretches.old.items pairs.items)) }
    ensures next { IfOk result
        (λ next. shown_all stretches.new.items next.items
        ≡ next_after asked.entry.loads.now asked.entry.moment (aim_of wanted.entry)
        (shown_all stretches.old.items pairs.items)) }
    ensures out_in { OnOk result (AreIn stretches.new.items out.new.pairs.items) }
    ensures next_in { IfOk result (λ next. AreIn stretches.new.items next.items) }
    ensures grows { OnOk result (Grows stretches.old.items stretches.new.items) }
    ensures followed { OnOk result (IsFollowed out.new) }
{
    let mut next = Followed::of(alloc, Vec::new(alloc))?;
    for pair in pairs {
        follow(alloc, stretches, asked, pair, wanted, out, &mut next)?;
    }
    Ok(next.pairs)
}

// The most rounds, but for the first.
fn rounds(pairs: &[FollowedPair]) -> usize
    ensures { (ss : List Stretch) → result ≡ rounds (shown_all ss pairs.now) }
{
    pairs
        .iter()
        .fold(0, |most, pair| most.max(pair.stores.len()))
}

#[tactic(auto, using(crate::proofs::Loops::length_shown))]
fn are_too_many(limit: usize, pairs: &[FollowedPair], found: &[FollowedPair]) -> bool
    ensures { (ss : List Stretch) → result ≡ (are_too_many limit (shown_all ss pairs.now) || are_too_many limit (shown_all ss found.now)) }
{
    limit < pairs.len() || limit < found.len()
}

// From these pairs stores take effect until what is wanted is met.
pub(crate) fn search(
    alloc: Global,
    stretches: &mut Vec<Stretch>,
    asked: Asked,
    found: Vec<FollowedPair>,
    pairs: Vec<FollowedPair>,
    wanted: Wanted,
    limit: usize,
) -> Result<Vec<FollowedPair>, Stop>
    requires found { AreIn stretches.old.items found.items }
    requires pairs { AreIn stretches.old.items pairs.items }
    ensures found { IfOk result
        (λ f. shown_all stretches.new.items f.items
        ≡ found_pairs asked.entry.loads.now asked.entry.moment (aim_of wanted.entry)
        (shown_all stretches.old.items found.items) (shown_all stretches.old.items pairs.items)) }
    ensures are_in { IfOk result (λ f. AreIn stretches.new.items f.items) }
    ensures grows { OnOk result (Grows stretches.old.items stretches.new.items) }
    ensures few { OnOk result
        (needs_more limit asked.entry.loads.now asked.entry.moment (aim_of wanted.entry)
        (shown_all stretches.old.items found.items) (shown_all stretches.old.items pairs.items)
        ≡ false) }
    ensures stop { IfErr result
        (StopIs (needs_more limit asked.entry.loads.now asked.entry.moment (aim_of wanted.entry)
        (shown_all stretches.old.items found.items) (shown_all stretches.old.items pairs.items))) }
{
    let mut left = rounds(pairs.as_slice());
    let mut out = Followed::of(alloc, found)?;
    let mut frontier = round(alloc, stretches, asked, pairs, wanted, &mut out)?;
    while left > 0 {
        if are_too_many(limit, frontier.as_slice(), out.pairs.as_slice()) {
            return Err(Stop::TooManyWays);
        }
        frontier = round(alloc, stretches, asked, frontier, wanted, &mut out)?;
        left -= 1;
    }
    Ok(out.pairs)
}

// The same pairs.
fn copied(alloc: Global, pairs: &[FollowedPair]) -> Result<Vec<FollowedPair>, AllocError>
    ensures shown { IfOk result (λ same. (ss : List Stretch) → shown_all ss same.items ≡ shown_all ss pairs.now) }
    ensures are_in { IfOk result (λ same. (ss : List Stretch) → AreIn ss pairs.now → AreIn ss same.items) }
{
    let mut same = Vec::new(alloc);
    for pair in pairs {
        let copy = pair.with_past(alloc, pair.past)?;
        same.push(copy)?;
    }
    Ok(same)
}

// The pairs that stores lead to in one round.
fn reach(
    alloc: Global,
    stretches: &mut Vec<Stretch>,
    asked: Asked,
    pairs: &[FollowedPair],
) -> Result<Vec<FollowedPair>, AllocError>
    requires { AreIn stretches.old.items pairs.now }
    ensures next { IfOk result
        (λ next. shown_all stretches.new.items next.items
        ≡ next_after asked.entry.loads.now asked.entry.moment never
        (shown_all stretches.old.items pairs.now)) }
    ensures are_in { IfOk result (λ next. AreIn stretches.new.items next.items) }
    ensures grows { OnOk result (Grows stretches.old.items stretches.new.items) }
{
    let mut next = Followed::of(alloc, Vec::new(alloc))?;
    for pair in pairs {
        add_effects(alloc, stretches, asked, &mut next, pair, Wanted::Never)?;
    }
    Ok(next.pairs)
}

// These pairs, and all that stores lead to.
pub(crate) fn reached(
    alloc: Global,
    stretches: &mut Vec<Stretch>,
    asked: Asked,
    pairs: &[FollowedPair],
    limit: usize,
) -> Result<Vec<FollowedPair>, Stop>
    requires { AreIn stretches.old.items pairs.now }
    ensures reached { IfOk result
        (λ r. shown_all stretches.new.items r.items
        ≡ shown_all stretches.old.items pairs.now
        ++ reached_in asked.entry.loads.now asked.entry.moment
        (rounds (shown_all stretches.old.items pairs.now)) (shown_all stretches.old.items pairs.now)) }
    ensures are_in { IfOk result (λ r. AreIn stretches.new.items r.items) }
    ensures grows { OnOk result (Grows stretches.old.items stretches.new.items) }
    ensures few { OnOk result
        (is_reach_over limit asked.entry.loads.now asked.entry.moment
        (rounds (shown_all stretches.old.items pairs.now)) (shown_all stretches.old.items pairs.now)
        ≡ false) }
    ensures stop { IfErr result
        (StopIs (is_reach_over limit asked.entry.loads.now asked.entry.moment
        (rounds (shown_all stretches.old.items pairs.now)) (shown_all stretches.old.items pairs.now))) }
{
    let mut all = copied(alloc, pairs)?;
    let mut from = 0;
    let mut left = rounds(pairs);
    while left > 0 {
        let mut next = reach(alloc, stretches, asked, &all[from..])?;
        if limit < next.len() {
            return Err(Stop::TooManyWays);
        }
        from = all.len();
        all.append(&mut next)?;
        left -= 1;
    }
    Ok(all)
}
