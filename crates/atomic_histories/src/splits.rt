//! What is left of each stretch for a load's answer, and without it.

ghost use Rattle.std.specs.Prelude.{◌≡◌, ◌<◌, ◌+◌, ◌++◌, [], ◌∷◌, length, Some, IfOk, OnOk};
ghost use Rattle.atomic_histories.specs.declared.stretches.Before.{Before};
ghost use Rattle.atomic_histories.specs.declared.stretches.Before.TheVariants.{Behind};
ghost use Rattle.atomic_histories.specs.Pasts.{after, either, stood, got, missed, merged, merged_any, after_any};
ghost use Rattle.atomic_histories.specs.Followed.{is_answer};
ghost use Rattle.atomic_histories.specs.Shown.{past_at, pasts, IsIn, Grows};
ghost use Rattle.atomic_histories.specs.Shares.{got_of, missed_of, past_any, IsInAny, IsShare, IsSplit};

use crate::stretches::{Before, Stretch, merge, overwrite};
use crate::unit::{UnitPlace, WatchedLoad, Word};
use crate::words::is_word_of;
use std::alloc::{AllocError, Global};

// What is left of a stretch on ways with the answer, and on the others.
#[derive(Drop)]
pub(crate) struct Split {
    got: Vec<Option<Before>>,
    missed: Vec<Option<Before>>,
}

/// Whether a load may have its answer from a word overwritten at a moment.
pub(crate) fn is_answer(
    unit: UnitPlace,
    load: &WatchedLoad,
    bytes: &[u8],
    word: &Word,
    moment: u64,
) -> bool
    ensures { result ≡ is_answer unit load.now.address load.now.since bytes.now (stood word.now moment) }
{
    load.since <= moment && is_word_of(unit.first, word, load.address, bytes)
}

// What is left of a word's stretch, if this is left before it: the stretch itself if all is, so
// that nothing is copied in vain.
fn left_of_word(
    stretches: &mut Vec<Stretch>,
    place: usize,
    word: Word,
    moment: u64,
    before: Before,
    left: Option<Before>,
) -> Result<Option<Before>, AllocError>
    requires place { place < length stretches.old.items }
    requires left { IsInAny stretches.old.items left }
    requires same { left ≡ Some before
        → past_at (pasts stretches.old.items) (Behind place)
        ≡ after word moment (past_at (pasts stretches.old.items) before) }
    ensures share { IfOk result
        (λ share. IsShare stretches.new.items share
        (after_any word moment (past_any (pasts stretches.old.items) left))) }
    ensures grows { OnOk result (Grows stretches.old.items stretches.new.items) }
{
    match left {
        None => Ok(None),
        Some(left) if left == before => Ok(Some(Before::Behind(place))),
        Some(left) => Ok(Some(overwrite(stretches, word, moment, left)?)),
    }
}

// The same of the stretch of two pasts.
fn merge_left(
    stretches: &mut Vec<Stretch>,
    place: usize,
    one: Before,
    other: Before,
    one_left: Before,
    other_left: Before,
) -> Result<Before, AllocError>
    requires place { place < length stretches.old.items }
    requires one { IsIn stretches.old.items one_left }
    requires other { IsIn stretches.old.items other_left }
    requires same { one_left ≡ one → other_left ≡ other
        → past_at (pasts stretches.old.items) (Behind place)
        ≡ either (past_at (pasts stretches.old.items) one) (past_at (pasts stretches.old.items) other) }
    ensures past { IfOk result
        (λ b. past_at (pasts stretches.new.items) b
        ≡ merged (past_at (pasts stretches.old.items) one_left)
        (past_at (pasts stretches.old.items) other_left)) }
    ensures is_in { IfOk result (λ b. IsIn stretches.new.items b) }
    ensures grows { OnOk result (Grows stretches.old.items stretches.new.items) }
{
    match (one_left, other_left) {
        (Before::Nothing, Before::Nothing) => Ok(Before::Nothing),
        _ if one_left == one && other_left == other => Ok(Before::Behind(place)),
        _ => merge(stretches, one_left, other_left),
    }
}

// The same where one or both may be gone.
fn left_of_two(
    stretches: &mut Vec<Stretch>,
    place: usize,
    one: Before,
    other: Before,
    one_left: Option<Before>,
    other_left: Option<Before>,
) -> Result<Option<Before>, AllocError>
    requires place { place < length stretches.old.items }
    requires one { IsInAny stretches.old.items one_left }
    requires other { IsInAny stretches.old.items other_left }
    requires same { one_left ≡ Some one → other_left ≡ Some other
        → past_at (pasts stretches.old.items) (Behind place)
        ≡ either (past_at (pasts stretches.old.items) one) (past_at (pasts stretches.old.items) other) }
    ensures share { IfOk result
        (λ share. IsShare stretches.new.items share
        (merged_any (past_any (pasts stretches.old.items) one_left)
        (past_any (pasts stretches.old.items) other_left))) }
    ensures grows { OnOk result (Grows stretches.old.items stretches.new.items) }
{
    match (one_left, other_left) {
        (None, left) | (left, None) => Ok(left),
        (Some(one_left), Some(other_left)) => Ok(Some(merge_left(
            stretches, place, one, other, one_left, other_left,
        )?)),
    }
}

impl Split {
    // What is left of a past on ways with the answer.
    pub(crate) fn got(&self, before: Before) -> Option<Before>
        ensures { result ≡ got_of self.now before }
    {
        match before {
            Before::Nothing => None,
            Before::Behind(place) => self.got.get(place).copied().flatten(),
        }
    }

    // What is left of it on the others.
    pub(crate) fn missed(&self, before: Before) -> Option<Before>
        ensures { result ≡ missed_of self.now before }
    {
        match before {
            Before::Nothing => Some(Before::Nothing),
            Before::Behind(place) => match self.missed.get(place) {
                Some(left) => *left,
                None => Some(Before::Nothing),
            },
        }
    }

    // The shares of one stretch more.
    fn push(&mut self, got: Option<Before>, missed: Option<Before>) -> Result<(), AllocError>
        ensures got { OnOk result (self.new.got.items ≡ self.old.got.items ++ got ∷ []) }
        ensures missed { OnOk result (self.new.missed.items ≡ self.old.missed.items ++ missed ∷ []) }
    {
        self.got.push(got)?;
        self.missed.push(missed)?;
        Ok(())
    }

    // A stretch's shares, once those before it are known.
    fn add(
        &mut self,
        stretches: &mut Vec<Stretch>,
        place: usize,
        unit: UnitPlace,
        load: &WatchedLoad,
        bytes: &[u8],
    ) -> Result<(), AllocError>
        requires place { place < length stretches.old.items }
        requires split { IsSplit (is_answer unit load.now.address load.now.since bytes.now) place stretches.old.items self.old }
        ensures split { OnOk result
            (IsSplit (is_answer unit load.now.address load.now.since bytes.now) (place + 1)
            stretches.new.items self.new) }
        ensures grows { OnOk result (Grows stretches.old.items stretches.new.items) }
    {
        match stretches[place] {
            Stretch::Overwritten {
                word,
                moment,
                before,
            } => {
                if is_answer(unit, load, bytes, &word, moment) {
                    return self.push(Some(Before::Behind(place)), None);
                }
                let got = self.got(before);
                let missed = self.missed(before);
                let got = left_of_word(stretches, place, word, moment, before, got)?;
                let missed = left_of_word(stretches, place, word, moment, before, missed)?;
                self.push(got, missed)
            }
            Stretch::Either { one, other } => {
                let got = (self.got(one), self.got(other));
                let missed = (self.missed(one), self.missed(other));
                let got = left_of_two(stretches, place, one, other, got.0, got.1)?;
                let missed = left_of_two(stretches, place, one, other, missed.0, missed.1)?;
                self.push(got, missed)
            }
        }
    }
}

// The shares of each stretch. New stretches follow the others.
pub(crate) fn split_stretches(
    alloc: Global,
    stretches: &mut Vec<Stretch>,
    unit: UnitPlace,
    load: &WatchedLoad,
    bytes: &[u8],
) -> Result<Split, AllocError>
    ensures got { IfOk result
        (λ s. (b : Before) → IsIn stretches.old.items b
        → IsShare stretches.new.items (got_of s b)
        (got (is_answer unit load.now.address load.now.since bytes.now)
        (past_at (pasts stretches.old.items) b))) }
    ensures missed { IfOk result
        (λ s. (b : Before) → IsIn stretches.old.items b
        → IsShare stretches.new.items (missed_of s b)
        (missed (is_answer unit load.now.address load.now.since bytes.now)
        (past_at (pasts stretches.old.items) b))) }
    ensures grows { OnOk result (Grows stretches.old.items stretches.new.items) }
{
    let count = stretches.len();
    let mut split = Split {
        got: Vec::with_capacity(alloc, count)?,
        missed: Vec::with_capacity(alloc, count)?,
    };
    for place in 0..count {
        split.add(stretches, place, unit, load, bytes)?;
    }
    Ok(split)
}
