//! Stretches are copied without unused ones.

ghost use Rattle.std.specs.Prelude.{◌≡◌, ◌≤◌, true, [], length, IfOk, OnOk};
ghost use Rattle.atomic_histories.specs.declared.stretches.Before.{Before};
ghost use Rattle.atomic_histories.specs.Pasts.{cut};
ghost use Rattle.atomic_histories.specs.Stands.{Each};
ghost use Rattle.atomic_histories.specs.Shown.{past_at, past_of, pasts, IsIn, Grows};
ghost use Rattle.atomic_histories.specs.Shares.{moved_to, moved_stretch, cut_of, is_used, IsUsedBelow, RefersToUsed, AreClosed, StayUsed};
ghost use Rattle.atomic_histories.specs.Shares.{AreSameFrom};

use crate::pairs::FollowedPair;
use crate::stretches::{Before, Stretch, merge, overwrite, push};
use std::alloc::{AllocError, Global};

/// Copied stretches, and where each old one went.
#[derive(Drop)]
pub(crate) struct Moved {
    pub(crate) stretches: Vec<Stretch>,
    places: Vec<Before>,
}

impl Moved {
    // Room for so many stretches.
    fn with_room(alloc: Global, count: usize) -> Result<Moved, AllocError>
        ensures stretches { IfOk result (λ m. m.stretches.items ≡ []) }
        ensures places { IfOk result (λ m. m.places.items ≡ []) }
    {
        Ok(Moved {
            stretches: Vec::with_capacity(alloc, count)?,
            places: Vec::with_capacity(alloc, count)?,
        })
    }

    // Where a reference leads now, if its stretch was copied.
    pub(crate) fn place(&self, before: Before) -> Before
        ensures { result ≡ moved_to self.now before }
    {
        match before {
            Before::Nothing => Before::Nothing,
            Before::Behind(place) => match self.places.get(place) {
                Some(moved) => *moved,
                None => Before::Nothing,
            },
        }
    }

    // A stretch with its references moved.
    fn moved(&self, stretch: &Stretch) -> Stretch
        ensures { result ≡ moved_stretch self.now stretch.now }
    {
        match *stretch {
            Stretch::Overwritten {
                word,
                moment,
                before,
            } => Stretch::Overwritten {
                word,
                moment,
                before: self.place(before),
            },
            Stretch::Either { one, other } => Stretch::Either {
                one: self.place(one),
                other: self.place(other),
            },
        }
    }

    // One stretch more, if it is used.
    fn keep(&mut self, stretch: &Stretch, is_used: bool) -> Result<Before, AllocError>
        ensures past { is_used ≡ true
            → IfOk result
            (λ b. past_at (pasts self.new.stretches.items) b
            ≡ past_of (pasts self.old.stretches.items) (moved_stretch self.old stretch.now)) }
        ensures is_in { IfOk result (λ b. IsIn self.new.stretches.items b) }
        ensures grows { OnOk result (Grows self.old.stretches.items self.new.stretches.items) }
        ensures places { OnOk result (self.new.places.items ≡ self.old.places.items) }
    {
        if is_used {
            let moved = self.moved(stretch);
            push(&mut self.stretches, moved)
        } else {
            Ok(Before::Nothing)
        }
    }

    // Copies a stretch without what was overwritten before a moment.
    fn cut(&mut self, stretch: &Stretch, since: u64) -> Result<Before, AllocError>
        requires { (b : Before) → IsIn self.old.stretches.items (moved_to self.old b) }
        ensures past { IfOk result
            (λ b. past_at (pasts self.new.stretches.items) b
            ≡ cut_of since (λ old. past_at (pasts self.old.stretches.items) (moved_to self.old old))
            stretch.now) }
        ensures is_in { IfOk result (λ b. IsIn self.new.stretches.items b) }
        ensures grows { OnOk result (Grows self.old.stretches.items self.new.stretches.items) }
        ensures places { OnOk result (self.new.places.items ≡ self.old.places.items) }
    {
        match *stretch {
            Stretch::Overwritten {
                word,
                moment,
                before,
            } => {
                let before = self.place(before);
                if moment < since {
                    Ok(before)
                } else {
                    overwrite(&mut self.stretches, word, moment, before)
                }
            }
            Stretch::Either { one, other } => {
                let one = self.place(one);
                let other = self.place(other);
                merge(&mut self.stretches, one, other)
            }
        }
    }
}

pub(crate) fn cut_before(
    alloc: Global,
    stretches: &[Stretch],
    since: u64,
) -> Result<Moved, AllocError>
    ensures same { IfOk result
        (λ m. (b : Before)
        → past_at (pasts m.stretches.items) (moved_to m b) ≡ cut since (past_at (pasts stretches.now) b)) }
    ensures is_in { IfOk result (λ m. (b : Before) → IsIn m.stretches.items (moved_to m b)) }
{
    let mut moved = Moved::with_room(alloc, stretches.len())?;
    for stretch in stretches {
        let place = moved.cut(stretch, since)?;
        moved.places.push(place)?;
    }
    Ok(moved)
}

// Marks a stretch as used, if it stands before a place.
fn mark(used: &mut [bool], end: usize, before: Before)
    requires { end ≤ length used.old }
    ensures marked { IsUsedBelow used.new end before }
    ensures stay { StayUsed used.old used.new }
    ensures same { AreSameFrom end used.old used.new }
{
    if let Before::Behind(place) = before
        && place < end
    {
        used[place] = true;
    }
}

// Marks what the stretch at a place refers to.
fn mark_of(used: &mut [bool], place: usize, stretch: &Stretch)
    requires { place ≤ length used.old }
    ensures marked { RefersToUsed used.new place stretch.now }
    ensures stay { StayUsed used.old used.new }
    ensures same { AreSameFrom place used.old used.new }
{
    match *stretch {
        Stretch::Overwritten {
            word: _,
            moment: _,
            before,
        } => mark(used, place, before),
        Stretch::Either { one, other } => {
            mark(used, place, one);
            mark(used, place, other);
        }
    }
}

// So do the pasts of pairs.
fn mark_pairs(used: &mut [bool], pairs: &[FollowedPair])
    ensures { Each (λ p. is_used used.new p.past ≡ true) pairs.now }
{
    for pair in pairs {
        mark(used, used.len(), pair.past);
    }
}

// Marks all behind used ones: what a stretch refers to stands before it.
fn mark_behind(used: &mut [bool], stretches: &[Stretch])
    requires { length used.old ≡ length stretches.now }
    ensures closed { AreClosed used.new 0 stretches.now }
    ensures stay { StayUsed used.old used.new }
{
    for place in (0..stretches.len()).rev() {
        if used[place] {
            mark_of(used, place, &stretches[place]);
        }
    }
}

// So do all that lead there.
#[tactic(auto, using(crate::proofs::Moving::pairs_stay))]
fn mark_all(used: &mut [bool], stretches: &[Stretch], pairs: &[FollowedPair])
    requires { length used.old ≡ length stretches.now }
    ensures closed { AreClosed used.new 0 stretches.now }
    ensures used { Each (λ p. is_used used.new p.past ≡ true) pairs.now }
{
    mark_pairs(used, pairs);
    mark_behind(used, stretches);
}

// Which stretches the pasts of pairs lead to.
fn used_by(
    alloc: Global,
    stretches: &[Stretch],
    pairs: &[FollowedPair],
) -> Result<Vec<bool>, AllocError>
    ensures closed { IfOk result (λ used. AreClosed used.items 0 stretches.now) }
    ensures used { IfOk result (λ used. Each (λ p. is_used used.items p.past ≡ true) pairs.now) }
    ensures count { IfOk result (λ used. length used.items ≡ length stretches.now) }
{
    let mut used = vec![in alloc; false; stretches.len()]?;
    mark_all(used.as_mut_slice(), stretches, pairs);
    Ok(used)
}

pub(crate) fn without_unused(
    alloc: Global,
    stretches: &[Stretch],
    pairs: &[FollowedPair],
) -> Result<Moved, AllocError>
    ensures same { IfOk result
        (λ m. Each
        (λ p. past_at (pasts m.stretches.items) (moved_to m p.past) ≡ past_at (pasts stretches.now) p.past)
        pairs.now) }
    ensures is_in { IfOk result (λ m. (b : Before) → IsIn m.stretches.items (moved_to m b)) }
{
    let used = used_by(alloc, stretches, pairs)?;
    let mut moved = Moved::with_room(alloc, stretches.len())?;
    for (place, stretch) in stretches.iter().enumerate() {
        let moved_to = moved.keep(stretch, used[place])?;
        moved.places.push(moved_to)?;
    }
    Ok(moved)
}
