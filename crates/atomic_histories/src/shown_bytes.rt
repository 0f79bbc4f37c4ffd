//! What stood in a lane, as sets of bytes.

ghost use Rattle.std.specs.Prelude.{◌≡◌, ◌<◌, ◌++◌, ◌∷◌, [], IfOk, OnOk};
ghost use Rattle.atomic_histories.specs.MaySets.{with_lane, set_of, stretch_set, stretch_sets};

use crate::stretches::{Before, Stretch};
use memory_histories::ByteSet;
use std::alloc::{AllocError, Global};

// Adds this byte, or all if it is unknown.
pub(crate) fn with_lane(set: ByteSet, byte: Option<u8>) -> ByteSet
    ensures { result ≡ with_lane set byte }
{
    match byte {
        Some(byte) => set.with(byte),
        None => ByteSet::all(),
    }
}

pub(crate) fn set_of(sets: &[ByteSet], before: Before) -> ByteSet
    ensures { result ≡ set_of sets.now before }
{
    match before {
        Before::Nothing => ByteSet::none(),
        Before::Behind(place) => {
            if place < sets.len() {
                sets[place]
            } else {
                ByteSet::none()
            }
        }
    }
}

// A word's bytes, if a load may have got it since a moment, and those before.
fn stretch_set(sets: &[ByteSet], stretch: &Stretch, since: u64, lane: usize) -> ByteSet
    requires { lane < 8 }
    ensures { result ≡ stretch_set since lane sets.now stretch.now }
{
    match stretch {
        Stretch::Overwritten {
            word,
            moment,
            before,
        } => {
            let set = set_of(sets, *before);
            if since <= *moment {
                with_lane(set, word[lane])
            } else {
                set
            }
        }
        Stretch::Either { one, other } => set_of(sets, *one).union(set_of(sets, *other)),
    }
}

// One set more.
pub(crate) fn push_set(sets: &mut Vec<ByteSet>, set: ByteSet) -> Result<(), AllocError>
    ensures { OnOk result (sets.new.items ≡ sets.old.items ++ set ∷ []) }
{
    sets.push(set)?;
    Ok(())
}

// The set of each stretch.
#[tactic(auto)]
pub(crate) fn stretch_sets(
    alloc: Global,
    stretches: &[Stretch],
    since: u64,
    lane: usize,
) -> Result<Vec<ByteSet>, AllocError>
    requires { lane < 8 }
    ensures { IfOk result (λ sets. sets.items ≡ stretch_sets since lane stretches.now) }
{
    let mut sets = Vec::with_capacity(alloc, stretches.len())?;
    for stretch in stretches {
        let set = stretch_set(sets.as_slice(), stretch, since, lane);
        push_set(&mut sets, set)?;
    }
    Ok(sets)
}
