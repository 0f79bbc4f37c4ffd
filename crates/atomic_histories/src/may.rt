//! What an open load may return.

ghost use Rattle.std.specs.Prelude.{◌≡◌, ◌<◌, false, Some, IfOk, IfErr, OnOk};
ghost use Rattle.memory_histories.specs.Sets.{no_bytes};
ghost use Rattle.atomic_histories.specs.MaySets.{with_pair_bytes, with_pairs_bytes};
ghost use Rattle.atomic_histories.specs.May.{IsSet, is_shown, may_get, reached, is_reach_wide, is_wide_for};
ghost use Rattle.atomic_histories.specs.Shown.{shown_unit, StopIs};

use crate::kept::KeptUnit;
use crate::loads::find_load;
use crate::pairs::FollowedPair;
use crate::search::{Asked, Stop, reached};
use crate::shown_bytes::{set_of, stretch_sets, with_lane};
use crate::unit::WatchedLoad;
use memory_histories::ByteSet;
use std::alloc::Global;

// Adds what a load may have got in a lane on a pair's ways.
fn with_pair(set: ByteSet, pair: &FollowedPair, sets: &[ByteSet], lane: usize) -> ByteSet
    requires { lane < 8 }
    ensures { result ≡ with_pair_bytes lane sets.now set pair.now }
{
    with_lane(set.union(set_of(sets, pair.past)), pair.word[lane])
}

// On the ways to one of these pairs.
fn with_pairs(pairs: &[FollowedPair], sets: &[ByteSet], lane: usize) -> ByteSet
    requires { lane < 8 }
    ensures { result ≡ with_pairs_bytes lane sets.now no_bytes pairs.now }
{
    pairs.iter().fold(ByteSet::none(), |set, pair| {
        with_pair(set, pair, sets, lane)
    })
}

// What an open load may get in a lane, on these ways and those that stores lead to.
#[tactic(auto, using(crate::proofs::ShownBytes::pairs_shown))]
fn load_set(
    alloc: Global,
    kept: &KeptUnit,
    load: WatchedLoad,
    lane: usize,
    limit: usize,
) -> Result<ByteSet, Stop>
    requires { lane < 8 }
    ensures set { IfOk result (IsSet (λ b. is_shown (Some load) lane b (reached (shown_unit kept.now)))) }
    ensures few { OnOk result (is_reach_wide limit (shown_unit kept.now) ≡ false) }
    ensures stop { IfErr result (StopIs (is_reach_wide limit (shown_unit kept.now))) }
{
    let mut unit = kept.copied(alloc)?;
    let asked = Asked {
        loads: unit.loads.as_slice(),
        moment: unit.moment,
    };
    let pairs = reached(
        alloc,
        &mut unit.stretches,
        asked,
        unit.pairs.as_slice(),
        limit,
    )?;
    let sets = stretch_sets(alloc, unit.stretches.as_slice(), load.since, lane)?;
    Ok(with_pairs(pairs.as_slice(), sets.as_slice(), lane))
}

// The same of the load under a number; the unit may be forgotten.
#[tactic(auto, using(crate::proofs::MaySteps::forgotten_set, crate::proofs::MaySteps::unknown_set, crate::proofs::MaySteps::known_set, crate::proofs::MaySteps::forgotten_narrow, crate::proofs::MaySteps::unknown_narrow, crate::proofs::MaySteps::known_narrow))]
pub(crate) fn unit_set(
    alloc: Global,
    kept: &KeptUnit,
    number: u64,
    lane: usize,
    limit: usize,
) -> Result<ByteSet, Stop>
    requires { lane < 8 }
    ensures set { IfOk result (IsSet (λ b. may_get number lane b (shown_unit kept.now))) }
    ensures few { OnOk result (is_wide_for limit number (shown_unit kept.now) ≡ false) }
    ensures stop { IfErr result (StopIs (is_reach_wide limit (shown_unit kept.now))) }
{
    if kept.pairs.is_empty() {
        return Ok(ByteSet::all());
    }
    match find_load(kept.loads.as_slice(), number) {
        None => Ok(ByteSet::none()),
        Some(load) => load_set(alloc, kept, load, lane, limit),
    }
}
