//! What stood in a unit on all its ways: stretches of time with one word each. A stretch stands in
//! the list behind those that it refers to.

ghost use Rattle.std.specs.Prelude.{◌≡◌, ◌<◌, ◌+◌, ◌^◌, IfOk, OnOk, OnErr};
ghost use Rattle.atomic_histories.specs.Pasts.{after, merged, overwritten};
ghost use Rattle.atomic_histories.specs.Shown.{past_at, past_of, pasts, IsIn, Grows, words_in, count_word};

use crate::unit::{WatchedLoad, Word};
use std::alloc::{AllocError, Global};

/// What stood in a unit before a word.
#[derive(Clone, Copy, PartialEq, Eq, Debug)]
pub enum Before {
    /// Nothing that an open load may have got.
    Nothing,
    /// The stretch at this place in their list.
    Behind(usize),
}

/// A stretch of the time before now.
#[derive(Clone, Copy, PartialEq, Eq, Debug)]
pub enum Stretch {
    /// A word stood there until it was overwritten.
    Overwritten {
        /// The word.
        word: Word,
        /// The moment at which it was overwritten.
        moment: u64,
        /// What stood there before it.
        before: Before,
    },
    /// It was one of two.
    Either {
        /// The one.
        one: Before,
        /// The other.
        other: Before,
    },
}

// One more stretch, and a reference to it.
#[tactic(auto, using(crate::proofs::Frames::past_pushed))]
pub(crate) fn push(stretches: &mut Vec<Stretch>, stretch: Stretch) -> Result<Before, AllocError>
    ensures past { IfOk result (λ b. past_at (pasts stretches.new.items) b ≡ past_of (pasts stretches.old.items) stretch) }
    ensures is_in { IfOk result (λ b. IsIn stretches.new.items b) }
    ensures grows { OnOk result (Grows stretches.old.items stretches.new.items) }
    ensures err { OnErr result (stretches.new.items ≡ stretches.old.items) }
{
    let place = stretches.len();
    stretches.push(stretch)?;
    Ok(Before::Behind(place))
}

/// A word is overwritten, with this past.
pub(crate) fn overwrite(
    stretches: &mut Vec<Stretch>,
    word: Word,
    moment: u64,
    before: Before,
) -> Result<Before, AllocError>
    ensures past { IfOk result
        (λ b. past_at (pasts stretches.new.items) b
        ≡ after word moment (past_at (pasts stretches.old.items) before)) }
    ensures is_in { IfOk result (λ b. IsIn stretches.new.items b) }
    ensures grows { OnOk result (Grows stretches.old.items stretches.new.items) }
    ensures err { OnErr result (stretches.new.items ≡ stretches.old.items) }
{
    push(
        stretches,
        Stretch::Overwritten {
            word,
            moment,
            before,
        },
    )
}

// The past once the word of now is overwritten: none if no load is open.
pub(crate) fn past_on(
    stretches: &mut Vec<Stretch>,
    loads: &[WatchedLoad],
    moment: u64,
    word: Word,
    past: Before,
) -> Result<Before, AllocError>
    ensures past { IfOk result
        (λ b. past_at (pasts stretches.new.items) b
        ≡ overwritten loads.now moment word (past_at (pasts stretches.old.items) past)) }
    ensures is_in { IfOk result (λ b. IsIn stretches.new.items b) }
    ensures grows { OnOk result (Grows stretches.old.items stretches.new.items) }
    ensures err { OnErr result (stretches.new.items ≡ stretches.old.items) }
{
    if loads.is_empty() {
        return Ok(Before::Nothing);
    }
    overwrite(stretches, word, moment, past)
}

// A past with the ways of two.
pub(crate) fn merge(
    stretches: &mut Vec<Stretch>,
    one: Before,
    other: Before,
) -> Result<Before, AllocError>
    requires one { IsIn stretches.old.items one }
    requires other { IsIn stretches.old.items other }
    ensures past { IfOk result
        (λ b. past_at (pasts stretches.new.items) b
        ≡ merged (past_at (pasts stretches.old.items) one) (past_at (pasts stretches.old.items) other)) }
    ensures is_in { IfOk result (λ b. IsIn stretches.new.items b) }
    ensures grows { OnOk result (Grows stretches.old.items stretches.new.items) }
    ensures err { OnErr result (stretches.new.items ≡ stretches.old.items) }
{
    match (one, other) {
        (Before::Nothing, Before::Nothing) => Ok(Before::Nothing),
        _ => push(stretches, Stretch::Either { one, other }),
    }
}

fn count_word(count: usize, stretch: &Stretch) -> usize
    requires { count + 1 < 2 ^ 64 }
    ensures { result ≡ count_word count stretch.now }
{
    match stretch {
        Stretch::Overwritten {
            word: _,
            moment: _,
            before: _,
        } => count + 1,
        Stretch::Either { one: _, other: _ } => count,
    }
}

// How many of them are words.
pub(crate) fn words_in(stretches: &[Stretch]) -> usize
    ensures { result ≡ words_in stretches.now }
{
    let mut count = 0;
    for stretch in stretches {
        count = count_word(count, stretch);
    }
    count
}
