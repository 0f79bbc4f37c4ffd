//! Accesses, counted by what became of their words.
ghost use Rattle.std.specs.Prelude.{◌≡◌, ◌<◌, ◌≤◌, ◌+◌, ◌-◌, ◌^◌, take, drop};
ghost use Rattle.std.specs.List.{list_any};
ghost use Rattle.result_formats.specs.Accesses as specs;
ghost use Rattle.result_formats.specs.Accesses.{finds_total, counts_total};

use access_logs::{AccessGroup, AccessKind};
use round_driver::Outcome;

/// Accesses by what became of them.
#[derive(Clone, Copy, PartialEq, Eq, Debug, Default)]
pub struct AccessFinds {
    /// All of them.
    pub accesses: u64,
    /// Those whose words were all at hand.
    pub hits: u64,
    /// Those of which a word was on its way already, and none asked for its block.
    pub joins: u64,
    /// Those of which a word asked for its block, and none was refused.
    pub misses: u64,
    /// Those of which a word was refused with 1, 2 or 11.
    pub denied: u64,
}

impl AccessFinds {
    // Counts an access of which this became.
    fn count(&mut self, outcome: Outcome)
        requires { finds_total self.old < 2 ^ 64 - 2 }
        ensures value { self.new ≡ specs.with_outcome self.old outcome }
        ensures total { finds_total self.new ≤ finds_total self.old + 2 }
    {
        self.accesses += 1;
        match outcome {
            Outcome::Hit => self.hits += 1,
            Outcome::Join => self.joins += 1,
            Outcome::Miss => self.misses += 1,
            Outcome::Denied => self.denied += 1,
            Outcome::Evicted => {}
        }
    }
}

/// The accesses of a log. A modification, which reads and then writes, counts among the reads alone.
#[derive(Clone, Copy, PartialEq, Eq, Debug, Default)]
pub struct AccessCounts {
    /// Loads and modifications.
    pub reads: AccessFinds,
    /// Stores.
    pub writes: AccessFinds,
}

impl AccessCounts {
    // Counts an access that does this, of which this became.
    fn count(&mut self, kind: AccessKind, outcome: Outcome)
        requires { counts_total self.old < 2 ^ 64 - 2 }
        ensures value { self.new ≡ specs.with_access self.old kind outcome }
        ensures total { counts_total self.new ≤ counts_total self.old + 2 }
    {
        match kind {
            AccessKind::Load | AccessKind::Modify => self.reads.count(outcome),
            AccessKind::Store => self.writes.count(outcome),
        }
    }
}

fn is_denied(outcome: Outcome) -> bool
    ensures { result ≡ specs.is_denied outcome }
{
    match outcome {
        Outcome::Denied => true,
        _ => false,
    }
}

fn is_miss(outcome: Outcome) -> bool
    ensures { result ≡ specs.is_miss outcome }
{
    match outcome {
        Outcome::Miss => true,
        _ => false,
    }
}

fn is_join(outcome: Outcome) -> bool
    ensures { result ≡ specs.is_join outcome }
{
    match outcome {
        Outcome::Join => true,
        _ => false,
    }
}

fn has_denied(words: &[Outcome]) -> bool
    ensures { result ≡ list_any specs.is_denied words.now }
{
    words.iter().any(|word| is_denied(*word))
}

fn has_miss(words: &[Outcome]) -> bool
    ensures { result ≡ list_any specs.is_miss words.now }
{
    words.iter().any(|word| is_miss(*word))
}

fn has_join(words: &[Outcome]) -> bool
    ensures { result ≡ list_any specs.is_join words.now }
{
    words.iter().any(|word| is_join(*word))
}

/// What became of an access whose requests have become these: that of its worst word. It is `Denied` if
/// any is, and else a `Miss` if any is, and else a `Join` if any is, and else a `Hit`.
#[tactic(auto, unfolding(crate::specs::Accesses::access_outcome))]
pub fn access_outcome(words: &[Outcome]) -> Outcome
    ensures { result ≡ specs.access_outcome words.now }
{
    if has_denied(words) {
        Outcome::Denied
    } else if has_miss(words) {
        Outcome::Miss
    } else if has_join(words) {
        Outcome::Join
    } else {
        Outcome::Hit
    }
}

// The first outcomes, so many or all.
fn front(outcomes: &[Outcome], number: u64) -> &[Outcome]
    ensures { result.now ≡ take number outcomes.now }
{
    if number < outcomes.len() as u64 {
        &outcomes[..number as usize]
    } else {
        outcomes
    }
}

// The outcomes behind the first ones.
#[tactic(auto, using(crate::proofs::Cuts::none_behind))]
fn behind(outcomes: &[Outcome], number: u64) -> &[Outcome]
    ensures { result.now ≡ drop number outcomes.now }
{
    if number < outcomes.len() as u64 {
        &outcomes[number as usize..]
    } else {
        &outcomes[outcomes.len()..]
    }
}

/// Counts the accesses of these groups of requests, whose requests have become these, in the same order:
/// the first group has the first outcomes, as many as it has requests, and so on.
pub fn count_accesses(groups: &[AccessGroup], outcomes: &[Outcome]) -> AccessCounts
    ensures { result ≡ specs.counts_of groups.now outcomes.now }
{
    let mut counts = AccessCounts::default();
    let mut left = outcomes;
    for group in groups {
        let outcome = access_outcome(front(left, group.requests));
        counts.count(group.kind, outcome);
        left = behind(left, group.requests);
    }
    counts
}
