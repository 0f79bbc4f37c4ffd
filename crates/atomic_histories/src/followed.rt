//! Pairs that are followed, each once, found by marks.

ghost use Rattle.std.specs.Prelude.{◌≡◌, ◌+◌, ◌<◌, ◌≤◌, ◌++◌, ◌∷◌, take, drop, length, map, List, slice_index_or, OnOk, IfOk};
ghost use Rattle.std.specs.List.{position};
ghost use Rattle.atomic_histories.specs.Followed.{Pair, is_same_pair, merged_pair, with_pair};
ghost use Rattle.atomic_histories.specs.declared.followed.TheConstants.{MARKED};
ghost use Rattle.atomic_histories.specs.declared.stretches.Stretch.{Stretch};
ghost use Rattle.atomic_histories.specs.Marks.{mark as pair_mark, before_mark, IsFollowed};
ghost use Rattle.atomic_histories.specs.Shown.{past_at, pasts, shown, shown_all, IsIn, AreIn, Grows};

use crate::pairs::FollowedPair;
use crate::stretches::{Before, Stretch, merge};
use std::alloc::{AllocError, Global};

// From so many pairs on marks are kept. Fewer are compared one by one.
pub(crate) const MARKED: usize = 8;

// Pairs that are followed: ways to a known pair join those that have come there.
#[derive(Drop)]
pub(crate) struct Followed {
    pub(crate) pairs: Vec<FollowedPair>,
    marks: Vec<u64>,
}

fn place_of(pairs: &[FollowedPair], pair: &FollowedPair) -> Option<usize>
    ensures { (ss : List Stretch) → result ≡ position (λ f. is_same_pair (shown ss f) (shown ss pair.now)) pairs.now }
{
    pairs.iter().position(|other| other.is_same(pair))
}

// The next place of this mark, or how many marks there are.
#[tactic(auto, using(crate::proofs::Marks::mark_here, crate::proofs::Marks::mark_later, crate::proofs::Marks::no_mark))]
fn next_with(marks: &[u64], from: usize, mark: u64) -> usize
    requires { from ≤ length marks.now }
    ensures place { result ≡ from + before_mark mark (drop from marks.now) }
    ensures least { from ≤ result }
    ensures most { result ≤ length marks.now }
{
    let mut at = from;
    while at < marks.len() {
        if marks[at] == mark {
            return at;
        }
        at += 1;
    }
    at
}

// A pair's place, by its mark.
fn place_by_mark(
    pairs: &[FollowedPair],
    marks: &[u64],
    pair: &FollowedPair,
    mark: u64,
) -> Option<usize>
    requires marks { marks.now ≡ map pair_mark pairs.now }
    requires mark { mark ≡ pair_mark pair.now }
    ensures { (ss : List Stretch) → result ≡ position (λ f. is_same_pair (shown ss f) (shown ss pair.now)) pairs.now }
{
    let mut from = 0;
    while from < pairs.len() {
        let at = next_with(marks, from, mark);
        if at == pairs.len() {
            return None;
        }
        if pairs[at].is_same(pair) {
            return Some(at);
        }
        from = at + 1;
    }
    None
}

// The marks of these pairs.
fn note_pairs(marks: &mut Vec<u64>, pairs: &[FollowedPair]) -> Result<(), AllocError>
    ensures { OnOk result (marks.new.items ≡ map pair_mark pairs.now) }
{
    marks.clear();
    for pair in pairs {
        marks.push(pair.mark())?;
    }
    Ok(())
}

impl Followed {
    // These pairs.
    pub(crate) fn of(alloc: Global, pairs: Vec<FollowedPair>) -> Result<Followed, AllocError>
        ensures pairs { IfOk result (λ f. f.pairs ≡ pairs) }
        ensures followed { IfOk result IsFollowed }
    {
        let mut followed = Followed {
            pairs,
            marks: Vec::new(alloc),
        };
        followed.note_many()?;
        Ok(followed)
    }

    // Keeps marks, once there are so many pairs.
    fn note_many(&mut self) -> Result<(), AllocError>
        ensures pairs { OnOk result (self.new.pairs ≡ self.old.pairs) }
        ensures followed { OnOk result (IsFollowed self.new) }
    {
        if self.pairs.len() < MARKED {
            return Ok(());
        }
        note_pairs(&mut self.marks, self.pairs.as_slice())
    }

    // Adds a pair, or joins its ways to the same one's.
    pub(crate) fn add(
        &mut self,
        stretches: &mut Vec<Stretch>,
        pair: FollowedPair,
    ) -> Result<(), AllocError>
        requires followed { IsFollowed self.old }
        requires pairs { AreIn stretches.old.items self.old.pairs.items }
        requires pair { IsIn stretches.old.items pair.past }
        ensures pairs { OnOk result
            (shown_all stretches.new.items self.new.pairs.items
            ≡ with_pair (shown_all stretches.old.items self.old.pairs.items)
            (shown stretches.old.items pair)) }
        ensures are_in { OnOk result (AreIn stretches.new.items self.new.pairs.items) }
        ensures grows { OnOk result (Grows stretches.old.items stretches.new.items) }
        ensures followed { OnOk result (IsFollowed self.new) }
    {
        if self.pairs.len() < MARKED {
            self.add_to_few(stretches, pair)
        } else {
            self.add_to_marked(stretches, pair)
        }
    }

    // Joins a pair's ways to the same one's.
    #[tactic(auto, using(crate::proofs::Merges::merged_in))]
    fn merge_at(
        &mut self,
        stretches: &mut Vec<Stretch>,
        place: usize,
        past: Before,
    ) -> Result<(), AllocError>
        requires place { place < length self.old.pairs.items }
        requires followed { IsFollowed self.old }
        requires pairs { AreIn stretches.old.items self.old.pairs.items }
        requires past { IsIn stretches.old.items past }
        ensures pairs { OnOk result
            ((e : Pair) → e.past ≡ past_at (pasts stretches.old.items) past
            → shown_all stretches.new.items self.new.pairs.items
            ≡ take place (shown_all stretches.old.items self.old.pairs.items)
            ++ merged_pair (slice_index_or (shown_all stretches.old.items self.old.pairs.items) place e) e
            ∷ drop (place + 1) (shown_all stretches.old.items self.old.pairs.items)) }
        ensures are_in { OnOk result (AreIn stretches.new.items self.new.pairs.items) }
        ensures grows { OnOk result (Grows stretches.old.items stretches.new.items) }
        ensures followed { OnOk result (IsFollowed self.new) }
    {
        let merged = merge(stretches, self.pairs[place].past, past)?;
        self.pairs[place].past = merged;
        Ok(())
    }

    fn add_to_few(
        &mut self,
        stretches: &mut Vec<Stretch>,
        pair: FollowedPair,
    ) -> Result<(), AllocError>
        requires few { length self.old.pairs.items < MARKED }
        requires pairs { AreIn stretches.old.items self.old.pairs.items }
        requires pair { IsIn stretches.old.items pair.past }
        ensures pairs { OnOk result
            (shown_all stretches.new.items self.new.pairs.items
            ≡ with_pair (shown_all stretches.old.items self.old.pairs.items)
            (shown stretches.old.items pair)) }
        ensures are_in { OnOk result (AreIn stretches.new.items self.new.pairs.items) }
        ensures grows { OnOk result (Grows stretches.old.items stretches.new.items) }
        ensures followed { OnOk result (IsFollowed self.new) }
    {
        match place_of(self.pairs.as_slice(), &pair) {
            Some(place) => self.merge_at(stretches, place, pair.past),
            None => {
                self.pairs.push(pair)?;
                self.note_many()
            }
        }
    }

    // To pairs whose marks are kept.
    fn add_to_marked(
        &mut self,
        stretches: &mut Vec<Stretch>,
        pair: FollowedPair,
    ) -> Result<(), AllocError>
        requires marks { self.old.marks.items ≡ map pair_mark self.old.pairs.items }
        requires pairs { AreIn stretches.old.items self.old.pairs.items }
        requires pair { IsIn stretches.old.items pair.past }
        ensures pairs { OnOk result
            (shown_all stretches.new.items self.new.pairs.items
            ≡ with_pair (shown_all stretches.old.items self.old.pairs.items)
            (shown stretches.old.items pair)) }
        ensures are_in { OnOk result (AreIn stretches.new.items self.new.pairs.items) }
        ensures grows { OnOk result (Grows stretches.old.items stretches.new.items) }
        ensures followed { OnOk result (IsFollowed self.new) }
    {
        let mark = pair.mark();
        match place_by_mark(self.pairs.as_slice(), self.marks.as_slice(), &pair, mark) {
            Some(place) => self.merge_at(stretches, place, pair.past),
            None => {
                self.pairs.push(pair)?;
                self.marks.push(mark)?;
                Ok(())
            }
        }
    }
}
