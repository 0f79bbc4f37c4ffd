//! Pairs of a word and the stores in effect.

ghost use Rattle.std.specs.Prelude.{◌≡◌, ◌<◌, ◌+◌, ◌++◌, ◌∷◌, not, length, take, drop, slice_index_or, List, IfOk};
ghost use Rattle.std.specs.List.{filter, list_all};
ghost use Rattle.atomic_histories.specs.declared.unit.OpenStore.{OpenStore};
ghost use Rattle.atomic_histories.specs.declared.stretches.Stretch.{Stretch};
ghost use Rattle.atomic_histories.specs.Law.{is_store, may_answer_store, done_store};
ghost use Rattle.atomic_histories.specs.Followed.{is_same_pair, pair_after};
ghost use Rattle.atomic_histories.specs.Marks.{mixed, with_byte, with_store as mark_with_store, mark};
ghost use Rattle.atomic_histories.specs.Shown.{past_at, pasts, shown, aim_of};

use crate::hopes::may_come;
use crate::stretches::Before;
use crate::unit::{LoadAddress, OpenStore, UnitPlace, Word};
use crate::words::{is_same_word, is_word_of, write};
use std::alloc::{AllocError, Global};

// Multiplies a mark before a number is added: Knuth's multiplier for 64 bits, so that few pairs
// share one.
const MIXER: u64 = 6_364_136_223_846_793_005;

/// A pair, and the past on its ways.
#[derive(Drop)]
pub struct FollowedPair {
    pub(crate) word: Word,
    pub(crate) stores: Vec<OpenStore>,
    pub(crate) past: Before,
}

/// What an answer needs of a pair: a store in effect, or a word with these bytes from an address
/// on. Nothing may be enough.
#[derive(Clone, Copy)]
pub enum Wanted<'a> {
    /// Nothing is enough.
    Never,
    /// The store under this number has taken effect.
    Effect {
        /// The number.
        number: u64,
    },
    /// The word is one of an answer.
    Answer {
        /// The unit in which it stands.
        unit: UnitPlace,
        /// Where the answer's load reads.
        address: LoadAddress,
        /// The answer's bytes.
        bytes: &'a [u8],
    },
}

// Whether a store has this number.
fn is_store(store: &OpenStore, number: u64) -> bool
    ensures { result ≡ is_store number store.now }
{
    store.number == number
}

// A mark with one more number mixed in.
#[tactic(auto, unfolding(crate::specs::Marks::mixed))]
fn mixed(mark: u64, number: u64) -> u64
    ensures { result ≡ mixed mark number }
{
    mark.wrapping_mul(MIXER).wrapping_add(number)
}

// With the byte of a lane.
fn with_byte(mark: u64, byte: Option<u8>) -> u64
    ensures { result ≡ with_byte mark byte }
{
    match byte {
        Some(byte) => mixed(mark, u64::from(byte)),
        None => mixed(mark, 256),
    }
}

// With a store, if it has taken effect.
fn mark_with_store(mark: u64, store: &OpenStore) -> u64
    ensures { result ≡ mark_with_store mark store.now }
{
    if store.is_done {
        mixed(mark, store.number)
    } else {
        mark
    }
}

// The store under a number is answered.
pub(crate) fn end_store(stores: &mut Vec<OpenStore>, number: u64)
    ensures { stores.new.items ≡ filter (λ s. not (is_store number s)) stores.old.items }
{
    stores.retain(|store| !is_store(store, number));
}

// Store `i` has taken effect.
fn finish_store(stores: &mut [OpenStore], i: usize)
    requires { i < length stores.old }
    ensures { (d : OpenStore) → stores.new ≡ take i stores.old ++ done_store (slice_index_or stores.old i d) ∷ drop (i + 1) stores.old }
{
    let store = stores[i];
    stores[i] = OpenStore {
        is_done: true,
        ..store
    };
}

impl FollowedPair {
    // The same pair, with another past.
    pub(crate) fn with_past(&self, alloc: Global, past: Before) -> Result<FollowedPair, AllocError>
        ensures word { IfOk result (λ p. p.word ≡ self.now.word) }
        ensures stores { IfOk result (λ p. p.stores.items ≡ self.now.stores.items) }
        ensures past { IfOk result (λ p. p.past ≡ past) }
    {
        let stores = Vec::from_slice(alloc, self.stores.as_slice())?;
        Ok(FollowedPair {
            word: self.word,
            stores,
            past,
        })
    }

    // The pair's mark: one pair has one mark.
    #[tactic(auto, unfolding(crate::specs::Marks::mark_of))]
    pub(crate) fn mark(&self) -> u64
        ensures { result ≡ mark self.now }
    {
        let word = self
            .word
            .iter()
            .fold(0, |mark, byte| with_byte(mark, *byte));
        self.stores
            .iter()
            .fold(word, |mark, store| mark_with_store(mark, store))
    }

    #[tactic(auto, unfolding(crate::specs::Followed::is_same_pair))]
    pub(crate) fn is_same(&self, other: &FollowedPair) -> bool
        ensures { (ss ts : List Stretch) → result ≡ is_same_pair (shown ss self.now) (shown ts other.now) }
    {
        is_same_word(&self.word, &other.word) && self.stores == other.stores
    }

    // The pair once store `i` takes effect, with this past.
    pub(crate) fn after(
        &self,
        alloc: Global,
        i: usize,
        past: Before,
    ) -> Result<FollowedPair, AllocError>
        requires { i < length self.now.stores.items }
        ensures shown { IfOk result
            (λ p. (ss : List Stretch) (d : OpenStore)
            → shown ss p
            ≡ pair_after (past_at (pasts ss) past) (shown ss self.now) (take i self.now.stores.items)
            (slice_index_or self.now.stores.items i d) (drop (i + 1) self.now.stores.items)) }
        ensures past { IfOk result (λ p. p.past ≡ past) }
    {
        let mut word = self.word;
        let mut stores = Vec::from_slice(alloc, self.stores.as_slice())?;
        write(&mut word, &self.stores[i].bytes);
        finish_store(stores.as_mut_slice(), i);
        Ok(FollowedPair { word, stores, past })
    }

    pub(crate) fn has_effect(&self, number: u64) -> bool
        ensures { result ≡ may_answer_store number self.now.stores.items }
    {
        self.stores
            .iter()
            .all(|store| !is_store(store, number) || store.is_done)
    }

    // Whether all of its stores have taken effect.
    pub(crate) fn is_done(&self) -> bool
        ensures { result ≡ list_all (λ s. s.is_done) self.now.stores.items }
    {
        self.stores.iter().all(|store| store.is_done)
    }

    // Whether the pair is as is wanted.
    pub(crate) fn meets(&self, wanted: Wanted) -> bool
        ensures { (ss : List Stretch) → result ≡ (aim_of wanted.entry).goal (shown ss self.now) }
    {
        match wanted {
            Wanted::Never => false,
            Wanted::Effect { number } => self.has_effect(number),
            Wanted::Answer {
                unit,
                address,
                bytes,
            } => is_word_of(unit.first, &self.word, address, bytes),
        }
    }

    /// Whether the ways may still come to what is wanted.
    pub(crate) fn hopes(&self, wanted: Wanted) -> bool
        ensures { (ss : List Stretch) → result ≡ (aim_of wanted.entry).hope (shown ss self.now) }
    {
        match wanted {
            Wanted::Never => true,
            Wanted::Effect { number: _ } => true,
            Wanted::Answer {
                unit,
                address,
                bytes,
            } => may_come(
                &self.word,
                self.stores.as_slice(),
                unit.first,
                address,
                bytes,
            ),
        }
    }
}
