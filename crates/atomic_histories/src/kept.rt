//! A unit that an operation has touched.

ghost use Rattle.std.specs.Prelude.{◌≡◌, ◌<◌, ◌∷◌, [], map, None, Some, List, IfOk, OnOk, OnErr, vec_len, vec_capacity};
ghost use Rattle.std.specs.List.{All, list_all};
ghost use Rattle.atomic_histories.specs.declared.stretches.Before.{Before};
ghost use Rattle.atomic_histories.specs.declared.stretches.Before.TheVariants.{Nothing};
ghost use Rattle.atomic_histories.specs.declared.stretches.Stretch.{Stretch};
ghost use Rattle.atomic_histories.specs.declared.pairs.FollowedPair.{FollowedPair};
ghost use Rattle.atomic_histories.specs.Pasts.{begins, oldest};
ghost use Rattle.atomic_histories.specs.Followed.{loads_without, moment_with, no_ways, pair_cut, pair_with_store, pair_without_store};
ghost use Rattle.atomic_histories.specs.Followed.{ways_with_load, ways_with_store, ways_without_load, ways_without_store};
ghost use Rattle.atomic_histories.specs.Shares.{moved_to};
ghost use Rattle.atomic_histories.specs.Taken.{is_late};
ghost use Rattle.atomic_histories.specs.Shown.{shown, shown_all, shown_unit, IsIn, AreIn};

use crate::loads::{end_load, is_first, oldest_without};
use crate::moves::{Moved, cut_before, without_unused};
use crate::pairs::{FollowedPair, end_store};
use crate::stretches::{Before, Stretch};
use crate::unit::{LoadAddress, OpenStore, WatchedLoad, Word};
use std::alloc::{AllocError, Global};

// So many stretches beyond twice those in use may be kept: most units never have them, and dropping
// costs little for each one made.
const SPARE: usize = 14;

/// The ways that a touched unit may have gone; none once it was forgotten.
#[derive(Drop)]
pub struct KeptUnit {
    // Open loads, by their requests.
    pub(crate) loads: Vec<WatchedLoad>,
    // Loads requested since none was open.
    pub(crate) moment: u64,
    // The pairs to which ways have come.
    pub(crate) pairs: Vec<FollowedPair>,
    // What stood there before on these ways.
    pub(crate) stretches: Vec<Stretch>,
    // The most stretches before unused ones are dropped.
    pub(crate) room: usize,
}

// Whether a word was overwritten at a moment or later.
fn is_late(stretch: &Stretch, since: u64) -> bool
    ensures { result ≡ is_late since stretch.now }
{
    match stretch {
        Stretch::Overwritten {
            word: _,
            moment,
            before: _,
        } => since <= *moment,
        Stretch::Either { one: _, other: _ } => false,
    }
}

// Whether each of them is.
fn are_late(stretches: &[Stretch], since: u64) -> bool
    ensures { result ≡ list_all (is_late since) stretches.now }
{
    stretches.iter().all(|stretch| is_late(stretch, since))
}

// The most stretches if so many are in use.
fn room_for(count: usize) -> usize {
    count.saturating_mul(2).saturating_add(SPARE)
}

// The pairs, with references to moved stretches.
fn moved_pairs(
    alloc: Global,
    moved: &Moved,
    pairs: &[FollowedPair],
) -> Result<Vec<FollowedPair>, AllocError>
    ensures shown { IfOk result
        (λ ps. (ss : List Stretch)
        → shown_all ss ps.items
        ≡ map (λ (p : FollowedPair). shown ss
        (record { word = p.word; stores = p.stores; past = moved_to moved.now p.past }))
        pairs.now) }
    ensures are_in { IfOk result (λ ps. (ss : List Stretch) → ((b : Before) → IsIn ss (moved_to moved.now b)) → AreIn ss ps.items) }
{
    let mut copied = Vec::with_capacity(alloc, pairs.len())?;
    for pair in pairs {
        let same = pair.with_past(alloc, moved.place(pair.past))?;
        copied.push(same)?;
    }
    Ok(copied)
}

fn move_pairs(moved: &Moved, pairs: &mut [FollowedPair])
    ensures { pairs.new
        ≡ map (λ (p : FollowedPair).
        record { word = p.word; stores = p.stores; past = moved_to moved.now p.past })
        pairs.old }
{
    for pair in pairs.iter_mut() {
        pair.past = moved.place(pair.past);
    }
}

// No load may ask for what stood there before.
fn drop_pasts(pairs: &mut [FollowedPair])
    ensures { pairs.new ≡ map (λ (p : FollowedPair). record { word = p.word; stores = p.stores; past = Nothing }) pairs.old }
{
    for pair in pairs.iter_mut() {
        pair.past = Before::Nothing;
    }
}

// Each pair has room for one store more.
fn reserve_stores(pairs: &mut [FollowedPair]) -> Result<(), AllocError>
    ensures same { (ss : List Stretch) → shown_all ss pairs.new ≡ shown_all ss pairs.old }
    ensures room { OnOk result (All (λ (p : FollowedPair). vec_len p.stores < vec_capacity p.stores) pairs.new) }
{
    for pair in pairs.iter_mut() {
        pair.stores.reserve(1)?;
    }
    Ok(())
}

// A store is open, whatever way was gone.
fn open_store(pairs: &mut [FollowedPair], number: u64, bytes: Word)
    requires { All (λ (p : FollowedPair). vec_len p.stores < vec_capacity p.stores) pairs.old }
    ensures { (ss : List Stretch) → shown_all ss pairs.new ≡ map (pair_with_store number bytes) (shown_all ss pairs.old) }
{
    for pair in pairs.iter_mut() {
        pair.stores.push_reserved(OpenStore {
            number,
            bytes,
            is_done: false,
        });
    }
}

// It is no longer.
fn end_stores(pairs: &mut [FollowedPair], number: u64)
    ensures { (ss : List Stretch) → shown_all ss pairs.new ≡ map (pair_without_store number) (shown_all ss pairs.old) }
{
    for pair in pairs.iter_mut() {
        end_store(&mut pair.stores, number);
    }
}

impl KeptUnit {
    // A unit with this word, which no operation has touched.
    pub(crate) fn untouched(alloc: Global, word: Word) -> Result<KeptUnit, AllocError>
        ensures shown { IfOk result
            (λ u. shown_unit u
            ≡ record {
              loads = [];
              moment = 0;
              pairs = record { word = word; stores = []; past = begins } ∷ [];
            }) }
        ensures stretches { IfOk result (λ u. u.stretches.items ≡ []) }
    {
        let mut pairs = Vec::new(alloc);
        pairs.push(FollowedPair {
            word,
            stores: Vec::new(alloc),
            past: Before::Nothing,
        })?;
        Ok(KeptUnit {
            loads: Vec::new(alloc),
            moment: 0,
            pairs,
            stretches: Vec::new(alloc),
            room: room_for(0),
        })
    }

    // A unit of which no way is followed.
    pub(crate) fn forgotten(alloc: Global) -> KeptUnit
        ensures { shown_unit result ≡ no_ways }
    {
        KeptUnit {
            loads: Vec::new(alloc),
            moment: 0,
            pairs: Vec::new(alloc),
            stretches: Vec::new(alloc),
            room: room_for(0),
        }
    }

    // A copy without unused stretches.
    pub(crate) fn copied(&self, alloc: Global) -> Result<KeptUnit, AllocError>
        ensures same { IfOk result (λ u. shown_unit u ≡ shown_unit self.now) }
        ensures are_in { IfOk result (λ u. AreIn u.stretches.items u.pairs.items) }
    {
        let moved = without_unused(alloc, self.stretches.as_slice(), self.pairs.as_slice())?;
        let pairs = moved_pairs(alloc, &moved, self.pairs.as_slice())?;
        let loads = Vec::from_slice(alloc, self.loads.as_slice())?;
        let room = room_for(moved.stretches.len());
        Ok(KeptUnit {
            loads,
            moment: self.moment,
            pairs,
            stretches: moved.stretches,
            room,
        })
    }

    pub(crate) fn renew_room(&mut self)
        ensures same { shown_unit self.new ≡ shown_unit self.old }
        ensures stretches { self.new.stretches ≡ self.old.stretches }
    {
        self.room = room_for(self.stretches.len());
    }

    // A load is requested. If moments have no more numbers, that counts as want of memory.
    pub(crate) fn request_load(
        &mut self,
        number: u64,
        address: LoadAddress,
    ) -> Result<(), AllocError>
        ensures ok { OnOk result (shown_unit self.new ≡ ways_with_load number address (shown_unit self.old)) }
        ensures err { OnErr result (shown_unit self.new ≡ shown_unit self.old) }
        ensures err_stretches { OnErr result (self.new.stretches ≡ self.old.stretches) }
    {
        let since = self.moment.checked_add(1).ok_or(AllocError)?;
        self.loads.push(WatchedLoad {
            number,
            address,
            since,
        })?;
        self.moment = since;
        Ok(())
    }

    // A load is answered; what the first alone may ask for goes.
    pub(crate) fn close_load(&mut self, alloc: Global, number: u64) -> Result<(), AllocError>
        ensures ok { OnOk result (shown_unit self.new ≡ ways_without_load number (shown_unit self.old) (shown_unit self.old).pairs) }
        ensures err { OnErr result (shown_unit self.new ≡ shown_unit self.old) }
        ensures err_stretches { OnErr result (self.new.stretches ≡ self.old.stretches) }
    {
        if !is_first(self.loads.as_slice(), number) {
            end_load(&mut self.loads, number);
            return Ok(());
        }
        self.leave_past(alloc, number)?;
        end_load(&mut self.loads, number);
        Ok(())
    }

    // What the first load alone may ask for goes.
    fn leave_past(&mut self, alloc: Global, number: u64) -> Result<(), AllocError>
        ensures ok { OnOk result
            (shown_unit self.new
            ≡ record {
              loads = (shown_unit self.old).loads;
              moment = moment_with self.old.moment (loads_without number (shown_unit self.old).loads);
              pairs = map (pair_cut (oldest (loads_without number (shown_unit self.old).loads)))
                  (shown_unit self.old).pairs;
            }) }
        ensures err { OnErr result (shown_unit self.new ≡ shown_unit self.old) }
        ensures err_stretches { OnErr result (self.new.stretches ≡ self.old.stretches) }
    {
        match oldest_without(self.loads.as_slice(), number) {
            None => {
                self.drop_past();
                Ok(())
            }
            Some(since) => self.cut_past(alloc, since),
        }
    }

    // No load may ask for what stood there.
    fn drop_past(&mut self)
        ensures { shown_unit self.new
            ≡ record {
              loads = (shown_unit self.old).loads;
              moment = 0;
              pairs = map (pair_cut None) (shown_unit self.old).pairs;
            } }
    {
        drop_pasts(self.pairs.as_mut_slice());
        self.stretches.clear();
        self.moment = 0;
    }

    // No load may ask for what was overwritten earlier.
    fn cut_past(&mut self, alloc: Global, since: u64) -> Result<(), AllocError>
        ensures ok { OnOk result
            (shown_unit self.new
            ≡ record {
              loads = (shown_unit self.old).loads;
              moment = self.old.moment;
              pairs = map (pair_cut (Some since)) (shown_unit self.old).pairs;
            }) }
        ensures err { OnErr result (shown_unit self.new ≡ shown_unit self.old) }
        ensures err_stretches { OnErr result (self.new.stretches ≡ self.old.stretches) }
    {
        if are_late(self.stretches.as_slice(), since) {
            return Ok(());
        }
        let moved = cut_before(alloc, self.stretches.as_slice(), since)?;
        move_pairs(&moved, self.pairs.as_mut_slice());
        self.stretches = moved.stretches;
        Ok(())
    }

    // A store is requested.
    pub(crate) fn request_store(&mut self, number: u64, bytes: Word) -> Result<(), AllocError>
        ensures ok { OnOk result (shown_unit self.new ≡ ways_with_store number bytes (shown_unit self.old)) }
        ensures err { OnErr result (shown_unit self.new ≡ shown_unit self.old) }
        ensures err_stretches { OnErr result (self.new.stretches ≡ self.old.stretches) }
    {
        reserve_stores(self.pairs.as_mut_slice())?;
        open_store(self.pairs.as_mut_slice(), number, bytes);
        Ok(())
    }

    // A store is answered.
    pub(crate) fn close_store(&mut self, number: u64)
        ensures { shown_unit self.new ≡ ways_without_store number (shown_unit self.old) (shown_unit self.old).pairs }
    {
        end_stores(self.pairs.as_mut_slice(), number);
    }
}
