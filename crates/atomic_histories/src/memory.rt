//! The judge of the atomic law.

ghost use Rattle.std.specs.Prelude.{◌≡◌, ◌+◌, ◌*◌, ◌/◌, ◌^◌, ◌<◌, ◌≤◌, if◌then◌else◌, List, ◌++◌, ◌∷◌, [], ℕ, true, false, map, length};
ghost use Rattle.std.specs.Prelude.{None, Some, IfOk, IfErr};
ghost use Rattle.std.specs.Prelude.{IfSome, IfNone, OnOk, OnErr};
ghost use Rattle.std.specs.HashMap.{spare};
ghost use Rattle.std.specs.Vec.{vec_len, vec_capacity};
ghost use Rattle.std.specs.Result.{result_err};
ghost use Rattle.std.specs.List.{find};
ghost use Rattle.memory_histories.specs.Sets.{all_bytes};
ghost use Rattle.memory_histories.specs.declared.events.HistoryEvent.{HistoryEvent};
ghost use Rattle.atomic_histories.specs.Operations.{opened_after, form_fault, has_number};
ghost use Rattle.atomic_histories.specs.Law.{IsAtomic, unit_at};
ghost use Rattle.atomic_histories.specs.AtOnce.{AreTaken, AreTakenOrSame};
ghost use Rattle.atomic_histories.specs.Lost.{IsAtomicBut};
ghost use Rattle.atomic_histories.specs.Held.{nothing_held, covered, changed, ways_from, ways_there, is_stuck, StandsForAll, StandsBut};
ghost use Rattle.atomic_histories.specs.Held.{is_over_at, halt_from};
ghost use Rattle.atomic_histories.specs.Few.{IsFewFor, AreFew};
ghost use Rattle.atomic_histories.specs.May.{asks, skips, may_return_at, AreSetsOf, IsSetOf, HasSets, IsByteOf, IsSet, may_get_at};
ghost use Rattle.atomic_histories.specs.May.{AreSetsFrom, address_of};
ghost use Rattle.atomic_histories.specs.May.{LoadFaultIs, IsNoVerdict, IsWideByte, IsWideLoad};
ghost use Rattle.atomic_histories.specs.May.{is_wide_at, AreNarrow, IsNarrowLoad};
ghost use Rattle.atomic_histories.specs.Judge.{bytes_of, fault_of, held, limit_of, HasSameMemory, IsTaken, IsForgotten};
ghost use Rattle.atomic_histories.specs.Judge.{UnitFaultIs, StepFaultIs, StepFaultIsBut};
ghost use Rattle.atomic_histories.specs.Told.{HaltIs, GoOn, IsToldOf};
ghost use Rattle.atomic_histories.specs.Shown.{shown_unit};

use crate::at_once::take_at;
use crate::faults::FaultText;
use crate::forms::{close, form_fault, open_under};
use crate::kept::KeptUnit;
use crate::may::unit_set;
use crate::search::Stop;
use crate::shown_bytes::push_set;
use crate::unit::{Operation, UnitPlace};
use crate::units::{
    add_unit, changed_unit, covered, put_unit, put_units, units_of, untouched_unit,
};
use memory_histories::{ByteSet, HistoryEvent, HistoryFault, Rest, is_enabled};
use std::alloc::{AllocError, Global};
use std::collections::HashMap;
use thiserror::Error;

/// The usual limit of pairs followed at a unit.
pub const DEFAULT_LIMIT: usize = 4096;

/// The bytes of an aligned unit, at which an operation takes effect at one moment.
#[derive(Clone, Copy, PartialEq, Eq, Debug)]
pub enum UnitSize {
    /// One byte: bytes of an operation need no common moment.
    One,
    /// Two bytes, from each even address on.
    Two,
    /// Four bytes, from each multiple of 4 on.
    Four,
    /// Eight bytes, from each multiple of 8 on.
    Eight,
}

impl UnitSize {
    /// Never 0: addresses are divided by it.
    pub fn bytes(self) -> u64
        ensures bytes { result ≡ bytes_of self }
        ensures above { 0 < result }
    {
        match self {
            UnitSize::One => 1,
            UnitSize::Two => 2,
            UnitSize::Four => 4,
            UnitSize::Eight => 8,
        }
    }
}

/// Why an event isn't taken, or sets aren't told.
#[derive(Clone, Copy, PartialEq, Eq, Debug, Error)]
#[error("{}", FaultText(self))]
pub enum AtomicFault {
    /// The history with this event isn't of the law; asked for sets: no load is open under the
    /// number.
    Refused(HistoryFault),
    /// No verdict at the unit that begins here: more pairs than the limit, or more words than
    /// [`MOST_WORDS`](crate::MOST_WORDS).
    Undecided { address: u64 },
    /// Too little memory; or 2^64 - 1 loads were requested at a unit since none was open, and
    /// moments have no more numbers.
    OutOfMemory,
}

impl From<AllocError> for AtomicFault {
    ghost use Rattle.std.specs.Prelude.{◌≡◌};
    ghost use Rattle.atomic_histories.specs.declared.memory.AtomicFault.TheVariants.{OutOfMemory};

    ghost from_gives = { λ e f. f ≡ OutOfMemory };

    fn from(_fault: AllocError) -> AtomicFault {
        AtomicFault::OutOfMemory
    }
}

pub(crate) fn fault_of(stop: Stop, first: u64) -> AtomicFault
    ensures { result ≡ fault_of stop first }
{
    match stop {
        Stop::TooManyWays => AtomicFault::Undecided { address: first },
        Stop::NoMemory => AtomicFault::OutOfMemory,
    }
}

/// A memory judged by the atomic law.
#[derive(Drop)]
pub struct AtomicMemory {
    alloc: Global,
    image: Vec<u8>,
    rest: Rest,
    size: UnitSize,
    limit: usize,
    loads: Vec<Operation>,
    stores: Vec<Operation>,
    units: HashMap<u64, KeptUnit>,
}

#[tactic(auto)]
impl AtomicMemory {
    /// Memory before the first event. The image is the bytes from address 0 on, `rest` what is
    /// beyond. A pair is a word with the stores in effect; at most `limit` are followed at a unit.
    /// `AllocError`: too little memory.
    pub fn new(
        alloc: Global,
        size: UnitSize,
        limit: usize,
        image: &[u8],
        rest: Rest,
    ) -> Result<AtomicMemory, AllocError>
        ensures held { IfOk result (λ m. held m ≡ nothing_held image.now rest (bytes_of size)) }
        ensures stands { IfOk result (λ m. StandsForAll (held m) []) }
        ensures limit { IfOk result (λ m. limit_of m ≡ limit) }
    {
        AtomicMemory::untouched(alloc, size, limit, image, rest)
    }

    fn untouched(
        alloc: Global,
        size: UnitSize,
        limit: usize,
        image: &[u8],
        rest: Rest,
    ) -> Result<AtomicMemory, AllocError>
        ensures held { IfOk result (λ m. held m ≡ nothing_held image.now rest (bytes_of size)) }
        ensures limit { IfOk result (λ m. limit_of m ≡ limit) }
    {
        let image = Vec::from_slice(alloc, image)?;
        Ok(AtomicMemory {
            alloc,
            image,
            rest,
            size,
            limit,
            loads: Vec::new(alloc),
            stores: Vec::new(alloc),
            units: HashMap::new(alloc),
        })
    }

    /// Takes one event.
    ///
    /// `Ok`: the history with it is of the law. `Refused`: it isn't, for the first fault in the
    /// order of [`HistoryFault`]. `WrongByte` has the place of the answer's first byte in the
    /// lowest unit without moments. A forgotten unit counts for nothing.
    pub fn step(&mut self, event: HistoryEvent) -> Result<(), AtomicFault>
        ensures ok { (history : List HistoryEvent) → StandsForAll (held self.old) history
            → OnOk result
            (IsAtomic (held self.old).image (held self.old).rest (held self.old).size
            (history ++ event.entry ∷ [])
            × StandsForAll (held self.new) (history ++ event.entry ∷ [])) }
        ensures fault { (history : List HistoryEvent) → StandsForAll (held self.old) history
            → IfErr result (StepFaultIs (limit_of self.old) (held self.old) history event.entry) }
        ensures ok_but { (lost : List ℕ) → (history : List HistoryEvent)
            → StandsBut (held self.old) lost history
            → OnOk result
            (IsAtomicBut lost (held self.old).image (held self.old).rest (held self.old).size
            (history ++ event.entry ∷ [])
            × StandsBut (held self.new) lost (history ++ event.entry ∷ [])) }
        ensures fault_but { (lost : List ℕ) → (history : List HistoryEvent)
            → StandsBut (held self.old) lost history
            → IfErr result (StepFaultIsBut lost (limit_of self.old) (held self.old) history event.entry) }
        ensures told { IsToldOf (limit_of self.old) (held self.old) event.entry (result_err result) }
        ensures unchanged { OnErr result (held self.new ≡ held self.old) }
        ensures memory { HasSameMemory (held self.new) (held self.old) }
        ensures limit { limit_of self.new ≡ limit_of self.old }
    {
        self.kept_step(event)
    }

    /// What [`step`](AtomicMemory::step) would answer; `None`: it takes the event.
    /// [`events_are_told_alike`](crate::laws::events_are_told_alike) says when they differ.
    /// `OutOfMemory` may come where `step` needs no search.
    pub fn fault(&self, event: HistoryEvent) -> Option<AtomicFault>
        ensures none { (history : List HistoryEvent) → StandsForAll (held self.now) history
            → IfNone result
            (IsAtomic (held self.now).image (held self.now).rest (held self.now).size
            (history ++ event.entry ∷ [])) }
        ensures some { (history : List HistoryEvent) → StandsForAll (held self.now) history
            → IfSome result (StepFaultIs (limit_of self.now) (held self.now) history event.entry) }
        ensures none_but { (lost : List ℕ) → (history : List HistoryEvent)
            → StandsBut (held self.now) lost history
            → IfNone result
            (IsAtomicBut lost (held self.now).image (held self.now).rest (held self.now).size
            (history ++ event.entry ∷ [])) }
        ensures some_but { (lost : List ℕ) → (history : List HistoryEvent)
            → StandsBut (held self.now) lost history
            → IfSome result (StepFaultIsBut lost (limit_of self.now) (held self.now) history event.entry) }
        ensures told { IsToldOf (limit_of self.now) (held self.now) event.entry result }
    {
        match self.changes(event) {
            Ok(_changes) => None,
            Err(fault) => Some(fault),
        }
    }

    /// What an open load may return if it ended now: a set for each byte of its answer. Each is of
    /// its byte alone: two bytes may not go together
    /// ([`sets_are_of_answers`](crate::laws::sets_are_of_answers)).
    ///
    /// `Refused`: no load is open under the number (`NotOpen`). `Undecided`: too many ways at this
    /// unit; no set is returned. `OutOfMemory`: too little memory.
    pub fn may_return(&self, number: u64) -> Result<Vec<ByteSet>, AtomicFault>
        ensures ok { (lost : List ℕ) → (history : List HistoryEvent)
            → StandsBut (held self.now) lost history
            → IfOk result
            (λ sets. AreSetsOf lost (held self.now).image (held self.now).rest (held self.now).size history
            number sets.items) }
        ensures narrow { OnOk result (IsNarrowLoad (limit_of self.now) (held self.now) number) }
        ensures fault { IfErr result
            (LoadFaultIs (limit_of self.now) (held self.now)
            (find (has_number number) (held self.now).opened.loads)) }
    {
        self.kept_sets(number)
    }

    /// The same of the byte at an address; `None` if no such load asks for it. `Refused` never
    /// comes.
    pub fn byte_may_return(&self, number: u64, address: u64) -> Result<Option<ByteSet>, AtomicFault>
        ensures ok { (lost : List ℕ) → (history : List HistoryEvent)
            → StandsBut (held self.now) lost history
            → IfOk result
            (IsSetOf lost (held self.now).image (held self.now).rest (held self.now).size history number
            address) }
        ensures narrow { IfOk result
            (λ set. IfSome set (λ s. is_wide_at (limit_of self.now) (held self.now) number address ≡ false)) }
        ensures fault { IfErr result (IsNoVerdict (IsWideByte (limit_of self.now) (held self.now) address)) }
        ensures asked { OnErr result (asks (find (has_number number) (held self.now).opened.loads) address ≡ true) }
    {
        self.kept_byte(number, address)
    }

    fn kept_byte(&self, number: u64, address: u64) -> Result<Option<ByteSet>, AtomicFault>
        ensures ok { IfOk result (IsByteOf (held self.now) number address) }
        ensures narrow { IfOk result
            (λ set. IfSome set (λ s. is_wide_at (limit_of self.now) (held self.now) number address ≡ false)) }
        ensures fault { IfErr result (IsNoVerdict (IsWideByte (limit_of self.now) (held self.now) address)) }
        ensures asked { OnErr result (asks (find (has_number number) (held self.now).opened.loads) address ≡ true) }
    {
        let load = open_under(self.loads.as_slice(), number);
        if !asks(load, address) {
            return Ok(None);
        }
        let set = self.set_of(load, number, address)?;
        Ok(Some(set))
    }

    fn kept_sets(&self, number: u64) -> Result<Vec<ByteSet>, AtomicFault>
        ensures ok { IfOk result (λ sets. HasSets (held self.now) number sets.items) }
        ensures narrow { OnOk result (IsNarrowLoad (limit_of self.now) (held self.now) number) }
        ensures fault { IfErr result
            (LoadFaultIs (limit_of self.now) (held self.now)
            (find (has_number number) (held self.now).opened.loads)) }
    {
        match open_under(self.loads.as_slice(), number) {
            None => Err(AtomicFault::Refused(HistoryFault::NotOpen)),
            Some(load) => self.sets_from(load, number, load.address, load.length),
        }
    }

    #[tactic(auto, using(crate::proofs::MaySteps::one_set_more))]
    fn sets_from(
        &self,
        load: Operation,
        number: u64,
        address: u64,
        length: usize,
    ) -> Result<Vec<ByteSet>, AtomicFault>
        ensures sets { IfOk result (λ sets. AreSetsFrom (held self.now) (Some load) number address 0 length sets.items) }
        ensures narrow { OnOk result (AreNarrow (limit_of self.now) (held self.now) number address length) }
        ensures fault { IfErr result (IsNoVerdict (IsWideLoad (limit_of self.now) (held self.now) address length)) }
    {
        let mut sets = Vec::new(self.alloc);
        for i in 0..length {
            let set = self.set_of(Some(load), number, byte_address(address, i))?;
            push_set(&mut sets, set)?;
        }
        Ok(sets)
    }

    // Of the byte at an address, which may be anything if the load doesn't enable it.
    #[tactic(auto, using(crate::proofs::MaySteps::asked_is))]
    fn set_of(
        &self,
        load: Option<Operation>,
        number: u64,
        address: u64,
    ) -> Result<ByteSet, AtomicFault>
        ensures set { IfOk result (IsSet (may_return_at (held self.now) load number address)) }
        ensures narrow { OnOk result (is_wide_at (limit_of self.now) (held self.now) number address ≡ false) }
        ensures fault { IfErr result (IsNoVerdict (IsWideByte (limit_of self.now) (held self.now) address)) }
    {
        let set = self.set_at(number, address)?;
        Ok(asked_set(skips(load, address), set))
    }

    // Of the byte at an address.
    #[tactic(auto, using(crate::proofs::MaySteps::lane_below, crate::proofs::MaySteps::untouched_set, crate::proofs::MaySteps::untouched_narrow, crate::proofs::MaySteps::stopped_set))]
    fn set_at(&self, number: u64, address: u64) -> Result<ByteSet, AtomicFault>
        ensures set { IfOk result (IsSet (may_get_at (held self.now) number address)) }
        ensures narrow { OnOk result (is_wide_at (limit_of self.now) (held self.now) number address ≡ false) }
        ensures fault { IfErr result (IsNoVerdict (IsWideByte (limit_of self.now) (held self.now) address)) }
    {
        let place = address % self.size.bytes();
        let lane = place as usize;
        match self.units.get(&(address / self.size.bytes())) {
            Some(unit) => {
                match unit_set(self.alloc, unit, number, lane, self.limit) {
                    Ok(set) => Ok(set),
                    Err(stop) => Err(fault_of(stop, address.saturating_sub(place))),
                }
            }
            None => Ok(ByteSet::none()),
        }
    }

    /// Forgets the unit of this address. Its bytes are unknown from then on: a load may return
    /// anything there, stores aren't followed, and no event is `Undecided` for it. Other units are
    /// judged on. `AllocError`: too little memory.
    pub fn forget(&mut self, address: u64) -> Result<(), AllocError>
        ensures ok { (lost : List ℕ) → (history : List HistoryEvent)
            → StandsBut (held self.old) lost history
            → OnOk result (StandsBut (held self.new) (address / (held self.old).size ∷ lost) history) }
        ensures unchanged { OnErr result (held self.new ≡ held self.old) }
        ensures memory { HasSameMemory (held self.new) (held self.old) }
        ensures limit { limit_of self.new ≡ limit_of self.old }
    {
        self.kept_forget(address / self.size.bytes())
    }

    // The unit of this number is forgotten.
    fn kept_forget(&mut self, number: u64) -> Result<(), AllocError>
        ensures ok { OnOk result (IsForgotten (held self.old) number (held self.new)) }
        ensures unchanged { OnErr result (held self.new ≡ held self.old) }
        ensures limit { limit_of self.new ≡ limit_of self.old }
    {
        self.reserve(1)?;
        put_unit(&mut self.units, number, KeptUnit::forgotten(self.alloc));
        Ok(())
    }

    // The step over what is kept.
    fn kept_step(&mut self, event: HistoryEvent) -> Result<(), AtomicFault>
        ensures ok { OnOk result (IsTaken (held self.old) event.entry (held self.new)) }
        ensures told { IsToldOf (limit_of self.old) (held self.old) event.entry (result_err result) }
        ensures unchanged { OnErr result (held self.new ≡ held self.old) }
        ensures limit { limit_of self.new ≡ limit_of self.old }
    {
        if let Some(fault) = self.form_fault(event) {
            return Err(AtomicFault::Refused(fault));
        }
        self.reserve_open()?;
        self.take_units(event)?;
        self.open_or_close(event);
        Ok(())
    }

    // The event's units take it; which operations are open changes later.
    fn take_units(&mut self, event: HistoryEvent) -> Result<(), AtomicFault>
        requires { form_fault (held self.old).opened event ≡ None }
        ensures ok { OnOk result (AreTaken (held self.old) event.entry (held self.new)) }
        ensures told { IsToldOf (limit_of self.old) (held self.old) event.entry (result_err result) }
        ensures unchanged { OnErr result (held self.new ≡ held self.old) }
        ensures limit { limit_of self.new ≡ limit_of self.old }
        ensures loads { self.new.loads ≡ self.old.loads }
        ensures stores { self.new.stores ≡ self.old.stores }
    {
        let is_taken = self.takes_at_once(event)?;
        if is_taken {
            return Ok(());
        }
        self.take_by_search(event)
    }

    // There is room for one more open operation.
    fn reserve_open(&mut self) -> Result<(), AllocError>
        ensures held { held self.new ≡ held self.old }
        ensures loads { OnOk result (vec_len self.new.loads < vec_capacity self.new.loads) }
        ensures stores { OnOk result (vec_len self.new.stores < vec_capacity self.new.stores) }
        ensures limit { limit_of self.new ≡ limit_of self.old }
    {
        self.loads.reserve(1)?;
        self.stores.reserve(1)
    }

    // The event's one unit takes it without a search, if it can.
    #[tactic(auto, using(crate::proofs::AtOnce::number_fits, crate::proofs::Ranges::sized))]
    fn takes_at_once(&mut self, event: HistoryEvent) -> Result<bool, AllocError>
        ensures ok { IfOk result (λ taken. AreTakenOrSame (held self.old) event.entry (held self.new) taken) }
        ensures told { IfOk result (λ taken. taken ≡ true → GoOn (limit_of self.old) (held self.old) event.entry) }
        ensures err { OnErr result (held self.new ≡ held self.old) }
        ensures limit { limit_of self.new ≡ limit_of self.old }
        ensures loads { self.new.loads ≡ self.old.loads }
        ensures stores { self.new.stores ≡ self.old.stores }
    {
        let (address, length) = self.covered(event);
        if units_of(self.size, address, length) != 1 {
            return Ok(false);
        }
        let number = address / self.size.bytes();
        let place = self.place(number);
        take_at(
            self.alloc,
            &mut self.units,
            number,
            place,
            event,
            self.limit,
        )
    }

    // Follows the units of an event, and keeps them once all have ways.
    fn take_by_search(&mut self, event: HistoryEvent) -> Result<(), AtomicFault>
        ensures ok { OnOk result (AreTaken (held self.old) event.entry (held self.new)) }
        ensures told { IsToldOf (limit_of self.old) (held self.old) event.entry (result_err result) }
        ensures unchanged { OnErr result (held self.new ≡ held self.old) }
        ensures limit { limit_of self.new ≡ limit_of self.old }
        ensures loads { self.new.loads ≡ self.old.loads }
        ensures stores { self.new.stores ≡ self.old.stores }
    {
        let changes = self.changes(event)?;
        let (address, _length) = self.covered(event);
        self.reserve(changes.len())?;
        put_units(&mut self.units, address / self.size.bytes(), changes);
        Ok(())
    }

    // There is room for so many more units.
    #[tactic(auto, using(crate::proofs::Ranges::same_units, crate::proofs::Ranges::same_words))]
    fn reserve(&mut self, count: usize) -> Result<(), AllocError>
        ensures held { held self.new ≡ held self.old }
        ensures room { OnOk result (count ≤ spare self.new.units) }
        ensures limit { limit_of self.new ≡ limit_of self.old }
        ensures size { self.new.size ≡ self.old.size }
        ensures loads { self.new.loads ≡ self.old.loads }
        ensures stores { self.new.stores ≡ self.old.stores }
    {
        self.units.reserve(count)?;
        Ok(())
    }

    fn changes(&self, event: HistoryEvent) -> Result<Vec<KeptUnit>, AtomicFault>
        ensures ways { IfOk result (λ us. map shown_unit us.items ≡ ways_there (held self.now) event.entry) }
        ensures fits { IfOk result
            (λ us. (covered (held self.now).opened event.entry).0 / (held self.now).size + length us.items
            ≤ 2 ^ 64) }
        ensures told { IsToldOf (limit_of self.now) (held self.now) event.entry (result_err result) }
    {
        if let Some(fault) = self.form_fault(event) {
            return Err(AtomicFault::Refused(fault));
        }
        let (address, length) = self.covered(event);
        let count = units_of(self.size, address, length);
        self.changes_from(event, address / self.size.bytes(), count)
    }

    // Why an event is malformed.
    fn form_fault(&self, event: HistoryEvent) -> Option<HistoryFault>
        ensures { result ≡ form_fault (held self.now).opened event.entry }
    {
        form_fault(self.loads.as_slice(), self.stores.as_slice(), event)
    }

    // The first address of an event's operation, and its length.
    fn covered(&self, event: HistoryEvent) -> (u64, usize)
        ensures { result ≡ covered (held self.now).opened event.entry }
    {
        covered(self.loads.as_slice(), self.stores.as_slice(), event)
    }

    // Of so many units from number `from` on.
    #[tactic(auto, using(crate::proofs::Ranges::unit_below, crate::proofs::Ranges::number_below, crate::proofs::Ranges::sized, crate::proofs::Ranges::numbers_fit, crate::proofs::Ranges::ways_more))]
    fn changes_from(
        &self,
        event: HistoryEvent,
        from: u64,
        count: u64,
    ) -> Result<Vec<KeptUnit>, AtomicFault>
        requires fits { (from + count) * bytes_of self.now.size ≤ 2 ^ 64 }
        ensures units { IfOk result (λ us. map shown_unit us.items ≡ ways_from (held self.now) event.entry from count) }
        ensures told { OnOk result (halt_from (limit_of self.now) (held self.now) event.entry from count ≡ None) }
        ensures words { OnOk result (AreFew (held self.now) event.entry from (from + count)) }
        ensures halt { IfErr result (HaltIs (limit_of self.now) (held self.now) event.entry from count) }
        ensures fits { IfOk result (λ us. from + length us.items ≤ 2 ^ 64) }
    {
        let mut changes = Vec::new(self.alloc);
        for j in 0..count {
            let unit = self.changed(event, from + j)?;
            add_unit(&mut changes, unit)?;
        }
        Ok(changes)
    }

    fn changed(&self, event: HistoryEvent, number: u64) -> Result<KeptUnit, AtomicFault>
        requires fits { number * bytes_of self.now.size < 2 ^ 64 }
        ensures unit { IfOk result (λ u. shown_unit u ≡ changed (held self.now) event.entry number) }
        ensures few { OnOk result (is_over_at (limit_of self.now) (held self.now) event.entry number ≡ false) }
        ensures words { OnOk result (IsFewFor ((held self.now).units number) event.entry) }
        ensures left { OnOk result (is_stuck (held self.now) event.entry number ≡ false) }
        ensures fault { IfErr result (UnitFaultIs (limit_of self.now) (held self.now) event.entry number) }
    {
        let place = self.place(number);
        let loads = self.loads.as_slice();
        match self.units.get(&number) {
            Some(unit) => changed_unit(self.alloc, place, unit, event, self.limit, loads),
            None => {
                let unit = untouched_unit(self.alloc, place, self.image.as_slice(), self.rest)?;
                changed_unit(self.alloc, place, &unit, event, self.limit, loads)
            }
        }
    }

    // The unit of this number.
    fn place(&self, number: u64) -> UnitPlace
        requires { number * bytes_of self.now.size < 2 ^ 64 }
        ensures { result ≡ unit_at (held self.now).size number }
    {
        UnitPlace {
            first: number * self.size.bytes(),
            size: self.size.bytes(),
        }
    }

    fn open_or_close(&mut self, event: HistoryEvent)
        requires loads { vec_len self.old.loads < vec_capacity self.old.loads }
        requires stores { vec_len self.old.stores < vec_capacity self.old.stores }
        ensures held { held self.new
            ≡ record {
              image = (held self.old).image;
              rest = (held self.old).rest;
              size = (held self.old).size;
              opened = opened_after (held self.old).opened event.entry;
              units = (held self.old).units;
              words = (held self.old).words;
            } }
        ensures limit { limit_of self.new ≡ limit_of self.old }
    {
        match event {
            HistoryEvent::LoadRequest {
                number,
                address,
                length,
                enables,
            } => self.loads.push_reserved(Operation {
                number,
                address,
                length,
                enables,
            }),
            HistoryEvent::LoadResponse { number, bytes: _ } => close(&mut self.loads, number),
            HistoryEvent::StoreRequest {
                number,
                address,
                bytes,
                enables,
            } => {
                let length = bytes.len();
                self.stores.push_reserved(Operation {
                    number,
                    address,
                    length,
                    enables,
                });
            }
            HistoryEvent::StoreResponse { number } => close(&mut self.stores, number),
        }
    }
}

fn asks(load: Option<Operation>, address: u64) -> bool
    ensures { result ≡ asks load address }
{
    match load {
        None => false,
        Some(load) => {
            load.address <= address
                && u128::from(address) < u128::from(load.address) + load.length as u128
        }
    }
}

// Whether a load doesn't enable the byte at an address.
fn skips(load: Option<Operation>, address: u64) -> bool
    ensures { result ≡ skips load address }
{
    match load {
        None => false,
        Some(load) => !is_enabled(load.enables, address.saturating_sub(load.address)),
    }
}

// What may be returned of a byte, if this is what may be got there.
fn asked_set(skipped: bool, set: ByteSet) -> ByteSet
    ensures { result ≡ (if skipped then all_bytes else set) }
{
    if skipped { ByteSet::all() } else { set }
}

// The address of byte `i`.
fn byte_address(address: u64, i: usize) -> u64
    ensures { result ≡ address_of address i }
{
    address.saturating_add(i as u64)
}
