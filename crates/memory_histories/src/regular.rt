//! The judge of the regular law.

ghost use Rattle.std.specs.Prelude.{◌≡◌, ◌<◌, ◌++◌, true, length, None, Some, map, not, IfSome, IfOk, IfErr, OnOk, OnErr};
ghost use Rattle.std.specs.List.{filter, find, list_any};
ghost use Rattle.std.specs.Option.{option_map};
ghost use Rattle.memory_histories.specs.declared.events.HistoryEvent.TheVariants.{LoadRequest, LoadResponse, StoreRequest, StoreResponse};
ghost use Rattle.memory_histories.specs.Windows.{Windows, opening, is_open, store_bytes, load_bytes, windows_after};
ghost use Rattle.memory_histories.specs.Regular.{fault, is_inside, wrong_byte};
ghost use Rattle.memory_histories.specs.Kept.{opened_at, after_stores, answered_after, kept_fault, kept_step, is_open_of, is_open_at};
ghost use Rattle.memory_histories.specs.Kept.{shown_set};
ghost use Rattle.memory_histories.specs.Kept.{StandsFor};
ghost use Rattle.memory_histories.specs.Shown.{kept, FaultIs, KeptFaultIs, StepFaultIs, IsSetOf};
ghost use Rattle.memory_histories.specs.Parts.{IsOnly};
ghost use Rattle.memory_histories.specs.Loads.{IsOnlyLoad};

use crate::answered::{KeptUnit, answer_part, changes, put_changes};
use crate::events::{HistoryEvent, HistoryFault, MAX_LENGTH, Rest, StepFault};
use crate::forms::{enables_any, has_enabled, is_inside, request_fault, store_response_fault};
use crate::kept::{add_store, end_store, has_open_at, only_part, open_load, open_store};
use crate::loads::{OpenLoad, end_load, has_open_load, load_response_fault, only_load, open_set};
use crate::parts::{MAX_PARTS, StorePart, has_open};
use crate::sets::ByteSet;
use crate::spares::take_spare;
use std::alloc::{AllocError, Global};
use std::collections::HashMap;

/// A memory judged by the regular law.
///
/// It keeps of each byte the stores that a load may still see, and for each byte of an open load
/// what it may return. Memory grows with open operations and stored bytes, and by eight answered
/// loads' room, however long the history is. An event looks at the open operations and at its own
/// units of eight addresses.
#[derive(Drop)]
pub struct RegularMemory {
    image: Vec<u8>,
    rest: Rest,
    moment: u64,
    stores: Vec<StorePart>,
    units: HashMap<u64, KeptUnit>,
    loads: Vec<OpenLoad>,
    spares: Vec<Vec<ByteSet>>,
}

#[tactic(auto, unfolding(crate::specs::Shown::kept))]
impl RegularMemory {
    /// Memory before the first event. The image is the bytes from address 0 on, and `rest` says
    /// what is beyond. `AllocError`: too little memory.
    pub fn new(alloc: Global, image: &[u8], rest: Rest) -> Result<RegularMemory, AllocError>
        ensures { IfOk result (λ m. StandsFor (kept m) (opening image.now rest)) }
    {
        let image = Vec::from_slice(alloc, image)?;
        Ok(RegularMemory {
            image,
            rest,
            moment: 0,
            stores: Vec::new(alloc),
            units: HashMap::new(alloc),
            loads: Vec::new(alloc),
            spares: Vec::new(alloc),
        })
    }

    /// Why the history with this event isn't of the law.
    pub fn fault(&self, event: HistoryEvent) -> Option<HistoryFault>
        ensures { (w : Windows) → StandsFor (kept self.now) w → result ≡ fault w event.entry }
    {
        self.kept_fault(event)
    }

    /// What an open load may return now for the byte at an address, if it asks for it.
    pub fn may_return(&self, number: u64, address: u64) -> Option<ByteSet>
        ensures { (w : Windows) → StandsFor (kept self.now) w → IsSetOf w number address result }
    {
        self.kept_set(number, address)
    }

    /// Takes one event. `Ok`: the history with it is of the law. A refusal names the first fault in
    /// the order of [`HistoryFault`].
    #[inline(always)]
    pub fn step(&mut self, event: HistoryEvent) -> Result<(), StepFault>
        ensures ok { (w : Windows) → StandsFor (kept self.old) w
            → OnOk result
            ((fault w event.entry ≡ None) × StandsFor (kept self.new) (windows_after w event.entry)) }
        ensures fault { (w : Windows) → StandsFor (kept self.old) w → IfErr result (StepFaultIs w event.entry) }
        ensures unchanged { OnErr result (kept self.new ≡ kept self.old) }
    {
        self.kept_step(event)
    }

    fn kept_fault(&self, event: HistoryEvent) -> Option<HistoryFault>
        ensures { result ≡ kept_fault (kept self.now) event.entry }
    {
        match event {
            HistoryEvent::LoadRequest {
                number,
                address,
                length,
                enables,
            } => self.load_request_fault(number, address, length, enables),
            HistoryEvent::LoadResponse { number, bytes } => {
                self.load_response_fault(number, self.place_of_load(number), bytes)
            }
            HistoryEvent::StoreRequest {
                number,
                address,
                bytes,
                enables,
            } => self.store_request_fault(number, address, bytes, enables),
            HistoryEvent::StoreResponse { number } => {
                self.store_response_fault(number, self.place_of_store(number))
            }
        }
    }

    fn place_of_load(&self, number: u64) -> Option<usize>
        ensures { IfSome result (IsOnlyLoad number self.now.loads.items) }
    {
        only_load(self.loads.as_slice(), number)
    }

    // Where a store's only part stands.
    fn place_of_store(&self, number: u64) -> Option<usize>
        ensures { IfSome result (IsOnly number self.now.stores.items) }
    {
        only_part(self.stores.as_slice(), number)
    }

    fn load_request_fault(
        &self,
        number: u64,
        address: u64,
        length: usize,
        enables: u64,
    ) -> Option<HistoryFault>
        ensures { result ≡ kept_fault (kept self.now) (LoadRequest number address length enables) }
    {
        request_fault(
            is_inside(address, length),
            enables_any(length, enables),
            self.has_open_load(number),
        )
    }

    fn store_request_fault(
        &self,
        number: u64,
        address: u64,
        bytes: &[u8],
        enables: u64,
    ) -> Option<HistoryFault>
        ensures { result ≡ kept_fault (kept self.now) (StoreRequest number address bytes.entry enables) }
    {
        request_fault(
            is_inside(address, bytes.len()),
            has_enabled(bytes, enables),
            self.has_open_store(number),
        )
    }

    // Why a store may not be answered; its only part stands here.
    fn store_response_fault(&self, number: u64, place: Option<usize>) -> Option<HistoryFault>
        requires { IfSome place (IsOnly number self.now.stores.items) }
        ensures { result ≡ kept_fault (kept self.now) (StoreResponse number) }
    {
        store_response_fault(self.has_answered_store(number, place))
    }

    // Whether a load is open under this number.
    fn has_open_load(&self, number: u64) -> bool
        ensures { result ≡ list_any (is_open_of number) (kept self.now).open_bytes }
    {
        has_open_load(self.loads.as_slice(), number)
    }

    // Whether a store is open under this number.
    fn has_open_store(&self, number: u64) -> bool
        ensures { result ≡ list_any (is_open number) (kept self.now).stores }
    {
        has_open(self.stores.as_slice(), number)
    }

    fn has_answered_store(&self, number: u64, place: Option<usize>) -> bool
        requires { IfSome place (IsOnly number self.now.stores.items) }
        ensures { result ≡ list_any (is_open number) (kept self.now).stores }
    {
        has_open_at(self.stores.as_slice(), number, place)
    }

    #[inline(always)]
    fn load_response_fault(
        &self,
        number: u64,
        place: Option<usize>,
        bytes: &[u8],
    ) -> Option<HistoryFault>
        requires { IfSome place (IsOnlyLoad number self.now.loads.items) }
        ensures { result ≡ kept_fault (kept self.now) (LoadResponse number bytes.entry) }
    {
        load_response_fault(self.loads.as_slice(), number, place, bytes)
    }

    fn kept_set(&self, number: u64, address: u64) -> Option<ByteSet>
        ensures { result ≡ option_map shown_set (find (is_open_at number address) (kept self.now).open_bytes) }
    {
        open_set(self.loads.as_slice(), number, address)
    }

    // Each kind is told apart once, or not at all if the caller knows it.
    #[inline(always)]
    fn kept_step(&mut self, event: HistoryEvent) -> Result<(), StepFault>
        ensures ok { OnOk result (kept_step (kept self.old) event.entry ≡ Some (kept self.new)) }
        ensures fault { IfErr result (KeptFaultIs (kept self.old) event.entry) }
        ensures unchanged { OnErr result (kept self.new ≡ kept self.old) }
    {
        match event {
            HistoryEvent::LoadRequest {
                number,
                address,
                length,
                enables,
            } => self.take_load_request(number, address, length, enables),
            HistoryEvent::LoadResponse { number, bytes } => self.take_load_response(number, bytes),
            HistoryEvent::StoreRequest {
                number,
                address,
                bytes,
                enables,
            } => self.take_store_request(number, address, bytes, enables),
            HistoryEvent::StoreResponse { number } => self.take_store_response(number),
        }
    }

    // Takes the request of a load.
    #[inline(always)]
    fn take_load_request(
        &mut self,
        number: u64,
        address: u64,
        length: usize,
        enables: u64,
    ) -> Result<(), StepFault>
        ensures ok { OnOk result (kept_step (kept self.old) (LoadRequest number address length enables) ≡ Some (kept self.new)) }
        ensures fault { IfErr result (KeptFaultIs (kept self.old) (LoadRequest number address length enables)) }
        ensures unchanged { OnErr result (kept self.new ≡ kept self.old) }
    {
        self.refuse(self.load_request_fault(number, address, length, enables))?;
        self.request_load(number, address, length, enables)?;
        self.moment += 1;
        Ok(())
    }

    // Takes the answer to a load.
    #[inline(always)]
    fn take_load_response(&mut self, number: u64, bytes: &[u8]) -> Result<(), StepFault>
        ensures ok { OnOk result (kept_step (kept self.old) (LoadResponse number bytes.entry) ≡ Some (kept self.new)) }
        ensures fault { IfErr result (KeptFaultIs (kept self.old) (LoadResponse number bytes.entry)) }
        ensures unchanged { OnErr result (kept self.new ≡ kept self.old) }
    {
        let place = self.place_of_load(number);
        self.refuse(self.load_response_fault(number, place, bytes))?;
        end_load(&mut self.loads, &mut self.spares, number, place);
        self.moment += 1;
        Ok(())
    }

    // Takes the request of a store.
    #[inline(always)]
    fn take_store_request(
        &mut self,
        number: u64,
        address: u64,
        bytes: &[u8],
        enables: u64,
    ) -> Result<(), StepFault>
        ensures ok { OnOk result (kept_step (kept self.old) (StoreRequest number address bytes.entry enables) ≡ Some (kept self.new)) }
        ensures fault { IfErr result (KeptFaultIs (kept self.old) (StoreRequest number address bytes.entry enables)) }
        ensures unchanged { OnErr result (kept self.new ≡ kept self.old) }
    {
        self.refuse(self.store_request_fault(number, address, bytes, enables))?;
        self.request_store(number, address, bytes, enables)?;
        self.moment += 1;
        Ok(())
    }

    // Takes the answer to a store.
    #[inline(always)]
    fn take_store_response(&mut self, number: u64) -> Result<(), StepFault>
        ensures ok { OnOk result (kept_step (kept self.old) (StoreResponse number) ≡ Some (kept self.new)) }
        ensures fault { IfErr result (KeptFaultIs (kept self.old) (StoreResponse number)) }
        ensures unchanged { OnErr result (kept self.new ≡ kept self.old) }
    {
        let place = self.place_of_store(number);
        self.refuse(self.store_response_fault(number, place))?;
        self.answer_store(number, place)?;
        self.moment += 1;
        Ok(())
    }

    // Refuses an event with a fault, and each one once numbers are used up.
    fn refuse(&self, fault: Option<HistoryFault>) -> Result<(), StepFault>
        ensures none { OnOk result (fault ≡ None) }
        ensures room { OnOk result ((kept self.now).moment < 18446744073709551615) }
        ensures fault { IfErr result (FaultIs fault (kept self.now).moment) }
    {
        if let Some(fault) = fault {
            return Err(StepFault::Refused(fault));
        }
        if self.moment == u64::MAX {
            return Err(StepFault::TooLong);
        }
        Ok(())
    }

    fn request_load(
        &mut self,
        number: u64,
        address: u64,
        length: usize,
        enables: u64,
    ) -> Result<(), AllocError>
        requires { is_inside address length ≡ true }
        ensures ok { OnOk result
            (kept self.new
            ≡ record (kept self.old) {
              open_bytes =
                  (kept self.old).open_bytes
                  ++ map (opened_at (kept self.old).image (kept self.old).rest (kept self.old).stores
                  (kept self.old).answered)
                  (load_bytes number address length enables (kept self.old).moment);
            }) }
        ensures err { OnErr result (kept self.new ≡ kept self.old) }
    {
        let alloc = *self.stores.allocator();
        self.loads.reserve(1)?;
        let sets = take_spare(alloc, &mut self.spares, length)?;
        let memory = (
            self.image.as_slice(),
            self.rest,
            self.stores.as_slice(),
            &self.units,
        );
        let load = open_load(sets, memory, number, address, length, enables, self.moment);
        self.loads.push_reserved(load);
        Ok(())
    }

    fn request_store(
        &mut self,
        number: u64,
        address: u64,
        bytes: &[u8],
        enables: u64,
    ) -> Result<(), AllocError>
        requires { is_inside address (length bytes.now) ≡ true }
        ensures ok { OnOk result
            (let added = store_bytes number address bytes.now enables (kept self.old).moment in
            kept self.new
            ≡ record (kept self.old) {
              stores = (kept self.old).stores ++ added;
              open_bytes = map (after_stores added) (kept self.old).open_bytes;
            }) }
        ensures err { OnErr result (kept self.new ≡ kept self.old) }
    {
        self.stores.reserve(MAX_PARTS)?;
        add_store(
            &mut self.stores,
            self.loads.as_mut_slice(),
            number,
            address,
            bytes,
            enables,
            self.moment,
        );
        Ok(())
    }

    // The store is answered. Its only part stands here, if it has one alone.
    fn answer_store(&mut self, number: u64, place: Option<usize>) -> Result<(), AllocError>
        requires { IfSome place (IsOnly number self.old.stores.items) }
        ensures ok { OnOk result
            (let ending = filter (is_open number) (kept self.old).stores in
            kept self.new
            ≡ record (kept self.old) {
              stores = filter (λ s. not (is_open number s)) (kept self.old).stores;
              answered =
                  λ unit. answered_after (kept self.old).moment ending unit ((kept self.old).answered unit);
            }) }
        ensures err { OnErr result (kept self.new ≡ kept self.old) }
    {
        match place {
            Some(place) => self.answer_part(number, place),
            None => self.answer_parts(number),
        }
    }

    fn answer_part(&mut self, number: u64, place: usize) -> Result<(), AllocError>
        requires { IsOnly number self.old.stores.items place }
        ensures ok { OnOk result
            (let ending = filter (is_open number) (kept self.old).stores in
            kept self.new
            ≡ record (kept self.old) {
              stores = filter (λ s. not (is_open number s)) (kept self.old).stores;
              answered =
                  λ unit. answered_after (kept self.old).moment ending unit ((kept self.old).answered unit);
            }) }
        ensures err { OnErr result (kept self.new ≡ kept self.old) }
    {
        let alloc = *self.stores.allocator();
        answer_part(alloc, &mut self.units, &self.stores[place], self.moment)?;
        self.stores.remove(place);
        Ok(())
    }

    // The same, however many parts it has.
    fn answer_parts(&mut self, number: u64) -> Result<(), AllocError>
        ensures ok { OnOk result
            (let ending = filter (is_open number) (kept self.old).stores in
            kept self.new
            ≡ record (kept self.old) {
              stores = filter (λ s. not (is_open number s)) (kept self.old).stores;
              answered =
                  λ unit. answered_after (kept self.old).moment ending unit ((kept self.old).answered unit);
            }) }
        ensures err { OnErr result (kept self.new ≡ kept self.old) }
    {
        let alloc = *self.stores.allocator();
        let ending = open_store(alloc, self.stores.as_slice(), number)?;
        let changes = changes(alloc, &self.units, ending.as_slice(), self.moment)?;
        self.units.reserve(changes.len())?;
        put_changes(&mut self.units, changes);
        end_store(&mut self.stores, number);
        Ok(())
    }
}

// The fault of a first wrong byte at this place.
pub(crate) fn wrong_byte(place: Option<usize>) -> Option<HistoryFault>
    ensures { result ≡ wrong_byte place }
{
    match place {
        None => None,
        Some(place) => Some(HistoryFault::WrongByte { place }),
    }
}
