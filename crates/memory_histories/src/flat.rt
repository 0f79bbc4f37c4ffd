//! The judge of the flat law.

ghost use Rattle.std.specs.Prelude.{◌≡◌, ◌+◌, ◌<◌, ◌≤◌, ◌^◌, ◌++◌, [], ◌∷◌, true, length, if◌then◌else◌, None, Some, not, IfOk, IfErr};
ghost use Rattle.std.specs.Prelude.{OnOk, OnErr};
ghost use Rattle.std.specs.Prelude.{vec_len, vec_capacity, nat_eq};
ghost use Rattle.std.specs.List.{filter, find, list_any};
ghost use Rattle.std.specs.HashMap.{get, spare};
ghost use Rattle.std.specs.Option.{option_map};
ghost use Rattle.memory_histories.specs.Regular.{is_inside, load_response_fault, wrong_place};
ghost use Rattle.memory_histories.specs.Flat.{opening, initial, is_of, is_at, is_open, is_paid_by, may_return, asked, owed_bytes, stored};
ghost use Rattle.memory_histories.specs.Flat.{with_value, with_bytes, flat_fault, flat_step, flat_after};
ghost use Rattle.memory_histories.specs.FlatShown.{shown, standing, owed_set, FlatFaultIs, IsOwedSet};

use crate::events::{HistoryEvent, HistoryFault, MAX_LENGTH, Rest, StepFault};
use crate::forms::{
    enables_any, has_enabled, is_enabled, is_inside, request_fault, store_response_fault,
};
use crate::reasons::{Owed, StoreName};
use crate::regular::wrong_byte;
use crate::sets::ByteSet;
use std::alloc::{AllocError, Global};
use std::collections::HashMap;

/// A byte of an open load, and what it is owed.
#[derive(Clone, Copy, PartialEq, Eq, Debug)]
pub struct OwedByte {
    /// The number of the load.
    pub number: u64,
    /// The byte's address.
    pub address: u64,
    /// What stood there at the load's request. Nothing is known of a byte that isn't enabled.
    pub owed: Owed,
}

/// A memory judged by the flat law: each operation takes effect at its request. It keeps the last
/// byte of each address, and what open loads are owed.
#[derive(Drop)]
pub struct FlatHistory {
    image: Vec<u8>,
    rest: Rest,
    moment: u64,
    written: HashMap<u64, Owed>,
    stores: Vec<u64>,
    loads: Vec<OwedByte>,
}

#[tactic(auto, unfolding(crate::specs::FlatShown::shown))]
impl FlatHistory {
    /// Memory before the first event. The image is the bytes from address 0 on, and `rest` says
    /// what is beyond. `AllocError`: too little memory.
    pub fn new(alloc: Global, image: &[u8], rest: Rest) -> Result<FlatHistory, AllocError>
        ensures { IfOk result (λ m. shown m ≡ opening image.now rest) }
    {
        let image = Vec::from_slice(alloc, image)?;
        let written = HashMap::new(alloc);
        let stores = Vec::new(alloc);
        let loads = Vec::new(alloc);
        Ok(FlatHistory {
            image,
            rest,
            moment: 0,
            written,
            stores,
            loads,
        })
    }

    /// Why the history with this event isn't of the law.
    #[inline(always)]
    pub fn fault(&self, event: HistoryEvent) -> Option<HistoryFault>
        ensures { result ≡ flat_fault (shown self.now) event.entry }
    {
        match event {
            HistoryEvent::LoadRequest {
                number,
                address,
                length,
                enables,
            } => request_fault(
                is_inside(address, length),
                enables_any(length, enables),
                self.has_open_load(number),
            ),
            HistoryEvent::LoadResponse { number, bytes } => self.load_response_fault(number, bytes),
            HistoryEvent::StoreRequest {
                number,
                address,
                bytes,
                enables,
            } => request_fault(
                is_inside(address, bytes.len()),
                has_enabled(bytes, enables),
                self.has_open_store(number),
            ),
            HistoryEvent::StoreResponse { number } => {
                store_response_fault(self.has_open_store(number))
            }
        }
    }

    /// What an open load is owed for the byte at an address, if it asks for it.
    pub fn owed(&self, number: u64, address: u64) -> Option<Owed>
        ensures { result ≡ option_map (λ l. l.owed) (find (is_at number address) (shown self.now).loads) }
    {
        match owed_byte(self.loads.as_slice(), number, address) {
            None => None,
            Some(load) => Some(load.owed),
        }
    }

    /// What an open load may return for the byte at an address, if it asks for it.
    pub fn may_return(&self, number: u64, address: u64) -> Option<ByteSet>
        ensures { IsOwedSet (find (is_at number address) (shown self.now).loads) result }
    {
        match owed_byte(self.loads.as_slice(), number, address) {
            None => None,
            Some(load) => Some(owed_set(load.owed)),
        }
    }

    /// Takes one event. `Ok`: the history with it is of the law. A refusal names the first fault in
    /// the order of [`HistoryFault`].
    #[inline(always)]
    pub fn step(&mut self, event: HistoryEvent) -> Result<(), StepFault>
        ensures ok { OnOk result (flat_step (shown self.old) event.entry ≡ Some (shown self.new)) }
        ensures fault { IfErr result (FlatFaultIs (shown self.old) event.entry) }
        ensures unchanged { OnErr result (shown self.new ≡ shown self.old) }
    {
        if let Some(fault) = self.fault(event) {
            return Err(StepFault::Refused(fault));
        }
        if self.moment == u64::MAX {
            return Err(StepFault::TooLong);
        }
        self.change(event)?;
        Ok(())
    }

    // Whether a load is open under this number.
    fn has_open_load(&self, number: u64) -> bool
        ensures { result ≡ list_any (is_of number) (shown self.now).loads }
    {
        self.loads.iter().any(|load| is_of(load, number))
    }

    // Whether a store is open under this number.
    fn has_open_store(&self, number: u64) -> bool
        ensures { result ≡ list_any (is_open number) (shown self.now).stores }
    {
        self.stores.iter().any(|store| *store == number)
    }

    fn load_response_fault(&self, number: u64, bytes: &[u8]) -> Option<HistoryFault>
        ensures { result ≡ load_response_fault may_return (filter (is_of number) (shown self.now).loads) bytes.now }
    {
        let loads = self.loads.as_slice();
        let length = length_of(loads, number);
        if length == 0 {
            Some(HistoryFault::NotOpen)
        } else if length == bytes.len() {
            wrong_byte(wrong_place(loads, number, bytes))
        } else {
            Some(HistoryFault::WrongLength)
        }
    }

    #[inline(always)]
    fn change(&mut self, event: HistoryEvent) -> Result<(), AllocError>
        requires moment { (shown self.old).moment < 18446744073709551615 }
        requires law { flat_fault (shown self.old) event ≡ None }
        ensures ok { OnOk result (shown self.new ≡ flat_after (shown self.old) event.entry) }
        ensures err { OnErr result (shown self.new ≡ shown self.old) }
    {
        match event {
            HistoryEvent::LoadRequest {
                number,
                address,
                length,
                enables,
            } => self.request_load(number, address, length, enables)?,
            HistoryEvent::LoadResponse { number, bytes: _ } => end_load(&mut self.loads, number),
            HistoryEvent::StoreRequest {
                number,
                address,
                bytes,
                enables,
            } => self.request_store(number, address, bytes, enables)?,
            HistoryEvent::StoreResponse { number } => end_store(&mut self.stores, number),
        }
        self.moment += 1;
        Ok(())
    }

    fn request_load(
        &mut self,
        number: u64,
        address: u64,
        length: usize,
        enables: u64,
    ) -> Result<(), AllocError>
        requires { is_inside address length ≡ true }
        ensures ok { OnOk result
            (shown self.new
            ≡ record (shown self.old) {
              loads =
                  (shown self.old).loads
                  ++ owed_bytes (asked (shown self.old).memory address enables) number address length;
            }) }
        ensures err { OnErr result (shown self.new ≡ shown self.old) }
    {
        self.loads.reserve(length)?;
        let memory = (self.image.as_slice(), self.rest, &self.written);
        add_load(&mut self.loads, memory, number, address, length, enables);
        Ok(())
    }

    // A store is open, and its bytes stand in memory.
    fn request_store(
        &mut self,
        number: u64,
        address: u64,
        bytes: &[u8],
        enables: u64,
    ) -> Result<(), AllocError>
        requires { is_inside address (length bytes.now) ≡ true }
        ensures ok { OnOk result
            (shown self.new
            ≡ record (shown self.old) {
              memory =
                  stored (shown self.old).memory (record { number = number; requested = (shown self.old).moment })
                  address bytes.now enables;
              stores = (shown self.old).stores ++ number ∷ [];
            }) }
        ensures err { OnErr result (shown self.new ≡ shown self.old) }
    {
        self.stores.reserve(1)?;
        self.written.reserve(bytes.len())?;
        self.stores.push_reserved(number);
        let store = StoreName {
            number,
            requested: self.moment,
        };
        write_bytes(&mut self.written, store, address, bytes, enables);
        Ok(())
    }
}

fn is_of(load: &OwedByte, number: u64) -> bool
    ensures { result ≡ is_of number load.now }
{
    load.number == number
}

// Whether it is the one at this address.
fn is_at(load: &OwedByte, number: u64, address: u64) -> bool
    ensures { result ≡ is_at number address load.now }
{
    is_of(load, number) && load.address == address
}

fn owed_byte(loads: &[OwedByte], number: u64, address: u64) -> Option<OwedByte>
    ensures { result ≡ find (is_at number address) loads.now }
{
    loads
        .iter()
        .copied()
        .find(|load| is_at(load, number, address))
}

// 0 if no load is open under this number.
fn length_of(loads: &[OwedByte], number: u64) -> usize
    ensures { result ≡ length (filter (is_of number) loads.now) }
{
    loads.iter().filter(|load| is_of(load, number)).count()
}

// The first byte that the open load may not return.
fn wrong_place(loads: &[OwedByte], number: u64, bytes: &[u8]) -> Option<usize>
    ensures { result ≡ wrong_place may_return (filter (is_of number) loads.now) bytes.now }
{
    loads
        .iter()
        .filter(|load| is_of(load, number))
        .zip(bytes.iter())
        .position(|(load, byte)| !is_paid_by(load.owed, *byte))
}

// Whether a load that is owed this may return a byte.
fn is_paid_by(owed: Owed, byte: u8) -> bool
    ensures { result ≡ is_paid_by owed byte }
{
    match owed {
        Owed::Unknown => true,
        Owed::Initial { byte: initial } => initial == byte,
        Owed::Stored {
            byte: stored,
            store: _,
        } => stored == byte,
    }
}

fn owed_set(owed: Owed) -> ByteSet
    ensures { result ≡ owed_set owed }
{
    match owed {
        Owed::Unknown => ByteSet::all(),
        Owed::Initial { byte } => ByteSet::none().with(byte),
        Owed::Stored { byte, store: _ } => ByteSet::none().with(byte),
    }
}

// What stands at an address.
fn standing(image: &[u8], rest: Rest, written: &HashMap<u64, Owed>, address: u64) -> Owed
    ensures { result ≡ standing image.now rest (get nat_eq written.now) address }
{
    match written.get(&address) {
        Some(owed) => *owed,
        None => initial(image.get(address as usize).copied(), rest),
    }
}

// What stands there before the first store: the image's byte, or the rest's.
fn initial(first: Option<u8>, rest: Rest) -> Owed
    ensures { result ≡ initial first rest }
{
    match first {
        Some(byte) => Owed::Initial { byte },
        None => match rest {
            Rest::Zeros => Owed::Initial { byte: 0 },
            Rest::Unknown => Owed::Unknown,
        },
    }
}

// What a load asks for there: of a byte that isn't enabled nothing is known.
fn asked(
    image: &[u8],
    rest: Rest,
    written: &HashMap<u64, Owed>,
    address: u64,
    enabled: bool,
) -> Owed
    ensures { result ≡ (if enabled then standing image.now rest (get nat_eq written.now) address else Owed.Unknown) }
{
    if enabled {
        standing(image, rest, written, address)
    } else {
        Owed::Unknown
    }
}

fn add_load(
    loads: &mut Vec<OwedByte>,
    memory: (&[u8], Rest, &HashMap<u64, Owed>),
    number: u64,
    address: u64,
    length: usize,
    enables: u64,
)
    requires room { vec_len loads.old + length ≤ vec_capacity loads.old }
    requires inside { address + length ≤ 2 ^ 64 }
    ensures { loads.new.items
        ≡ loads.old.items
        ++ owed_bytes (asked (standing memory.entry.0.now memory.entry.1 (get nat_eq memory.entry.2.now)) address enables) number
        address length }
{
    let (image, rest, written) = memory;
    for k in 0..length {
        let address = address + k as u64;
        loads.push_reserved(OwedByte {
            number,
            address,
            owed: asked(image, rest, written, address, is_enabled(enables, k as u64)),
        });
    }
}

// This stands at an address from now on.
fn write_byte(written: &mut HashMap<u64, Owed>, address: u64, owed: Owed)
    requires { 0 < spare written.old }
    ensures at { get nat_eq written.new ≡ with_value (get nat_eq written.old) address (Some owed) }
    ensures room { spare written.old ≤ spare written.new + 1 }
{
    let _before = written.insert(address, owed);
}

fn write_bytes(
    written: &mut HashMap<u64, Owed>,
    store: StoreName,
    address: u64,
    bytes: &[u8],
    enables: u64,
)
    requires room { length bytes.now ≤ spare written.old }
    requires inside { address + length bytes.now ≤ 2 ^ 64 }
    ensures { get nat_eq written.new ≡ with_bytes (get nat_eq written.old) (λ b. Some (Owed.Stored b store)) address bytes.now enables }
{
    let mut left = enables;
    for (k, byte) in bytes.iter().enumerate() {
        if left % 2 == 1 {
            let owed = Owed::Stored { byte: *byte, store };
            write_byte(written, address + k as u64, owed);
        }
        left /= 2;
    }
}

fn end_load(loads: &mut Vec<OwedByte>, number: u64)
    ensures { loads.new.items ≡ filter (λ l. not (is_of number l)) loads.old.items }
{
    loads.retain(|load| !is_of(load, number));
}

fn end_store(stores: &mut Vec<u64>, number: u64)
    ensures { stores.new.items ≡ filter (λ n. not (is_open number n)) stores.old.items }
{
    stores.retain(|store| *store != number);
}
