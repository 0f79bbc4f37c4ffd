//! The stores of a log, each whole: most answers are right, and no byte is looked at.

ghost use Rattle.std.specs.Prelude.{◌≡◌, ◌≤◌, ◌<◌, ◌==◌, ◌+◌, if◌then◌else◌, None, length, get_or, slice_get, take, vec_len, vec_capacity};
ghost use Rattle.std.specs.Prelude.{count_ones};
ghost use Rattle.std.specs.Int.{bit_at};
ghost use Rattle.std.specs.Int.Count.{ones_in};
ghost use Rattle.memory_histories.specs.Parts.{lane_at};
ghost use Rattle.memory_histories.specs.Windows.{store_bytes};
ghost use Rattle.history_reasons.specs.Stores.{bytes_in, all_lanes, lanes_in, first_in, bytes_of, stored_at, with_store, after_answer};
ghost use Rattle.history_reasons.specs.Stores.{without_first, cut, gone_stores, gone_bytes};

use memory_histories::{MAX_LENGTH, StoreByte};

/// A store: its bytes from an address on, their enables, its window. Bytes before `from` are
/// forgotten.
#[derive(Clone, Copy)]
pub struct KeptStore {
    pub(crate) number: u64,
    pub(crate) address: u64,
    pub(crate) bytes: [u8; 64],
    pub(crate) length: usize,
    pub(crate) enables: u64,
    pub(crate) from: usize,
    pub(crate) began: u64,
    pub(crate) ended: Option<u64>,
}

#[tactic(auto, using(crate::proofs::StoreLemmas::new_bytes))]
pub(crate) fn kept_store(
    number: u64,
    address: u64,
    bytes: &[u8],
    enables: u64,
    moment: u64,
) -> KeptStore
    requires { length bytes.now ≤ 64 }
    ensures number { result.number ≡ number }
    ensures bytes { bytes_of result ≡ store_bytes number address bytes.now enables moment }
{
    KeptStore {
        number,
        address,
        bytes: in_full(bytes),
        length: bytes.len(),
        enables,
        from: 0,
        began: moment,
        ended: None,
    }
}

// Bytes with zeros behind them.
fn in_full(bytes: &[u8]) -> [u8; 64]
    requires { length bytes.now ≤ 64 }
    ensures { take (length bytes.now) result ≡ bytes.now }
{
    let mut full = [0; MAX_LENGTH];
    if bytes.len() == 8 {
        // (most stores: they are copied by no call)
        full[..8].copy_from_slice(bytes);
    } else {
        full[..bytes.len()].copy_from_slice(bytes);
    }
    full
}

pub(crate) fn push_store(stores: &mut Vec<KeptStore>, store: KeptStore, count: usize)
    requires room { vec_len stores.old + 1 ≤ vec_capacity stores.old }
    requires count { count ≡ length (bytes_of store) }
    ensures { stores.new.items ≡ with_store store stores.old.items }
{
    if count != 0 {
        stores.push_reserved(store);
    }
}

// The bytes of a store.
fn bytes_in(store: &KeptStore) -> &[u8]
    ensures bytes { result.now ≡ bytes_in store.now }
    ensures few { length result.now ≤ 64 }
{
    &store.bytes[..store.length.min(MAX_LENGTH)]
}

fn enabled_byte(bytes: &[u8], enables: u64, place: usize) -> Option<u8>
    requires { place < 64 }
    ensures { result ≡ (if bit_at enables place == 1 then slice_get bytes.now place else None) }
{
    if (enables >> place) % 2 == 1 {
        bytes.get(place).copied()
    } else {
        None
    }
}

// A store's byte at a place, if it is enabled.
fn lane(store: &KeptStore, place: usize) -> Option<u8>
    ensures { result ≡ get_or (all_lanes store.now) place None }
{
    let bytes = bytes_in(store);
    if place < bytes.len() {
        enabled_byte(bytes, store.enables, place)
    } else {
        None
    }
}

// A store's byte at an address, unless forgotten.
fn lane_at(store: &KeptStore, address: u64) -> Option<u8>
    ensures { result ≡ lane_at (first_in store.now) (lanes_in store.now) address }
{
    if store.address <= address && store.from as u64 <= address - store.address {
        lane(store, (address - store.address) as usize)
    } else {
        None
    }
}

// The same with its window.
pub(crate) fn stored_at(store: &KeptStore, address: u64) -> Option<StoreByte>
    ensures { result ≡ stored_at address store.now }
{
    match lane_at(store, address) {
        Some(byte) => Some(StoreByte {
            number: store.number,
            address,
            byte,
            began: store.began,
            ended: store.ended,
        }),
        None => None,
    }
}

#[tactic(auto, using(crate::proofs::StoreLemmas::few_ones))]
pub(crate) fn enabled_count(length: usize, enables: u64) -> usize
    requires { length ≤ 64 }
    ensures count { result ≡ ones_in length enables }
    ensures few { result ≤ length }
{
    first_bits(length, enables).count_ones() as usize
}

// So many first bits, and zeros above them.
#[tactic(auto, using(crate::proofs::StoreLemmas::first_ones, crate::proofs::StoreLemmas::all_ones))]
fn first_bits(length: usize, enables: u64) -> u64
    requires { length ≤ 64 }
    ensures { count_ones result ≡ ones_in length enables }
{
    if length < 64 {
        enables % (1 << length)
    } else {
        enables
    }
}

// Bytes of a store that aren't forgotten; mostly all.
#[tactic(auto, using(crate::proofs::StoreLemmas::whole_count))]
fn byte_count(store: &KeptStore) -> usize
    ensures { result ≡ length (bytes_of store.now) }
{
    if store.from == 0 {
        enabled_count(bytes_in(store).len(), store.enables)
    } else {
        left_count(store)
    }
}

// The same, lane by lane.
#[tactic(auto, using(crate::proofs::StoreLemmas::count_more, crate::proofs::StoreLemmas::count_past, crate::proofs::StoreLemmas::count_of))]
fn left_count(store: &KeptStore) -> usize
    ensures { result ≡ length (bytes_of store.now) }
{
    let mut count = 0;
    for place in store.from..bytes_in(store).len() {
        if lane(store, place).is_some() {
            count += 1;
        }
    }
    count
}

pub(crate) fn end_store(store: &mut KeptStore, number: u64, moment: u64)
    ensures { store.new ≡ after_answer number moment store.old }
{
    if store.ended.is_none() && store.number == number {
        store.ended = Some(moment);
    }
}

// How many first stores lie within so many bytes.
#[tactic(auto, using(crate::proofs::StoreLemmas::gone_more, crate::proofs::StoreLemmas::left_more))]
pub(crate) fn gone_stores(stores: &[KeptStore], count: usize) -> (usize, usize)
    ensures stores { result.0 ≡ gone_stores count stores.now }
    ensures bytes { result.1 ≡ gone_bytes count stores.now }
    ensures few { result.0 ≤ length stores.now }
{
    let mut left = count;
    for (place, store) in stores.iter().enumerate() {
        let bytes = byte_count(store);
        if bytes > left {
            return (place, left);
        }
        left -= bytes;
    }
    (stores.len(), left)
}

/// The first store loses its first bytes.
pub(crate) fn cut(stores: &mut [KeptStore], count: usize)
    ensures { stores.new ≡ cut count stores.old }
{
    if let Some(store) = stores.first_mut() {
        forget_bytes(store, count);
    }
}

fn forget_bytes(store: &mut KeptStore, count: usize)
    ensures { store.new ≡ without_first count store.old }
{
    store.from = place_behind(store, count);
}

#[tactic(auto, using(crate::proofs::StoreLemmas::with_more, crate::proofs::StoreLemmas::with_past))]
fn place_behind(store: &KeptStore, count: usize) -> usize
    ensures { result ≡ (without_first count store.now).from }
{
    let mut left = count;
    let mut behind = store.from;
    for place in store.from..bytes_in(store).len() {
        if left == 0 {
            break;
        }
        if lane(store, place).is_some() {
            left -= 1;
        }
        behind = place + 1;
    }
    behind
}
