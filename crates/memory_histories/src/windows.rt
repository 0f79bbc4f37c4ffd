//! Bytes of operations with their windows, and the regular law over them.

ghost use Rattle.std.specs.Prelude.{◌≡◌, ◌+◌, ◌≤◌, ◌↔◌, ◌++◌, ◌^◌, IsTrue, length, vec_len, vec_capacity, slice_get};
ghost use Rattle.memory_histories.specs.Windows.{store_bytes, is_of, is_at};
ghost use Rattle.memory_histories.specs.Hidden.{Explains};
ghost use Rattle.memory_histories.specs.Regular.{is_initial, is_rest, is_before, is_overwritten, is_left, is_covered, may_return_byte};
ghost use Rattle.memory_histories.specs.Regular.{MayReturn};

use crate::events::Rest;

/// A store's enabled byte, with its window. A store of many bytes is many stores of a byte with one
/// window.
#[derive(Clone, Copy, PartialEq, Eq, Debug)]
pub struct StoreByte {
    /// The number of the store.
    pub number: u64,
    /// The byte's address.
    pub address: u64,
    /// The byte.
    pub byte: u8,
    /// The event that requested it, counted from 0.
    pub began: u64,
    /// The event that answered it, if any.
    pub ended: Option<u64>,
}

/// One byte of an open load.
#[derive(Clone, Copy, PartialEq, Eq, Debug)]
pub struct LoadByte {
    /// The number of the load.
    pub number: u64,
    /// The byte's address.
    pub address: u64,
    /// The event that requested it, counted from 0.
    pub began: u64,
    /// Whether it is enabled. If not, what is answered of it may be anything.
    pub enabled: bool,
}

/// Whether memory may have had this byte before the first store.
pub fn is_initial(image: &[u8], rest: Rest, address: u64, byte: u8) -> bool
    ensures { result ≡ is_initial (slice_get image.now address) rest byte }
{
    match image.get(address as usize) {
        Some(first) => *first == byte,
        None => is_rest(rest, byte),
    }
}

fn is_rest(rest: Rest, byte: u8) -> bool
    ensures { result ≡ is_rest rest byte }
{
    match rest {
        Rest::Zeros => byte == 0,
        Rest::Unknown => true,
    }
}

/// Whether an operation was answered before the moment.
pub fn is_before(ended: Option<u64>, moment: u64) -> bool
    ensures { result ≡ is_before ended moment }
{
    match ended {
        None => false,
        Some(end) => end < moment,
    }
}

/// Whether another store to the byte was requested after this one's response, and answered before
/// the moment: a load requested now can't get this one's byte.
pub fn is_overwritten(stores: &[StoreByte], store: &StoreByte, moment: u64) -> bool
    ensures { result ≡ is_overwritten stores.now store.now moment }
{
    stores.iter().any(|other| {
        other.address == store.address
            && (is_before(store.ended, other.began) && is_before(other.ended, moment))
    })
}

// Whether a load may return this byte as what a store left.
fn is_left(stores: &[StoreByte], load: &LoadByte, byte: u8) -> bool
    ensures { result ≡ is_left stores.now load.now byte }
{
    stores.iter().any(|store| {
        store.address == load.address
            && (store.byte == byte && !is_overwritten(stores, store, load.began))
    })
}

/// Whether a store to the byte was answered before the load's request: it can't get what was there
/// at first.
pub fn is_covered(stores: &[StoreByte], load: &LoadByte) -> bool
    ensures { result ≡ is_covered stores.now load.now }
{
    stores.iter().any(|store| store.address == load.address && is_before(store.ended, load.began))
}

/// Whether a byte is of the load that is open under this number.
pub fn is_of(load: &LoadByte, number: u64) -> bool
    ensures { result ≡ is_of number load.now }
{
    load.number == number
}

/// Whether it is that load's byte at this address.
pub fn is_at(load: &LoadByte, number: u64, address: u64) -> bool
    ensures { result ≡ is_at number address load.now }
{
    is_of(load, number) && load.address == address
}

/// Adds a store's enabled bytes in the order of memory. Bit `k` of `enables` is byte `k`'s.
pub fn add_store(
    stores: &mut Vec<StoreByte>,
    number: u64,
    address: u64,
    bytes: &[u8],
    enables: u64,
    moment: u64,
)
    requires room { vec_len stores.old + length bytes.now ≤ vec_capacity stores.old }
    requires inside { address + length bytes.now ≤ 2 ^ 64 }
    ensures { stores.new.items ≡ stores.old.items ++ store_bytes number address bytes.now enables moment }
{
    let mut left = enables;
    for (k, byte) in bytes.iter().enumerate() {
        if left % 2 == 1 {
            stores.push_reserved(StoreByte {
                number,
                address: address + k as u64,
                byte: *byte,
                began: moment,
                ended: None,
            });
        }
        left /= 2;
    }
}

pub(crate) fn may_return_byte(
    image: &[u8],
    rest: Rest,
    stores: &[StoreByte],
    load: &LoadByte,
    byte: u8,
) -> bool
    ensures { result ≡ may_return_byte image.now rest stores.now load.now byte }
{
    is_left(stores, load, byte)
        || (is_initial(image, rest, load.address, byte) && !is_covered(stores, load))
}

/// Whether a load may return this byte now if it is enabled, by the law as it is read aloud, over the
/// image and the bytes of all stores.
///
/// So it is if hidden moments explain the byte: one for each answered store and for the load, each
/// within its window.
pub fn may_return(image: &[u8], rest: Rest, stores: &[StoreByte], load: &LoadByte, byte: u8) -> bool
    ensures law { IsTrue result ↔ MayReturn image.now rest stores.now load.now byte }
    ensures sound { Explains image.now rest stores.now load.now byte → IsTrue result }
{
    may_return_byte(image, rest, stores, load, byte)
}
