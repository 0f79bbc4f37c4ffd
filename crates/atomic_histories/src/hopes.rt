//! Whether an answer's word may come to stand in a unit.

ghost use Rattle.std.specs.Prelude.{◌≡◌, ◌+◌, ◌<◌, ◌&&◌, not, get_or, None};
ghost use Rattle.std.specs.List.{list_all, list_any, range_with_len};
ghost use Rattle.atomic_histories.specs.Words.{read_byte};
ghost use Rattle.atomic_histories.specs.Branches.{gives, may_come_in};

use crate::unit::{LoadAddress, OpenStore, Word};
use crate::words::{is_as_it_stood, read_byte};

// Whether a store writes an answer's byte in a lane.
fn gives(stored: Option<u8>, answer: Option<u8>) -> bool
    ensures { result ≡ gives stored answer }
{
    match stored {
        None => false,
        Some(byte) => match answer {
            None => false,
            Some(answer) => byte == answer,
        },
    }
}

// Whether it may still write it there.
fn may_give(store: &OpenStore, lane: usize, answer: Option<u8>) -> bool
    requires { lane < 8 }
    ensures { result ≡ (not store.now.is_done && gives (get_or store.now.bytes lane None) answer) }
{
    !store.is_done && gives(store.bytes[lane], answer)
}

// Whether one of these may.
fn one_may_give(stores: &[OpenStore], lane: usize, answer: Option<u8>) -> bool
    requires { lane < 8 }
    ensures { result ≡ list_any (λ s. not s.is_done && gives (get_or s.bytes lane None) answer) stores.now }
{
    stores.iter().any(|store| may_give(store, lane, answer))
}

// Whether an answer's byte stands in a lane, or may be written there.
fn may_come_in(word: &Word, stores: &[OpenStore], lane: usize, answer: Option<u8>) -> bool
    requires { lane < 8 }
    ensures { result ≡ may_come_in lane word.now stores.now answer }
{
    is_as_it_stood(word[lane], answer) || one_may_give(stores, lane, answer)
}

// The same of a lane of the unit that begins at `first`.
fn may_come_at(
    word: &Word,
    stores: &[OpenStore],
    first: u64,
    from: LoadAddress,
    bytes: &[u8],
    lane: usize,
) -> bool
    requires { lane < 8 }
    ensures { result ≡ may_come_in lane word.now stores.now (read_byte from bytes.now (first + lane)) }
{
    let address = u128::from(first) + lane as u128;
    may_come_in(word, stores, lane, read_byte(from, bytes, address))
}

// The same of bytes from an address on.
pub(crate) fn may_come(
    word: &Word,
    stores: &[OpenStore],
    first: u64,
    from: LoadAddress,
    bytes: &[u8],
) -> bool
    ensures { result ≡ list_all (λ k. may_come_in k word.now stores.now (read_byte from bytes.now (first + k))) (range_with_len 0 8) }
{
    may_come_at(word, stores, first, from, bytes, 0)
        && may_come_at(word, stores, first, from, bytes, 1)
        && may_come_at(word, stores, first, from, bytes, 2)
        && may_come_at(word, stores, first, from, bytes, 3)
        && may_come_at(word, stores, first, from, bytes, 4)
        && may_come_at(word, stores, first, from, bytes, 5)
        && may_come_at(word, stores, first, from, bytes, 6)
        && may_come_at(word, stores, first, from, bytes, 7)
}
