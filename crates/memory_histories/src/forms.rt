//! Which events are malformed, whatever law a history is judged by.

ghost use Rattle.std.specs.Prelude.{◌≡◌, ◌==◌, length};
ghost use Rattle.std.specs.Int.{bit_at};
ghost use Rattle.memory_histories.specs.Regular.{is_inside, has_enabled, enables_any, request_fault, store_response_fault};

use crate::events::{HistoryFault, MAX_LENGTH};

/// Whether an operation has 1 to 64 bytes, none at 2^64 or beyond.
pub fn is_inside(address: u64, length: usize) -> bool
    ensures { result ≡ is_inside address length }
{
    1 <= length && (length <= MAX_LENGTH && u128::from(address) + length as u128 <= 1 << 64)
}

/// Whether a byte is enabled. Bit `k` enables byte `k`; bits beyond the last have no meaning.
#[tactic(auto, using(crate::proofs::Loops::has_enabled_more))]
pub fn has_enabled(bytes: &[u8], enables: u64) -> bool
    ensures { result ≡ has_enabled bytes.now enables }
{
    let mut left = enables;
    for _byte in bytes {
        if left % 2 == 1 {
            return true;
        }
        left /= 2;
    }
    false
}

/// The same of so many bytes.
#[tactic(auto, using(crate::proofs::Loops::enables_any_more))]
pub fn enables_any(length: usize, enables: u64) -> bool
    ensures { result ≡ enables_any length enables }
{
    let mut left = enables;
    for _k in 0..length {
        if left % 2 == 1 {
            return true;
        }
        left /= 2;
    }
    false
}

/// Whether the byte at this place, counted from 0, is enabled.
pub fn is_enabled(enables: u64, place: u64) -> bool
    ensures { result ≡ (bit_at enables place == 1) }
{
    place < 64 && (enables >> place) % 2 == 1
}

/// Why a request is malformed: the first in the order of [`HistoryFault`]. `inside`: [`is_inside`].
/// `any`: a byte is enabled. `used`: an operation of its kind is open under its number.
pub fn request_fault(inside: bool, any: bool, used: bool) -> Option<HistoryFault>
    ensures { result ≡ request_fault inside any used }
{
    if !inside {
        Some(HistoryFault::OutOfRange)
    } else if !any {
        Some(HistoryFault::NoByteEnabled)
    } else if used {
        Some(HistoryFault::NumberInUse)
    } else {
        None
    }
}

/// Why a store's response is malformed: no store is open under its number.
pub fn store_response_fault(used: bool) -> Option<HistoryFault>
    ensures { result ≡ store_response_fault used }
{
    if used {
        None
    } else {
        Some(HistoryFault::NotOpen)
    }
}
