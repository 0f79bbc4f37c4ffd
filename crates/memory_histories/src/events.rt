//! The events of a history, and why one of them is refused.

use crate::faults::FaultText;
use std::alloc::AllocError;
use thiserror::Error;

/// The most bytes of one operation.
pub const MAX_LENGTH: usize = 64;

/// The enables of a load or a store of which each byte is enabled.
pub const ALL_ENABLED: u64 = u64::MAX;

/// What is seen of an operation: that it was requested, or that it was answered.
///
/// An address is that of a byte. An operation has 1 to 64 bytes, in the order of memory, and none of
/// them lies at 2^64 or beyond. A number is free again once its operation is answered, and loads and
/// stores are numbered apart.
#[derive(Clone, Copy, Debug)]
pub enum HistoryEvent<'a> {
    /// A load of `length` bytes from `address` on is requested. Bit `k` of `enables` is the enable of
    /// byte `k`; bits beyond the last byte have no meaning. What is answered of a byte that isn't
    /// enabled isn't judged.
    LoadRequest {
        number: u64,
        address: u64,
        length: usize,
        enables: u64,
    },
    /// The load is answered with these bytes.
    LoadResponse {
        number: u64,
        bytes: &'a [u8],
    },
    /// A store is requested: of these bytes from `address` on, those whose enable is set, as a
    /// load's.
    StoreRequest {
        number: u64,
        address: u64,
        bytes: &'a [u8],
        enables: u64,
    },
    /// The store is answered.
    StoreResponse {
        number: u64,
    },
}

/// Why an event is none of the law. Of the faults that hold, the first in this order is answered.
#[derive(Clone, Copy, PartialEq, Eq, Debug, Error)]
#[error("{}", FaultText(self))]
pub enum HistoryFault {
    /// The operation has no byte or more than 64, or runs beyond the last address.
    OutOfRange,
    /// No byte is enabled.
    NoByteEnabled,
    /// An operation of this kind is open under the number.
    NumberInUse,
    /// No operation of this kind is open under the number.
    NotOpen,
    /// The load was requested with another length.
    WrongLength,
    /// The byte at this place of the answer, counted from 0, is the first that the load may not return.
    WrongByte { place: usize },
}

/// What memory has before the first store, beyond the bytes of its image.
#[derive(Clone, Copy, PartialEq, Eq, Debug)]
pub enum Rest {
    /// Zeros.
    Zeros,
    /// Nothing is known: each load of a byte that no store has covered may return anything.
    Unknown,
}

/// Why an event was not taken. After each of these everything is as it was.
#[derive(Clone, Copy, PartialEq, Eq, Debug, Error)]
#[error("{}", FaultText(self))]
pub enum StepFault {
    /// The history with this event is none of the law.
    Refused(HistoryFault),
    /// 2^64 - 1 events were taken.
    TooLong,
    /// There was too little memory.
    OutOfMemory,
}

impl From<AllocError> for StepFault {
    ghost use Rattle.std.specs.Prelude.{◌≡◌};
    ghost use Rattle.memory_histories.specs.declared.events.StepFault.TheVariants.{OutOfMemory};

    ghost from_gives = { λ e f. f ≡ OutOfMemory };

    fn from(_fault: AllocError) -> StepFault {
        StepFault::OutOfMemory
    }
}
