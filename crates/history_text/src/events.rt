//! An event that owns its bytes.

ghost use Rattle.std.specs.Prelude.{◌≡◌};
ghost use Rattle.history_sessions.specs.Events.{plain};
ghost use Rattle.history_text.specs.Lines.{seen};

use arrayvec::ArrayVec;
use history_sessions::{ALL_ENABLED, HistoryEvent, MAX_LENGTH};

/// An operation's bytes, in memory's order.
pub type OperationBytes = ArrayVec<u8, MAX_LENGTH>;

/// A [`HistoryEvent`] that owns its bytes.
#[derive(Drop)]
pub enum OwnedEvent {
    /// A load of `length` bytes from `address` on is requested.
    LoadRequest {
        number: u64,
        address: u64,
        length: u64,
    },
    /// The load is answered with these bytes.
    LoadResponse {
        number: u64,
        bytes: OperationBytes,
    },
    /// A store of these bytes from `address` on is requested; bit `k` of `enables` enables byte
    /// `k`.
    StoreRequest {
        number: u64,
        address: u64,
        bytes: OperationBytes,
        enables: u64,
    },
    /// The store is answered.
    StoreResponse {
        number: u64,
    },
}

impl OwnedEvent {
    /// As a judge takes it.
    pub fn event(&self) -> HistoryEvent<'_>
        ensures { plain result ≡ seen self.now }
    {
        match self {
            OwnedEvent::LoadRequest {
                number,
                address,
                length,
            } => HistoryEvent::LoadRequest {
                number: *number,
                address: *address,
                length: *length as usize,
                enables: ALL_ENABLED,
            },
            OwnedEvent::LoadResponse { number, bytes } => HistoryEvent::LoadResponse {
                number: *number,
                bytes: bytes.as_slice(),
            },
            OwnedEvent::StoreRequest {
                number,
                address,
                bytes,
                enables,
            } => HistoryEvent::StoreRequest {
                number: *number,
                address: *address,
                bytes: bytes.as_slice(),
                enables: *enables,
            },
            OwnedEvent::StoreResponse { number } => {
                HistoryEvent::StoreResponse { number: *number }
            }
        }
    }
}
