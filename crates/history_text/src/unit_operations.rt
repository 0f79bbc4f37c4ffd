//! Operations of a history, cut to one unit of memory.

ghost use Rattle.std.specs.Prelude.{◌<◌};
ghost use Rattle.history_text.specs.declared.unit_operations.TheConstants.{LANES};

use crate::answers::OperationKind;
use crate::events::{OperationBytes, OwnedEvent};

/// The most bytes of a unit.
pub(crate) const LANES: usize = 8;

/// The line of a response that never comes.
const NEVER: u64 = u64::MAX;

/// An aligned unit of memory.
#[derive(Clone, Copy)]
pub(crate) struct UnitSpan {
    /// Its first address.
    pub(crate) first: u64,
    /// Its bytes: 1 to 8.
    pub(crate) size: u64,
}

impl UnitSpan {
    /// The unit of so many bytes that has this address.
    pub(crate) fn around(address: u64, size: u64) -> UnitSpan
        requires { 0 < size }
    {
        UnitSpan {
            first: address.wrapping_sub(address % size),
            size,
        }
    }

    // The place of a lane's byte among those from an address on; of another byte it is more than 63.
    fn place_of(self, lane: usize, address: u64) -> u64 {
        if (lane as u64) < self.size {
            self.address_of(lane).wrapping_sub(address)
        } else {
            u64::MAX
        }
    }

    fn address_of(self, lane: usize) -> u64 {
        self.first.wrapping_add(lane as u64)
    }
}

/// What an operation has of a unit. A *lane* is a byte's place there.
#[derive(Clone, Copy)]
pub(crate) struct UnitOperation {
    kind: OperationKind,
    number: u64,
    /// The address of the whole operation.
    address: u64,
    /// The lanes that it has.
    held: [bool; LANES],
    /// Those that a store writes, and a load reads.
    enabled: [bool; LANES],
    /// What a store writes, and what a load was answered.
    bytes: [u8; LANES],
    /// The line of its request.
    pub(crate) requested: u64,
    /// The line of its response; if it has none, more than any line.
    pub(crate) answered: u64,
}

/// One of the two events of an operation, which has this place among all.
#[derive(Clone, Copy)]
pub(crate) struct UnitStep {
    pub(crate) place: usize,
    pub(crate) is_response: bool,
}

impl UnitOperation {
    /// What is requested of a unit, if it is anything.
    pub(crate) fn requested(
        unit: UnitSpan,
        line: u64,
        event: &OwnedEvent,
    ) -> Option<UnitOperation> {
        match event {
            OwnedEvent::LoadRequest {
                number,
                address,
                length,
            } => UnitOperation::at(OperationKind::Load, *number, *address, line).reading(
                unit, *length,
            ),
            OwnedEvent::StoreRequest {
                number,
                address,
                bytes,
                enables,
            } => UnitOperation::at(OperationKind::Store, *number, *address, line).writing(
                unit,
                bytes.as_slice(),
                *enables,
            ),
            _ => None,
        }
    }

    fn at(kind: OperationKind, number: u64, address: u64, line: u64) -> UnitOperation {
        UnitOperation {
            kind,
            number,
            address,
            held: [false; LANES],
            enabled: [false; LANES],
            bytes: [0; LANES],
            requested: line,
            answered: NEVER,
        }
    }

    fn reading(mut self, unit: UnitSpan, length: u64) -> Option<UnitOperation> {
        for lane in 0..LANES {
            let has = unit.place_of(lane, self.address) < length;
            self.held[lane] = has;
            self.enabled[lane] = has;
        }
        self.if_enabled()
    }

    fn writing(mut self, unit: UnitSpan, bytes: &[u8], enables: u64) -> Option<UnitOperation> {
        for lane in 0..LANES {
            let place = unit.place_of(lane, self.address);
            if let Some(byte) = bytes.get(place as usize) {
                self.held[lane] = true;
                self.enabled[lane] = is_enabled(enables, place);
                self.bytes[lane] = *byte;
            }
        }
        self.if_enabled()
    }

    fn if_enabled(self) -> Option<UnitOperation> {
        if self.enabled.iter().any(|enabled| *enabled) {
            Some(self)
        } else {
            None
        }
    }

    /// Whether the event is this operation's response, if it is open.
    pub(crate) fn is_answered_by(&self, event: &OwnedEvent) -> bool {
        match event {
            OwnedEvent::LoadResponse { number, .. } => {
                self.kind == OperationKind::Load && self.number == *number
            }
            OwnedEvent::StoreResponse { number } => {
                self.kind == OperationKind::Store && self.number == *number
            }
            _ => false,
        }
    }

    /// It is answered so.
    pub(crate) fn answer(&mut self, unit: UnitSpan, line: u64, event: &OwnedEvent) {
        self.answered = line;
        if let OwnedEvent::LoadResponse { bytes, .. } = event {
            for lane in 0..LANES {
                let place = unit.place_of(lane, self.address);
                if let Some(byte) = bytes.as_slice().get(place as usize) {
                    self.bytes[lane] = *byte;
                }
            }
        }
    }

    /// Whether others may get its bytes: a store, whether it is answered or not.
    pub(crate) fn is_writer(&self) -> bool {
        self.kind == OperationKind::Store
    }

    /// Whether it has got bytes of others: an answered load.
    pub(crate) fn is_reader(&self) -> bool {
        self.kind == OperationKind::Load && self.answered != NEVER
    }

    /// Whether it has surely written all that it writes: an answered store.
    pub(crate) fn is_definite(&self) -> bool {
        self.kind == OperationKind::Store && self.answered != NEVER
    }

    /// The line of one of its events.
    pub(crate) fn line_of(&self, is_response: bool) -> u64 {
        if is_response {
            self.answered
        } else {
            self.requested
        }
    }

    /// The byte of a lane, if it writes or reads it.
    pub(crate) fn byte_of(&self, lane: usize) -> Option<u8>
        requires { lane < LANES }
    {
        if self.enabled[lane] {
            Some(self.bytes[lane])
        } else {
            None
        }
    }

    /// Its event, cut to the unit, which lies at this address.
    pub(crate) fn event(&self, first: u64, is_response: bool) -> OwnedEvent {
        match (self.kind, is_response) {
            (OperationKind::Load, false) => OwnedEvent::LoadRequest {
                number: self.number,
                address: self.address_from(first),
                length: self.held_bytes().len() as u64,
            },
            (OperationKind::Load, true) => OwnedEvent::LoadResponse {
                number: self.number,
                bytes: self.held_bytes(),
            },
            (OperationKind::Store, false) => OwnedEvent::StoreRequest {
                number: self.number,
                address: self.address_from(first),
                bytes: self.held_bytes(),
                enables: self.enables(),
            },
            (OperationKind::Store, true) => OwnedEvent::StoreResponse {
                number: self.number,
            },
        }
    }

    // The address of its first byte in a unit that lies at this one.
    fn address_from(&self, first: u64) -> u64 {
        for lane in 0..LANES {
            if self.held[lane] {
                return first.wrapping_add(lane as u64);
            }
        }
        first
    }

    fn held_bytes(&self) -> OperationBytes {
        let mut bytes = OperationBytes::new();
        for lane in 0..LANES {
            if self.held[lane] {
                let _has_room = bytes.try_push(self.bytes[lane]);
            }
        }
        bytes
    }

    // Bit k enables the byte k of those that it has.
    fn enables(&self) -> u64 {
        let mut enables = 0u64;
        for back in 0..LANES {
            let lane = LANES - 1 - back;
            if self.held[lane] {
                let bit = u64::from(self.enabled[lane]);
                enables = enables.wrapping_mul(2).wrapping_add(bit);
            }
        }
        enables
    }
}

// Whether a store enables its byte at a place.
fn is_enabled(enables: u64, place: u64) -> bool {
    place < 64 && (enables >> place) % 2 == 1
}
