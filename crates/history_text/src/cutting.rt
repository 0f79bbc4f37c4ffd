//! What may be left out of a history of one unit, if its last answer is still to be refused.
//!
//! What is left out is *closed*: with a store goes each answered load that may have got a byte of it. So if the whole is of
//! the law but for its last answer, what stays is too; and if that answer is refused behind what stays, it is behind the
//! whole. A load may have got a byte of a store if it has that byte there, was answered behind the store's request, and no
//! answered store to the byte that stays lies wholly between the two.

ghost use Rattle.std.specs.Prelude.{◌<◌};

use crate::unit_operations::{LANES, UnitOperation, UnitStep};
use history_sessions::{HistoryFault, HistoryLaw, HistorySession, JudgeFault, Rest};
use std::alloc::{AllocError, Global};

// How often the operations are gone through at most: by halves, quarters and so on, and then one by one.
const ROUNDS: u32 = 80;

// The bytes that all lanes may have.
const LANE_BYTES: usize = 256 * LANES;

/// A history of one unit, and the law that refuses its last answer.
#[derive(Clone, Copy)]
pub(crate) struct Cutting<'a> {
    pub(crate) alloc: Global,
    pub(crate) law: HistoryLaw,
    /// What the unit begins with. It is judged as if it lay at address 0.
    pub(crate) image: &'a [u8],
    pub(crate) rest: Rest,
    /// In the order of requests.
    pub(crate) operations: &'a [UnitOperation],
    /// In the order of time.
    pub(crate) steps: &'a [UnitStep],
}

/// Which operations are left out, by their places.
#[derive(Drop)]
pub(crate) struct LeftOut {
    places: Vec<bool>,
}

impl LeftOut {
    fn none_of(alloc: Global, count: usize) -> Result<LeftOut, AllocError> {
        Ok(LeftOut {
            places: vec![in alloc; false; count]?,
        })
    }

    /// Whether this one is.
    pub(crate) fn has(&self, place: usize) -> bool {
        match self.places.as_slice().get(place) {
            Some(out) => *out,
            None => false,
        }
    }

    // This one, too. Whether it wasn't before.
    fn add(&mut self, place: usize) -> bool {
        match self.places.as_mut_slice().get_mut(place) {
            Some(out) => {
                let is_new = !*out;
                *out = true;
                is_new
            }
            None => false,
        }
    }

    // These, too.
    fn with(&self, from: usize, count: usize) -> Result<Option<LeftOut>, AllocError> {
        let mut more = LeftOut {
            places: self.places.clone()?,
        };
        let mut has_new = false;
        for place in from..from.saturating_add(count) {
            if more.add(place) {
                has_new = true;
            }
        }
        Ok(if has_new { Some(more) } else { None })
    }
}

// What was met of a unit, as its events are gone through.
#[derive(Drop)]
struct Walk {
    // By lane and byte: the last line at which a store of it that is left out was answered; 0 if there is none.
    givers: Vec<u64>,
    // By lane: the last request of an answered store that stays.
    latest: [u64; LANES],
    // The same by operation, as it was at its request.
    floors: Vec<[u64; LANES]>,
}

impl Walk {
    fn new(alloc: Global, operations: usize) -> Result<Walk, AllocError> {
        Ok(Walk {
            givers: vec![in alloc; 0u64; LANE_BYTES]?,
            latest: [0; LANES],
            floors: vec![in alloc; [0u64; LANES]; operations]?,
        })
    }

    // One event more. Whether its operation has to be left out for what it has got.
    fn meet(&mut self, step: UnitStep, operation: &UnitOperation, is_out: bool) -> bool {
        if is_out {
            if !step.is_response && operation.is_writer() {
                self.give(operation);
            }
            return false;
        }
        if !step.is_response {
            self.begin(step.place);
            return false;
        }
        if operation.is_definite() {
            self.overwrite(operation);
        }
        operation.is_reader() && self.may_have_got(step.place, operation)
    }

    // A store that is left out is requested.
    fn give(&mut self, operation: &UnitOperation) {
        for lane in 0..LANES {
            if let Some(byte) = operation.byte_of(lane) {
                if let Some(giver) = self.givers.as_mut_slice().get_mut(giver_place(lane, byte)) {
                    *giver = (*giver).max(operation.answered);
                }
            }
        }
    }

    // An operation that stays is requested.
    fn begin(&mut self, place: usize) {
        let latest = self.latest;
        if let Some(floors) = self.floors.as_mut_slice().get_mut(place) {
            *floors = latest;
        }
    }

    // A store that stays is answered.
    fn overwrite(&mut self, operation: &UnitOperation) {
        for lane in 0..LANES {
            if operation.byte_of(lane).is_some() {
                self.latest[lane] = self.latest[lane].max(operation.requested);
            }
        }
    }

    // Whether a byte that it got may be of a store that is left out: one that was answered behind the last request that
    // overwrote such a byte before its own.
    fn may_have_got(&self, place: usize, operation: &UnitOperation) -> bool {
        let floors = match self.floors.as_slice().get(place) {
            Some(floors) => *floors,
            None => [0; LANES],
        };
        for lane in 0..LANES {
            if let Some(byte) = operation.byte_of(lane) {
                if floors[lane] < self.giver_of(lane, byte) {
                    return true;
                }
            }
        }
        false
    }

    fn giver_of(&self, lane: usize, byte: u8) -> u64 {
        match self.givers.as_slice().get(giver_place(lane, byte)) {
            Some(giver) => *giver,
            None => 0,
        }
    }
}

fn giver_place(lane: usize, byte: u8) -> usize {
    lane.wrapping_mul(256).wrapping_add(byte as usize)
}

impl Cutting<'_> {
    /// Which operations may be left out, so that few stay.
    pub(crate) fn most_left_out(&self) -> Result<LeftOut, AllocError> {
        let count = self.operations.len();
        let mut out = LeftOut::none_of(self.alloc, count)?;
        for round in 1..ROUNDS {
            let size = (count >> round.min(63)).max(1);
            match self.with_parts(&out, size)? {
                Some(more) => out = more,
                None if size == 1 => return Ok(out),
                None => {}
            }
        }
        Ok(out)
    }

    // Leaves out each part of so many operations that may be.
    fn with_parts(&self, out: &LeftOut, size: usize) -> Result<Option<LeftOut>, AllocError>
        requires { 0 < size }
    {
        let mut cut = None;
        for part in 0..=self.operations.len() / size {
            let from = part.saturating_mul(size);
            let more = match &cut {
                Some(cut) => self.with_part(cut, from, size)?,
                None => self.with_part(out, from, size)?,
            };
            if more.is_some() {
                cut = more;
            }
        }
        Ok(cut)
    }

    // Leaves out so many operations, and what has to go with them, if the last answer is refused without them.
    fn with_part(
        &self,
        out: &LeftOut,
        from: usize,
        size: usize,
    ) -> Result<Option<LeftOut>, AllocError> {
        let Some(mut more) = out.with(from, size)? else {
            return Ok(None);
        };
        self.close(&mut more)?;
        Ok(if self.is_refused_without(&more)? {
            Some(more)
        } else {
            None
        })
    }

    // Leaves out all that has to go with what is left out.
    fn close(&self, out: &mut LeftOut) -> Result<(), AllocError> {
        for _walk in 0..=self.operations.len() {
            if !self.spread(out)? {
                return Ok(());
            }
        }
        Ok(())
    }

    // Leaves out what may have got a byte of what is left out. Whether there was any.
    fn spread(&self, out: &mut LeftOut) -> Result<bool, AllocError> {
        let mut walk = Walk::new(self.alloc, self.operations.len())?;
        let mut is_more = false;
        for step in self.steps {
            if let Some(operation) = self.operations.get(step.place) {
                if walk.meet(*step, operation, out.has(step.place)) && out.add(step.place) {
                    is_more = true;
                }
            }
        }
        Ok(is_more)
    }

    // Whether the last answer is refused if these operations are left out. Without a verdict it isn't.
    fn is_refused_without(&self, out: &LeftOut) -> Result<bool, AllocError> {
        let mut session = HistorySession::new(self.alloc, self.law, self.image, self.rest)?;
        for (at, step) in self.steps.iter().enumerate() {
            match self.step(&mut session, *step, out) {
                Ok(()) => {}
                Err(JudgeFault::OutOfMemory) => return Err(AllocError),
                Err(JudgeFault::Refused(HistoryFault::WrongByte { .. })) => {
                    return Ok(at.wrapping_add(1) == self.steps.len());
                }
                Err(_) => return Ok(false),
            }
        }
        Ok(false)
    }

    // Takes an event, unless its operation is left out.
    fn step(
        &self,
        session: &mut HistorySession,
        step: UnitStep,
        out: &LeftOut,
    ) -> Result<(), JudgeFault> {
        match self.operations.get(step.place) {
            Some(operation) if !out.has(step.place) => {
                let event = operation.event(0, step.is_response);
                session.step(event.event())
            }
            _ => Ok(()),
        }
    }
}
