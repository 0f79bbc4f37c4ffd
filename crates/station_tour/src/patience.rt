//! A gate that holds a refused port back.

use crossbeam_utils::CachePadded;
use ring_station::{Actor, Gate, Told};
use station_parts::MAX_PORTS;
use std::alloc::{AllocError, Global};
use std::sync::atomic::{AtomicU32, Ordering};

// A port refused again waits twice as long, up to so many times: who could help may lack a
// processor.
const MOST_TIMES: u32 = 16;

/// Holds only a refused port, for some turns.
#[derive(Drop)]
pub(crate) struct PatientGate {
    turns: u32,
    // Each port's own cache lines: others would wait at every turn.
    holds: Vec<CachePadded<Hold>>,
}

/// What a port waits for.
#[derive(Drop)]
struct Hold {
    // Turns still held.
    left: AtomicU32,
    // Turns of the next hold.
    next: AtomicU32,
}

impl PatientGate {
    /// A gate for a station's most ports, with so many turns behind a first refusal.
    pub(crate) fn new(alloc: Global, turns: u32) -> Result<PatientGate, AllocError> {
        let mut holds = Vec::with_capacity(alloc, MAX_PORTS as usize)?;
        for _port in 0..MAX_PORTS {
            holds.push(CachePadded::new(Hold {
                left: AtomicU32::new(0),
                next: AtomicU32::new(turns),
            }))?;
        }
        Ok(PatientGate { turns, holds })
    }

    fn hold_back(&self, hold: &Hold) {
        let turns = hold.next.load(Ordering::SeqCst);
        let most = self.turns.saturating_mul(MOST_TIMES);
        hold.left.store(turns, Ordering::SeqCst);
        hold.next
            .store(turns.saturating_mul(2).min(most), Ordering::SeqCst);
    }
}

impl Gate for PatientGate {
    fn may(&self, actor: Actor) -> bool {
        let Actor::Port(port) = actor else {
            return true;
        };
        let Some(hold) = self.holds.get(port as usize) else {
            return true;
        };
        let turns = hold.left.load(Ordering::SeqCst);
        if turns == 0 {
            return true;
        }
        hold.left.store(turns - 1, Ordering::SeqCst);
        false
    }

    fn told(&self, port: u32, told: &Told) {
        let Some(hold) = self.holds.get(port as usize) else {
            return;
        };
        match *told {
            Told::Refused(cause) if cause.passes() => self.hold_back(hold),
            Told::Accepted | Told::Refused(_) => hold.next.store(self.turns, Ordering::SeqCst),
            Told::Value { .. } => {}
        }
    }
}
