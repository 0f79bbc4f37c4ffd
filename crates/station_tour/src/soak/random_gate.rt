//! A gate that holds the threads of a run at random.

use crate::soak::trial::Draws;
use flat_model::MAX_BANKS;
use ring_station::{Actor, Gate, Told};
use station_parts::MAX_PORTS;
use std::alloc::{AllocError, Global};
use std::sync::atomic::{AtomicU32, Ordering};

// The cache side, and as many ports and banks as a station has at most.
const ACTORS: u32 = 1 + MAX_PORTS + MAX_BANKS;

// The places of the first port and of the first bank.
const FIRST_PORT: u32 = 1;

const FIRST_BANK: u32 = 1 + MAX_PORTS;

// Of so many turns in which an actor isn't held, some let it go.
const CHANCES: u32 = 64;

/// How one actor is held. Only the actor's own thread changes it.
#[derive(Drop)]
struct Hold {
    // How many of the chances let it go.
    openness: u32,
    // How many turns it is held at most, if it is.
    longest: u32,
    // How many turns a port lets go by behind a refusal that passes.
    patience: u32,
    // What the next turn is drawn by.
    state: AtomicU32,
    // For how many turns it is still held.
    left: AtomicU32,
}

impl Hold {
    fn may_go(&self) -> bool {
        let left = self.left.load(Ordering::SeqCst);
        if left > 0 {
            self.left.store(left - 1, Ordering::SeqCst);
            return false;
        }
        if self.openness == CHANCES {
            return true;
        }
        let chance = self.draw();
        if chance % CHANCES < self.openness {
            return true;
        }
        self.left
            .store(chance / CHANCES % self.longest.max(1), Ordering::SeqCst);
        false
    }

    // A linear congruential step, of which the upper half is used.
    fn draw(&self) -> u32 {
        let state = self
            .state
            .load(Ordering::SeqCst)
            .wrapping_mul(1_664_525)
            .wrapping_add(1_013_904_223);
        self.state.store(state, Ordering::SeqCst);
        state >> 16
    }
}

/// Holds each actor in some of its turns.
#[derive(Drop)]
pub(crate) struct RandomGate {
    holds: Vec<Hold>,
}

impl RandomGate {
    /// A gate that never holds some of the actors, and others often.
    pub(crate) fn draw(alloc: Global, draws: &mut Draws) -> Result<RandomGate, AllocError> {
        let mut holds = Vec::with_capacity(alloc, ACTORS as usize)?;
        let patience = draws.between(50, 500);
        for _actor in 0..ACTORS {
            holds.push(Hold {
                openness: draws.between(8, CHANCES),
                longest: draws.between(1, 32),
                patience,
                state: AtomicU32::new(draws.word()),
                left: AtomicU32::new(0),
            })?;
        }
        Ok(RandomGate { holds })
    }

    fn hold(&self, place: u32) -> Option<&Hold> {
        self.holds.get(place as usize)
    }
}

impl Gate for RandomGate {
    fn may(&self, actor: Actor) -> bool {
        let place = match actor {
            Actor::Cache => 0,
            Actor::Port(port) => port.saturating_add(FIRST_PORT),
            Actor::Bank(bank) => bank.saturating_add(FIRST_BANK),
        };
        match self.hold(place) {
            Some(hold) => hold.may_go(),
            None => true,
        }
    }

    fn told(&self, port: u32, told: &Told) {
        let Told::Refused(cause) = *told else {
            return;
        };
        if cause.passes()
            && let Some(hold) = self.hold(port.saturating_add(FIRST_PORT))
        {
            hold.left.store(hold.patience, Ordering::SeqCst);
        }
    }
}
