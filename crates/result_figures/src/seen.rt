//! What is seen of a run, turn by turn: of its rounds, or of the events of a trace.

ghost use Rattle.std.specs.Prelude.{◌≡◌, ◌++◌, ◌/◌, map, OnOk};
ghost use Rattle.result_figures.specs.Turns as turns;
ghost use Rattle.result_figures.specs.Turns.{sight_of, sight_behind, nothing_seen};

use flat_model::{Answer, Event, MAX_REGS};
use machine_core::{Lookup, ShapedMachine, Sizes};
use round_driver::{Note, RoundReport};
use std::alloc::{AllocError, Global};

/// A block that a miss sent for.
#[derive(Clone, Copy, Debug)]
pub(crate) struct Flight {
    pub(crate) block: u32,
    // The turn that accepted the miss.
    pub(crate) from: u64,
    // The turn that left the block whole, or without a frame.
    pub(crate) to: Option<u64>,
}

/// What was seen of a machine's run. A turn is a round, or an event of a trace.
#[derive(Drop)]
pub struct Seen {
    pub(crate) turns: u64,
    // Each asking of a request, and each value that a load returned.
    pub(crate) notes: Vec<Note>,
    // A block for each accepted miss, in order.
    pub(crate) flights: Vec<Flight>,
}

#[tactic(auto, unfolding(crate::specs::Turns::is_fetched_in))]
fn is_fetched_in(machine: &ShapedMachine, slot: u32, block: u32) -> bool
    ensures { result ≡ turns.is_fetched_in machine.now slot block }
{
    match machine.register(slot) {
        Some(register) => register.valid && !register.obsolete && register.block == block,
        None => false,
    }
}

#[tactic(auto, unfolding(crate::specs::Turns::is_fetched))]
fn is_fetched(machine: &ShapedMachine, block: u32) -> bool
    ensures { result ≡ turns.is_fetched machine.now block }
{
    (0..MAX_REGS as u32).any(|slot| is_fetched_in(machine, slot, block))
}

fn landed(machine: &ShapedMachine, turn: u64, flight: Flight) -> Flight
    ensures { result ≡ turns.landed machine.now turn flight }
{
    match flight.to {
        None if !is_fetched(machine, flight.block) => Flight {
            to: Some(turn),
            ..flight
        },
        _ => flight,
    }
}

fn land(flights: &mut [Flight], machine: &ShapedMachine, turn: u64)
    ensures { flights.new ≡ map (turns.landed machine.now turn) flights.old }
{
    for flight in flights.iter_mut() {
        *flight = landed(machine, turn, *flight);
    }
}

#[tactic(auto, using(crate::proofs::Quotients::quotients))]
fn block_in(sizes: &Sizes, at: u32) -> u32
    ensures { result ≡ at / sizes.now.block_words }
{
    at.checked_div(sizes.block_words).unwrap_or(0)
}

fn address_in(event: Event) -> Option<u32>
    ensures { result ≡ turns.address_in event }
{
    match event {
        Event::Load { at, .. } | Event::Store { at, .. } | Event::Prefetch { at } => Some(at),
        _ => None,
    }
}

// The address for which an accepted miss sends.
fn sent_for(note: Note) -> Option<u32>
    ensures { result ≡ turns.sent_for note }
{
    match (note.answer, note.found) {
        (Answer::Accepted, Some(Lookup::Miss)) => address_in(note.event),
        _ => None,
    }
}

fn flight_of(sizes: &Sizes, note: Note) -> Option<Flight>
    ensures { result ≡ turns.flight_of sizes.now note }
{
    match sent_for(note) {
        Some(at) => Some(Flight {
            block: block_in(sizes, at),
            from: note.round,
            to: None,
        }),
        None => None,
    }
}

impl Seen {
    /// Before the first turn.
    pub fn new(alloc: Global) -> Seen
        ensures { sight_of result ≡ nothing_seen }
    {
        Seen {
            turns: 0,
            notes: Vec::new(alloc),
            flights: Vec::new(alloc),
        }
    }

    /// A turn was made, which this is told of, and it left the machine so.
    pub fn see(
        &mut self,
        machine: &ShapedMachine,
        turn: u64,
        report: RoundReport,
    ) -> Result<(), AllocError>
        ensures { OnOk result
            (sight_of self.new ≡ sight_behind machine.now turn report (sight_of self.old)) }
    {
        self.turns = turn;
        land(self.flights.as_mut_slice(), machine, turn);
        if let Some(note) = report.answered {
            self.notes.push(note)?;
        }
        if let Some(note) = report.asked {
            self.notes.push(note)?;
            if let Some(flight) = flight_of(machine.sizes(), note) {
                self.flights.push(flight)?;
            }
        }
        Ok(())
    }
}
