//! One round.
ghost use Rattle.std.specs.Prelude.{◌≡◌, ◌<◌, ◌≤◌, ◌+◌, ◌-◌, Some, IfSome};
ghost use Rattle.flat_model.specs.declared.limits.TheConstants.{MAX_BANKS};
ghost use Rattle.arrayvec.specs.ArrayVec.{array_vec_len};
ghost use Rattle.round_driver.specs.declared.round.TheConstants.{MOST_NOTES};
ghost use Rattle.round_driver.specs.Rounds.{course};
ghost use Rattle.round_driver.specs.Rounds as rounds;
ghost use Rattle.round_driver.specs.Machines as machines;

use crate::machine::{command_count, has_answer, has_stack_room, used_registers};
use crate::note::Note;
use crate::schedule::Schedule;
use arrayvec::ArrayVec;
use flat_model::{Answer, Event, MAX_BANKS};
use machine_core::{Lookup, ShapedMachine};

/// A round's most notes: of each bank, an arrival, the stack, the replies, the write queue, and a
/// request.
pub(crate) const MOST_NOTES: usize = MAX_BANKS as usize + 5;

pub(crate) type Notes = ArrayVec<Note, MOST_NOTES>;

// Whether something was done.
fn is_done(answer: Answer) -> bool
    ensures { result ≡ rounds.is_done answer }
{
    match answer {
        Answer::Accepted | Answer::Moved | Answer::Value { .. } => true,
        Answer::Nothing | Answer::Refused(_) => false,
    }
}

pub(crate) fn is_end(answer: Answer) -> bool
    ensures { result ≡ rounds.is_end answer }
{
    match answer {
        Answer::Accepted => true,
        Answer::Refused(cause) => cause.ends_request(),
        _ => false,
    }
}

// Makes an event, and notes it if it did something.
#[tactic(auto, unfolding(crate::specs::Rounds::attempt, machine_core::specs::AnyMachine::answered, machine_core::specs::AnyMachine::after_event))]
fn attempt(machine: &mut ShapedMachine, schedule: &Schedule, notes: &mut Notes, event: Event)
    requires room { array_vec_len notes.old < MOST_NOTES }
    ensures course { course machine.new schedule.now notes.new.items
        ≡ rounds.attempt event (course machine.old schedule.now notes.old.items) }
    ensures sizes { machine.new.sizes ≡ machine.old.sizes }
    ensures len { array_vec_len notes.new ≤ array_vec_len notes.old + 1 }
{
    let answer = machine.apply(event);
    if is_done(answer) {
        notes.push(Note {
            round: schedule.round,
            event,
            answer,
            found: None,
            registers: 0,
        });
    }
}

#[tactic(auto, unfolding(crate::specs::Rounds::begin))]
fn begin(machine: &ShapedMachine, schedule: &mut Schedule, notes: &Notes, bank: u32)
    requires bank { bank < MAX_BANKS }
    ensures course { course machine.now schedule.new notes.now.items
        ≡ rounds.begin bank (course machine.now schedule.old notes.now.items) }
    ensures time { schedule.new.round ≡ schedule.old.round }
    ensures next { schedule.new.next ≡ schedule.old.next }
{
    if schedule.is_free(bank) && schedule.in_flight(bank) < command_count(machine, bank) {
        schedule.begin(bank);
    }
}

#[tactic(auto, unfolding(crate::specs::Rounds::serve_due))]
fn serve_due(machine: &mut ShapedMachine, schedule: &mut Schedule, notes: &mut Notes, bank: u32)
    requires bank { bank < MAX_BANKS }
    requires room { array_vec_len notes.old < MOST_NOTES }
    ensures course { course machine.new schedule.new notes.new.items
        ≡ rounds.serve_due bank (course machine.old schedule.old notes.old.items) }
    ensures sizes { machine.new.sizes ≡ machine.old.sizes }
    ensures len { array_vec_len notes.new ≤ array_vec_len notes.old + 1 }
    ensures time { schedule.new.round ≡ schedule.old.round }
    ensures next { schedule.new.next ≡ schedule.old.next }
{
    if schedule.is_due(bank) {
        schedule.end(bank);
        attempt(machine, schedule, notes, Event::Serve { bank });
    }
}

fn bank_turns(machine: &mut ShapedMachine, schedule: &mut Schedule, notes: &mut Notes)
    requires banks { machine.old.sizes.banks ≤ MAX_BANKS }
    requires room { array_vec_len notes.old ≡ 0 }
    ensures course { course machine.new schedule.new notes.new.items
        ≡ rounds.bank_turns machine.old.sizes.banks 0
        (course machine.old schedule.old notes.old.items) }
    ensures sizes { machine.new.sizes ≡ machine.old.sizes }
    ensures len { array_vec_len notes.new ≤ MAX_BANKS }
    ensures time { schedule.new.round ≡ schedule.old.round }
    ensures next { schedule.new.next ≡ schedule.old.next }
{
    for bank in 0..machine.sizes().banks {
        begin(machine, schedule, notes, bank);
        serve_due(machine, schedule, notes, bank);
    }
}

fn first_with_answer(machine: &ShapedMachine, from: u32, to: u32) -> Option<u32>
    ensures bank { result ≡ rounds.first_with_answer machine.now (to - from) from }
    ensures below { IfSome result (λ b. b < to) }
{
    for bank in from..to {
        if has_answer(machine, bank) {
            return Some(bank);
        }
    }
    None
}

// The first bank with an answer, from the next one on and around.
fn next_with_answer(machine: &ShapedMachine, next: u32) -> Option<u32>
    requires banks { machine.now.sizes.banks ≤ MAX_BANKS }
    requires next { next ≤ MAX_BANKS }
    ensures bank { result ≡ rounds.next_with_answer machine.now next }
    ensures below { IfSome result (λ b. b < MAX_BANKS) }
{
    match first_with_answer(machine, next, machine.sizes().banks) {
        Some(bank) => Some(bank),
        None => first_with_answer(machine, 0, next),
    }
}

#[tactic(auto, unfolding(crate::specs::Rounds::arrive))]
fn arrive(machine: &mut ShapedMachine, schedule: &mut Schedule, notes: &mut Notes)
    requires banks { machine.old.sizes.banks ≤ MAX_BANKS }
    requires next { schedule.old.next ≤ MAX_BANKS }
    requires room { array_vec_len notes.old < MOST_NOTES }
    ensures course { course machine.new schedule.new notes.new.items
        ≡ rounds.arrive (course machine.old schedule.old notes.old.items) }
    ensures sizes { machine.new.sizes ≡ machine.old.sizes }
    ensures len { array_vec_len notes.new ≤ array_vec_len notes.old + 1 }
    ensures time { schedule.new.round ≡ schedule.old.round }
    ensures next { schedule.new.next ≤ MAX_BANKS }
{
    if !has_stack_room(machine) {
        return;
    }
    if let Some(bank) = next_with_answer(machine, schedule.next) {
        schedule.next = bank + 1;
        attempt(machine, schedule, notes, Event::Arrive { bank, place: 0 });
    }
}

#[tactic(auto, unfolding(crate::specs::Machines::found_at))]
fn finding(machine: &ShapedMachine, event: Event) -> Option<Lookup>
    ensures { result ≡ rounds.finding machine.now event }
{
    match event {
        Event::Load { at, .. } | Event::Store { at, .. } | Event::Prefetch { at } => {
            machine.find(at)
        }
        _ => None,
    }
}

fn registers_behind(machine: &ShapedMachine, answer: Answer, found: Option<Lookup>) -> u32
    ensures { result ≡ rounds.registers_behind answer found machine.now }
{
    match (answer, found) {
        (Answer::Accepted, Some(Lookup::Miss)) => used_registers(machine),
        _ => 0,
    }
}

// Asks a request, and says whether it ended.
#[tactic(auto, unfolding(crate::specs::Rounds::ask, machine_core::specs::AnyMachine::answered, machine_core::specs::AnyMachine::after_event))]
pub(crate) fn ask(
    machine: &mut ShapedMachine,
    schedule: &Schedule,
    notes: &mut Notes,
    event: Event,
) -> bool
    requires room { array_vec_len notes.old < MOST_NOTES }
    ensures ends { result
        ≡ rounds.ends event (course machine.old schedule.now notes.old.items) }
    ensures course { course machine.new schedule.now notes.new.items
        ≡ rounds.ask event (course machine.old schedule.now notes.old.items) }
    ensures sizes { machine.new.sizes ≡ machine.old.sizes }
{
    let found = finding(machine, event);
    let answer = machine.apply(event);
    notes.push(Note {
        round: schedule.round,
        event,
        answer,
        found,
        registers: registers_behind(machine, answer, found),
    });
    is_end(answer)
}

/// What a round moves before it asks.
#[tactic(auto, unfolding(crate::specs::Rounds::moves))]
pub(crate) fn moves(machine: &mut ShapedMachine, schedule: &mut Schedule, notes: &mut Notes)
    requires banks { machine.old.sizes.banks ≤ MAX_BANKS }
    requires next { schedule.old.next ≤ MAX_BANKS }
    requires room { array_vec_len notes.old ≡ 0 }
    ensures course { course machine.new schedule.new notes.new.items
        ≡ rounds.moves (course machine.old schedule.old notes.old.items) }
    ensures sizes { machine.new.sizes ≡ machine.old.sizes }
    ensures len { array_vec_len notes.new ≤ MAX_BANKS + 4 }
    ensures time { schedule.new.round ≡ schedule.old.round }
    ensures next { schedule.new.next ≤ MAX_BANKS }
{
    bank_turns(machine, schedule, notes);
    arrive(machine, schedule, notes);
    attempt(machine, schedule, notes, Event::Process { place: 0 });
    attempt(machine, schedule, notes, Event::Take { place: 0 });
    attempt(machine, schedule, notes, Event::Drain);
}
