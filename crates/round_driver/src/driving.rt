//! Whole runs.
ghost use Rattle.std.specs.Prelude.{◌≡◌, ◌≤◌, ◌<◌, ◌^◌, ◌+◌, ◌++◌, List, length, IfOk, IfErr, OnOk, OnErr};
ghost use Rattle.flat_model.specs.declared.limits.TheConstants.{MAX_BANKS};
ghost use Rattle.trace_text.specs.Streams.{Moves};
ghost use Rattle.round_driver.specs.declared.driving.TheConstants.{MOST_LATENCY};
ghost use Rattle.round_driver.specs.declared.note.Note.{Note as NoteValue};
ghost use Rattle.round_driver.specs.Machines as machines;
ghost use Rattle.round_driver.specs.Rounds as rounds;
ghost use Rattle.round_driver.specs.Rounds.{run_of, start_of, whole_run, most_requests, EndsInTime};
ghost use Rattle.round_driver.specs.Tables.{table_of};
ghost use Rattle.round_driver.specs.Timings.{unpipelined};
ghost use Rattle.round_driver.specs.Walks.{RequestsEnd};
ghost use Rattle.round_driver.specs.Written.{run_text, BreaksOff};

use crate::machine::{keeps_whole, most_moves};
use crate::round::{Notes, ask, moves};
use crate::schedule::Schedule;
use crate::table::{Counter, Table};
use crate::timing::Timing;
use crate::writing::round_text;
use flat_model::Event;
use machine_core::ShapedMachine;
use std::alloc::{AllocError, Global};
use trace_text::{Failed, Sink, TraceFault, write_whole};

/// The highest latency.
pub const MOST_LATENCY: u64 = 1_000;

// Makes one round, told in `notes`, and returns the requests that are left.
#[tactic(auto, unfolding(crate::specs::Rounds::after_round))]
pub(crate) fn round<'a>(
    machine: &mut ShapedMachine,
    schedule: &mut Schedule,
    notes: &mut Notes,
    left: &'a [Event],
) -> &'a [Event]
    requires banks { machine.old.sizes.banks ≤ MAX_BANKS }
    requires next { schedule.old.next ≤ MAX_BANKS }
    requires time { schedule.old.round < 2 ^ 62 }
    ensures run { (told : List NoteValue)
        → run_of machine.new schedule.new result.now (told ++ notes.new.items)
        ≡ rounds.after_round (run_of machine.old schedule.old left.now told) }
    ensures sizes { machine.new.sizes ≡ machine.old.sizes }
    ensures time { schedule.new.round ≡ schedule.old.round + 1 }
    ensures next { schedule.new.next ≤ MAX_BANKS }
{
    notes.clear();
    schedule.round += 1;
    moves(machine, schedule, notes);
    match left {
        [] => left,
        [event, rest @ ..] => {
            if ask(machine, schedule, notes, *event) {
                rest
            } else {
                left
            }
        }
    }
}

/// Whether requests are used up, and nothing is on its way.
#[tactic(auto, unfolding(machine_core::specs::AnyMachine::weight_of))]
pub(crate) fn is_over(machine: &ShapedMachine, left: &[Event]) -> bool
    ensures { result ≡ rounds.is_over_at machine.now left.now }
{
    left.is_empty() && machine.weight() == 0
}

// More rounds than a run takes.
pub(crate) fn most_rounds(machine: &ShapedMachine, latency: u64, requests: usize) -> u64
    requires latency { latency ≤ MOST_LATENCY }
    requires requests { requests ≤ most_requests }
    ensures value { result ≡ rounds.most_rounds machine.now.sizes latency requests }
    ensures few { result < 2 ^ 48 }
{
    (requests as u64 + 1) * (most_moves(machine) * (latency + 1))
}

/// Drives these requests through the machine in rounds, and writes the run as lines that
/// [`check_text`](trace_text::check_text) reads: each asking, and each other event that did
/// something, with its answer. Returns the number of rounds; in the last, which counts, nothing
/// moves. The writer isn't flushed.
///
/// Loads, stores, prefetches and evictions are used up then, after at most `(requests + 1) * (most
/// weight + 1) * (latency + 1)` rounds. Another event among the requests never ends, and is asked
/// in each round up to this last one.
///
/// A latency is at most [`MOST_LATENCY`]. There may be 16,777,216 requests, and the machine has at
/// most 16 banks.
///
/// `TraceFault::Write`: a write was refused or took no byte; a front of the run is written.
/// `TraceFault::OutOfMemory`: too little memory for the lines of a round; the run before it is
/// written. No other fault comes. The machine is then as after the round whose lines weren't all
/// written.
pub fn drive_with<W: Sink>(
    alloc: Global,
    machine: &mut ShapedMachine,
    timing: Timing,
    requests: &[Event],
    writer: &mut W,
) -> Result<u64, TraceFault>
    requires banks { machine.old.sizes.banks ≤ MAX_BANKS }
    requires latency { timing.latency ≤ MOST_LATENCY }
    requires requests { length requests.now ≤ most_requests }
    ensures ok { IfOk result
        (λ n. n ≡ (whole_run timing machine.old requests.now).schedule.round + 1) }
    ensures machine { OnOk result
        (machine.new ≡ (whole_run timing machine.old requests.now).state) }
    ensures over { OnOk result (RequestsEnd timing machine.old requests.now) }
    ensures early { OnOk result (EndsInTime timing machine.old requests.now) }
    ensures written { OnOk result
        (Moves W.took writer.old
        (run_text (whole_run timing machine.old requests.now).told) writer.new) }
    ensures fault { IfErr result
        (BreaksOff W.took W.refused writer.old (start_of timing machine.old requests.now) writer.new machine.new) }
{
    keeps_whole(machine);
    let mut schedule = Schedule::new(timing);
    let mut notes = Notes::new();
    let mut left = requests;
    for _turn in 0..most_rounds(machine, timing.latency, requests.len()) {
        if is_over(machine, left) {
            return Ok(schedule.round + 1);
        }
        left = round(machine, &mut schedule, &mut notes, left);
        let text = round_text(alloc, notes.as_slice())?;
        match write_whole(writer, text.as_bytes()) {
            Ok(()) => {}
            Err(Failed) => return Err(TraceFault::Write),
        }
    }
    Ok(schedule.round + 1)
}

/// Drives these requests as [`drive_with`] does, with unpipelined banks.
pub fn drive<W: Sink>(
    alloc: Global,
    machine: &mut ShapedMachine,
    latency: u64,
    requests: &[Event],
    writer: &mut W,
) -> Result<u64, TraceFault>
    requires banks { machine.old.sizes.banks ≤ MAX_BANKS }
    requires latency { latency ≤ MOST_LATENCY }
    requires requests { length requests.now ≤ most_requests }
    ensures ok { IfOk result
        (λ n. n ≡ (whole_run (unpipelined latency) machine.old requests.now).schedule.round + 1) }
    ensures machine { OnOk result
        (machine.new ≡ (whole_run (unpipelined latency) machine.old requests.now).state) }
    ensures over { OnOk result (RequestsEnd (unpipelined latency) machine.old requests.now) }
    ensures early { OnOk result (EndsInTime (unpipelined latency) machine.old requests.now) }
    ensures written { OnOk result
        (Moves W.took writer.old
        (run_text (whole_run (unpipelined latency) machine.old requests.now).told) writer.new) }
    ensures fault { IfErr result
        (BreaksOff W.took W.refused writer.old (start_of (unpipelined latency) machine.old requests.now) writer.new
        machine.new) }
{
    drive_with(
        alloc,
        machine,
        Timing::unpipelined(latency),
        requests,
        writer,
    )
}

/// Drives these requests as [`drive_with`] does, and counts.
///
/// `AllocError`: too little memory; nothing has been asked.
pub fn summarize_with(
    alloc: Global,
    machine: &mut ShapedMachine,
    timing: Timing,
    requests: &[Event],
) -> Result<Table, AllocError>
    requires banks { machine.old.sizes.banks ≤ MAX_BANKS }
    requires latency { timing.latency ≤ MOST_LATENCY }
    requires requests { length requests.now ≤ most_requests }
    ensures table { IfOk result
        (λ table. table ≡ table_of timing machine.old requests.now) }
    ensures machine { OnOk result
        (machine.new ≡ (whole_run timing machine.old requests.now).state) }
    ensures over { OnOk result (RequestsEnd timing machine.old requests.now) }
    ensures early { OnOk result (EndsInTime timing machine.old requests.now) }
    ensures unchanged { OnErr result (machine.new ≡ machine.old) }
{
    keeps_whole(machine);
    let mut counter = Counter::new(alloc)?;
    let mut schedule = Schedule::new(timing);
    let mut notes = Notes::new();
    let mut left = requests;
    for _turn in 0..most_rounds(machine, timing.latency, requests.len()) {
        if is_over(machine, left) {
            return Ok(counter.table_after(schedule.round + 1));
        }
        left = round(machine, &mut schedule, &mut notes, left);
        counter.count_all(notes.as_slice());
    }
    Ok(counter.table_after(schedule.round + 1))
}

/// Counts as [`summarize_with`] does, with unpipelined banks.
pub fn summarize(
    alloc: Global,
    machine: &mut ShapedMachine,
    latency: u64,
    requests: &[Event],
) -> Result<Table, AllocError>
    requires banks { machine.old.sizes.banks ≤ MAX_BANKS }
    requires latency { latency ≤ MOST_LATENCY }
    requires requests { length requests.now ≤ most_requests }
    ensures table { IfOk result
        (λ table. table ≡ table_of (unpipelined latency) machine.old requests.now) }
    ensures machine { OnOk result
        (machine.new ≡ (whole_run (unpipelined latency) machine.old requests.now).state) }
    ensures over { OnOk result (RequestsEnd (unpipelined latency) machine.old requests.now) }
    ensures early { OnOk result (EndsInTime (unpipelined latency) machine.old requests.now) }
    ensures unchanged { OnErr result (machine.new ≡ machine.old) }
{
    summarize_with(alloc, machine, Timing::unpipelined(latency), requests)
}
