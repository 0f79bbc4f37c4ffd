//! Requests driven in rounds.
ghost use Rattle.std.specs.Prelude.{◌≡◌, ◌≢◌, Some, None, IfOk, OnOk, IfErr, OnErr};
ghost use Rattle.std.specs.List.{list_all};
ghost use Rattle.std.specs.Option.{option_map};
ghost use Rattle.machine_handles.specs.Behind.{standing, standing_of, behind, alone};
ghost use Rattle.machine_handles.specs.Rounds as rounds;
ghost use Rattle.machine_handles.specs.Rounds.{bad_rounds, rounds_fault, counted, driven, IsDriven, IsToldOfRounds, rounds_number, why_not};

use crate::handle::Handle;
use crate::kept::Kept;
use crate::status::{CLOSED, DONE, IN_ROUNDS, NO_EVENT, NO_ROUNDS, OUT_OF_MEMORY};
use flat_judge::EventRow;
use flat_model::Event;
use machine_core::ShapedMachine;
use round_driver::{MOST_LATENCY, Table, Timing, keeps_whole, summarize_with};
use std::alloc::{AllocError, Global};

/// The most requests of a run.
const MOST_REQUESTS: usize = 16_777_216;

/// More requests than that, or no more rounds.
const TOO_MANY: u32 = 132;

const BAD_LATENCY: u32 = 131;

/// A run's counts. Rounds are a schedule, no hardware's time.
#[repr(C)]
#[derive(Clone, Copy)]
pub struct CountsRow {
    /// Rounds made; of [`drive`] also the last, in which nothing moves.
    pub rounds: u64,
    /// Requests that were accepted.
    pub accepted: u64,
    /// Refused with 1, 2 or 11.
    pub denied: u64,
    /// Accepted requests whose word was at hand.
    pub hits: u64,
    /// Accepted: the word was on its way.
    pub joins: u64,
    /// Accepted requests whose block was asked for.
    pub misses: u64,
    /// Refused with 3 to 10 in the round that first asked them.
    pub stalled: u64,
    /// Rounds lost with 3: the tag is in use.
    pub lost_tag_in_use: u64,
    /// With 4: the limit of outstanding loads is reached.
    pub lost_replies_full: u64,
    /// With 5: four loads wait for the word.
    pub lost_targets_full: u64,
    /// With 7: no register is free.
    pub lost_no_register: u64,
    /// With 8: every way of the set waits for words.
    pub lost_set_pending: u64,
    /// With 9: the write queue has too few places.
    pub lost_queue_full: u64,
    /// With 10: a bank has too little room.
    pub lost_bank_full: u64,
    /// Loads that were answered.
    pub values: u64,
    /// Rounds from acceptance to answer of all loads; 2^64 - 1 if more.
    pub waited: u64,
    /// The most of these for one load.
    pub longest: u64,
    /// Words that were written back.
    pub written: u64,
    /// The most registers in use at once.
    pub registers: u32,
}

/// Why requests aren't driven.
#[derive(Clone, Copy)]
pub(crate) enum RoundsFault {
    /// No machine is behind the handle.
    Closed,
    /// Rounds make the machine's events.
    InRounds,
    /// No rounds were begun.
    NoRounds,
    BadLatency,
    /// Too many requests, or no more rounds.
    TooMany,
    /// A row is no request.
    NoRequest,
    /// There was too little memory.
    OutOfMemory,
}

impl From<AllocError> for RoundsFault {
    ghost use Rattle.std.specs.Prelude.{◌≡◌};
    ghost use Rattle.machine_handles.specs.declared.rounds.RoundsFault.TheVariants.{OutOfMemory};

    ghost from_gives = { λ e f. f ≡ OutOfMemory };

    fn from(_fault: AllocError) -> RoundsFault {
        RoundsFault::OutOfMemory
    }
}

/// Drives requests in rounds until nothing is on its way, and counts.
pub fn drive(
    alloc: Global,
    handle: &mut Handle,
    latency: u32,
    busy: u32,
    requests: &[EventRow],
    counts: &mut CountsRow,
) -> u32
    ensures status { IsToldOfRounds result
        (rounds_fault (standing handle.old) latency requests.now) }
    ensures counts { result ≡ 0
        → Some counts.new ≡ counted latency busy requests.now (behind handle.old) }
    ensures machine { result ≡ 0
        → standing handle.new
        ≡ option_map alone (driven latency busy requests.now (behind handle.old)) }
    ensures over { result ≡ 0
        → IsDriven latency busy requests.now (behind handle.old) }
    ensures unchanged { result ≢ 0 → standing handle.new ≡ standing handle.old }
    ensures kept { result ≢ 0 → counts.new ≡ counts.old }
{
    match drive_behind(alloc, handle, latency, busy, requests) {
        Ok(table) => {
            *counts = counts_row(&table);
            DONE
        }
        Err(fault) => rounds_number(fault),
    }
}

// Drives the machine behind the handle.
fn drive_behind(
    alloc: Global,
    handle: &mut Handle,
    latency: u32,
    busy: u32,
    requests: &[EventRow],
) -> Result<Table, RoundsFault>
    ensures fault { IfErr result
        (λ e. e ≡ why_not (rounds_fault (standing handle.old) latency requests.now)) }
    ensures none { OnOk result (rounds_fault (standing handle.old) latency requests.now ≡ None) }
    ensures counts { IfOk result
        (λ table. Some (rounds.counts_row table)
        ≡ counted latency busy requests.now (behind handle.old)) }
    ensures machine { OnOk result
        (standing handle.new
        ≡ option_map alone (driven latency busy requests.now (behind handle.old))) }
    ensures over { OnOk result (IsDriven latency busy requests.now (behind handle.old)) }
    ensures unchanged { OnErr result (standing handle.new ≡ standing handle.old) }
{
    let Some(mut kept) = handle.take(alloc) else {
        return Err(RoundsFault::Closed);
    };
    let made = drive_kept(alloc, kept.as_mut(), latency, busy, requests);
    handle.keep(kept);
    made
}

fn drive_kept(
    alloc: Global,
    kept: &mut Kept,
    latency: u32,
    busy: u32,
    requests: &[EventRow],
) -> Result<Table, RoundsFault>
    ensures fault { IfErr result
        (λ e. e ≡ why_not (rounds_fault (Some (standing_of kept.old)) latency requests.now)) }
    ensures none { OnOk result
        (rounds_fault (Some (standing_of kept.old)) latency requests.now ≡ None) }
    ensures counts { IfOk result
        (λ table. Some (rounds.counts_row table)
        ≡ counted latency busy requests.now (Some kept.old.machine)) }
    ensures machine { OnOk result
        (Some (standing_of kept.new)
        ≡ option_map alone (driven latency busy requests.now (Some kept.old.machine))) }
    ensures over { OnOk result
        (IsDriven latency busy requests.now (Some kept.old.machine)) }
    ensures unchanged { OnErr result (standing_of kept.new ≡ standing_of kept.old) }
{
    if !kept.is_idle() {
        return Err(RoundsFault::InRounds);
    }
    drive_machine(alloc, &mut kept.machine, latency, busy, requests)
}

// Drives a machine.
#[tactic(auto, unfolding(crate::specs::Rounds::bad_rounds))]
fn drive_machine(
    alloc: Global,
    machine: &mut ShapedMachine,
    latency: u32,
    busy: u32,
    rows: &[EventRow],
) -> Result<Table, RoundsFault>
    ensures fault { IfErr result (λ e. e ≡ why_not (bad_rounds latency rows.now)) }
    ensures none { OnOk result (bad_rounds latency rows.now ≡ None) }
    ensures counts { IfOk result
        (λ table. Some (rounds.counts_row table)
        ≡ counted latency busy rows.now (Some machine.old)) }
    ensures machine { OnOk result
        (Some machine.new ≡ driven latency busy rows.now (Some machine.old)) }
    ensures over { OnOk result (IsDriven latency busy rows.now (Some machine.old)) }
    ensures unchanged { OnErr result (machine.new ≡ machine.old) }
{
    if u64::from(latency) > MOST_LATENCY {
        return Err(RoundsFault::BadLatency);
    }
    if rows.len() > MOST_REQUESTS {
        return Err(RoundsFault::TooMany);
    }
    if !are_requests(rows) {
        return Err(RoundsFault::NoRequest);
    }
    keeps_whole(machine);
    let requests = requests_of(alloc, rows)?;
    let timing = Timing {
        latency: u64::from(latency),
        busy: u64::from(busy),
    };
    Ok(summarize_with(alloc, machine, timing, requests.as_slice())?)
}

fn are_requests(rows: &[EventRow]) -> bool
    ensures { result ≡ list_all rounds.is_request_row rows.now }
{
    rows.iter().all(|row| row.kind < 4)
}

// The request that a row says.
pub(crate) fn request_of(row: &EventRow) -> Event
    ensures { result ≡ rounds.request_of row.now }
{
    row.event().unwrap_or(Event::Drain)
}

// The requests that the rows say.
fn requests_of(alloc: Global, rows: &[EventRow]) -> Result<Vec<Event>, AllocError>
    ensures { IfOk result (λ v. v.items ≡ rounds.requests_of rows.now) }
{
    rows.iter().map(request_of).collect(alloc)
}

// What was counted, as a row.
pub(crate) fn counts_row(table: &Table) -> CountsRow
    ensures { result ≡ rounds.counts_row table.now }
{
    CountsRow {
        rounds: table.rounds,
        accepted: table.accepted,
        denied: table.denied,
        hits: table.hits,
        joins: table.joins,
        misses: table.misses,
        stalled: table.stalled,
        lost_tag_in_use: table.lost.tag_in_use,
        lost_replies_full: table.lost.replies_full,
        lost_targets_full: table.lost.targets_full,
        lost_no_register: table.lost.no_register,
        lost_set_pending: table.lost.set_pending,
        lost_queue_full: table.lost.queue_full,
        lost_bank_full: table.lost.bank_full,
        values: table.values,
        waited: table.waited.min(u128::from(u64::MAX)) as u64,
        longest: table.longest,
        written: table.written,
        registers: table.registers,
    }
}

/// What C gets of a fault.
pub(crate) fn rounds_number(fault: RoundsFault) -> u32
    ensures number { result ≡ rounds_number fault }
    ensures fault { result ≢ 0 }
{
    match fault {
        RoundsFault::Closed => CLOSED,
        RoundsFault::InRounds => IN_ROUNDS,
        RoundsFault::NoRounds => NO_ROUNDS,
        RoundsFault::BadLatency => BAD_LATENCY,
        RoundsFault::TooMany => TOO_MANY,
        RoundsFault::NoRequest => NO_EVENT,
        RoundsFault::OutOfMemory => OUT_OF_MEMORY,
    }
}
