//! Rounds made one at a time.
ghost use Rattle.std.specs.Prelude.{◌≡◌, ◌≢◌, Some, None, IfOk, OnOk, IfErr, OnErr};
ghost use Rattle.std.specs.Option.{option_map, unwrap_or};
ghost use Rattle.machine_handles.specs.Behind.{standing, standing_of};
ghost use Rattle.machine_handles.specs.Rounds.{IsToldOfRounds, why_not};
ghost use Rattle.machine_handles.specs.Stepping as stepping;
ghost use Rattle.machine_handles.specs.Stepping.{begin_fault, begun, ended, request_in, round_fault, made, after_round, round_row};
ghost use Rattle.machine_handles.specs.Stepping.{counts_in, absent, fault_status};

use crate::handle::Handle;
use crate::kept::Kept;
use crate::part_rows::lookup_number;
use crate::rounds::{CountsRow, RoundsFault, counts_row, request_of, rounds_number};
use crate::status::{CLOSED, DONE, NO_ROUNDS};
use flat_judge::{EventRow, answer_row};
use flat_model::{Answer, Event, Word};
use round_driver::{MOST_LATENCY, MOST_ROUNDS, Note, RoundReport, Rounds, Timing, keeps_whole};
use std::alloc::{AllocError, Global};

/// A round; 0 where it doesn't apply.
#[repr(C)]
#[derive(Clone, Copy)]
pub struct RoundRow {
    /// Its number, counted from 1.
    pub round: u64,
    /// 0 no request, 1 accepted, 2 the round is lost to it, 3 denied.
    pub outcome: u32,
    /// A refusal's cause: 3 to 10 in a lost round, else 1, 2 or 11.
    pub cause: u32,
    /// 0 a hit, 1 a join, 2 a miss, 3 not looked for.
    pub found: u32,
    /// 1 if a load was answered.
    pub answered: u32,
    /// The tag of that load.
    pub tag: u16,
    /// The word that it got.
    pub word: Word,
}

/// Begins rounds: the next is round 1, and nothing is counted.
pub fn begin_rounds(alloc: Global, handle: &mut Handle, latency: u32, busy: u32) -> u32
    ensures status { IsToldOfRounds result (begin_fault (standing handle.old) latency) }
    ensures begun { result ≡ 0
        → standing handle.new ≡ begun latency busy (standing handle.old) }
    ensures unchanged { result ≢ 0 → standing handle.new ≡ standing handle.old }
{
    let Some(mut kept) = handle.take(alloc) else {
        return CLOSED;
    };
    let made = begin_in(alloc, kept.as_mut(), latency, busy);
    handle.keep(kept);
    match made {
        Ok(()) => DONE,
        Err(fault) => rounds_number(fault),
    }
}

// Begins rounds in a machine.
fn begin_in(alloc: Global, kept: &mut Kept, latency: u32, busy: u32) -> Result<(), RoundsFault>
    ensures fault { IfErr result
        (λ e. e ≡ why_not (begin_fault (Some (standing_of kept.old)) latency)) }
    ensures none { OnOk result (begin_fault (Some (standing_of kept.old)) latency ≡ None) }
    ensures begun { OnOk result
        (Some (standing_of kept.new) ≡ begun latency busy (Some (standing_of kept.old))) }
    ensures unchanged { OnErr result (standing_of kept.new ≡ standing_of kept.old) }
{
    if u64::from(latency) > MOST_LATENCY {
        return Err(RoundsFault::BadLatency);
    }
    let timing = Timing {
        latency: u64::from(latency),
        busy: u64::from(busy),
    };
    kept.rounds = Some(Rounds::new(alloc, timing)?);
    Ok(())
}

/// Makes one round, and offers the first of these requests, if any.
pub fn round(alloc: Global, handle: &mut Handle, requests: &[EventRow], row: &mut RoundRow) -> u32
    ensures status { result
        ≡ fault_status (round_fault (standing handle.old) requests.now) }
    ensures row { result ≡ 0 → Some row.new
        ≡ option_map (round_row requests.now) (made (standing handle.old) requests.now) }
    ensures machine { result ≡ 0
        → standing handle.new ≡ after_round (standing handle.old) requests.now }
    ensures unchanged { result ≢ 0 → standing handle.new ≡ standing handle.old }
    ensures kept { result ≢ 0 → row.new ≡ row.old }
{
    let Some(mut kept) = handle.take(alloc) else {
        return CLOSED;
    };
    let made = round_in(kept.as_mut(), requests);
    handle.keep(kept);
    match made {
        Ok(told) => {
            *row = told;
            DONE
        }
        Err(fault) => rounds_number(fault),
    }
}

// Makes one round in a machine.
fn round_in(kept: &mut Kept, requests: &[EventRow]) -> Result<RoundRow, RoundsFault>
    ensures fault { IfErr result
        (λ e. round_fault (Some (standing_of kept.old)) requests.now ≡ Some e) }
    ensures none { OnOk result (round_fault (Some (standing_of kept.old)) requests.now ≡ None) }
    ensures row { IfOk result
        (λ row. Some row ≡ option_map (round_row requests.now)
        (made (Some (standing_of kept.old)) requests.now)) }
    ensures machine { OnOk result
        (Some (standing_of kept.new) ≡ after_round (Some (standing_of kept.old)) requests.now) }
    ensures unchanged { OnErr result (standing_of kept.new ≡ standing_of kept.old) }
{
    let Kept { machine, rounds } = kept;
    let Some(rounds) = rounds else {
        return Err(RoundsFault::NoRounds);
    };
    if !is_offer(requests) {
        return Err(RoundsFault::NoRequest);
    }
    if rounds.count() >= MOST_ROUNDS {
        return Err(RoundsFault::TooMany);
    }
    keeps_whole(machine);
    let report = rounds.make(machine, request_in(requests));
    Ok(row_of(rounds.count(), &report))
}

fn is_offer(requests: &[EventRow]) -> bool
    ensures { result ≡ stepping.is_offer requests.now }
{
    match requests {
        [] => true,
        [row, ..] => row.kind < 4,
    }
}

// The request that is offered.
fn request_in(requests: &[EventRow]) -> Option<Event>
    ensures { result ≡ request_in requests.now }
{
    requests.first().map(request_of)
}

// What a round reports.
fn row_of(round: u64, report: &RoundReport) -> RoundRow
    ensures { result ≡ stepping.row_of round report.now }
{
    let told = answer_row(answer_of(report.asked));
    let value = answer_row(answer_of(report.answered));
    RoundRow {
        round,
        outcome: outcome_of(answer_of(report.asked)),
        cause: told.cause,
        found: found_number(report.asked),
        answered: u32::from(report.answered.is_some()),
        tag: value.tag,
        word: value.word,
    }
}

fn outcome_of(answer: Answer) -> u32
    ensures { result ≡ stepping.outcome_of answer }
{
    match answer {
        Answer::Accepted => 1,
        Answer::Refused(cause) => { if cause.ends_request() { 3 } else { 2 } }
        _ => 0,
    }
}

fn answer_of(note: Option<Note>) -> Answer
    ensures { result ≡ stepping.answer_of note }
{
    match note {
        Some(note) => note.answer,
        None => Answer::Nothing,
    }
}

// What a request found.
fn found_number(asked: Option<Note>) -> u32
    ensures { result ≡ stepping.found_number (stepping.found_in asked) }
{
    match asked {
        Some(note) => match note.found {
            Some(lookup) => lookup_number(lookup),
            None => 3,
        },
        None => 3,
    }
}

/// The rounds' counts since they were begun.
pub fn round_counts(alloc: Global, handle: &mut Handle, counts: &mut CountsRow) -> u32
    ensures status { result ≡ fault_status (absent (standing handle.old)) }
    ensures counts { counts.new ≡ unwrap_or (counts_in (standing handle.old)) counts.old }
    ensures same { standing handle.new ≡ standing handle.old }
{
    let Some(kept) = handle.take(alloc) else {
        return CLOSED;
    };
    let counted = counts_of(kept.as_ref());
    handle.keep(kept);
    match counted {
        Some(row) => {
            *counts = row;
            DONE
        }
        None => NO_ROUNDS,
    }
}

fn counts_of(kept: &Kept) -> Option<CountsRow>
    ensures { result ≡ counts_in (Some (standing_of kept.now)) }
{
    match &kept.rounds {
        Some(rounds) => Some(counts_row(&rounds.table())),
        None => None,
    }
}

/// Ends the rounds, and frees their memory: the caller makes events again.
pub fn end_rounds(alloc: Global, handle: &mut Handle) -> u32
    ensures status { result ≡ fault_status (absent (standing handle.old)) }
    ensures ended { standing handle.new ≡ ended (standing handle.old) }
{
    let Some(mut kept) = handle.take(alloc) else {
        return CLOSED;
    };
    let status = end_in(kept.as_mut());
    handle.keep(kept);
    status
}

// Ends the rounds of a machine.
fn end_in(kept: &mut Kept) -> u32
    ensures status { result ≡ fault_status (absent (Some (standing_of kept.old))) }
    ensures ended { Some (standing_of kept.new) ≡ ended (Some (standing_of kept.old)) }
{
    if kept.is_idle() {
        return NO_ROUNDS;
    }
    kept.rounds = None;
    DONE
}
