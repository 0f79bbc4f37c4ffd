//! The thread of a bank, or of several.
ghost use Rattle.std.specs.Prelude.{◌≡◌, ◌↔◌, ◌+◌, ◌<◌, ◌≤◌, if◌then◌else◌, List, true, false, length, None, IfSome};
ghost use Rattle.std.specs.List.{All};
ghost use Rattle.flat_model.specs.declared.limits.TheConstants.{MAX_BANKS};
ghost use Rattle.station_parts.specs.Ids.{bank_id};
ghost use Rattle.station_parts.specs.Words.{received_by};
ghost use Rattle.ring_station.specs.declared.crew.BankRun.{BankRun};
ghost use Rattle.ring_station.specs.declared.gate.Actor.{Actor};
ghost use Rattle.station_parts.specs.Serving.{BankSteps};
ghost use Rattle.ring_station.specs.Turns.{IsTurn, BankHasTurn, BanksHaveTurns, BanksTakeTurns};
ghost use Rattle.ring_station.specs.PortRuns.{moves_in};
ghost use Rattle.ring_station.specs.Ends.{goes_on, not_begun};
ghost use Rattle.ring_station.specs.Crew.{EachServed, ServesOn, EachServesOn};

use crate::crew::BankRun;
use crate::gate::{Actor, Gate};
use crate::idle::{Idling, Turn, turn_of, turn_of_both};
use crate::thread_end::{ThreadEnd, ThreadFault};
use station_parts::{BankSide, Look, Stepped};
use std::rt::Clock;
use std::sync::atomic::{AtomicBool, Ordering};

/// Runs banks from number `start` on, each a command a turn. A bank ends when it finds nothing to serve after
/// the flag was set.
pub(crate) fn run_bank_thread<R: Clock, G: Gate>(
    rt: &R,
    gate: &G,
    start: usize,
    turns: u64,
    done: &AtomicBool,
    runs: &mut [BankRun],
)
    requires few { start + length runs.old ≤ MAX_BANKS }
    requires begun { All (λ r. r.end ≡ not_begun) runs.old }
    ensures served { EachServed turns runs.old runs.new }
    ensures turns { BanksTakeTurns (G.can_answer gate.now) start 0 turns runs.old runs.new }
{
    serve_on(rt, gate, start, 0, turns, done, runs);
}

/// Goes on so behind `had` turns.
pub(crate) fn serve_on<R: Clock, G: Gate>(
    rt: &R,
    gate: &G,
    start: usize,
    had: u64,
    turns: u64,
    done: &AtomicBool,
    runs: &mut [BankRun],
)
    requires few { start + length runs.old ≤ MAX_BANKS }
    requires within { had ≤ turns }
    ensures on { (first : List BankRun) → EachServed had first runs.old → EachServed turns first runs.new }
    ensures turns { BanksTakeTurns (G.can_answer gate.now) start had turns runs.old runs.new }
{
    let mut idling = Idling::of_side();
    for turn in had..turns {
        // Read first: the steps then see each command sent before the flag was set.
        let is_done = done.load(Ordering::SeqCst);
        let Some(made) = turn_of_banks(gate, start, is_done, turn, runs) else {
            return;
        };
        idling.end_turn(rt, made);
    }
}

/// Turns had, and the last one.
#[derive(Clone, Copy)]
pub(crate) struct Served {
    pub(crate) turns: u64,
    pub(crate) made: Option<Turn>,
}

/// A turn of the banks on the cache side's thread, if due.
pub(crate) fn serve_beside<G: Gate>(
    gate: &G,
    is_due: bool,
    had: u64,
    runs: &mut [BankRun],
) -> Served
    requires few { length runs.old ≤ MAX_BANKS }
    requires turn { had < u64.MAX }
    ensures on { (first : List BankRun) → EachServed had first runs.old
        → EachServed result.turns first runs.new }
    ensures counted { result.turns ≡ (if is_due then had + 1 else had) }
    ensures due { is_due ≡ true → BanksHaveTurns (G.can_answer gate.now) 0 false had runs.old runs.new result.made }
    ensures undue { is_due ≡ false → (runs.new ≡ runs.old) × (result.made ≡ None) }
{
    if !is_due {
        return Served {
            turns: had,
            made: None,
        };
    }
    let made = turn_of_banks(gate, 0, false, had, runs);
    Served {
        turns: had + 1,
        made,
    }
}

fn turn_of_banks<G: Gate>(
    gate: &G,
    start: usize,
    is_done: bool,
    turn: u64,
    runs: &mut [BankRun],
) -> Option<Turn>
    requires few { start + length runs.old ≤ MAX_BANKS }
    requires turn { turn < u64.MAX }
    ensures on { EachServesOn turn runs.old runs.new }
    ensures turns { BanksHaveTurns (G.can_answer gate.now) start is_done turn runs.old runs.new result }
    ensures over { (result ≡ None) ↔ All (λ r. goes_on r.end.fault ≡ false) runs.new }
{
    let mut all = None;
    for k in 0..runs.len() {
        let number = (start + k) as u32;
        let made = turn_of_bank(gate, number, is_done, turn, &mut runs[k]);
        all = turn_of_both(all, made);
    }
    all
}

// `None` if its run is over.
fn turn_of_bank<G: Gate>(
    gate: &G,
    number: u32,
    is_done: bool,
    turn: u64,
    run: &mut BankRun,
) -> Option<Turn>
    requires { turn < u64.MAX }
    ensures on { ServesOn turn run.old run.new }
    ensures turn { BankHasTurn (G.can_answer gate.now (Actor.Bank number)) is_done turn run.old run.new result }
    ensures over { result ≡ None → goes_on run.new.end.fault ≡ false }
    ensures unmoved { goes_on run.old.end.fault ≡ false → (run.new ≡ run.old) × (result ≡ None) }
    ensures counted { goes_on run.old.end.fault ≡ true → run.new.end.turns ≡ turn + 1 }
    ensures made { IfSome result (λ made. (goes_on run.new.end.fault ≡ true)
        × (length (received_by run.new.bank) ≡ length (received_by run.old.bank) + moves_in made)) }
{
    if !run.end.goes_on() {
        return None;
    }
    let stepped = take_turn(gate.may(Actor::Bank(number)), &mut run.bank);
    if is_done && stepped == Some(Stepped::Idle) {
        run.end = ThreadEnd::over(turn + 1);
        return None;
    }
    run.end = ThreadEnd::stopped(turn + 1, ThreadFault::TurnLimit);
    Some(turn_of(stepped))
}

fn take_turn(may: bool, bank: &mut BankSide) -> Option<Stepped>
    ensures same { bank_id bank.new ≡ bank_id bank.old }
    ensures turn { IsTurn BankSteps may bank.old bank.new result }
{
    if !may {
        return None;
    }
    Some(bank.step_with(Look::IfNeeded))
}
