//! The thread of several ports.
ghost use Rattle.std.specs.Prelude.{◌≡◌, ◌↔◌, ◌<◌, ◌≤◌, ◌+◌, List, length, true, false, Ok, IfOk, OnErr, IfSome, None};
ghost use Rattle.std.specs.List.{All};
ghost use Rattle.station_journal.specs.declared.asks.Told.{Told};
ghost use Rattle.station_parts.specs.declared.make.TheConstants.{MAX_PORTS};
ghost use Rattle.station_parts.specs.declared.port.Port.{Port};
ghost use Rattle.ring_station.specs.declared.talk.Phase.{Phase};
ghost use Rattle.ring_station.specs.declared.gate.Actor.{Actor};
ghost use Rattle.ring_station.specs.PortRuns.{IsOnItsWay, FindsNothing, moves_of, moves_in};
ghost use Rattle.ring_station.specs.Turns.{PortHasTurn, PortsHaveTurns, PortsTakeTurns};
ghost use Rattle.ring_station.specs.Ends.{goes_on};
ghost use Rattle.ring_station.specs.Crew.{HasNotBegun, EachRanFrom, IsReady, EachIsReady, GoesOn, EachGoesOn, EachHeard};

use crate::crew::PortRun;
use crate::gate::{Actor, Gate};
use crate::idle::{Idling, Turn, turn_of_both};
use crate::talk::{Phase, Talk};
use crate::thread_end::{ThreadEnd, ThreadFault};
use station_parts::{Ask, Look, Port, Told};
use std::alloc::AllocError;
use std::rt::Clock;

/// Runs ports from number `start` on, each an offer or a telling a turn.
pub(crate) fn run_port_thread<R: Clock, G: Gate>(
    rt: &R,
    gate: &G,
    start: usize,
    scripts: &[Vec<Ask>],
    turns: u64,
    runs: &mut [PortRun],
)
    requires scripts { start + length runs.old ≤ length scripts.now }
    requires few { length scripts.now ≤ MAX_PORTS }
    requires begun { All HasNotBegun runs.old }
    ensures ran { EachRanFrom scripts.now start turns runs.old runs.new }
    ensures turns { PortsTakeTurns (G.can_answer gate.now) start turns runs.old runs.new }
    ensures heard { EachHeard (G.has_heard gate.now) start runs.new }
{
    let mut idling = Idling::of_side();
    for turn in 0..turns {
        let Some(made) = turn_of_ports(gate, start, scripts, turn, runs) else {
            return;
        };
        idling.end_turn(rt, made);
    }
}

fn turn_of_ports<G: Gate>(
    gate: &G,
    start: usize,
    scripts: &[Vec<Ask>],
    turn: u64,
    runs: &mut [PortRun],
) -> Option<Turn>
    requires scripts { start + length runs.old ≤ length scripts.now }
    requires few { length scripts.now ≤ MAX_PORTS }
    requires turn { turn < u64.MAX }
    requires ready { EachIsReady scripts.now start turn runs.old }
    ensures on { EachGoesOn scripts.now start turn runs.old runs.new }
    ensures turns { PortsHaveTurns (G.can_answer gate.now) start runs.old runs.new result }
    ensures heard { EachHeard (G.has_heard gate.now) start runs.old → EachHeard (G.has_heard gate.now) start runs.new }
    ensures over { (result ≡ None) ↔ All (λ r. goes_on r.end.fault ≡ false) runs.new }
{
    let mut all = None;
    for k in 0..runs.len() {
        let p = start + k;
        let made = turn_of_port(gate, p as u32, scripts[p].as_slice(), turn, &mut runs[k]);
        all = turn_of_both(all, made);
    }
    all
}

// `None` if its run is over.
fn turn_of_port<G: Gate>(
    gate: &G,
    number: u32,
    script: &[Ask],
    turn: u64,
    run: &mut PortRun,
) -> Option<Turn>
    requires turn { turn < u64.MAX }
    requires ready { IsReady script.now turn run.old }
    ensures on { GoesOn script.now turn run.old run.new }
    ensures turn { PortHasTurn (G.can_answer gate.now (Actor.Port number)) run.old run.new result }
    ensures heard { All (G.has_heard gate.now number) run.old.list.items → All (G.has_heard gate.now number) run.new.list.items }
    ensures over { result ≡ None → goes_on run.new.end.fault ≡ false }
    ensures unmoved { goes_on run.old.end.fault ≡ false → (run.new ≡ run.old) × (result ≡ None) }
    ensures counted { goes_on run.old.end.fault ≡ true → run.new.end.turns ≡ turn + 1 }
    ensures made { IfSome result (λ made. (goes_on run.new.end.fault ≡ true)
        × (moves_of run.new.port ≡ moves_of run.old.port + moves_in made)) }
{
    if !run.end.goes_on() {
        return None;
    }
    let may = gate.may(Actor::Port(number));
    let Ok(made) = take_turn(
        may,
        gate,
        number,
        script,
        &mut run.talk,
        &mut run.port,
        &mut run.list,
    ) else {
        run.end = ThreadEnd::stopped(turn + 1, ThreadFault::OutOfMemory);
        return None;
    };
    if run.talk.is_over() {
        run.end = ThreadEnd::over(turn + 1);
        return None;
    }
    run.end = ThreadEnd::stopped(turn + 1, ThreadFault::TurnLimit);
    Some(made)
}

fn take_turn<G: Gate>(
    may: bool,
    gate: &G,
    number: u32,
    script: &[Ask],
    talk: &mut Talk,
    port: &mut Port,
    list: &mut Vec<Told>,
) -> Result<Turn, AllocError>
    requires owed { talk.old.owed < u64.MAX }
    requires placed { talk.old.phase ≡ Phase.Awaiting → talk.old.next < length script.now }
    ensures on { (first : Port) → IsOnItsWay script.now talk.old first port.old list.old.items
        → IsOnItsWay script.now talk.new first port.new list.new.items }
    ensures heard { All (G.has_heard gate.now number) list.old.items → All (G.has_heard gate.now number) list.new.items }
    ensures owed { talk.new.owed ≤ talk.old.owed + 1 }
    ensures placed { talk.new.phase ≡ Phase.Awaiting → talk.new.next < length script.now }

    ensures held { may ≡ false
        → (result ≡ Ok Turn.Held) × (port.new ≡ port.old) × (list.new ≡ list.old) × (talk.new ≡ talk.old) }
    ensures one { IfOk result (λ made. moves_of port.new ≡ moves_of port.old + moves_in made) }
    ensures none { OnErr result (moves_of port.new ≡ moves_of port.old) }
    ensures idle { may ≡ true → IfOk result (λ made. FindsNothing made talk.old.phase port.new) }
{
    if !may {
        return Ok(Turn::Held);
    }
    match talk.phase {
        Phase::Offering => Ok(offer_next(script, talk, port)),
        Phase::Awaiting | Phase::Closing => take_one(gate, number, script, talk, port, list),
        Phase::Astray => Ok(Turn::Idle),
    }
}

fn offer_next(script: &[Ask], talk: &mut Talk, port: &mut Port) -> Turn
    requires { talk.old.phase ≡ Phase.Offering }
    ensures on { (first : Port) (list : List Told) → IsOnItsWay script.now talk.old first port.old list
        → IsOnItsWay script.now talk.new first port.new list }
    ensures owed { talk.new.owed ≡ talk.old.owed }
    ensures placed { talk.new.phase ≡ Phase.Awaiting → talk.new.next < length script.now }
    ensures one { moves_of port.new ≡ moves_of port.old + moves_in result }
    ensures idle { FindsNothing result Phase.Offering port.new }
{
    if port.offer_with(talk.ask(script), Look::IfNeeded).is_err() {
        return Turn::Idle;
    }
    talk.note_offer(script);
    Turn::Moved
}

// Memory first: what can't be noted stays in the ring.
fn take_one<G: Gate>(
    gate: &G,
    number: u32,
    script: &[Ask],
    talk: &mut Talk,
    port: &mut Port,
    list: &mut Vec<Told>,
) -> Result<Turn, AllocError>
    requires owed { talk.old.owed < u64.MAX }
    requires placed { talk.old.phase ≡ Phase.Awaiting → talk.old.next < length script.now }
    ensures on { (first : Port) → IsOnItsWay script.now talk.old first port.old list.old.items
        → IsOnItsWay script.now talk.new first port.new list.new.items }
    ensures heard { All (G.has_heard gate.now number) list.old.items → All (G.has_heard gate.now number) list.new.items }
    ensures owed { talk.new.owed ≤ talk.old.owed + 1 }
    ensures placed { talk.new.phase ≡ Phase.Awaiting → talk.new.next < length script.now }
    ensures one { IfOk result (λ made. moves_of port.new ≡ moves_of port.old + moves_in made) }
    ensures none { OnErr result (moves_of port.new ≡ moves_of port.old) }
    ensures idle { IfOk result (λ made. FindsNothing made Phase.Awaiting port.new) }
{
    list.reserve(1)?;
    let Some(told) = port.take() else {
        return Ok(Turn::Idle);
    };
    gate.told(number, &told);
    talk.note(script, told);
    list.push_reserved(told);
    Ok(Turn::Moved)
}
