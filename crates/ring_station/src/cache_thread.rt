//! The cache side's thread.
ghost use Rattle.std.specs.Prelude.{◌≡◌, ◌-◌, ◌≤◌, length, if◌then◌else◌};
ghost use Rattle.std.specs.List.{All};
ghost use Rattle.flat_model.specs.declared.limits.TheConstants.{MAX_BANKS};
ghost use Rattle.station_parts.specs.Ids.{cache_id};
ghost use Rattle.ring_station.specs.declared.gate.Actor.{Actor};
ghost use Rattle.station_parts.specs.SideSteps.{SideSteps};
ghost use Rattle.ring_station.specs.Turns.{IsTurn};
ghost use Rattle.ring_station.specs.Round.{TurnsRound, HasGoneRound};
ghost use Rattle.station_parts.specs.Words.{held_of};
ghost use Rattle.ring_station.specs.PartRuns.{CacheRan, ends_at};
ghost use Rattle.ring_station.specs.Crew.{EachServed};
ghost use Rattle.ring_station.specs.Ends.{not_begun};

use crate::bank_thread::{serve_beside, serve_on};
use crate::crew::BankRun;
use crate::gate::{Actor, Gate};
use crate::idle::{Idling, turn_beside, turn_of};
use crate::round::Round;
use crate::thread_end::{ThreadEnd, ThreadFault};
use station_parts::{CacheSide, Entry, Look, Source, Stepped};
use std::rt::Clock;
use std::sync::atomic::{AtomicBool, Ordering};

/// Runs the cache side, and the banks on its thread.
pub(crate) fn run_cache<R: Clock, G: Gate>(
    rt: &R,
    gate: &G,
    ports: u32,
    banks: u32,
    turns: u64,
    done: &AtomicBool,
    cache: &mut CacheSide,
    own: &mut [BankRun],
) -> ThreadEnd
    requires few { length own.old ≤ MAX_BANKS }
    requires begun { All (λ r. r.end ≡ not_begun) own.old }
    ensures cache { CacheRan ports turns cache.old cache.new result }
    ensures banks { EachServed turns own.old own.new }
{
    let (end, had) = go_round(rt, gate, ports, banks, turns, done, cache, own);
    serve_on(rt, gate, 0, had, turns, done, own);
    end
}

// The flag is set only when every port is done and the unit is at rest, since banks end by it. A full journal
// never gets room.
//
// The result counts the banks' turns too.
fn go_round<R: Clock, G: Gate>(
    rt: &R,
    gate: &G,
    ports: u32,
    banks: u32,
    turns: u64,
    done: &AtomicBool,
    cache: &mut CacheSide,
    own: &mut [BankRun],
) -> (ThreadEnd, u64)
    requires few { length own.old ≤ MAX_BANKS }
    requires begun { All (λ r. r.end ≡ not_begun) own.old }
    ensures cache { CacheRan ports turns cache.old cache.new result.0 }
    ensures banks { EachServed result.1 own.old own.new }
    ensures within { result.1 ≤ turns }
    ensures round { HasGoneRound (G.can_answer gate.now Actor.Cache) ports banks result.0.turns result.1 cache.old cache.new }
{
    let mut round = Round::new(ports, banks);
    let mut open_ports = ports;
    let mut had = 0;
    let mut stepped = None;
    let mut idling = Idling::of_cache();
    for turn in 0..turns {
        let served = serve_beside(gate, round.are_banks_due(stepped), had, own);
        had = served.turns;
        let entries = cache.entries();
        stepped = turn_round(gate.may(Actor::Cache), &mut round, cache);
        open_ports = still_open(open_ports, has_ended_port(cache, entries));
        if open_ports == 0 && cache.is_at_rest() {
            done.store(true, Ordering::SeqCst);
            return (ThreadEnd::over(turn + 1), had);
        }
        if stepped == Some(Stepped::JournalFull) {
            return (ThreadEnd::stopped(turn + 1, ThreadFault::JournalFull), had);
        }
        idling.end_turn(rt, turn_beside(turn_of(stepped), served.made));
    }
    (ThreadEnd::stopped(turns, ThreadFault::TurnLimit), had)
}

fn turn_round(may: bool, round: &mut Round, cache: &mut CacheSide) -> Option<Stepped>
    ensures same { cache_id cache.new ≡ cache_id cache.old }
    ensures turn { TurnsRound may round.old round.new cache.old cache.new result }
{
    round.seek(may, cache);
    let stepped = take_turn(may, round.source(), cache);
    round.go_on(stepped);
    stepped
}

fn take_turn(may: bool, source: Source, cache: &mut CacheSide) -> Option<Stepped>
    ensures same { cache_id cache.new ≡ cache_id cache.old }
    ensures turn { IsTurn (SideSteps source) may cache.old cache.new result }
{
    if !may {
        return None;
    }
    Some(cache.step_with(source, Look::IfNeeded))
}

fn has_ended_port(cache: &CacheSide, place: u32) -> bool
    ensures { result ≡ ends_at (held_of cache.now) place }
{
    matches!(cache.entry(place), Some(Entry::Ended { .. }))
}

fn still_open(ports: u32, has_ended: bool) -> u32
    ensures { result ≡ (if has_ended then ports - 1 else ports) }
{
    if has_ended {
        ports.saturating_sub(1)
    } else {
        ports
    }
}
