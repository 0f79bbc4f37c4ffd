//! Runs on threads.
ghost use Rattle.std.specs.Prelude.{◌≡◌, ◌<◌, ◌≤◌, true, length, map, vec_len, IfErr, IfOk, OnErr, OnOk, IsErr};
ghost use Rattle.std.specs.List.{All};
ghost use Rattle.station_parts.specs.declared.make.TheConstants.{MAX_PORTS};
ghost use Rattle.flat_model.specs.declared.limits.TheConstants.{MAX_BANKS};
ghost use Rattle.station_parts.specs.declared.parts.Audit.TheVariants.{Clean};
ghost use Rattle.station_parts.specs.New.{IsNewPort};
ghost use Rattle.station_parts.specs.Promises.{IsAudited, IsCleanStation};
ghost use Rattle.station_parts.specs.Rest.{is_at_rest};
ghost use Rattle.station_parts.specs.Runs.{HaveConversed};
ghost use Rattle.station_parts.specs.Station.{AreOneStation, AreSameParts, AreUnmoved, IsOneStation, IsSameStation, IsUnmoved};
ghost use Rattle.station_parts.specs.Words.{cache_in, earlier_of};
ghost use Rattle.ring_station.specs.PartRuns.{BanksRan, CacheRan};
ghost use Rattle.ring_station.specs.PortRuns.{HaveRun, PortsRan, AreHeard};
ghost use Rattle.ring_station.specs.Crew.{HasNotBegun, EachRanScript, EachIsSame, EachServed, EachHeard};
ghost use Rattle.ring_station.specs.Ends.{not_begun};
ghost use Rattle.ring_station.specs.Run.{FailsBy, HaveFinished};
ghost use Rattle.ring_station.specs.Within.{KeepsTo};

use crate::crew::{
    BankRun, Crew, PortRun, dismiss_banks, dismiss_ports, enlist_banks, enlist_ports,
};
use crate::fault::RunFault;
use crate::gate::Gate;
use crate::report::Run;
use crate::thread_end::ThreadEnd;
use crate::threads::run_all;
use station_parts::{Ask, BankSide, CacheSide, Port, Station, Told, audit};
use std::alloc::{AllocError, Global};
use std::mem::replace;
use std::rt::Clock;
use std::thread::Threads;

/// Runs a new or renewed station to the end of its scripts, each part on its own thread. Returns what each port
/// took in the run, in order. The audit was `Clean`: the journal is a run of flat memory.
///
/// A thread has `turns` turns. In each it asks the gate, and makes at most one step. A port offers one ask at a
/// time, again after a refusal for a cause that may pass (3 to 10), and `Done` behind its script. The cache
/// side ends behind the ports, and the banks last. A script with `Done` in it comes to no end.
///
/// `OutOfMemory`: too little memory. `TurnLimit`: a thread used up its turns, which stops no other, or the
/// journal was full. The station then may be audited, and not run again. After `Ok` it may be renewed, and run
/// again. If a thread can't be made, the parts run one after another, mostly to `TurnLimit`.
pub fn run_threads<R: Clock + Threads + Sync, G: Gate>(
    rt: &R,
    alloc: Global,
    station: &mut Station,
    scripts: &[Vec<Ask>],
    turns: u64,
    gate: &G,
) -> Result<Vec<Vec<Told>>, RunFault>
    requires one { IsOneStation station.old }
    requires scripts { length scripts.now ≡ vec_len station.old.ports }

    ensures same { IsSameStation station.old station.new }

    ensures earlier { earlier_of station.new.cache ≡ earlier_of station.old.cache }

    ensures lists { IfOk result
        (λ lists. HaveRun scripts.now station.old.ports.items station.new.ports.items lists.items) }
    ensures conversed { IfOk result
        (λ lists. All IsNewPort station.old.ports.items
        → HaveConversed scripts.now station.new.ports.items lists.items) }
    ensures heard { IfOk result (λ lists. AreHeard (G.has_heard gate.now) lists.items) }

    ensures rests { OnOk result (is_at_rest (cache_in station.new.cache) ≡ true) }
    ensures banks { OnOk result (HaveFinished station.new.banks.items) }
    ensures no_turn { turns ≡ 0 → IsErr result }

    ensures fault { IfErr result (FailsBy scripts.now turns station.old station.new) }
    ensures within { KeepsTo turns station.old station.new }

    ensures clean { OnOk result (IsCleanStation station.new) }
{
    let run = run_and_audit(rt, alloc, station, scripts, turns, Crew::one_each(), gate)?;
    if let Some(fault) = run.fault() {
        return Err(fault);
    }
    Ok(run.lists)
}

/// The run of [`run_threads`], on the threads of a crew.
///
/// Parts that share a thread take turns in rounds, each with its own count. Banks beside the cache side have a
/// turn when its round comes to them, and when it found nothing. Fewer threads are faster on fewer processors,
/// since a change of thread costs many turns.
///
/// `AllocError`: too little memory before the threads began, and every part is as it was.
pub fn run_and_audit<R: Clock + Threads + Sync, G: Gate>(
    rt: &R,
    alloc: Global,
    station: &mut Station,
    scripts: &[Vec<Ask>],
    turns: u64,
    crew: Crew,
    gate: &G,
) -> Result<Run, AllocError>
    requires one { IsOneStation station.old }
    requires scripts { length scripts.now ≡ vec_len station.old.ports }

    ensures same { IsSameStation station.old station.new }
    ensures unmoved { OnErr result (IsUnmoved station.old station.new) }

    ensures ports { IfOk result (λ run. PortsRan scripts.now turns
        station.old.ports.items station.new.ports.items run.lists.items run.ports.items) }
    ensures heard { IfOk result (λ run. AreHeard (G.has_heard gate.now) run.lists.items) }
    ensures cache { IfOk result (λ run. CacheRan (length station.old.ports.items) turns
        station.old.cache station.new.cache run.cache) }
    ensures banks { IfOk result (λ run. BanksRan turns
        station.old.banks.items station.new.banks.items run.banks.items) }

    ensures audited { IfOk result (λ run. IsAudited
        station.new.cache station.new.ports.items station.new.banks.items run.audit) }
    ensures clean { IfOk result (λ run. run.audit ≡ Clean → IsCleanStation station.new) }
{
    let Station {
        cache,
        ports,
        banks,
    } = station;
    let ends = run_parts(rt, alloc, cache, ports, banks, scripts, turns, crew, gate)?;
    let found = audit(cache, ports, banks);
    Ok(Run {
        lists: ends.lists,
        ports: ends.ports,
        cache: ends.cache,
        banks: ends.banks,
        audit: found,
    })
}

#[derive(Drop)]
struct Ends {
    lists: Vec<Vec<Told>>,
    ports: Vec<ThreadEnd>,
    cache: ThreadEnd,
    banks: Vec<ThreadEnd>,
}

fn run_parts<R: Clock + Threads + Sync, G: Gate>(
    rt: &R,
    alloc: Global,
    cache: &mut CacheSide,
    ports: &mut Vec<Port>,
    banks: &mut Vec<BankSide>,
    scripts: &[Vec<Ask>],
    turns: u64,
    crew: Crew,
    gate: &G,
) -> Result<Ends, AllocError>
    requires one { AreOneStation cache.old ports.old.items banks.old.items }
    requires scripts { length scripts.now ≡ vec_len ports.old }
    ensures same { AreSameParts cache.old cache.new ports.old.items ports.new.items banks.old.items banks.new.items }
    ensures unmoved { OnErr result
        (AreUnmoved cache.old cache.new ports.old.items ports.new.items banks.old.items banks.new.items) }
    ensures ports { IfOk result (λ ends. PortsRan scripts.now turns
        ports.old.items ports.new.items ends.lists.items ends.ports.items) }
    ensures heard { IfOk result (λ ends. AreHeard (G.has_heard gate.now) ends.lists.items) }
    ensures cache { IfOk result
        (λ ends. CacheRan (length ports.old.items) turns cache.old cache.new ends.cache) }
    ensures banks { IfOk result
        (λ ends. BanksRan turns banks.old.items banks.new.items ends.banks.items) }
{
    // Memory is found before any part moves.
    let mut port_runs = Vec::with_capacity(alloc, ports.len())?;
    let mut bank_runs = Vec::with_capacity(alloc, banks.len())?;
    let mut lists = Vec::with_capacity(alloc, ports.len())?;
    let mut port_ends = Vec::with_capacity(alloc, ports.len())?;
    let mut bank_ends = Vec::with_capacity(alloc, banks.len())?;
    let port_places = Vec::with_capacity(alloc, ports.len())?;
    let bank_places = Vec::with_capacity(alloc, banks.len())?;
    enlist_ports(alloc, replace(ports, port_places), &mut port_runs);
    enlist_banks(replace(banks, bank_places), &mut bank_runs);
    let end = run_crew(
        rt,
        gate,
        scripts,
        turns,
        crew,
        cache,
        &mut port_runs,
        &mut bank_runs,
    );
    dismiss_ports(port_runs, ports, &mut lists, &mut port_ends);
    dismiss_banks(bank_runs, banks, &mut bank_ends);
    let cache = end?;
    Ok(Ends {
        lists,
        ports: port_ends,
        cache,
        banks: bank_ends,
    })
}

#[tactic(auto, using(crate::proofs::CrewRunning::still_not_begun))]
fn run_crew<R: Clock + Threads + Sync, G: Gate>(
    rt: &R,
    gate: &G,
    scripts: &[Vec<Ask>],
    turns: u64,
    crew: Crew,
    cache: &mut CacheSide,
    ports: &mut Vec<PortRun>,
    banks: &mut Vec<BankRun>,
) -> Result<ThreadEnd, AllocError>
    requires scripts { length scripts.now ≡ vec_len ports.old }
    requires few_ports { vec_len ports.old ≤ MAX_PORTS }
    requires few_banks { vec_len banks.old ≤ MAX_BANKS }
    requires ports { All HasNotBegun ports.old.items }
    requires banks { All (λ r. r.end ≡ not_begun) banks.old.items }
    ensures unmoved_cache { OnErr result (cache.new ≡ cache.old) }
    ensures port_count { length ports.new.items ≡ length ports.old.items }
    ensures bank_count { length banks.new.items ≡ length banks.old.items }
    ensures unmoved_ports { OnErr result (EachIsSame ports.old.items ports.new.items) }
    ensures unmoved_banks { OnErr result (banks.new ≡ banks.old) }
    ensures cache { IfOk result (λ end. CacheRan (vec_len ports.old) turns cache.old cache.new end) }
    ensures ports { OnOk result (EachRanScript scripts.now turns ports.old.items ports.new.items) }
    ensures heard { OnOk result (EachHeard (G.has_heard gate.now) 0 ports.new.items) }
    ensures banks { OnOk result (EachServed turns banks.old.items banks.new.items) }
{
    reserve_lists(scripts, ports)?;
    Ok(run_all(rt, gate, scripts, turns, crew, cache, ports, banks))
}

// A verdict for each ask, and as many values.
fn reserve_lists(scripts: &[Vec<Ask>], ports: &mut Vec<PortRun>) -> Result<(), AllocError>
    requires { length scripts.now ≡ vec_len ports.old }
    ensures { EachIsSame ports.old.items ports.new.items }
{
    for p in 0..ports.len() {
        ports[p].list.reserve(scripts[p].len().saturating_mul(2))?;
    }
    Ok(())
}
