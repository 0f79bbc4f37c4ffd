//! The threads of a run.
ghost use Rattle.std.specs.Prelude.{◌≡◌, ◌≤◌, ◌+◌, length, vec_len};
ghost use Rattle.std.specs.Fork.{AcceptsChunksMut, ChangesChunks, AllInChunks};
ghost use Rattle.std.specs.List.{All};
ghost use Rattle.std.specs.Thread.{IsSync};
ghost use Rattle.station_parts.specs.declared.make.TheConstants.{MAX_PORTS};
ghost use Rattle.flat_model.specs.declared.limits.TheConstants.{MAX_BANKS};
ghost use Rattle.ring_station.specs.Ends.{not_begun};
ghost use Rattle.ring_station.specs.PartRuns.{CacheRan};
ghost use Rattle.ring_station.specs.Crew.{parts_a_thread, HasNotBegun, EachRanFrom, EachRanScript, EachServed, EachHeard, EachShare};
ghost use Rattle.ring_station.specs.Turns.{PortsTakeTurns, BanksTakeTurns};

use crate::bank_thread::run_bank_thread;
use crate::cache_thread::run_cache;
use crate::crew::{BankRun, Crew, PortRun};
use crate::gate::Gate;
use crate::port_thread::run_port_thread;
use crate::thread_end::ThreadEnd;
use station_parts::{Ask, CacheSide};
use std::rt::Clock;
use std::sync::atomic::AtomicBool;
use std::thread::{Threads, for_each_chunk_mut, join_mut};

/// Runs all parts to their ends.
pub(crate) fn run_all<R: Clock + Threads + Sync, G: Gate>(
    rt: &R,
    gate: &G,
    scripts: &[Vec<Ask>],
    turns: u64,
    crew: Crew,
    cache: &mut CacheSide,
    ports: &mut Vec<PortRun>,
    banks: &mut Vec<BankRun>,
) -> ThreadEnd
    requires scripts { length scripts.now ≡ vec_len ports.old }
    requires few_ports { vec_len ports.old ≤ MAX_PORTS }
    requires few_banks { vec_len banks.old ≤ MAX_BANKS }
    requires ports { All HasNotBegun ports.old.items }
    requires banks { All (λ r. r.end ≡ not_begun) banks.old.items }
    ensures cache { CacheRan (vec_len ports.old) turns cache.old cache.new result }
    ensures ports { EachRanScript scripts.now turns ports.old.items ports.new.items }
    ensures heard { EachHeard (G.has_heard gate.now) 0 ports.new.items }
    ensures port_threads { EachShare (λ start. PortsTakeTurns (G.can_answer gate.now) start turns) crew.port_threads
        ports.old.items ports.new.items }
    ensures banks { EachServed turns banks.old.items banks.new.items }
{
    let done = AtomicBool::new(false);
    let port_count = ports.len() as u32;
    let bank_count = banks.len() as u32;
    let beside = crew.beside_cache(banks.len());
    let (own, others) = banks.as_mut_slice().split_at_mut(beside);
    let (cache_end, ()) = join_mut(
        rt,
        &mut || -> ThreadEnd
            requires { (length own.now ≤ MAX_BANKS) × All (λ r. r.end ≡ not_begun) own.now }
            ensures cache { CacheRan port_count turns cache.entry.now cache.exit.now result }
            ensures banks { EachServed turns own.entry.now own.exit.now }
        { run_cache(rt, gate, port_count, bank_count, turns, &done, cache, own) },
        &mut ||
            requires { IsSync R.row × (length scripts.now ≡ vec_len ports.now)
                × (vec_len ports.now ≤ MAX_PORTS) × (length others.now ≤ MAX_BANKS)
                × All HasNotBegun ports.now.items × All (λ r. r.end ≡ not_begun) others.now }
            ensures ports { EachRanScript scripts.entry.now turns ports.entry.now.items ports.exit.now.items }
            ensures heard { EachHeard (G.has_heard gate.entry.now) 0 ports.exit.now.items }
            ensures port_threads { EachShare (λ start. PortsTakeTurns (G.can_answer gate.entry.now) start turns) crew.port_threads
                ports.entry.now.items ports.exit.now.items }
            ensures banks { EachServed turns others.entry.now others.exit.now }
        { run_sides(rt, gate, scripts, turns, crew, &done, ports, others) },
    );
    cache_end
}

fn run_sides<R: Clock + Threads + Sync, G: Gate>(
    rt: &R,
    gate: &G,
    scripts: &[Vec<Ask>],
    turns: u64,
    crew: Crew,
    done: &AtomicBool,
    ports: &mut Vec<PortRun>,
    banks: &mut [BankRun],
)
    requires scripts { length scripts.now ≡ vec_len ports.old }
    requires few_ports { vec_len ports.old ≤ MAX_PORTS }
    requires few_banks { length banks.old ≤ MAX_BANKS }
    requires ports { All HasNotBegun ports.old.items }
    requires banks { All (λ r. r.end ≡ not_begun) banks.old }
    ensures ports { EachRanScript scripts.now turns ports.old.items ports.new.items }
    ensures heard { EachHeard (G.has_heard gate.now) 0 ports.new.items }
    ensures port_threads { EachShare (λ start. PortsTakeTurns (G.can_answer gate.now) start turns) crew.port_threads
        ports.old.items ports.new.items }
    ensures banks { EachServed turns banks.old banks.new }
    ensures bank_threads { EachShare (λ start. BanksTakeTurns (G.can_answer gate.now) start 0 turns) crew.bank_threads
        banks.old banks.new }
{
    join_mut(
        rt,
        &mut ||
            requires { IsSync R.row × (length banks.now ≤ MAX_BANKS)
                × All (λ r. r.end ≡ not_begun) banks.now }
            ensures banks { EachServed turns banks.entry.now banks.exit.now }
            ensures bank_threads { EachShare (λ start. BanksTakeTurns (G.can_answer gate.entry.now) start 0 turns) crew.bank_threads
                banks.entry.now banks.exit.now }
        { run_banks(rt, gate, turns, crew.bank_threads, done, banks) },
        &mut ||
            requires { IsSync R.row × (length scripts.now ≡ vec_len ports.now)
                × (vec_len ports.now ≤ MAX_PORTS) × All HasNotBegun ports.now.items }
            ensures ports { EachRanScript scripts.entry.now turns ports.entry.now.items ports.exit.now.items }
            ensures heard { EachHeard (G.has_heard gate.entry.now) 0 ports.exit.now.items }
            ensures port_threads { EachShare (λ start. PortsTakeTurns (G.can_answer gate.entry.now) start turns) crew.port_threads
                ports.entry.now.items ports.exit.now.items }
        { run_ports(rt, gate, scripts, turns, crew.port_threads, ports) },
    );
}

fn run_ports<R: Clock + Threads + Sync, G: Gate>(
    rt: &R,
    gate: &G,
    scripts: &[Vec<Ask>],
    turns: u64,
    threads: usize,
    ports: &mut [PortRun],
)
    requires scripts { length scripts.now ≡ length ports.old }
    requires few { length ports.old ≤ MAX_PORTS }
    requires begun { All HasNotBegun ports.old }
    ensures ran { EachRanScript scripts.now turns ports.old ports.new }
    ensures heard { EachHeard (G.has_heard gate.now) 0 ports.new }
    ensures threads { EachShare (λ start. PortsTakeTurns (G.can_answer gate.now) start turns) threads ports.old ports.new }
{
    for_each_share(
        rt,
        ports,
        threads,
        &|start: usize, runs: &mut [PortRun]|
            requires { (start + length runs.old ≤ length scripts.now)
                × (length scripts.now ≤ MAX_PORTS) × All HasNotBegun runs.old }
            ensures ran { EachRanFrom scripts.entry.now start turns runs.old runs.new }
            ensures turns { PortsTakeTurns (G.can_answer gate.entry.now) start turns runs.old runs.new }
            ensures heard { EachHeard (G.has_heard gate.entry.now) start runs.new }
        { run_port_thread(rt, gate, start, scripts, turns, runs) },
    );
}

fn run_banks<R: Clock + Threads + Sync, G: Gate>(
    rt: &R,
    gate: &G,
    turns: u64,
    threads: usize,
    done: &AtomicBool,
    banks: &mut [BankRun],
)
    requires few { length banks.old ≤ MAX_BANKS }
    requires begun { All (λ r. r.end ≡ not_begun) banks.old }
    ensures served { EachServed turns banks.old banks.new }
    ensures threads { EachShare (λ start. BanksTakeTurns (G.can_answer gate.now) start 0 turns) threads banks.old banks.new }
{
    for_each_share(
        rt,
        banks,
        threads,
        &|start: usize, runs: &mut [BankRun]|
            requires { (start + length runs.old ≤ MAX_BANKS) × All (λ r. r.end ≡ not_begun) runs.old }
            ensures served { EachServed turns runs.old runs.new }
            ensures turns { BanksTakeTurns (G.can_answer gate.entry.now) start 0 turns runs.old runs.new }
        { run_bank_thread(rt, gate, start, turns, done, runs) },
    );
}

fn for_each_share<R: Threads + Sync, T: Send, F: Fn(usize, &mut [T]) + Sync>(
    rt: &R,
    parts: &mut [T],
    threads: usize,
    run: &F,
)
    requires { AcceptsChunksMut F.Fn run.now (parts_a_thread (length parts.old) threads) parts.old }
    ensures shares { ChangesChunks F.Fn run.now (parts_a_thread (length parts.old) threads) parts.old parts.new }
    ensures each { AllInChunks F.Fn run.now (parts_a_thread (length parts.old) threads) parts.old parts.new }
{
    let size = parts_a_thread(parts.len(), threads);
    for_each_chunk_mut(rt, parts, size, run);
}

fn parts_a_thread(parts: usize, threads: usize) -> usize
    ensures { result ≡ parts_a_thread parts threads }
{
    parts.div_ceil(threads.max(1)).max(1)
}
