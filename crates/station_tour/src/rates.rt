//! How many asks a second a station serves, by hand and on threads, and the core.

ghost use Rattle.std.specs.Prelude.{◌≡◌, ℕ, ◌<◌, ◌≤◌, ◌*◌, max, min, IfOk, length, vec_len};
ghost use Rattle.station_parts.specs.declared.make.TheConstants.{MAX_ENTRIES};
ghost use Rattle.station_parts.specs.Runs.{list_in};
ghost use Rattle.station_checks.specs.Asked.{ask_drawn, drawn_on};
ghost use Rattle.station_tour.specs.Asked.{any_word, requests_of, IsShare};

mod by_core;
mod by_hand;
mod by_mutex;
mod on_threads;

use crate::fault::StationFault;
use crate::rates::by_core::ask_core;
use crate::rates::by_hand::ask_by_hand;
use crate::rates::by_mutex::ask_behind_mutex;
use crate::rates::on_threads::ask_on_threads;
use rand_core::utils::NextWord;
use rand_pcg::Pcg32;
use ring_station::{Ask, Crew};
use station_checks::{BLOCK_WORDS, Plan, WORDS, ask_by, bytes_of, per_second};
use station_parts::{MAX_ENTRIES, MAX_PORTS, PORT_TAGS};
use std::alloc::{AllocError, Global};
use std::fmt::{Display, Formatter};
use std::io::Write;
use std::rt::Clock;
use std::sync::Wait;
use std::thread::Threads;
use std::time::{Duration, Instant};
use std::{fmt, io};

// A rate is their median.
const RUNS: u32 = 9;

// Each runs once before any runs again, so that a slow while is slow for all.
const SERVERS: [Server; 12] = [
    Server::Core,
    Server::Mutex { threads: 2 },
    Server::Mutex { threads: 4 },
    Server::Mutex { threads: 8 },
    Server::Hand,
    Server::Threads { ports: 1 },
    Server::Threads { ports: 2 },
    Server::Threads { ports: 4 },
    Server::Threads { ports: 8 },
    Server::Threads { ports: 16 },
    Server::Shared {
        ports: 8,
        threads: 2,
    },
    Server::Beside {
        ports: 8,
        threads: 3,
    },
];

// Journal entries for a request: one makes five or six with refused offers. So small a journal
// reuses the last station's memory; the system clears a large one page by page at each run.
const ENTRIES_A_REQUEST: usize = 8;

/// Who serves the requests.
#[derive(Clone, Copy)]
pub(crate) enum Server {
    /// The core on one thread.
    Core,
    /// The core behind a lock, asked by so many threads.
    Mutex { threads: u32 },
    /// One port, stepped on one thread.
    Hand,
    /// A thread for each port and each bank.
    Threads { ports: u32 },
    /// These threads share the ports; one is for all banks.
    Shared { ports: u32, threads: u32 },
    /// The same without it: the cache side serves the banks.
    Beside { ports: u32, threads: u32 },
}

impl Display for Server {
    ghost use Rattle.std.specs.Prelude.{Some};
    ghost use Rattle.station_tour.specs.Texts.{server_text};

    ghost output = { λ server. Some (server_text server) };

    fn fmt<W: fmt::Write>(&self, f: &mut Formatter<W>) -> fmt::Result {
        match *self {
            Server::Core => f.write_str("core"),
            Server::Mutex { threads } => write!(f, "core behind a mutex, {threads} threads"),
            Server::Hand => f.write_str("station by hand"),
            Server::Threads { ports: 1 } => f.write_str("station on threads, 1 port"),
            Server::Threads { ports } => write!(f, "station on threads, {ports} ports"),
            Server::Shared { ports, threads } => {
                write!(
                    f,
                    "station on threads, {ports} ports on {threads}, all banks on 1"
                )
            }
            Server::Beside { ports, threads } => {
                write!(
                    f,
                    "station on threads, {ports} ports on {threads}, all banks beside the cache"
                )
            }
        }
    }
}

/// A server's times.
#[derive(Drop)]
struct Timing {
    server: Server,
    times: Vec<Duration>,
}

impl Timing {
    // Every server, before its first run.
    fn of_servers(alloc: Global) -> Result<Vec<Timing>, AllocError> {
        let mut timings = Vec::new(alloc);
        for server in &SERVERS {
            timings.push(Timing {
                server: *server,
                times: Vec::new(alloc),
            })?;
        }
        Ok(timings)
    }

    fn note(&mut self, time: Duration) -> Result<(), AllocError> {
        self.times.push(time)?;
        Ok(())
    }

    // The time in the middle.
    fn median(&mut self) -> Duration {
        self.times.sort_unstable();
        let middle = self.times.len() / 2;
        self.times.get(middle).copied().unwrap_or(Duration::MAX)
    }
}

/// Tells each server's asks a second. Says whether each audit was clean.
pub(crate) fn tell_rates<R: AllocGlobal + Clock + Threads + Wait + Sync, W: Write>(
    rt: &R,
    out: &mut W,
    plan: &Plan,
) -> Result<bool, StationFault> {
    let requests = requests(rt.alloc(), plan)?;
    let mut timings = Timing::of_servers(rt.alloc())?;
    let all_good = run_all(rt, &mut timings, &requests)?;
    tell_medians(out, requests.len() as u64, &mut timings)?;
    Ok(all_good)
}

fn tell_medians<W: Write>(out: &mut W, count: u64, timings: &mut [Timing]) -> io::Result<()> {
    writeln!(out, "{count} requests, each rate the median of {RUNS} runs")?;
    for timing in timings {
        let rate = per_second(count, timing.median());
        writeln!(out, "{}: {rate} asks per second", timing.server)?;
    }
    Ok(())
}

// Runs the servers in turn. Says whether all went well.
fn run_all<R: AllocGlobal + Clock + Threads + Wait + Sync>(
    rt: &R,
    timings: &mut [Timing],
    requests: &[Ask],
) -> Result<bool, StationFault> {
    let mut all_good = true;
    for _run in 0..RUNS {
        all_good &= run_each(rt, timings, requests)?;
    }
    Ok(all_good)
}

fn run_each<R: AllocGlobal + Clock + Threads + Wait + Sync>(
    rt: &R,
    timings: &mut [Timing],
    requests: &[Ask],
) -> Result<bool, StationFault> {
    let mut all_good = true;
    for timing in timings {
        let begun = Instant::now(rt)?;
        all_good &= serve(rt, timing.server, requests)?;
        timing.note(begun.elapsed(rt)?)?;
    }
    Ok(all_good)
}

/// Serves the requests once. Says whether the audit, if any, was clean.
pub(crate) fn serve_once<R: AllocGlobal + Clock + Threads + Wait + Sync>(
    rt: &R,
    server: Server,
    plan: &Plan,
) -> Result<bool, StationFault> {
    let requests = requests(rt.alloc(), plan)?;
    serve(rt, server, &requests)
}

fn serve<R: AllocGlobal + Clock + Threads + Wait + Sync>(
    rt: &R,
    server: Server,
    requests: &[Ask],
) -> Result<bool, StationFault> {
    let alloc = rt.alloc();
    match server {
        Server::Core => ask_core(alloc, requests),
        Server::Mutex { threads } => {
            let scripts = share(alloc, requests, &Plan::new(threads, 0, 0))?;
            ask_behind_mutex(rt, &scripts)
        }
        Server::Hand => ask_by_hand(alloc, requests),
        Server::Threads { ports } => ask_crew(rt, ports, Crew::one_each(), requests),
        Server::Shared { ports, threads } => {
            let crew = Crew {
                port_threads: threads as usize,
                bank_threads: 1,
            };
            ask_crew(rt, ports, crew, requests)
        }
        Server::Beside { ports, threads } => {
            let crew = Crew {
                port_threads: threads as usize,
                bank_threads: 0,
            };
            ask_crew(rt, ports, crew, requests)
        }
    }
}

fn ask_crew<R: AllocGlobal + Clock + Threads + Sync>(
    rt: &R,
    ports: u32,
    crew: Crew,
    requests: &[Ask],
) -> Result<bool, StationFault> {
    let plan = Plan::new(ports, 0, 0);
    let scripts = share(rt.alloc(), requests, &plan)?;
    ask_on_threads(rt, &plan, &scripts, entries_for(requests), crew)
}

fn entries_for(requests: &[Ask]) -> u32
    ensures { result ≡ max 1 (min (length requests.now * ENTRIES_A_REQUEST) MAX_ENTRIES) }
{
    let entries = requests.len().saturating_mul(ENTRIES_A_REQUEST);
    entries.clamp(1, MAX_ENTRIES as usize) as u32
}

// Sixteen ports' requests, of any words: each share meets as many misses.
fn requests(alloc: Global, plan: &Plan) -> Result<Vec<Ask>, AllocError>
    ensures { IfOk result (λ asks. asks.items ≡ requests_of plan.now) }
{
    let mut random = Pcg32::new(plan.seed, 0);
    let mut asks = Vec::new(alloc);
    for number in 0..u64::from(plan.asks) * u64::from(MAX_PORTS) {
        asks.push(next_request(&mut random, number))?;
    }
    Ok(asks)
}

// The request of this number.
fn next_request(random: &mut Pcg32, number: u64) -> Ask
    ensures asked { result ≡ ask_drawn any_word random.old number }
    ensures rest { random.new ≡ drawn_on random.old }
{
    let pick = random.next_word();
    let word = bytes_of(random.next_word());
    let tag = (number % u64::from(PORT_TAGS)) as u8;
    ask_by(pick, tag, pick / 8 % WORDS, word, BLOCK_WORDS as u32)
}

// The requests, dealt out to the ports in turn.
fn share(alloc: Global, requests: &[Ask], plan: &Plan) -> Result<Vec<Vec<Ask>>, AllocError>
    ensures number { IfOk result (λ scripts. vec_len scripts ≡ plan.now.ports) }
    ensures each { IfOk result (λ scripts. (port : ℕ) → port < plan.now.ports
        → IsShare plan.now.ports port requests.now (list_in scripts.items port)) }
{
    let mut scripts = Vec::new(alloc);
    for port in 0..plan.ports {
        scripts.push(share_of(alloc, requests, port, plan.ports)?)?;
    }
    Ok(scripts)
}

fn share_of(alloc: Global, requests: &[Ask], port: u32, ports: u32) -> Result<Vec<Ask>, AllocError>
    requires { 1 ≤ ports }
    ensures { IfOk result (λ script. IsShare ports port requests.now script.items) }
{
    let behind = requests.len().saturating_sub(port as usize);
    let mut script = Vec::new(alloc);
    for place in 0..behind.div_ceil(ports as usize) {
        script.push(requests[port as usize + place * ports as usize])?;
    }
    Ok(script)
}
