//! A soak: many stations, each with numbers, scripts and a gate at random, run on threads to its
//! end and looked at.

ghost use Rattle.std.specs.Prelude.{◌≡◌, ◌<◌, length, vec_len, IfOk, OnOk};
ghost use Rattle.std.specs.Io.KnownBytes.{Appends};
ghost use Rattle.station_parts.specs.Station.{AreOneStation};
ghost use Rattle.station_tour.specs.Soaks.{stations_in, with_outcome, soak_text, looked_text, looked_outcome, step_text};

mod random_gate;
mod trial;

use crate::fault::StationFault;
use crate::soak::random_gate::RandomGate;
use crate::soak::trial::{Draws, Trial};
use ring_station::{
    Ask, Crew, RunFault, Sizes, Station, Told, audit, run_and_audit, run_threads, shaped_station,
};
use station_checks::{Findings, FindingsText, Outcome, read_journal};
use std::alloc::{AllocError, Global};
use std::fmt::{self, Display, Formatter};
use std::io::{self, Write};
use std::rt::Clock;
use std::thread::Threads;

// So many stations pass between two lines that tell how far the soak is.
const STEP: u32 = 10;

/// What the stations of a soak came to.
#[derive(Clone, Copy)]
pub(crate) struct Soaked {
    /// How many came to their end, with nothing wrong.
    pub(crate) good: u32,
    /// How many came to a limit, with nothing wrong.
    pub(crate) turn_limits: u32,
    /// In how many something wrong was found.
    pub(crate) failed: u32,
}

impl Soaked {
    // Before the first station.
    fn new() -> Soaked
        ensures { result ≡ record { good = 0; turn_limits = 0; failed = 0 } }
    {
        Soaked {
            good: 0,
            turn_limits: 0,
            failed: 0,
        }
    }

    // Counts one station more.
    fn note(&mut self, outcome: Outcome)
        requires { stations_in self.old < u32.MAX }
        ensures { self.new ≡ with_outcome self.old outcome }
    {
        match outcome {
            Outcome::Good => self.good += 1,
            Outcome::TurnLimit => self.turn_limits += 1,
            Outcome::Failed => self.failed += 1,
        }
    }
}

/// Runs so many stations, and tells of each in which something wrong was found, and in the end how
/// many there were. The result is what they came to.
pub(crate) fn soak<R: AllocGlobal + Clock + Threads + Sync, W: Write, E: Write>(
    rt: &R,
    output: &mut W,
    errors: &mut E,
    stations: u32,
    seed: u64,
) -> Result<Soaked, StationFault>
    ensures all { IfOk result (λ soaked. stations_in soaked ≡ stations) }
    ensures told { IfOk result
        (λ soaked. Appends (W.contents output.old) (W.contents output.new) (soak_text stations soaked)) }
{
    let soaked = soak_each(rt, errors, stations, seed)?;
    tell_soak(output, stations, &soaked)?;
    Ok(soaked)
}

// Tells what so many stations came to.
fn tell_soak<W: Write>(out: &mut W, stations: u32, soaked: &Soaked) -> io::Result<()>
    ensures { OnOk result (Appends (W.contents out.old) (W.contents out.new) (soak_text stations soaked.now)) }
{
    let Soaked {
        turn_limits,
        failed,
        ..
    } = *soaked;
    writeln!(
        out,
        "{stations} stations, {failed} failed, {turn_limits} turn limits"
    )
}

// Runs so many stations, and tells of each in which something wrong was found.
#[tactic(auto, using(crate::proofs::Soaking::one_more))]
fn soak_each<R: AllocGlobal + Clock + Threads + Sync, E: Write>(
    rt: &R,
    errors: &mut E,
    stations: u32,
    seed: u64,
) -> Result<Soaked, StationFault>
    ensures { IfOk result (λ soaked. stations_in soaked ≡ stations) }
{
    let mut soaked = Soaked::new();
    for number in 0..stations {
        let looked = run_any(rt, seed, number)?;
        soaked.note(looked.outcome());
        tell_looked(errors, number, &looked)?;
        tell_step(errors, number, soaked.failed)?;
    }
    Ok(soaked)
}

// Tells of a station in which something wrong was found.
fn tell_looked<E: Write>(errors: &mut E, number: u32, looked: &Looked) -> io::Result<()>
    ensures { OnOk result (Appends (E.contents errors.old) (E.contents errors.new) (looked_text number looked.now)) }
{
    if matches!(looked.outcome(), Outcome::Failed) {
        writeln!(errors, "station {number}: {}", LookedText(*looked))?;
    }
    Ok(())
}

// Tells how far the soak is, between some stations.
fn tell_step<E: Write>(errors: &mut E, number: u32, failed: u32) -> io::Result<()>
    ensures { OnOk result (Appends (E.contents errors.old) (E.contents errors.new) (step_text number failed)) }
{
    if number % STEP == STEP - 1 {
        writeln!(errors, "station {number}: {failed} failed so far")?;
    }
    Ok(())
}

// What was found behind a station's run, and whether that had enough turns and entries for its end.
#[derive(Clone, Copy)]
struct Looked {
    findings: Findings,
    has_to_end: bool,
}

impl Looked {
    // What it comes to. A run with enough of all that comes to a limit has failed.
    fn outcome(&self) -> Outcome
        ensures { result ≡ looked_outcome self.now }
    {
        match self.findings.outcome() {
            Outcome::TurnLimit if self.has_to_end => Outcome::Failed,
            outcome => outcome,
        }
    }
}

// What was looked at, as its value is written in the code.
#[derive(Clone, Copy)]
struct LookedText(Looked);

impl Display for LookedText {
    ghost use Rattle.std.specs.Prelude.{Some};
    ghost use Rattle.station_tour.specs.Soaks.{looked_literal};

    ghost output = { λ looked. Some (looked_literal looked.0) };

    fn fmt<W: fmt::Write>(&self, f: &mut Formatter<W>) -> fmt::Result {
        let Looked {
            findings,
            has_to_end,
        } = self.0;
        let findings = FindingsText(findings);
        write!(
            f,
            "Looked {{ findings: {findings}, has_to_end: {has_to_end} }}"
        )
    }
}

// Runs the station of this number, with the least, the most or other ways, words of a block,
// registers and places of the stack.
fn run_any<R: AllocGlobal + Clock + Threads + Sync>(
    rt: &R,
    seed: u64,
    number: u32,
) -> Result<Looked, StationFault> {
    let mut draws = Draws::new(seed, number);
    let [ways, block_words, regs, depth] = match number % 4 {
        0 => [1, 1, 1, 1],
        1 => [16, 16, 64, 64],
        2 => [2, 4, 4, 4],
        _ => [3, 2, 5, 1],
    };
    let trial = Trial::draw(&mut draws, block_words);
    let sizes = Sizes {
        ways,
        block_words,
        regs,
        depth,
        words: trial.shape.words,
        sets: trial.shape.sets,
        banks: trial.shape.banks,
        bank_queue: trial.shape.bank_queue,
        write_queue: trial.shape.write_queue,
        replies: trial.shape.replies,
    };
    let mut station = shaped_station(rt.alloc(), &sizes, trial.ports, trial.journal)?;
    run_and_look(rt, &mut draws, &trial, &mut station)
}

// Runs a new station, and looks at what the run left.
fn run_and_look<R: AllocGlobal + Clock + Threads + Sync>(
    rt: &R,
    draws: &mut Draws,
    trial: &Trial,
    station: &mut Station,
) -> Result<Looked, StationFault>
    requires one { AreOneStation station.old.cache station.old.ports.items station.old.banks.items }
    requires ports { vec_len station.old.ports ≡ trial.now.ports }
{
    let lists = run_drawn(rt, draws, trial, station)?;
    let lists = lists.as_ref().map(|lists| lists.as_slice());
    let findings = look_at(rt.alloc(), station, trial.shape.words, lists)?;
    Ok(Looked {
        findings,
        has_to_end: trial.has_to_end(),
    })
}

// What each port took in a run that came to its end; nothing of one that came to its limit.
type Lists = Option<Vec<Vec<Told>>>;

// Runs a new station with scripts and a gate that are drawn.
fn run_drawn<R: AllocGlobal + Clock + Threads + Sync>(
    rt: &R,
    draws: &mut Draws,
    trial: &Trial,
    station: &mut Station,
) -> Result<Lists, StationFault>
    requires one { AreOneStation station.old.cache station.old.ports.items station.old.banks.items }
    requires ports { vec_len station.old.ports ≡ trial.now.ports }
    ensures { AreOneStation station.new.cache station.new.ports.items station.new.banks.items }
{
    let scripts = trial.scripts(rt.alloc(), draws)?;
    let gate = RandomGate::draw(rt.alloc(), draws)?;
    let crew = trial.crew(draws);
    lists_of(run_by(rt, station, &scripts, trial.turns, crew, &gate))
}

// Runs a station on the threads of a crew, or on one for each part.
fn run_by<R: AllocGlobal + Clock + Threads + Sync>(
    rt: &R,
    station: &mut Station,
    scripts: &[Vec<Ask>],
    turns: u64,
    crew: Option<Crew>,
    gate: &RandomGate,
) -> Result<Vec<Vec<Told>>, RunFault>
    requires one { AreOneStation station.old.cache station.old.ports.items station.old.banks.items }
    requires scripts { length scripts.now ≡ vec_len station.old.ports }
    ensures { AreOneStation station.new.cache station.new.ports.items station.new.banks.items }
{
    match crew {
        None => run_threads(rt, rt.alloc(), station, scripts, turns, gate),
        Some(crew) => {
            let run = run_and_audit(rt, rt.alloc(), station, scripts, turns, crew, gate)?;
            match run.fault() {
                Some(fault) => Err(fault),
                None => Ok(run.lists),
            }
        }
    }
}

// The lists of a run, if there was memory for it.
fn lists_of(ran: Result<Vec<Vec<Told>>, RunFault>) -> Result<Lists, StationFault> {
    match ran {
        Ok(lists) => Ok(Some(lists)),
        Err(RunFault::TurnLimit) => Ok(None),
        Err(RunFault::OutOfMemory) => Err(StationFault::OutOfMemory),
    }
}

// What a run left of a station with so many words of memory.
fn look_at(
    alloc: Global,
    station: &mut Station,
    words: u32,
    lists: Option<&[Vec<Told>]>,
) -> Result<Findings, AllocError>
    requires { AreOneStation station.old.cache station.old.ports.items station.old.banks.items }
{
    let Station {
        cache,
        ports,
        banks,
    } = station;
    let audit = audit(cache, ports, banks);
    let journal = read_journal(alloc, cache)?;
    Findings::of_run(alloc, audit, &journal, words, lists)
}
