//! Stations: a tour of one, with what its ports were told and the audit found; a soak of many at
//! random; and how many asks a second are served.
//!
//! - First call: `main`.
//! - Caller: the shell, by `./kroft-station`, and `./test` for the soak.
//!
//! The tour writes what the run's findings are, and that is proved. Rates are measured only.
#![tactic(auto)]

ghost use Rattle.std.specs.Prelude.{◌≡◌, ◌≤◌, true, IfOk};
ghost use Rattle.station_checks.specs.Stories.{findings_text};
ghost use Rattle.station_tour.specs.Shown.{IsTold, EndsAsShown, EndsIn, shows_story, shows_journal};
ghost use Rattle.station_tour.specs.Statuses.{ComesTo};

mod command_line;
mod crew;
mod fault;
mod patience;
mod rates;
mod seen;
mod soak;
mod tour;

use crate::command_line::{Job, Show, read_words};
use crate::crew::threads_here;
use crate::fault::{FaultText, StationFault};
use crate::rates::{serve_once, tell_rates};
use crate::seen::Seen;
use crate::soak::soak;
use crate::tour::{Pages, tour};
use station_checks::{Findings, Plan};
use std::io::{BufWriter, Print, Write};
use std::process::ExitCode;
use std::rt::{Clock, Env, Files};
use std::sync::Wait;
use std::thread::Threads;
use std::{env, fs, io};

// Set by the launcher if standard error is a terminal.
const PROGRESS: &str = "KROFT_PROGRESS";

fn main(rt: HostRuntime) -> ExitCode {
    let errors = rt.stderr();
    let end = start(&rt, &errors);
    ExitCode::from(end_with(&rt, &errors, &end))
}

// Tells help, or why the program ends early; gives the status.
fn end_with<P: Print, E: Print>(output: &P, errors: &E, end: &Result<Seen, StationFault>) -> u8
    ensures { ComesTo end.now result }
{
    match end {
        Ok(seen) => seen.status(),
        Err(help) if help.is_help() => match print!(output; "{help}") {
            Ok(()) => 0,
            Err(stream) => {
                let fault = StationFault::from(stream);
                let _told = tell_fault(errors, &fault);
                fault.status()
            }
        },
        Err(fault) => {
            let _told = tell_fault(errors, fault);
            fault.status()
        }
    }
}

// The command line's texts end their own lines.
fn tell_fault<E: Print>(errors: &E, fault: &StationFault) -> io::Result<()> {
    match fault {
        StationFault::CommandLine(_) => print!(errors; "{}", FaultText(fault)),
        _ => println!(errors; "{}", FaultText(fault)),
    }
}

// Does what the command line asks for.
fn start<R: AllocGlobal + Clock + Env + Files + Print + Threads + Wait + Sync, E: Print>(
    rt: &R,
    errors: &E,
) -> Result<Seen, StationFault> {
    let job = asked_for(rt)?;
    let mut output = BufWriter::new(rt.alloc(), io::writer(rt))?;
    let mut errors = io::writer(errors);
    done(rt, &mut output, &mut errors, &job)
}

fn asked_for<R: AllocGlobal + Env>(rt: &R) -> Result<Job, StationFault> {
    let alloc = rt.alloc();
    let words: Vec<String> = env::args(rt)?.collect(alloc)?;
    let texts: Vec<&str> = words
        .iter()
        .skip(1)
        .map(|word| word.as_str())
        .collect(alloc)?;
    read_words(alloc, &texts)
}

// Does a job, and ends what was written.
fn done<R: AllocGlobal + Clock + Env + Files + Threads + Wait + Sync, W: Write, E: Write>(
    rt: &R,
    output: &mut W,
    errors: &mut E,
    job: &Job,
) -> Result<Seen, StationFault>
    ensures { IfOk result (IsTold job.now (W.contents output.old) (W.contents output.new)) }
{
    let seen = seen_of(rt, output, errors, job)?;
    output.flush()?;
    Ok(seen)
}

// What was seen of a job.
fn seen_of<R: AllocGlobal + Clock + Env + Files + Threads + Wait + Sync, W: Write, E: Write>(
    rt: &R,
    output: &mut W,
    errors: &mut E,
    job: &Job,
) -> Result<Seen, StationFault>
    ensures { IfOk result (IsTold job.now (W.contents output.old) (W.contents output.new)) }
{
    match job {
        Job::Tour {
            plan,
            threads,
            show,
        } => {
            let threads = threads.unwrap_or(threads_here(rt));
            let found = show_tour(rt, output, errors, plan, threads, show)?;
            Ok(Seen::Tour(found))
        }
        Job::Soak { stations, seed } => {
            let soaked = soak(rt, output, errors, *stations, *seed)?;
            Ok(Seen::Soak(soaked))
        }
        Job::Rates { plan } => {
            let all_good = tell_rates(rt, output, plan)?;
            Ok(Seen::Rates { all_good })
        }
        Job::Once { plan, server } => {
            let all_good = serve_once(rt, *server, plan)?;
            Ok(Seen::Rates { all_good })
        }
    }
}

fn show_tour<R: AllocGlobal + Clock + Env + Files + Threads + Sync, W: Write, E: Write>(
    rt: &R,
    output: &mut W,
    errors: &mut E,
    plan: &Plan,
    threads: u32,
    show: &Show,
) -> Result<Findings, StationFault>
    ensures { IfOk result
        (λ found. EndsAsShown show.now plan.now (W.contents output.old) (W.contents output.new) found) }
{
    let pages = pages_of(show, env::var(rt, PROGRESS).is_ok());
    // What isn't shown isn't written there either.
    let mut nowhere: Vec<u8> = Vec::new(rt.alloc());
    match show {
        Show::Story => tour(rt, output, &mut nowhere, errors, plan, threads, pages),
        Show::Journal => tour(rt, &mut nowhere, output, errors, plan, threads, pages),
        Show::StoryAndFile(name) => {
            tour_into_file(rt, output, errors, plan, threads, pages, name.as_str())
        }
    }
}

fn tour_into_file<R: AllocGlobal + Clock + Files + Threads + Sync, W: Write, E: Write>(
    rt: &R,
    output: &mut W,
    errors: &mut E,
    plan: &Plan,
    threads: u32,
    pages: Pages,
    name: &str,
) -> Result<Findings, StationFault>
    ensures { IfOk result (λ found. pages.story ≡ true → 1 ≤ plan.now.asks
        → EndsIn (W.contents output.old) (W.contents output.new) (findings_text found)) }
{
    let journal = fs::create(rt, name).map_err(|fault| StationFault::Journal(fault))?;
    let mut file = BufWriter::new(rt.alloc(), journal)?;
    let found = tour(rt, output, &mut file, errors, plan, threads, pages)?;
    file.flush().map_err(|fault| StationFault::Journal(fault))?;
    Ok(found)
}

fn pages_of(show: &Show, progress: bool) -> Pages
    ensures story { result.story ≡ shows_story show.now }
    ensures journal { result.journal ≡ shows_journal show.now }
    ensures progress { result.progress ≡ progress }
{
    match show {
        Show::Story => Pages {
            story: true,
            journal: false,
            progress,
        },
        Show::Journal => Pages {
            story: false,
            journal: true,
            progress,
        },
        Show::StoryAndFile(_) => Pages {
            story: true,
            journal: true,
            progress,
        },
    }
}
