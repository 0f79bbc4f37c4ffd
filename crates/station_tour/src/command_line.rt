//! The words of the command line.
use crate::crew::FEWEST_THREADS;
use crate::fault::StationFault;
use crate::rates::Server;
use clap::{Arg, ArgAction, ArgMatches, Command};
use station_checks::Plan;
use station_parts::MAX_PORTS;
use std::alloc::{AllocError, Global};

#[derive(PartialEq, Eq, Drop)]
pub(crate) enum Show {
    /// What ports were told, and what the audit found.
    Story,
    /// The journal, as a recorded run.
    Journal,
    /// The story, and the journal into this file.
    StoryAndFile(String),
}

#[derive(Drop)]
pub(crate) enum Job {
    /// Runs a plan's ports, and tells this.
    Tour {
        plan: Plan,
        threads: Option<u32>,
        show: Show,
    },
    /// So many stations at random are run.
    Soak {
        stations: u32,
        seed: u64,
    },
    /// Tells how many asks a second are served.
    Rates {
        plan: Plan,
    },
    /// Serves once, and tells nothing.
    Once {
        plan: Plan,
        server: Server,
    },
}

const NAME: &str = "kroft-station";

// The file's name for standard output.
const STANDARD_OUTPUT: &str = "-";

// The most threads: the cache side, each port, and four banks.
const MOST_THREADS: u32 = MAX_PORTS + 5;

const SOAK: &str = "soak";

const RATES: &str = "rates";

const NOTES: &str =
    "Standard output has what no schedule of the threads changes: each ask with what came of it,
the audit's answer, and whether the journal is a run of flat memory. Standard error has what
changes from run to run: the journal's end, how many asks were offered again, asks per second.

Statuses:
  0  done: the audit is clean and the journal is flat
  1  it isn't
  2  the command line is wrong
  4  a stream or the clock failed
  5  there is too little memory, or a thread came to its limit

Example: the journal, judged by the checker
  $ ./kroft-station --journal | ./kroft check

Example: ten million asks of one port
  $ ./kroft-station --ports 1 --asks 10000000";

const SOAK_NOTES: &str =
    "Standard error has each station in which something wrong was found, and how far a soak is.
The status is 1 if there was one: a station whose audit isn't clean, whose journal isn't flat, or
one of whose ports' lists isn't the journal's part of it.";

// An argument that takes a whole number.
#[derive(Clone, Copy)]
struct Number {
    name: &'static str,
    least: i64,
    most: i64,
    help: &'static str,
}

const PORTS: Number = Number {
    name: "ports",
    least: 1,
    most: MAX_PORTS as i64,
    help: "How many ports ask, 1 to 16 [default: 4]",
};

const ASKS: Number = Number {
    name: "asks",
    least: 1,
    most: u32::MAX as i64,
    help: "How often each port asks, 1 to 4294967295 [default: 12]",
};

// Measured ports have fewer asks.
const MEASURED_ASKS: Number = Number {
    most: 10_000,
    help: "How often each port asks, 1 to 10000 [default: 12]",
    ..ASKS
};

const SEED: Number = Number {
    name: "seed",
    least: 1,
    most: u32::MAX as i64,
    help: "What the numbers and scripts are drawn by, 1 to 4294967295 [default: 1]",
};

const THREADS: Number = Number {
    name: "threads",
    least: FEWEST_THREADS as i64,
    most: MOST_THREADS as i64,
    help: "How many threads there are, 2 to 21 [default: as many as processors]",
};

const STATIONS: Number = Number {
    name: "stations",
    least: 1,
    most: 1_000_000,
    help: "How many stations are run, 1 to 1000000 [default: 4]",
};

fn number_argument<'a>(alloc: Global, number: &Number) -> Arg<'a> {
    Arg::new(alloc, number.name)
        .long(number.name)
        .value_name("N")
        .action(ArgAction::Set)
        .value_parser(clap::value_parser!(u32).range(number.least..=number.most))
        .help(number.help)
}

// The arguments that take these numbers.
fn number_arguments<'a>(alloc: Global, numbers: &[Number]) -> Result<Vec<Arg<'a>>, AllocError> {
    let mut args = Vec::new(alloc);
    for number in numbers {
        args.push(number_argument(alloc, number))?;
    }
    Ok(args)
}

fn flag<'a>(alloc: Global, name: &'a str, help: &'a str) -> Arg<'a> {
    Arg::new(alloc, name)
        .long(name)
        .action(ArgAction::SetTrue)
        .help(help)
}

fn journal<'a>(alloc: Global) -> Arg<'a> {
    Arg::new(alloc, "journal")
        .long("journal")
        .value_name("FILE")
        .action(ArgAction::Set)
        .num_args(0..=1)
        .default_missing_value(STANDARD_OUTPUT)
        .help("Write the journal, as a recorded run, into a file; or alone, without a name")
}

fn core_once<'a>(alloc: Global) -> Arg<'a> {
    flag(
        alloc,
        "core-once",
        "Serve the asks once by the core, and tell nothing",
    )
}

fn hand_once<'a>(alloc: Global) -> Result<Arg<'a>, AllocError> {
    let arg = flag(
        alloc,
        "hand-once",
        "Serve them once by a station that is stepped by hand, and tell nothing",
    );
    arg.conflicts_with("core-once")
}

// Arguments go in by one call: each call that hands a command through makes the proof dearer.
fn rates_arguments<'a>(alloc: Global) -> Result<Vec<Arg<'a>>, AllocError> {
    let mut args = number_arguments(alloc, &[MEASURED_ASKS, SEED])?;
    args.push(core_once(alloc))?;
    args.push(hand_once(alloc)?)?;
    Ok(args)
}

fn tour_arguments<'a>(alloc: Global) -> Result<Vec<Arg<'a>>, AllocError> {
    let mut args = number_arguments(alloc, &[PORTS, ASKS, SEED, THREADS])?;
    args.push(journal(alloc))?;
    Ok(args)
}

// The subcommand that runs stations at random.
fn soak_command<'a>(alloc: Global) -> Result<Command<'a>, AllocError> {
    let args = number_arguments(alloc, &[STATIONS, SEED])?;
    Command::new(alloc, SOAK)
        .about("Run stations at random on threads, and look at each")
        .after_help(SOAK_NOTES)
        .args(args)
}

// The subcommand that measures.
fn rates_command<'a>(alloc: Global) -> Result<Command<'a>, AllocError> {
    let args = rates_arguments(alloc)?;
    Command::new(alloc, RATES)
        .about("Tell how many asks a second are served, of the asks of sixteen ports")
        .args(args)
}

fn subcommands<'a>(alloc: Global) -> Result<Vec<Command<'a>>, AllocError> {
    let mut commands = Vec::new(alloc);
    commands.push(soak_command(alloc)?)?;
    commands.push(rates_command(alloc)?)?;
    Ok(commands)
}

// The command line without its arguments.
fn base<'a>(alloc: Global) -> Result<Command<'a>, AllocError> {
    Command::new(alloc, NAME)
        .version("0.2.0")
        .about("Ports on threads over one lockup-free cache, and an audit of what they were told")
        .after_help(NOTES)
        .no_binary_name(true)
        .disable_help_subcommand(true)
        .args_conflicts_with_subcommands(true)
        .bin_name(NAME)
}

// The command line without its subcommands.
fn tour_command<'a>(alloc: Global) -> Result<Command<'a>, AllocError> {
    let args = tour_arguments(alloc)?;
    base(alloc)?.args(args)
}

// The program's whole command line.
fn program<'a>(alloc: Global) -> Result<Command<'a>, AllocError> {
    let commands = subcommands(alloc)?;
    tour_command(alloc)?.subcommands(commands)
}

/// Help and the version come as a fault too.
pub(crate) fn read_words(alloc: Global, words: &[&str]) -> Result<Job, StationFault> {
    let mut command = program(alloc)?;
    let matches = command.try_get_matches_from_mut(words)?;
    Ok(match matches.subcommand() {
        Some((SOAK, rest)) => soak_job(rest),
        Some((_, rest)) => rates_job(rest),
        None => tour_job(alloc, &matches)?,
    })
}

fn plan_of(ports: u32, matches: &ArgMatches<'_>) -> Plan {
    let asks = matches.get_one::<u32>("asks").unwrap_or(12);
    Plan::new(ports, asks, seed_of(matches))
}

fn seed_of(matches: &ArgMatches<'_>) -> u64 {
    u64::from(matches.get_one::<u32>("seed").unwrap_or(1))
}

fn tour_job(alloc: Global, matches: &ArgMatches<'_>) -> Result<Job, AllocError> {
    let ports = matches.get_one::<u32>("ports").unwrap_or(4);
    Ok(Job::Tour {
        plan: plan_of(ports, matches),
        threads: matches.get_one::<u32>("threads"),
        show: show_of(alloc, matches.get_str("journal"))?,
    })
}

fn show_of(alloc: Global, journal: Option<&str>) -> Result<Show, AllocError> {
    Ok(match journal {
        None => Show::Story,
        Some(STANDARD_OUTPUT) => Show::Journal,
        Some(name) => Show::StoryAndFile(String::from_str(alloc, name)?),
    })
}

fn soak_job(matches: &ArgMatches<'_>) -> Job {
    Job::Soak {
        stations: matches.get_one::<u32>("stations").unwrap_or(4),
        seed: seed_of(matches),
    }
}

fn rates_job(matches: &ArgMatches<'_>) -> Job {
    let plan = plan_of(MAX_PORTS, matches);
    if matches.get_flag("core-once") {
        Job::Once {
            plan,
            server: Server::Core,
        }
    } else if matches.get_flag("hand-once") {
        Job::Once {
            plan,
            server: Server::Hand,
        }
    } else {
        Job::Rates { plan }
    }
}
