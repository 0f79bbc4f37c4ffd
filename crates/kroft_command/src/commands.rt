//! The program's commands.

use crate::notes::{
    CHECK_NOTES, DRIVE_NOTES, EXPLAIN_NOTES, GRADE_NOTES, HISTORY_NOTES, PROGRAM_NOTES,
    REQUESTS_NOTES, RUN_NOTES, SHOW_NOTES, SWEEP_NOTES,
};
use crate::options::{
    CHECK, CommandOption, DRIVE, EXPLAIN, GRADE, HISTORY, REQUESTS, RUN, SHAPE, SHOW, SWEEP,
    argument, file_argument,
};
use clap::{Arg, Command};
use std::alloc::{AllocError, Global};

/// What the user calls the program.
const PROGRAM: &str = "kroft";

/// A command of the program.
#[derive(Clone, Copy)]
pub(crate) enum Subcommand {
    Run,
    Check,
    Sweep,
    Explain,
    Grade,
    Drive,
    Requests,
    Show,
    History,
}

/// In help's order.
const SUBCOMMANDS: [Subcommand; 9] = [
    Subcommand::Run,
    Subcommand::Check,
    Subcommand::Sweep,
    Subcommand::Explain,
    Subcommand::Grade,
    Subcommand::Drive,
    Subcommand::Requests,
    Subcommand::Show,
    Subcommand::History,
];

impl Subcommand {
    /// The command of this word.
    pub(crate) fn of(word: &str) -> Option<Subcommand> {
        match word {
            "run" => Some(Subcommand::Run),
            "check" => Some(Subcommand::Check),
            "sweep" => Some(Subcommand::Sweep),
            "explain" => Some(Subcommand::Explain),
            "grade" => Some(Subcommand::Grade),
            "drive" => Some(Subcommand::Drive),
            "requests" => Some(Subcommand::Requests),
            "show" => Some(Subcommand::Show),
            "history" => Some(Subcommand::History),
            _ => None,
        }
    }

    // Its word.
    fn word(self) -> &'static str {
        match self {
            Subcommand::Run => "run",
            Subcommand::Check => "check",
            Subcommand::Sweep => "sweep",
            Subcommand::Explain => "explain",
            Subcommand::Grade => "grade",
            Subcommand::Drive => "drive",
            Subcommand::Requests => "requests",
            Subcommand::Show => "show",
            Subcommand::History => "history",
        }
    }

    // Its name in a usage line.
    fn full_name(self) -> &'static str {
        match self {
            Subcommand::Run => "kroft run",
            Subcommand::Check => "kroft check",
            Subcommand::Sweep => "kroft sweep",
            Subcommand::Explain => "kroft explain",
            Subcommand::Grade => "kroft grade",
            Subcommand::Drive => "kroft drive",
            Subcommand::Requests => "kroft requests",
            Subcommand::Show => "kroft show",
            Subcommand::History => "kroft history",
        }
    }

    /// What it reads from standard input.
    pub(crate) fn input(self) -> &'static str {
        match self {
            Subcommand::Check | Subcommand::Explain => "the recorded run",
            Subcommand::Grade => "the sheet",
            Subcommand::Requests => "the log",
            Subcommand::History => "the history",
            _ => "the trace",
        }
    }

    // What it does, in a line.
    fn about(self) -> &'static str {
        match self {
            Subcommand::Run => "Serve a trace on a new machine",
            Subcommand::Check => "Tell whether a recorded run is one of flat memory",
            Subcommand::Sweep => "Count what requests wait for with several numbers of registers",
            Subcommand::Explain => "Say why a recorded run is none of flat memory",
            Subcommand::Grade => "Grade predicted answers by those of the machine",
            Subcommand::Drive => "Drive requests in rounds, with a latency of memory",
            Subcommand::Requests => "Write the loads and stores of a log of accesses as a trace",
            Subcommand::Show => "Draw the machine at each event of a trace, as a page",
            Subcommand::History => "Tell whether requests and responses are those of a memory",
        }
    }

    // In help's order.
    fn options(self) -> &'static [CommandOption] {
        match self {
            Subcommand::Run => &RUN,
            Subcommand::Check => &CHECK,
            Subcommand::Sweep => &SWEEP,
            Subcommand::Explain => &EXPLAIN,
            Subcommand::Grade => &GRADE,
            Subcommand::Drive => &DRIVE,
            Subcommand::Requests => &REQUESTS,
            Subcommand::Show => &SHOW,
            Subcommand::History => &HISTORY,
        }
    }

    // What its help says below its options.
    fn notes(self) -> &'static str {
        match self {
            Subcommand::Run => RUN_NOTES,
            Subcommand::Check => CHECK_NOTES,
            Subcommand::Sweep => SWEEP_NOTES,
            Subcommand::Explain => EXPLAIN_NOTES,
            Subcommand::Grade => GRADE_NOTES,
            Subcommand::Drive => DRIVE_NOTES,
            Subcommand::Requests => REQUESTS_NOTES,
            Subcommand::Show => SHOW_NOTES,
            Subcommand::History => HISTORY_NOTES,
        }
    }
}

// Its options, and a file's name if one is taken.
fn arguments_of<'a>(
    alloc: Global,
    subcommand: Subcommand,
    takes_file: bool,
) -> Result<Vec<Arg<'a>>, AllocError> {
    let mut args = Vec::new(alloc);
    for option in subcommand.options() {
        args.push(argument(alloc, option, takes_file)?)?;
    }
    if takes_file {
        args.push(file_argument(alloc))?;
    }
    Ok(args)
}

// A command of these words and options.
fn command_with<'a>(
    alloc: Global,
    args: Vec<Arg<'a>>,
    name: &'a str,
    about: &'a str,
    notes: &'a str,
) -> Result<Command<'a>, AllocError> {
    Command::new(alloc, name)
        .about(about)
        .after_help(notes)
        .args(args)
}

// A command with its options.
fn command_of<'a>(
    alloc: Global,
    subcommand: Subcommand,
    takes_file: bool,
) -> Result<Command<'a>, AllocError> {
    let args = arguments_of(alloc, subcommand, takes_file)?;
    command_with(
        alloc,
        args,
        subcommand.word(),
        subcommand.about(),
        subcommand.notes(),
    )
}

/// The command as its refusals show it.
pub(crate) fn shown<'a>(alloc: Global, subcommand: Subcommand) -> Result<Command<'a>, AllocError> {
    let command = command_of(alloc, subcommand, false)?;
    Ok(command.name(subcommand.full_name()))
}

// All commands.
fn commands<'a>(alloc: Global, takes_file: bool) -> Result<Vec<Command<'a>>, AllocError> {
    let mut commands = Vec::new(alloc);
    for subcommand in SUBCOMMANDS {
        commands.push(command_of(alloc, subcommand, takes_file)?)?;
    }
    Ok(commands)
}

// The program without its commands.
fn base<'a>(alloc: Global) -> Result<Command<'a>, AllocError> {
    Command::new(alloc, PROGRAM)
        .version("0.2.0")
        .about("A non-blocking cache with several misses outstanding")
        .after_help(PROGRAM_NOTES)
        .no_binary_name(true)
        .subcommand_required(true)
        .disable_help_subcommand(true)
        .arg(argument(alloc, &SHAPE, false)?)
}

/// The whole command line. No command takes a file's name; they are made so to tell of one.
pub(crate) fn program<'a>(alloc: Global, takes_file: bool) -> Result<Command<'a>, AllocError> {
    let commands = commands(alloc, takes_file)?;
    base(alloc)?.bin_name(PROGRAM)?.subcommands(commands)
}
