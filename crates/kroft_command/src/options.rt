//! The options of the program's commands, as tables.

use access_logs::MAX_WORDS;
use clap::{Arg, ArgAction};
use flat_model::MAX_REGS;
use round_driver::MOST_LATENCY;
use std::alloc::{AllocError, Global};

pub(crate) const MACHINE: &str = "machine";

pub(crate) const REGISTERS: &str = "registers";

pub(crate) const LATENCY: &str = "latency";

/// Rounds between two begins of a bank.
pub(crate) const BUSY: &str = "busy";

/// A log's format, if a log takes a trace's place; of a sweep's figure, that its axis has factors.
pub(crate) const LOG: &str = "log";

/// A sheet's file, if what was handed in is graded.
pub(crate) const SHEET: &str = "sheet";

/// A history's file, if a short one is made of it.
pub(crate) const SHRINK: &str = "shrink";

/// The name of the option for a figure.
pub(crate) const SVG: &str = "svg";

/// A figure of requests by rounds.
pub(crate) const TIMELINE: &str = "timeline";

/// The machine that it has below the first one.
pub(crate) const BESIDE: &str = "beside";

pub(crate) const FILE: &str = "file";

// What follows an option.
#[derive(Clone, Copy)]
enum Value {
    // Nothing: it is given or not.
    Nothing,
    // A text.
    Text,
    // One of these words.
    Word(&'static [&'static str]),
    // From the first to the second.
    Number(i64, i64),
    // A number of rounds, from this one on.
    Rounds(i64),
}

/// An option of a command.
#[derive(Clone, Copy)]
pub(crate) struct CommandOption {
    name: &'static str,
    // What its value is called in the help.
    value_name: &'static str,
    value: Value,
    // Whether commas part several values.
    is_list: bool,
    // Unless a command takes a file.
    is_required: bool,
    // Options that must stand beside it, and that mustn't.
    needs: &'static [&'static str],
    conflicts: &'static [&'static str],
    help: &'static str,
}

// Each row begins with these.
const FLAG: CommandOption = CommandOption {
    name: "",
    value_name: "",
    value: Value::Nothing,
    is_list: false,
    is_required: false,
    needs: &[],
    conflicts: &[],
    help: "",
};

// The name of a file.
const A_FILE: CommandOption = CommandOption {
    value_name: "FILE",
    value: Value::Text,
    ..FLAG
};

/// It may stand before or behind the command.
pub(crate) const SHAPE: CommandOption = CommandOption {
    name: "shape",
    help: "The TOML file with the machine's numbers",
    ..A_FILE
};

// It follows the command.
const MACHINE_FILE: CommandOption = CommandOption {
    name: MACHINE,
    help: "The TOML file with all numbers of a machine, in place of a shape file",
    ..A_FILE
};

const IMAGE: CommandOption = CommandOption {
    name: "image",
    value_name: "address|FILE",
    help: "What memory has in place of zeros: each word its own address, or a file's bytes",
    ..A_FILE
};

const ROUNDS: CommandOption = CommandOption {
    name: LATENCY,
    value_name: "L",
    value: Value::Rounds(0),
    ..FLAG
};

const BUSY_BANKS: CommandOption = CommandOption {
    name: BUSY,
    value_name: "B",
    value: Value::Rounds(1),
    help: "Rounds from one command that a bank begins to its next, 1 to L [default: L]",
    ..FLAG
};

// A verdict is no row of figures, so it has no table.
const VERDICT_FORMAT: CommandOption = CommandOption {
    name: "format",
    value_name: "FORMAT",
    value: Value::Word(&["text", "json"]),
    help: "How the verdict is written [default: text]",
    ..FLAG
};

const COUNTS_FORMAT: CommandOption = CommandOption {
    value: Value::Word(&["text", "csv", "json"]),
    help: "How the counts are written [default: text]",
    ..VERDICT_FORMAT
};

// What wrote a log.
const LOG_FORMAT: CommandOption = CommandOption {
    name: LOG,
    value_name: "FORMAT",
    value: Value::Word(&["lackey", "din"]),
    ..FLAG
};

/// The options of `run`.
pub(crate) static RUN: [CommandOption; 3] = [SHAPE, MACHINE_FILE, IMAGE];

/// The options of `check`.
pub(crate) static CHECK: [CommandOption; 5] = [
    SHAPE,
    MACHINE_FILE,
    IMAGE,
    CommandOption {
        name: "all-answered",
        help: "End with status 1 if loads are open at the end, and tell their tags",
        ..FLAG
    },
    VERDICT_FORMAT,
];

/// The image changes no counts. Without a latency no bank is busy.
pub(crate) static SWEEP: [CommandOption; 8] = [
    SHAPE,
    MACHINE_FILE,
    CommandOption {
        is_list: true,
        help: "Count rounds, with this many from a command's begin to its service, 0 to 1000, or up to 8 ascending ones: 5,20,80",
        ..ROUNDS
    },
    CommandOption {
        needs: &[LATENCY],
        ..BUSY_BANKS
    },
    COUNTS_FORMAT,
    CommandOption {
        name: SVG,
        needs: &[LATENCY],
        conflicts: &["format"],
        help: "Draw the rounds by the number of registers, a line for each latency",
        ..FLAG
    },
    CommandOption {
        name: LOG,
        needs: &[SVG],
        help: "Draw the rounds by factors: lines that fall alike gain the same share, whatever the latency",
        ..FLAG
    },
    CommandOption {
        name: REGISTERS,
        value_name: "N",
        value: Value::Number(1, MAX_REGS as i64),
        is_list: true,
        help: "The rows: up to 16 ascending numbers of registers: 1,2,4,8,16 [default: 1,2,4,8]",
        ..FLAG
    },
];

/// The options of `explain`.
pub(crate) static EXPLAIN: [CommandOption; 4] = [
    SHAPE,
    MACHINE_FILE,
    IMAGE,
    CommandOption {
        help: "How the explanation is written [default: text]",
        ..VERDICT_FORMAT
    },
];

/// The options of `grade`.
pub(crate) static GRADE: [CommandOption; 7] = [
    SHAPE,
    MACHINE_FILE,
    IMAGE,
    CommandOption {
        name: SHEET,
        help: "The sheet that was given out: grade what was handed in, a point for each of its '?'",
        ..A_FILE
    },
    CommandOption {
        name: "strict",
        conflicts: &[SHEET],
        help: "Ask each accepted request for its class: hit, join or miss. With a sheet that is so",
        ..FLAG
    },
    CommandOption {
        name: "solve",
        conflicts: &[SHEET, "strict", "format"],
        help: "Write the sheet with its open answers filled in place of a grade",
        ..FLAG
    },
    CommandOption {
        help: "How the grade is written [default: text]",
        ..COUNTS_FORMAT
    },
];

/// The options of `drive`.
pub(crate) static DRIVE: [CommandOption; 12] = [
    SHAPE,
    MACHINE_FILE,
    IMAGE,
    CommandOption {
        help: "Read a log of accesses in place of a trace, and count them with --summary --all",
        ..LOG_FORMAT
    },
    CommandOption {
        help: "Rounds from a command's begin to its service, 0 to 1000 [default: 10]",
        ..ROUNDS
    },
    BUSY_BANKS,
    CommandOption {
        name: "summary",
        help: "Write counts in place of the run",
        ..FLAG
    },
    CommandOption {
        name: "all",
        needs: &["summary"],
        help: "Count more: by kind and set, rounds by registers in use and by loads outstanding, loads by wait",
        ..FLAG
    },
    CommandOption {
        needs: &["summary"],
        ..COUNTS_FORMAT
    },
    CommandOption {
        name: SVG,
        conflicts: &["format"],
        help: "With --summary, draw the rounds that were lost, a bar for each cause",
        ..FLAG
    },
    CommandOption {
        name: TIMELINE,
        needs: &[SVG],
        conflicts: &["summary"],
        help: "Draw the first 16 requests by rounds: asked, accepted, answered",
        ..FLAG
    },
    CommandOption {
        name: BESIDE,
        needs: &[TIMELINE],
        conflicts: &["summary"],
        help: "Draw the same requests below, through the machine of this TOML file",
        ..A_FILE
    },
];

/// The options of `requests`. It knows no shape.
pub(crate) static REQUESTS: [CommandOption; 2] = [
    CommandOption {
        name: "from",
        is_required: true,
        help: "What wrote the log",
        ..LOG_FORMAT
    },
    CommandOption {
        name: "words",
        value_name: "N",
        value: Value::Number(1, MAX_WORDS as i64),
        help: "Words of memory, a multiple of 4, at most 1048576 [default: 1048576]",
        ..FLAG
    },
];

/// The options of `show`.
pub(crate) static SHOW: [CommandOption; 6] = [
    SHAPE,
    MACHINE_FILE,
    IMAGE,
    CommandOption {
        name: "text",
        help: "Write lines for a terminal in place of the page",
        ..FLAG
    },
    CommandOption {
        name: "vcd",
        conflicts: &["text"],
        help: "Write a waveform in place of the page",
        ..FLAG
    },
    CommandOption {
        name: SVG,
        conflicts: &["text", "vcd"],
        help: "Draw the first 16 requests by events: asked, accepted, answered",
        ..FLAG
    },
];

/// The options of `history`. It knows no shape.
pub(crate) static HISTORY: [CommandOption; 8] = [
    CommandOption {
        name: "law",
        value_name: "LAW",
        value: Value::Word(&["flat", "atomic", "regular"]),
        help: "The law that the history is judged by [default: regular]",
        ..FLAG
    },
    CommandOption {
        name: "unit",
        value_name: "N",
        value: Value::Word(&["1", "2", "4", "8"]),
        help: "How many bytes take effect at one moment, with --law atomic [default: 8]",
        ..FLAG
    },
    CommandOption {
        name: "image",
        help: "The file whose bytes memory has from address 0 on, in place of zeros",
        ..A_FILE
    },
    CommandOption {
        name: "unknown",
        conflicts: &["image"],
        help: "Memory may have had anything before the first store",
        ..FLAG
    },
    CommandOption {
        name: "all-answered",
        help: "End with status 1 if operations are open at the end",
        ..FLAG
    },
    CommandOption {
        name: "values",
        help: "Write each line, and behind a load's response what it may have returned",
        ..FLAG
    },
    CommandOption {
        name: SHRINK,
        conflicts: &["values", "format"],
        help: "Read the history in this file, and if it is refused write a short one that is, for the same answer",
        ..A_FILE
    },
    VERDICT_FORMAT,
];

/// The argument of an option.
pub(crate) fn argument<'a>(
    alloc: Global,
    option: &CommandOption,
    takes_file: bool,
) -> Result<Arg<'a>, AllocError> {
    let arg = with_value(named(alloc, option), option);
    arg.required(option.is_required && !takes_file)
        .requires_all(option.needs)?
        .conflicts_with_all(option.conflicts)
}

fn named<'a>(alloc: Global, option: &CommandOption) -> Arg<'a> {
    Arg::new(alloc, option.name)
        .long(option.name)
        .help(option.help)
}

fn with_value<'a>(arg: Arg<'a>, option: &CommandOption) -> Arg<'a> {
    match option.value {
        Value::Nothing => arg.action(ArgAction::SetTrue),
        Value::Text => valued(arg, option),
        Value::Word(words) => valued(arg, option).value_parser(words),
        Value::Number(least, most) => {
            valued(arg, option).value_parser(clap::value_parser!(u32).range(least..=most))
        }
        Value::Rounds(least) => {
            let most = MOST_LATENCY as i64;
            valued(arg, option).value_parser(clap::value_parser!(u64).range(least..=most))
        }
    }
}

// An argument that takes a value, or several.
fn valued<'a>(arg: Arg<'a>, option: &CommandOption) -> Arg<'a> {
    let arg = arg.value_name(option.value_name).action(ArgAction::Set);
    if option.is_list {
        arg.value_delimiter(',')
    } else {
        arg
    }
}

pub(crate) fn file_argument<'a>(alloc: Global) -> Arg<'a> {
    Arg::new(alloc, FILE)
        .action(ArgAction::Set)
        .num_args(1..)
        .hide(true)
}
