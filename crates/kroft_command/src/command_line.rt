//! The words of the command line.

ghost use Rattle.std.specs.Prelude.{◌≡◌, ◌≤◌, IfOk, IfSome, IfNone};
ghost use Rattle.std.specs.Option.{option_or};
ghost use Rattle.std.specs.List.{All, AllByRecursion, list_any};
ghost use Rattle.kroft_jobs.specs.Words.{MAX_WORDS, MOST_LATENCY};
ghost use Rattle.kroft_command.specs.Tool.{IsInRange, IsTimely, latency_or_usual, machine_named, registers_in, timing_with, timings_in};
ghost use Rattle.kroft_command.specs.Tool.{words_or_most, latency_in, ascends, is_too_busy};
ghost use Rattle.kroft_command.specs.Tool.{AreInOrder, AreSwept, AreRows, HasUnit, IsJudged, IsAllowed, MayBegin};

use crate::commands::{Subcommand, program, shown};
use crate::given::{
    format_of, latency_at, latency_count, registers_at, scale_of, subcommand_of, text_of,
    verdict_format_of,
};
use crate::options::{
    BESIDE, BUSY, FILE, LATENCY, MACHINE, REGISTERS, SHEET, SHRINK, SVG, TIMELINE,
};
use access_logs::MAX_WORDS;
use clap::error::ErrorKind;
use clap::{ArgMatches, Error};
use history_sessions::{DEFAULT_LIMIT, HistoryLaw, Rest, UnitSize};
use kroft_jobs::{Marking, RequestText};
use named_fields::{Format, VerdictFormat};
use result_figures::Scale;
use round_driver::{MOST_LATENCY, Timing};
use run_pictures::Form;
use shape_files::REGISTER_COUNTS;
use std::alloc::{AllocError, Global};

/// What is done with a sheet.
#[derive(Clone, Copy)]
pub(crate) enum SheetWork {
    /// It is graded.
    Grade(Marking),
    /// Its open answers are filled.
    Solve,
}

/// The format of a log.
#[derive(Clone, Copy)]
pub(crate) enum LogName {
    /// What valgrind's lackey writes.
    Lackey,
    /// Dinero's `din`.
    Din,
}

/// How counts are shown.
#[derive(Clone, Copy)]
pub(crate) enum CountForm {
    /// As lines in a format.
    Lines(Format),
    /// As a figure; of a sweep, with an axis of this kind.
    Figure(Scale),
}

/// How many latencies a sweep takes at most.
const MOST_LATENCIES: usize = 8;

/// A sweep's times of memory, in order; none without rounds.
#[derive(Clone, Copy)]
pub(crate) struct Timings {
    /// How many were given.
    given: usize,
    /// Those that weren't given mean nothing.
    all: [Timing; MOST_LATENCIES],
}

impl Timings {
    /// The times that were given.
    #[tactic(auto, using(crate::proofs::Timings::all_taken))]
    pub(crate) fn as_slice(&self) -> &[Timing]
        ensures given { result.now ≡ timings_in self.now }
        ensures timely { AllByRecursion IsTimely self.now.all → All IsTimely result.now }
    {
        &self.all[..self.given.min(MOST_LATENCIES)]
    }

    // Whether a bank would begin commands more rarely than it serves them.
    fn are_too_busy(&self) -> bool
        ensures { result ≡ list_any is_too_busy (timings_in self.now) }
    {
        self.as_slice().iter().any(|timing| is_too_busy(*timing))
    }

    fn conflict(&self) -> Option<&'static str>
        ensures { IfNone result (AreInOrder self.now) }
    {
        if self.given > MOST_LATENCIES {
            Some("too many values for '--latency <L>': at most 8 are swept")
        } else if is_ascending(self.as_slice()) {
            None
        } else {
            Some(
                "invalid value for '--latency <L>': each latency has to be more than the one before it",
            )
        }
    }
}

fn is_ascending(timings: &[Timing]) -> bool
    ensures { result ≡ ascends latency_in timings.now }
{
    match timings {
        [] => true,
        [first, rest @ ..] => match rest {
            [] => true,
            [second, ..] => first.latency < second.latency && is_ascending(rest),
        },
    }
}

/// The most numbers of registers.
const MOST_ROWS: usize = 16;

/// A sweep's numbers of registers, in order: 1, 2, 4 and 8 unless given.
#[derive(Clone, Copy)]
pub(crate) struct Registers {
    /// How many were given.
    given: usize,
    /// Those that weren't given mean nothing.
    all: [u32; MOST_ROWS],
}

impl Registers {
    /// The numbers of the rows.
    pub(crate) fn as_slice(&self) -> &[u32]
        ensures { result.now ≡ registers_in self.now }
    {
        if self.given == 0 {
            REGISTER_COUNTS.as_slice()
        } else {
            &self.all[..self.given.min(MOST_ROWS)]
        }
    }

    fn conflict(&self) -> Option<&'static str>
        ensures { IfNone result (AreRows self.now) }
    {
        if self.given > MOST_ROWS {
            Some("too many values for '--registers <N>': at most 16 rows are swept")
        } else if each_is_more(self.as_slice()) {
            None
        } else {
            Some(
                "invalid value for '--registers <N>': each number has to be more than the one before it",
            )
        }
    }
}

fn each_is_more(numbers: &[u32]) -> bool
    ensures { result ≡ ascends (λ n. n) numbers.now }
{
    match numbers {
        [] => true,
        [first, rest @ ..] => match rest {
            [] => true,
            [second, ..] => *first < *second && each_is_more(rest),
        },
    }
}

/// What the program is asked to do with its input.
#[derive(Clone, Copy)]
pub(crate) enum Task {
    /// Serve its lines on a new machine.
    Run,
    /// Judge a run against flat memory.
    Check {
        /// Whether open loads are a fault.
        all_answered: bool,
        /// How the verdict is written.
        format: VerdictFormat,
    },
    /// Serve its requests with several numbers of registers.
    Sweep {
        /// None if pumps serve the requests.
        timings: Timings,
        /// The numbers of registers.
        registers: Registers,
        /// How the rows are shown.
        form: CountForm,
    },
    /// Say why a run isn't flat memory's.
    Explain {
        /// How the explanation is written.
        format: VerdictFormat,
    },
    /// Grade the predictions that follow its lines, or fill them.
    Grade {
        /// How the grade is written.
        format: Format,
        /// What is done.
        work: SheetWork,
    },
    /// Drive its requests in rounds.
    Drive {
        /// What they are read from.
        from: RequestText,
        /// How long a bank takes for a command.
        timing: Timing,
        /// Whether counts are written in place of the run.
        summary: bool,
        /// Whether the table has all details.
        all: bool,
        /// How the table is shown.
        form: CountForm,
    },
    /// Draw its requests by rounds.
    Timeline {
        /// What they are read from.
        from: RequestText,
        /// How long a bank takes for a command.
        timing: Timing,
    },
    /// Write the requests of a log of accesses.
    Requests {
        /// What wrote the log.
        from: LogName,
        /// Words of memory: 1 to 1,048,576, in fours.
        words: u32,
    },
    /// Draw the machine at each of its events.
    Show {
        /// A page, screens or a waveform.
        form: Form,
    },
    /// Draw its requests by events.
    Events,
    /// Judge a history.
    History(HistoryTask),
}

/// How a history is judged.
#[derive(Clone, Copy)]
pub(crate) struct HistoryTask {
    /// The law that it is judged by.
    pub law: HistoryLaw,
    /// Only the atomic law has units.
    pub unit: Option<UnitSize>,
    /// What memory has beyond its image.
    pub rest: Rest,
    /// Whether open operations are a fault.
    pub all_answered: bool,
    /// Whether lines are written, with what loads may have returned.
    pub values: bool,
    /// How the verdict is written.
    pub format: VerdictFormat,
}

/// Where memory's beginning is read from.
#[derive(Clone, Copy)]
pub(crate) enum ImageName<'a> {
    /// Zeros, where nothing is named.
    Zeros,
    /// Each word its own address.
    Address,
    /// What the file of this path has.
    File(&'a str),
}

/// Where the machine's numbers are read from.
#[derive(Clone, Copy)]
pub(crate) enum MachineName<'a> {
    /// Nothing: it is the program's own machine.
    Usual,
    /// The shape file of this path.
    Shape(&'a str),
    /// The machine file of this path.
    Machine(&'a str),
}

#[derive(Clone, Copy)]
pub(crate) struct CommandLine<'a> {
    /// What is done with the trace.
    pub task: Task,
    /// What the machine's numbers are read from.
    pub machine: MachineName<'a>,
    /// The machine file of another machine, drawn beside it.
    pub beside: Option<&'a str>,
    /// What memory begins with.
    pub image: ImageName<'a>,
    /// The sheet by which what was handed in is graded.
    pub sheet: Option<&'a str>,
    /// The history of which a short one is made.
    pub shrink: Option<&'a str>,
}

/// The latency unless given.
const USUAL_LATENCY: u64 = 10;

// A greater latency was refused; the contract alone asks again.
fn latency_of(rest: &ArgMatches<'_>) -> Option<u64>
    ensures { IfSome result (λ latency. latency ≤ MOST_LATENCY) }
{
    match rest.get_one::<u64>(LATENCY) {
        Some(latency) => Some(latency.min(MOST_LATENCY)),
        None => None,
    }
}

// The latency of a drive.
fn latency_or_usual(asked: Option<u64>) -> u64
    ensures { result ≡ latency_or_usual asked }
{
    asked.unwrap_or(USUAL_LATENCY)
}

// One command at a time, unless `busy` is given.
fn timing_with(latency: u64, busy: Option<u64>) -> Timing
    ensures { result ≡ timing_with latency busy }
{
    match busy {
        Some(busy) => Timing { latency, busy },
        None => Timing::unpipelined(latency),
    }
}

// More words were refused.
fn words_or_most(asked: Option<u32>) -> u32
    ensures { result ≡ words_or_most asked }
{
    match asked {
        Some(words) => words.min(MAX_WORDS),
        None => MAX_WORDS,
    }
}

// A format beside a figure was refused.
fn count_form_of(rest: &ArgMatches<'_>, scale: Scale) -> CountForm {
    if rest.get_flag(SVG) {
        CountForm::Figure(scale)
    } else {
        CountForm::Lines(format_of(rest))
    }
}

// What is done with a sheet. Both at once were refused.
fn sheet_work_of(rest: &ArgMatches<'_>) -> SheetWork {
    if rest.get_flag("solve") {
        SheetWork::Solve
    } else if rest.get_flag("strict") {
        SheetWork::Grade(Marking::Strict)
    } else {
        SheetWork::Grade(Marking::Lenient)
    }
}

// A greater latency was refused.
fn timing_at(rest: &ArgMatches<'_>, place: usize) -> Timing
    ensures { result.latency ≤ MOST_LATENCY }
{
    let latency = latency_at(rest, place).min(MOST_LATENCY);
    timing_with(latency, rest.get_one::<u64>(BUSY))
}

// The times of memory of a sweep.
fn timings_of(rest: &ArgMatches<'_>) -> Timings
    ensures { AllByRecursion IsTimely result.all }
{
    Timings {
        given: latency_count(rest),
        all: [
            timing_at(rest, 0),
            timing_at(rest, 1),
            timing_at(rest, 2),
            timing_at(rest, 3),
            timing_at(rest, 4),
            timing_at(rest, 5),
            timing_at(rest, 6),
            timing_at(rest, 7),
        ],
    }
}

// What the words behind `check` ask for.
fn check_task(rest: &ArgMatches<'_>) -> Task
    ensures { IsInRange result }
{
    Task::Check {
        all_answered: rest.get_flag("all-answered"),
        format: verdict_format_of(rest),
    }
}

// The numbers of registers of a sweep.
fn registers_of(rest: &ArgMatches<'_>) -> Registers {
    let mut all = [0; MOST_ROWS];
    for place in 0..MOST_ROWS {
        all[place] = registers_at(rest, place);
    }
    let given = match rest.get_raw(REGISTERS) {
        Some(given) => given.len(),
        None => 0,
    };
    Registers { given, all }
}

// What the words behind `sweep` ask for.
fn sweep_task(rest: &ArgMatches<'_>) -> Task
    ensures { IsInRange result }
{
    Task::Sweep {
        timings: timings_of(rest),
        registers: registers_of(rest),
        form: count_form_of(rest, scale_of(rest)),
    }
}

// What the words behind `drive` ask for.
fn drive_task(rest: &ArgMatches<'_>) -> Task
    ensures { IsInRange result }
{
    let from = text_of(rest);
    let timing = timing_with(
        latency_or_usual(latency_of(rest)),
        rest.get_one::<u64>(BUSY),
    );
    if rest.get_flag(TIMELINE) {
        return Task::Timeline { from, timing };
    }
    Task::Drive {
        from,
        timing,
        summary: rest.get_flag("summary"),
        all: rest.get_flag("all"),
        form: count_form_of(rest, Scale::Linear),
    }
}

// What the words behind `requests` ask for.
fn requests_task(rest: &ArgMatches<'_>) -> Task
    ensures { IsInRange result }
{
    Task::Requests {
        from: match rest.get_str("from") {
            Some("din") => LogName::Din,
            _ => LogName::Lackey,
        },
        words: words_or_most(rest.get_one::<u32>("words")),
    }
}

fn is_too_busy(timing: Timing) -> bool
    ensures { result ≡ is_too_busy timing }
{
    timing.busy > timing.latency
}

const TOO_BUSY: &str = "invalid value for '--busy <B>': it is more than the least latency";

fn sweep_conflict(timings: &Timings, registers: &Registers) -> Option<&'static str>
    ensures { IfNone result (AreSwept timings.now × AreRows registers.now) }
{
    match timings.conflict().or(registers.conflict()) {
        Some(why) => Some(why),
        None if timings.are_too_busy() => Some(TOO_BUSY),
        None => None,
    }
}

fn history_conflict(asked: HistoryTask) -> Option<&'static str>
    ensures { IfNone result (IsJudged asked) }
{
    if asked.values && asked.format != VerdictFormat::Text {
        return Some("the argument '--values' cannot be used with '--format <FORMAT>'");
    }
    match asked.law {
        HistoryLaw::Flat | HistoryLaw::Regular if asked.unit.is_some() => {
            Some("the argument '--unit <N>' needs '--law atomic'")
        }
        _ => None,
    }
}

fn file_conflict(asked: Asked<'_>) -> Option<&'static str> {
    if asked.before.is_some() && asked.behind.is_some() {
        Some("the argument '--shape <FILE>' cannot be used multiple times")
    } else if asked.machine.is_some() && (asked.before.is_some() || asked.behind.is_some()) {
        Some("the argument '--machine <FILE>' cannot be used with '--shape <FILE>'")
    } else {
        None
    }
}

fn task_conflict(task: Task) -> Option<&'static str>
    ensures { IfNone result (IsAllowed task) }
{
    match task {
        Task::Sweep {
            timings,
            registers,
            ..
        } => sweep_conflict(&timings, &registers),
        Task::Drive { timing, .. } | Task::Timeline { timing, .. } if is_too_busy(timing) => {
            Some(TOO_BUSY)
        }
        Task::Drive {
            summary: false,
            form: CountForm::Figure(_),
            ..
        } => Some("the argument '--svg' needs '--summary' or '--timeline'"),
        Task::Requests { words, .. } if words % 4 != 0 => {
            Some("invalid value for '--words <N>': it is no multiple of 4")
        }
        Task::History(asked) => history_conflict(asked),
        _ => None,
    }
}

// Why it can't be done. `before` is a shape file named before the command.
fn conflict(task: Task, before: Option<&str>) -> Option<&'static str>
    ensures { IfNone result (IsAllowed task) }
{
    match task {
        Task::Requests { .. } if before.is_some() => {
            Some(
                "the argument '--shape <FILE>' cannot be used with 'requests': it takes '--words <N>'",
            )
        }
        Task::History(_) if before.is_some() => {
            Some("the argument '--shape <FILE>' cannot be used with 'history'")
        }
        _ => task_conflict(task),
    }
}

// Two forms at once were refused.
fn show_task(rest: &ArgMatches<'_>) -> Task
    ensures { IsInRange result }
{
    if rest.get_flag(SVG) {
        return Task::Events;
    }
    let form = if rest.get_flag("vcd") {
        Form::Waveform
    } else if rest.get_flag("text") {
        Form::Screens
    } else {
        Form::Page
    };
    Task::Show { form }
}

fn unit_of(rest: &ArgMatches<'_>) -> Option<UnitSize> {
    match rest.get_str("unit") {
        Some("1") => Some(UnitSize::One),
        Some("2") => Some(UnitSize::Two),
        Some("4") => Some(UnitSize::Four),
        Some("8") => Some(UnitSize::Eight),
        _ => None,
    }
}

fn law_of(rest: &ArgMatches<'_>, unit: Option<UnitSize>) -> HistoryLaw
    ensures { HasUnit unit result }
{
    match rest.get_str("law") {
        Some("flat") => HistoryLaw::Flat,
        Some("atomic") => HistoryLaw::Atomic {
            unit: unit.unwrap_or(UnitSize::Eight),
            limit: DEFAULT_LIMIT,
        },
        _ => HistoryLaw::Regular,
    }
}

// What the words behind `history` ask for.
fn history_task(rest: &ArgMatches<'_>) -> Task
    ensures { IsInRange result }
{
    let beyond = if rest.get_flag("unknown") {
        Rest::Unknown
    } else {
        Rest::Zeros
    };
    let unit = unit_of(rest);
    Task::History(HistoryTask {
        law: law_of(rest, unit),
        unit,
        rest: beyond,
        all_answered: rest.get_flag("all-answered"),
        values: rest.get_flag("values"),
        format: verdict_format_of(rest),
    })
}

// Commands without an image have zeros.
fn image_of<'a>(rest: &ArgMatches<'a>) -> ImageName<'a> {
    match rest.get_str("image") {
        Some("address") => ImageName::Address,
        Some(path) => ImageName::File(path),
        None => ImageName::Zeros,
    }
}

// Why an image doesn't fit: a history's memory is bytes, and has no end.
fn image_conflict(task: Task, image: ImageName<'_>) -> Option<&'static str>
    ensures { IfNone result (MayBegin task image.entry) }
{
    match (task, image) {
        (Task::History(_), ImageName::Address) => {
            Some(
                "invalid value 'address' for '--image <FILE>': the memory of a history has no words (write './address' for a file of this name)",
            )
        }
        _ => None,
    }
}

fn task_of(subcommand: Subcommand, rest: &ArgMatches<'_>) -> Task
    ensures { IsInRange result }
{
    match subcommand {
        Subcommand::Run => Task::Run,
        Subcommand::Check => check_task(rest),
        Subcommand::Sweep => sweep_task(rest),
        Subcommand::Explain => Task::Explain {
            format: verdict_format_of(rest),
        },
        Subcommand::Grade => Task::Grade {
            format: format_of(rest),
            work: sheet_work_of(rest),
        },
        Subcommand::Drive => drive_task(rest),
        Subcommand::Requests => requests_task(rest),
        Subcommand::Show => show_task(rest),
        Subcommand::History => history_task(rest),
    }
}

// A refusal with the usage of a command.
fn refusal(
    alloc: Global,
    subcommand: Subcommand,
    kind: ErrorKind,
    why: &str,
) -> Result<Error, AllocError> {
    let mut command = shown(alloc, subcommand)?;
    command.error(kind, why)
}

// A task, with the shape files before and behind the command, the machine file, and the file in
// place of the standard input.
#[derive(Clone, Copy)]
struct Asked<'a> {
    task: Task,
    before: Option<&'a str>,
    behind: Option<&'a str>,
    machine: Option<&'a str>,
    beside: Option<&'a str>,
    image: ImageName<'a>,
    sheet: Option<&'a str>,
    shrink: Option<&'a str>,
    file: Option<&'a str>,
}

// Only `drive` has a machine beside another one.
fn beside_of<'a>(subcommand: Subcommand, rest: &ArgMatches<'a>) -> Option<&'a str> {
    match subcommand {
        Subcommand::Drive => rest.get_str(BESIDE),
        _ => None,
    }
}

fn asked_for<'a>(subcommand: Subcommand, matches: &ArgMatches<'a>) -> Asked<'a>
    ensures { IsInRange result.task }
{
    let shape = matches.get_str("shape");
    match matches.subcommand() {
        Some((_, rest)) => {
            let task = task_of(subcommand, rest);
            Asked {
                task,
                before: shape,
                behind: rest.get_str("shape"),
                machine: rest.get_str(MACHINE),
                beside: beside_of(subcommand, rest),
                image: image_of(rest),
                sheet: rest.get_str(SHEET),
                shrink: rest.get_str(SHRINK),
                file: rest.get_str(FILE),
            }
        }
        None => Asked {
            task: Task::Run,
            before: shape,
            behind: None,
            machine: None,
            beside: None,
            image: ImageName::Zeros,
            sheet: None,
            shrink: None,
            file: None,
        },
    }
}

// What the machine's numbers are read from.
fn machine_named<'a>(shape: Option<&'a str>, machine: Option<&'a str>) -> MachineName<'a>
    ensures { result ≡ machine_named shape.entry machine.entry }
{
    match (machine, shape) {
        (Some(path), _) => MachineName::Machine(path),
        (None, Some(path)) => MachineName::Shape(path),
        (None, None) => MachineName::Usual,
    }
}

// The task, if it can be done.
fn allowed<'a>(
    alloc: Global,
    subcommand: Subcommand,
    asked: Asked<'a>,
) -> Result<CommandLine<'a>, Error>
    requires { IsInRange asked.task }
    ensures range { IfOk result (λ told. IsInRange told.task) }
    ensures task { IfOk result (λ told. IsAllowed told.task) }
    ensures begins { IfOk result (λ told. MayBegin told.task told.image) }
    ensures machine { IfOk result
        (λ told. told.machine ≡ machine_named (option_or asked.entry.before asked.entry.behind) asked.entry.machine) }
    ensures beside { IfOk result (λ told. told.beside ≡ asked.entry.beside) }
    ensures image { IfOk result (λ told. told.image ≡ asked.entry.image) }
    ensures sheet { IfOk result (λ told. told.sheet ≡ asked.entry.sheet) }
    ensures shrink { IfOk result (λ told. told.shrink ≡ asked.entry.shrink) }
{
    let why = file_conflict(asked).or(conflict(asked.task, asked.before));
    match why.or(image_conflict(asked.task, asked.image)) {
        Some(why) => Err(refusal(alloc, subcommand, ErrorKind::ArgumentConflict, why)?),
        None => Ok(CommandLine {
            task: asked.task,
            machine: machine_named(asked.before.or(asked.behind), asked.machine),
            beside: asked.beside,
            image: asked.image,
            sheet: asked.sheet,
            shrink: asked.shrink,
        }),
    }
}

// What the words are found to be.
fn matches_of<'a>(
    alloc: Global,
    words: &'a [&'a str],
    takes_file: bool,
) -> Result<ArgMatches<'a>, Error> {
    program(alloc, takes_file)?.try_get_matches_from(words)
}

// What is written of a file's name.
fn file_refusal(alloc: Global, subcommand: Subcommand, file: &str) -> Result<Error, AllocError> {
    let input = subcommand.input();
    let why = format!(in alloc;
        "unexpected argument '{file}' found\n\n  tip: {input} is read from standard input: write '< FILE'"
    )?;
    refusal(alloc, subcommand, ErrorKind::UnknownArgument, why.as_str())
}

// The refusal of words that would be right but for a file's name.
fn told_of_file<'a>(alloc: Global, matches: &ArgMatches<'a>) -> Result<Option<Error>, AllocError> {
    let subcommand = subcommand_of(matches);
    match asked_for(subcommand, matches).file {
        Some(file) => Ok(Some(file_refusal(alloc, subcommand, file)?)),
        None => Ok(None),
    }
}

// What is written in place of an unknown argument.
fn told_of<'a>(alloc: Global, words: &'a [&'a str]) -> Result<Option<Error>, Error> {
    match matches_of(alloc, words, true) {
        Ok(matches) => Ok(told_of_file(alloc, &matches)?),
        Err(error) if error.kind() == ErrorKind::OutOfMemory => Err(error),
        Err(_) => Ok(None),
    }
}

/// Reads the words behind the program's name. Help and the version come as an error that belongs on
/// the standard output.
pub(crate) fn read_words<'a>(alloc: Global, words: &'a [&'a str]) -> Result<CommandLine<'a>, Error>
    ensures range { IfOk result (λ asked. IsInRange asked.task) }
    ensures task { IfOk result (λ asked. IsAllowed asked.task) }
    ensures begins { IfOk result (λ asked. MayBegin asked.task asked.image) }
{
    match matches_of(alloc, words, false) {
        Ok(matches) => {
            let subcommand = subcommand_of(&matches);
            allowed(alloc, subcommand, asked_for(subcommand, &matches))
        }
        Err(error) if error.kind() == ErrorKind::UnknownArgument => {
            Err(told_of(alloc, words)?.unwrap_or(error))
        }
        Err(error) => Err(error),
    }
}
