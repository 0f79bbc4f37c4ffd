//! Each task: its job, and what is written of its end.

ghost use Rattle.std.specs.Prelude.{◌≡◌, ◌≤◌, [], ◌++◌, length, map, None, IfOk, IfErr, OnOk, OnErr};
ghost use Rattle.std.specs.List.{All, AllByRecursion, flat_map};
ghost use Rattle.std.specs.String.{string_bytes};
ghost use Rattle.kroft_jobs.specs.Words.{MAX_LINES, MAX_WORDS, MOST_LATENCY};
ghost use Rattle.shape_files.specs.MachineFile.{bad_machine};
ghost use Rattle.history_text.specs.Answers.{verdict_status as history_status};
ghost use Rattle.result_formats.specs.Counts.{rounds_in, latency_in, pumps_in};
ghost use Rattle.kroft_jobs.specs.Jobs.{swept};
ghost use Rattle.kroft_jobs.specs.Writing.{IsPut, IsCut};
ghost use Rattle.kroft_command.specs.Tool.{IsTimely, timings_in, registers_in, line, write_fault};
ghost use Rattle.kroft_command.specs.Program.{Runs, Checks, ChecksAnswered, checks_by, ExplainsRun, Draws, WritesRequests};
ghost use Rattle.kroft_command.specs.Program.{Grades, GradesBy, Solves, works_on_sheet};
ghost use Rattle.kroft_command.specs.Program.{access_in};
ghost use Rattle.kroft_command.specs.Program.{Drives, WritesRun, PutsCounts, PutsDetails, counts_by};
ghost use Rattle.kroft_command.specs.Program.{Sweeps, SweepsRegisters, SweepsRounds, SweepsLatencies, sweeps_lines};
ghost use Rattle.kroft_command.specs.Program.{latency_lines, swept_rows};
ghost use Rattle.kroft_command.specs.Program.{FollowsHistory, JudgesHistory, WritesHistory, PutsVerdict};

use crate::command_line::{CountForm, HistoryTask, LogName, Registers, SheetWork, Timings};
use crate::fault::ToolFault;
use crate::figures::{draw_counts, draw_sweep};
use access_logs::{Din, Lackey, LogFormat, write_requests};
use flat_model::Image;
use history_text::{HistoryEnd, judge_by_law, write_values_by_law};
use kroft_jobs::{
    AnsweredIn, CheckIn, LatencyRows, Marking, Question, RequestText, Verdict, detail_requests,
    drive_requests, put_text, serve, summarize_requests, sweep_in_rounds, sweep_latencies,
    sweep_registers,
};
use named_fields::{Format, VerdictFormat};
use register_sweeps::{RoundsRow, Row, Sizes};
use result_formats::{
    DetailsIn, ExplanationIn, LatencyHead, LatencyIn, PumpsHead, PumpsIn, RoundsHead, RoundsIn,
    TableHead, TableIn, history_in,
};
use round_driver::Timing;
use run_pictures::Form;
use std::alloc::{AllocError, Global};
use std::thread::Threads;
use trace_text::{Sink, Source, TraceFault};

pub(crate) fn answer<O: Sink>(output: &mut O, text: &str, status: u8) -> Result<u8, ToolFault>
    ensures ok { OnOk result (IsPut O.took output.old text.now output.new) }
    ensures status { IfOk result (λ told. told ≡ status) }
    ensures err { OnErr result (IsCut O.took O.refused O.unflushed output.old text.now output.new) }
    ensures fault { IfErr result (λ fault. fault ≡ write_fault) }
{
    put_text(output, text.as_bytes())?;
    Ok(status)
}

// Sees what was written through to its end.
fn finish<O: Sink>(output: &mut O) -> Result<(), ToolFault>
    ensures ok { OnOk result (O.took output.old [] output.new) }
    ensures err { OnErr result (O.unflushed output.old output.new) }
    ensures fault { IfErr result (λ fault. fault ≡ write_fault) }
{
    match output.flush_all() {
        Ok(()) => Ok(()),
        Err(_) => Err(ToolFault::from(TraceFault::Write)),
    }
}

/// Serves the trace on a new machine.
#[tactic(auto, unfolding(crate::specs::Program::Runs))]
pub(crate) fn run<I: Source, O: Sink>(
    alloc: Global,
    sizes: &Sizes,
    image: &Image,
    input: &mut I,
    output: &mut O,
) -> Result<u8, ToolFault>
    requires sizes { bad_machine sizes.now ≡ None }
    ensures few { IfOk result (λ status. status ≤ 1) }
    ensures ends { Runs I.gave I.failed O.took O.refused O.unflushed sizes.now image.now input.old input.new output.old output.new
        result }
{
    serve(alloc, sizes, image, input, output)?;
    Ok(0)
}

// Judges what a run wrote.
#[tactic(auto, unfolding(crate::specs::Program::Checks))]
fn check<I: Source, O: Sink>(
    alloc: Global,
    sizes: &Sizes,
    format: VerdictFormat,
    image: &Image,
    input: &mut I,
    output: &mut O,
) -> Result<u8, ToolFault>
    ensures few { IfOk result (λ status. status ≤ 1) }
    ensures ends { Checks I.gave I.failed O.took O.refused O.unflushed format sizes.now image.now input.old input.new output.old output.new
        result }
{
    let end = kroft_jobs::check(alloc, sizes, image, input)?;
    let text = format!(in alloc; "{}\n", CheckIn(format, end))?;
    answer(output, text.as_str(), Verdict(end).status())
}

#[tactic(auto, unfolding(crate::specs::Program::ChecksAnswered))]
fn check_answered<I: Source, O: Sink>(
    alloc: Global,
    sizes: &Sizes,
    format: VerdictFormat,
    image: &Image,
    input: &mut I,
    output: &mut O,
) -> Result<u8, ToolFault>
    ensures few { IfOk result (λ status. status ≤ 1) }
    ensures ends { ChecksAnswered I.gave I.failed O.took O.refused O.unflushed format sizes.now image.now input.old input.new output.old
        output.new result }
{
    let answered = kroft_jobs::check_answered(alloc, sizes, image, input)?;
    let text = format!(in alloc; "{}\n", AnsweredIn(format, &answered))?;
    answer(output, text.as_str(), answered.status())
}

/// Judges a run; open loads are a fault if asked.
#[tactic(auto, unfolding(crate::specs::Program::checks_by))]
pub(crate) fn check_by<I: Source, O: Sink>(
    alloc: Global,
    sizes: &Sizes,
    image: &Image,
    all_answered: bool,
    format: VerdictFormat,
    input: &mut I,
    output: &mut O,
) -> Result<u8, ToolFault>
    ensures few { IfOk result (λ status. status ≤ 1) }
    ensures ends { checks_by I.gave I.failed O.took O.refused O.unflushed all_answered format sizes.now image.now input.old input.new
        output.old output.new result }
{
    if all_answered {
        check_answered(alloc, sizes, format, image, input, output)
    } else {
        check(alloc, sizes, format, image, input, output)
    }
}

#[tactic(auto, unfolding(crate::specs::Program::ExplainsRun))]
pub(crate) fn explain<I: Source, O: Sink>(
    alloc: Global,
    sizes: &Sizes,
    format: VerdictFormat,
    image: &Image,
    input: &mut I,
    output: &mut O,
) -> Result<u8, ToolFault>
    ensures few { IfOk result (λ status. status ≤ 1) }
    ensures ends { ExplainsRun I.gave I.failed O.took O.refused O.unflushed format sizes.now image.now input.old input.new output.old
        output.new result }
{
    let explanation = kroft_jobs::explain(alloc, sizes, image, input)?;
    let text = format!(in alloc; "{}\n", ExplanationIn(format, explanation))?;
    answer(output, text.as_str(), explanation.status())
}

/// Grades a sheet.
#[tactic(auto, unfolding(crate::specs::Program::Grades))]
fn grade<I: Source, O: Sink>(
    alloc: Global,
    sizes: &Sizes,
    format: Format,
    marking: Marking,
    image: &Image,
    input: &mut I,
    output: &mut O,
) -> Result<u8, ToolFault>
    requires sizes { bad_machine sizes.now ≡ None }
    ensures few { IfOk result (λ status. status ≤ 1) }
    ensures ends { Grades I.gave I.failed O.took O.refused O.unflushed format marking sizes.now image.now input.old input.new
        output.old output.new result }
{
    let score = kroft_jobs::grade(alloc, sizes, format, marking, image, input, output)?;
    Ok(score.status())
}

// Fills a sheet.
#[tactic(auto, unfolding(crate::specs::Program::Solves))]
fn solve<I: Source, O: Sink>(
    alloc: Global,
    sizes: &Sizes,
    image: &Image,
    input: &mut I,
    output: &mut O,
) -> Result<u8, ToolFault>
    requires sizes { bad_machine sizes.now ≡ None }
    ensures few { IfOk result (λ status. status ≤ 1) }
    ensures ends { Solves I.gave I.failed O.took O.refused O.unflushed sizes.now image.now input.old input.new output.old output.new
        result }
{
    kroft_jobs::solve(alloc, sizes, image, input, output)?;
    Ok(0)
}

/// Grades a sheet, or fills it.
pub(crate) fn grade_or_solve<I: Source, O: Sink>(
    alloc: Global,
    sizes: &Sizes,
    format: Format,
    work: SheetWork,
    image: &Image,
    input: &mut I,
    output: &mut O,
) -> Result<u8, ToolFault>
    requires sizes { bad_machine sizes.now ≡ None }
    ensures few { IfOk result (λ status. status ≤ 1) }
    ensures ends { works_on_sheet I.gave I.failed O.took O.refused O.unflushed work format sizes.now image.now input.old input.new
        output.old output.new result }
{
    match work {
        SheetWork::Grade(marking) => grade(alloc, sizes, format, marking, image, input, output),
        SheetWork::Solve => solve(alloc, sizes, image, input, output),
    }
}

/// Grades what was handed in.
#[tactic(auto, unfolding(crate::specs::Program::GradesBy))]
pub(crate) fn grade_by<I: Source, O: Sink>(
    alloc: Global,
    sizes: &Sizes,
    format: Format,
    questions: &[Question],
    image: &Image,
    input: &mut I,
    output: &mut O,
) -> Result<u8, ToolFault>
    requires sizes { bad_machine sizes.now ≡ None }
    requires questions { length questions.now ≤ MAX_LINES }
    ensures few { IfOk result (λ status. status ≤ 1) }
    ensures ends { GradesBy I.gave I.failed O.took O.refused O.unflushed format questions.now sizes.now image.now input.old input.new
        output.old output.new result }
{
    let marks = kroft_jobs::grade_by(alloc, sizes, format, questions, image, input, output)?;
    Ok(marks.status())
}

// Writes the run, and tells if it is too long for a check.
fn write_run<I: Source, O: Sink, E: Sink>(
    alloc: Global,
    sizes: &Sizes,
    image: &Image,
    from: RequestText,
    timing: Timing,
    input: &mut I,
    output: &mut O,
    errors: &mut E,
) -> Result<u8, ToolFault>
    requires sizes { bad_machine sizes.now ≡ None }
    requires latency { timing.latency ≤ MOST_LATENCY }
    ensures few { IfOk result (λ status. status ≤ 1) }
    ensures ends { WritesRun I.gave I.failed O.took O.refused O.unflushed E.took E.refused E.unflushed from timing sizes.now image.now
        errors.old errors.new input.old input.new output.old output.new result }
{
    drive_requests(alloc, sizes, image, timing, from, input, output, errors)?;
    finish(output)?;
    Ok(0)
}

// Drives them, and puts the counts.
fn put_counts<I: Source, O: Sink>(
    alloc: Global,
    sizes: &Sizes,
    image: &Image,
    from: RequestText,
    timing: Timing,
    format: Format,
    input: &mut I,
    output: &mut O,
) -> Result<u8, ToolFault>
    requires sizes { bad_machine sizes.now ≡ None }
    requires latency { timing.latency ≤ MOST_LATENCY }
    ensures few { IfOk result (λ status. status ≤ 1) }
    ensures ends { PutsCounts I.gave I.failed O.took O.refused O.unflushed from timing format sizes.now
        image.now input.old input.new output.old
        output.new result }
{
    let table = summarize_requests(alloc, sizes, image, timing, from, input)?;
    let counts = format!(in alloc; "{}{}\n", TableHead(format), TableIn(format, table))?;
    answer(output, counts.as_str(), 0)
}

// Drives them, and puts all details.
fn put_details<I: Source, O: Sink>(
    alloc: Global,
    sizes: &Sizes,
    image: &Image,
    from: RequestText,
    timing: Timing,
    format: Format,
    input: &mut I,
    output: &mut O,
) -> Result<u8, ToolFault>
    requires sizes { bad_machine sizes.now ≡ None }
    requires latency { timing.latency ≤ MOST_LATENCY }
    ensures few { IfOk result (λ status. status ≤ 1) }
    ensures ends { PutsDetails I.gave I.failed O.took O.refused O.unflushed from timing format sizes.now
        image.now input.old input.new output.old
        output.new result }
{
    let run = detail_requests(alloc, sizes, image, timing, from, input)?;
    let told = format!(in alloc; "{}\n", DetailsIn(format, &run.details, run.accesses))?;
    answer(output, told.as_str(), 0)
}

// Drives them, and shows the counts.
fn show_counts<I: Source, O: Sink, E: Sink>(
    alloc: Global,
    sizes: &Sizes,
    image: &Image,
    from: RequestText,
    timing: Timing,
    all: bool,
    form: CountForm,
    input: &mut I,
    output: &mut O,
    errors: &mut E,
) -> Result<u8, ToolFault>
    requires sizes { bad_machine sizes.now ≡ None }
    requires latency { timing.latency ≤ MOST_LATENCY }
    ensures few { IfOk result (λ status. status ≤ 1) }
    ensures ends { counts_by I.gave I.failed O.took O.refused O.unflushed E.took E.refused E.unflushed form all from timing
        sizes.now image.now errors.old errors.new input.old input.new output.old output.new result }
{
    match (form, all) {
        (CountForm::Lines(format), false) => {
            put_counts(alloc, sizes, image, from, timing, format, input, output)
        }
        (CountForm::Lines(format), true) => {
            put_details(alloc, sizes, image, from, timing, format, input, output)
        }
        (CountForm::Figure(_), _) => {
            draw_counts(alloc, sizes, image, from, timing, input, output, errors)
        }
    }
}

#[tactic(auto, unfolding(crate::specs::Program::Drives))]
pub(crate) fn drive<I: Source, O: Sink, E: Sink>(
    alloc: Global,
    sizes: &Sizes,
    image: &Image,
    from: RequestText,
    timing: Timing,
    summary: bool,
    all: bool,
    form: CountForm,
    input: &mut I,
    output: &mut O,
    errors: &mut E,
) -> Result<u8, ToolFault>
    requires sizes { bad_machine sizes.now ≡ None }
    requires latency { timing.latency ≤ MOST_LATENCY }
    ensures few { IfOk result (λ status. status ≤ 1) }
    ensures ends { Drives I.gave I.failed O.took O.refused O.unflushed E.took E.refused E.unflushed from timing summary all form
        sizes.now image.now errors.old errors.new input.old input.new output.old output.new result }
{
    if summary {
        show_counts(
            alloc, sizes, image, from, timing, all, form, input, output, errors,
        )
    } else {
        write_run(alloc, sizes, image, from, timing, input, output, errors)
    }
}

#[tactic(auto, unfolding(crate::specs::Program::WritesRequests))]
fn requests_in<F: LogFormat, I: Source, O: Sink>(
    alloc: Global,
    format: &F,
    words: u32,
    input: &mut I,
    output: &mut O,
) -> Result<u8, ToolFault>
    requires { words ≤ MAX_WORDS }
    ensures few { IfOk result (λ status. status ≤ 1) }
    ensures ends { WritesRequests I.gave I.failed O.took O.refused O.unflushed F.access_in words input.old input.new
        output.old output.new result }
{
    write_requests(alloc, input, output, format, words)?;
    Ok(0)
}

/// Writes the requests of a log.
pub(crate) fn requests<I: Source, O: Sink>(
    alloc: Global,
    from: LogName,
    words: u32,
    input: &mut I,
    output: &mut O,
) -> Result<u8, ToolFault>
    requires { words ≤ MAX_WORDS }
    ensures few { IfOk result (λ status. status ≤ 1) }
    ensures ends { WritesRequests I.gave I.failed O.took O.refused O.unflushed (access_in from) words input.old input.new
        output.old output.new result }
{
    match from {
        LogName::Lackey => requests_in(alloc, &Lackey, words, input, output),
        LogName::Din => requests_in(alloc, &Din, words, input, output),
    }
}

#[tactic(auto, unfolding(crate::specs::Program::Draws))]
pub(crate) fn show<I: Source, O: Sink>(
    alloc: Global,
    sizes: &Sizes,
    image: &Image,
    form: Form,
    input: &mut I,
    output: &mut O,
) -> Result<u8, ToolFault>
    requires sizes { bad_machine sizes.now ≡ None }
    ensures few { IfOk result (λ status. status ≤ 1) }
    ensures ends { Draws I.gave I.failed O.took O.refused O.unflushed form sizes.now image.now input.old input.new output.old
        output.new result }
{
    let drawing = kroft_jobs::show(alloc, sizes, image, form, input)?;
    answer(output, drawing.as_str(), 0)
}

// Puts what became of a history.
fn put_verdict<O: Sink>(
    alloc: Global,
    how: HistoryTask,
    judged: Result<HistoryEnd, TraceFault>,
    output: &mut O,
) -> Result<u8, ToolFault>
    ensures few { IfOk result (λ status. status ≤ 6) }
    ensures ends { PutsVerdict O.took O.refused O.unflushed how judged output.old output.new result }
{
    let end = judged?;
    let told = history_in(alloc, how.format, how.law, &end)?;
    let text = format!(in alloc; "{told}\n")?;
    answer(output, text.as_str(), status_of(how, &end))
}

// The status of its end.
pub(crate) fn status_of(how: HistoryTask, end: &HistoryEnd) -> u8
    ensures status { result ≡ history_status how.all_answered end.now }
    ensures few { result ≤ 6 }
{
    end.status(how.all_answered)
}

// Judges a history.
fn judge_history<I: Source, O: Sink>(
    alloc: Global,
    how: HistoryTask,
    image: &[u8],
    input: &mut I,
    output: &mut O,
) -> Result<u8, ToolFault>
    ensures few { IfOk result (λ status. status ≤ 6) }
    ensures ends { JudgesHistory I.gave I.failed O.took O.refused O.unflushed how image.now input.old input.new output.old
        output.new result }
{
    let judged = judge_by_law(alloc, input, how.law, image, how.rest);
    put_verdict(alloc, how, judged, output)
}

// Judges a history, and writes its lines to their end, whatever comes of it.
fn write_history<I: Source, O: Sink>(
    alloc: Global,
    how: HistoryTask,
    image: &[u8],
    input: &mut I,
    output: &mut O,
) -> Result<u8, ToolFault>
    ensures few { IfOk result (λ status. status ≤ 6) }
    ensures ends { WritesHistory I.gave I.failed O.took O.refused O.unflushed how image.now input.old input.new output.old
        output.new result }
{
    let judged = write_values_by_law(alloc, input, output, how.law, image, how.rest);
    finish(output)?;
    put_verdict(alloc, how, judged, output)
}

#[tactic(auto, unfolding(crate::specs::Program::FollowsHistory))]
pub(crate) fn history<I: Source, O: Sink>(
    alloc: Global,
    how: HistoryTask,
    image: &[u8],
    input: &mut I,
    output: &mut O,
) -> Result<u8, ToolFault>
    ensures few { IfOk result (λ status. status ≤ 6) }
    ensures ends { FollowsHistory I.gave I.failed O.took O.refused O.unflushed how image.now input.old input.new output.old
        output.new result }
{
    if how.values {
        write_history(alloc, how, image, input, output)
    } else {
        judge_history(alloc, how, image, input, output)
    }
}

// Rows of numbers of registers, a line each.
fn lines_of_rows(alloc: Global, format: Format, rows: &[Row]) -> Result<String, AllocError>
    ensures { IfOk result (λ text. string_bytes text ≡ flat_map (λ row. line (pumps_in format row)) rows.now) }
{
    let mut text = String::new(alloc);
    for row in rows {
        write!(text, "{}\n", PumpsIn(format, *row))?;
    }
    Ok(text)
}

fn lines_of_rounds(alloc: Global, format: Format, rows: &[RoundsRow]) -> Result<String, AllocError>
    ensures { IfOk result (λ text. string_bytes text ≡ flat_map (λ row. line (rounds_in format row)) rows.now) }
{
    let mut text = String::new(alloc);
    for row in rows {
        write!(text, "{}\n", RoundsIn(format, *row))?;
    }
    Ok(text)
}

// Serves the requests with each number of registers.
fn put_registers<R: AllocGlobal + Threads + Sync, I: Source, O: Sink>(
    rt: &R,
    sizes: &Sizes,
    registers: &[u32],
    format: Format,
    input: &mut I,
    output: &mut O,
) -> Result<u8, ToolFault>
    ensures few { IfOk result (λ status. status ≤ 1) }
    ensures ends { SweepsRegisters I.gave I.failed O.took O.refused O.unflushed format
        (swept sizes.now registers.now) input.old input.new output.old
        output.new result }
{
    let rows = sweep_registers(rt, rt.alloc(), sizes, registers, input)?;
    let told = lines_of_rows(rt.alloc(), format, rows.as_slice())?;
    let lines = format!(in rt.alloc(); "{}{}", PumpsHead(format), told.as_str())?;
    answer(output, lines.as_str(), 0)
}

fn put_rounds<R: AllocGlobal + Threads + Sync, I: Source, O: Sink>(
    rt: &R,
    sizes: &Sizes,
    registers: &[u32],
    timing: Timing,
    format: Format,
    input: &mut I,
    output: &mut O,
) -> Result<u8, ToolFault>
    requires { timing.latency ≤ MOST_LATENCY }
    ensures few { IfOk result (λ status. status ≤ 1) }
    ensures ends { SweepsRounds I.gave I.failed O.took O.refused O.unflushed timing format
        (swept sizes.now registers.now) input.old input.new output.old
        output.new result }
{
    let rows = sweep_in_rounds(rt, rt.alloc(), sizes, registers, timing, input)?;
    let told = lines_of_rounds(rt.alloc(), format, rows.as_slice())?;
    let rounds = format!(in rt.alloc(); "{}{}", RoundsHead(format), told.as_str())?;
    answer(output, rounds.as_str(), 0)
}

fn push_latency(
    text: &mut String,
    format: Format,
    latency: u64,
    rows: &[RoundsRow],
) -> Result<(), AllocError>
    ensures { OnOk result
        (string_bytes text.new ≡ string_bytes text.old ++ flat_map (λ row. line (latency_in format latency row)) rows.now) }
{
    for row in rows {
        write!(text, "{}\n", LatencyIn(format, latency, *row))?;
    }
    Ok(())
}

// The rows of all latencies, a line each.
fn lines_of_latencies(
    alloc: Global,
    format: Format,
    swept: &[LatencyRows],
) -> Result<String, AllocError>
    ensures { IfOk result (λ text. string_bytes text ≡ flat_map (latency_lines format) (map swept_rows swept.now)) }
{
    let mut text = String::new(alloc);
    for one in swept {
        push_latency(&mut text, format, one.latency, one.rows.as_slice())?;
    }
    Ok(text)
}

fn put_latencies<R: AllocGlobal + Threads + Sync, I: Source, O: Sink>(
    rt: &R,
    sizes: &Sizes,
    registers: &[u32],
    timings: &[Timing],
    format: Format,
    input: &mut I,
    output: &mut O,
) -> Result<u8, ToolFault>
    requires { All IsTimely timings.now }
    ensures few { IfOk result (λ status. status ≤ 1) }
    ensures ends { SweepsLatencies I.gave I.failed O.took O.refused O.unflushed timings.now format
        (swept sizes.now registers.now) input.old input.new
        output.old output.new result }
{
    let rows = sweep_latencies(rt, rt.alloc(), sizes, registers, timings, input)?;
    let told = lines_of_latencies(rt.alloc(), format, rows.as_slice())?;
    let latencies = format!(in rt.alloc(); "{}{}", LatencyHead(format), told.as_str())?;
    answer(output, latencies.as_str(), 0)
}

// Serves the requests, or drives them if there are times.
fn put_sweep<R: AllocGlobal + Threads + Sync, I: Source, O: Sink>(
    rt: &R,
    sizes: &Sizes,
    registers: &[u32],
    timings: &[Timing],
    format: Format,
    input: &mut I,
    output: &mut O,
) -> Result<u8, ToolFault>
    requires { All IsTimely timings.now }
    ensures few { IfOk result (λ status. status ≤ 1) }
    ensures ends { sweeps_lines I.gave I.failed O.took O.refused O.unflushed timings.now format
        (swept sizes.now registers.now) input.old input.new
        output.old output.new result }
{
    match timings {
        [] => put_registers(rt, sizes, registers, format, input, output),
        [timing] => put_rounds(rt, sizes, registers, *timing, format, input, output),
        [_, _, ..] => put_latencies(rt, sizes, registers, timings, format, input, output),
    }
}

#[tactic(auto, unfolding(crate::specs::Program::Sweeps))]
fn sweep_by<R: AllocGlobal + Threads + Sync, I: Source, O: Sink, E: Sink>(
    rt: &R,
    sizes: &Sizes,
    registers: &[u32],
    timings: &[Timing],
    form: CountForm,
    input: &mut I,
    output: &mut O,
    errors: &mut E,
) -> Result<u8, ToolFault>
    requires timely { All IsTimely timings.now }
    ensures few { IfOk result (λ status. status ≤ 1) }
    ensures ends { Sweeps I.gave I.failed O.took O.refused O.unflushed E.took E.refused E.unflushed timings.now form sizes.now
        registers.now errors.old errors.new input.old input.new output.old output.new result }
{
    match form {
        CountForm::Lines(format) => put_sweep(rt, sizes, registers, timings, format, input, output),
        CountForm::Figure(scale) => {
            draw_sweep(rt, sizes, registers, timings, scale, input, output, errors)
        }
    }
}

pub(crate) fn sweep<R: AllocGlobal + Threads + Sync, I: Source, O: Sink, E: Sink>(
    rt: &R,
    sizes: &Sizes,
    registers: &Registers,
    timings: &Timings,
    form: CountForm,
    input: &mut I,
    output: &mut O,
    errors: &mut E,
) -> Result<u8, ToolFault>
    requires { AllByRecursion IsTimely timings.now.all }
    ensures few { IfOk result (λ status. status ≤ 1) }
    ensures ends { Sweeps I.gave I.failed O.took O.refused O.unflushed E.took E.refused E.unflushed (timings_in timings.now) form
        sizes.now (registers_in registers.now) errors.old errors.new input.old input.new output.old output.new result }
{
    let registers = registers.as_slice();
    sweep_by(
        rt,
        sizes,
        registers,
        timings.as_slice(),
        form,
        input,
        output,
        errors,
    )
}
