//! The program over a reader and two writers.

ghost use Rattle.std.specs.Prelude.{◌≡◌, ◌≤◌, ℕ, None, Ok, IfOk, IfErr, OnOk, Result, length};
ghost use Rattle.shape_files.specs.MachineFile.{bad_machine};
ghost use Rattle.std.specs.String.{string_bytes};
ghost use Rattle.toml.specs.Parse.{parse_document};
ghost use Rattle.shape_files.specs.MachineFile.{TextSays};
ghost use Rattle.shape_files.specs.ShapeFile.{bad_field as bad_shape, text_says};
ghost use Rattle.kroft_command.specs.Words.{ToolFault as FaultValue};
ghost use Rattle.kroft_command.specs.declared.fault.ToolFault.TheVariants as faults;
ghost use Rattle.kroft_command.specs.Tool.{IsInRange};
ghost use Rattle.kroft_command.specs.Told.{EndsBy};
ghost use Rattle.kroft_command.specs.Program.{Works, TellsWords, Performs, IsDone};
ghost use Rattle.kroft_command.specs.Program.{IsMachineOf, IsUnread, ShapeTextFails, MachineTextFails, MachineFails, IsImageOf, ImageFails};
ghost use Rattle.kroft_command.specs.Program.{GradesByFile, HasRoom, IsSheet, IsSheetFault, LacksRoom, grade_format};
ghost use Rattle.history_text.specs.Shrinking.{IsShort};
ghost use Rattle.kroft_command.specs.Program.{HistoryFileFails, ShrinksHistory, history_from, judges_or_shrinks};
ghost use Rattle.kroft_command.specs.Program.{IsBesideOf, BesideFails, HasRoomBeside, LacksRoomBeside};
ghost use Rattle.kroft_jobs.specs.Following.{IsGood};
ghost use Rattle.kroft_jobs.specs.Words.{MAX_LINES};

use crate::command_line::{CommandLine, HistoryTask, ImageName, MachineName, Task, read_words};
use crate::fault::{LongImage, ToolFault};
use crate::figures::{draw_events, draw_timeline};
use crate::tasks::{
    answer, check_by, drive, explain, grade_by, grade_or_solve, history, requests, run, show,
    status_of, sweep,
};
use clap::error::ErrorKind;
use flat_model::Image;
use history_text::{ShrunkHistory, shrink_by_law};
use kroft_jobs::{JobFault, Question, read_questions};
use named_fields::Format;
use register_sweeps::Sizes;
use shape_files::{ToolShape, read_machine, read_shape};
use std::alloc::Global;
use std::io;
use std::rt::Files;
use std::thread::Threads;
use trace_text::{Sink, Source, TraceFault};

/// Does what the words ask for, and returns the status.
///
/// 0: done. 1: a run that isn't flat, a history against its law, a wrong prediction, or something
/// open that mustn't be. 2: words refused. 3: a fault of the shape or machine file. 4: a fault of
/// the input or image, no room for a log's page, or a failed read or write. 5: want of memory, or a
/// sweep's turn limit. 6: no verdict on a history.
///
/// A fault is a line on `errors`. So is, first of all, that a check doesn't read a run to its end.
pub fn tool<R: AllocGlobal + Files + Threads + Sync, I: Source, O: Sink, E: Sink>(
    rt: &R,
    words: &[&str],
    input: &mut I,
    output: &mut O,
    errors: &mut E,
) -> u8
    ensures few { result ≤ 6 }
    ensures ends { (end : Result ℕ FaultValue) × (noted : E)
        × Works I.gave I.failed O.took O.refused O.unflushed E.took E.refused E.unflushed errors.old noted
        input.old input.new output.old output.new end
        × EndsBy E.took E.refused E.unflushed end noted errors.new result }
{
    match work(rt, words, input, output, errors) {
        Ok(status) => status,
        Err(fault) => fault.tell(rt.alloc(), errors),
    }
}

// Does what the words ask for.
#[tactic(auto, unfolding(crate::specs::Program::Works))]
fn work<R: AllocGlobal + Files + Threads + Sync, I: Source, O: Sink, E: Sink>(
    rt: &R,
    words: &[&str],
    input: &mut I,
    output: &mut O,
    errors: &mut E,
) -> Result<u8, ToolFault>
    ensures few { IfOk result (λ status. status ≤ 6) }
    ensures ends { Works I.gave I.failed O.took O.refused O.unflushed E.took E.refused E.unflushed errors.old errors.new
        input.old input.new output.old output.new result }
{
    match read_words(rt.alloc(), words) {
        Ok(asked) => perform(rt, asked, input, output, errors),
        Err(error) => told(rt.alloc(), error, output),
    }
}

// Help and the version are put; other words were refused.
fn told<O: Sink>(alloc: Global, said: clap::Error, output: &mut O) -> Result<u8, ToolFault>
    ensures few { IfOk result (λ status. status ≤ 1) }
    ensures ends { TellsWords O.took O.refused O.unflushed said output.old output.new result }
{
    match said.kind() {
        ErrorKind::OutOfMemory => Err(ToolFault::Job(JobFault::OutOfMemory)),
        ErrorKind::DisplayHelp | ErrorKind::DisplayVersion => {
            let text = format!(in alloc; "{said}")?;
            answer(output, text.as_str(), 0)
        }
        _ => Err(ToolFault::CommandLine(said)),
    }
}

#[tactic(auto, unfolding(crate::specs::Program::Performs))]
fn perform<R: AllocGlobal + Files + Threads + Sync, I: Source, O: Sink, E: Sink>(
    rt: &R,
    asked: CommandLine<'_>,
    input: &mut I,
    output: &mut O,
    errors: &mut E,
) -> Result<u8, ToolFault>
    requires { IsInRange asked.task }
    ensures few { IfOk result (λ status. status ≤ 6) }
    ensures ends { Performs I.gave I.failed O.took O.refused O.unflushed E.took E.refused E.unflushed asked.entry
        errors.old errors.new input.old input.new output.old output.new result }
{
    let sizes = sizes_of(rt, asked.machine)?;
    let beside = beside_of(rt, asked.beside)?;
    let image = image_of(rt, asked.image)?;
    find_room(asked.task, &sizes, &image)?;
    find_room_beside(asked.task, &beside, &image)?;
    match asked.sheet {
        Some(path) => hand_in(rt, path, asked.task, &sizes, &image, input, output),
        None => complete(
            rt,
            asked.task,
            asked.shrink,
            &sizes,
            &beside,
            &image,
            input,
            output,
            errors,
        ),
    }
}

// Only a grade is by a sheet.
fn grade_format(task: Task) -> Format
    ensures { result ≡ grade_format task }
{
    match task {
        Task::Grade { format, .. } => format,
        _ => Format::Text,
    }
}

// Grades what was handed in by the sheet of this file.
#[tactic(auto, unfolding(crate::specs::Program::GradesByFile))]
fn hand_in<R: AllocGlobal + Files, I: Source, O: Sink>(
    rt: &R,
    path: &str,
    task: Task,
    sizes: &Sizes,
    image: &Image,
    input: &mut I,
    output: &mut O,
) -> Result<u8, ToolFault>
    requires sizes { bad_machine sizes.now ≡ None }
    ensures few { IfOk result (λ status. status ≤ 1) }
    ensures ends { GradesByFile I.gave I.failed O.took O.refused O.unflushed (grade_format task) sizes.now image.now input.old input.new
        output.old output.new result }
{
    let bytes = file_bytes(rt, path, ToolFault::SheetUnreadable)?;
    let questions = questions_of(rt.alloc(), bytes.as_slice())?;
    let format = grade_format(task);
    grade_by(
        rt.alloc(),
        sizes,
        format,
        questions.as_slice(),
        image,
        input,
        output,
    )
}

// The questions that a sheet's bytes ask.
fn questions_of(alloc: Global, bytes: &[u8]) -> Result<Vec<Question>, ToolFault>
    ensures asks { IfOk result (λ questions. IsSheet questions.items) }
    ensures few { IfOk result (λ questions. length questions.items ≤ MAX_LINES) }
    ensures fault { IfErr result IsSheetFault }
{
    let mut rest = bytes;
    match read_questions(alloc, &mut rest) {
        Ok(questions) => Ok(questions),
        Err(TraceFault::OutOfMemory) => Err(ToolFault::Job(JobFault::OutOfMemory)),
        Err(fault) => Err(ToolFault::Sheet(fault)),
    }
}

// Does the task on a machine or a history, over an image.
#[tactic(auto, unfolding(crate::specs::Program::IsDone))]
fn complete<R: AllocGlobal + Files + Threads + Sync, I: Source, O: Sink, E: Sink>(
    rt: &R,
    task: Task,
    shrink: Option<&str>,
    sizes: &Sizes,
    beside: &Option<Sizes>,
    image: &Image,
    input: &mut I,
    output: &mut O,
    errors: &mut E,
) -> Result<u8, ToolFault>
    requires range { IsInRange task }
    requires sizes { bad_machine sizes.now ≡ None }
    requires beside { IsGood beside.now }
    ensures few { IfOk result (λ status. status ≤ 6) }
    ensures ends { IsDone I.gave I.failed O.took O.refused O.unflushed E.took E.refused E.unflushed task shrink.entry sizes.now beside.now
        image.now errors.old errors.new input.old input.new output.old output.new result }
{
    let alloc = rt.alloc();
    match task {
        Task::Run => run(alloc, sizes, image, input, output),
        Task::Check {
            all_answered,
            format,
        } => check_by(alloc, sizes, image, all_answered, format, input, output),
        Task::Sweep {
            timings,
            registers,
            form,
        } => sweep(rt, sizes, &registers, &timings, form, input, output, errors),
        Task::Explain { format } => explain(alloc, sizes, format, image, input, output),
        Task::Grade { format, work } => {
            grade_or_solve(alloc, sizes, format, work, image, input, output)
        }
        Task::Drive {
            from,
            timing,
            summary,
            all,
            form,
        } => drive(
            alloc, sizes, image, from, timing, summary, all, form, input, output, errors,
        ),
        Task::Timeline { from, timing } => draw_timeline(
            alloc, sizes, beside, image, from, timing, input, output, errors,
        ),
        Task::Requests { from, words } => requests(alloc, from, words, input, output),
        Task::Show { form } => show(alloc, sizes, image, form, input, output),
        Task::Events => draw_events(alloc, sizes, image, input, output, errors),
        Task::History(how) => judge_or_shrink(rt, how, shrink, image.bytes(), input, output),
    }
}

// Judges a history, or makes a short one of that in a file.
fn judge_or_shrink<R: AllocGlobal + Files, I: Source, O: Sink>(
    rt: &R,
    how: HistoryTask,
    shrink: Option<&str>,
    image: &[u8],
    input: &mut I,
    output: &mut O,
) -> Result<u8, ToolFault>
    ensures few { IfOk result (λ status. status ≤ 6) }
    ensures ends { judges_or_shrinks I.gave I.failed O.took O.refused O.unflushed shrink.entry how image.now input.old input.new
        output.old output.new result }
{
    match shrink {
        None => history(rt.alloc(), how, image, input, output),
        Some(path) => shrink_file(rt, how, path, image, output),
    }
}

// Makes a short history of that in a file.
fn shrink_file<R: AllocGlobal + Files, O: Sink>(
    rt: &R,
    how: HistoryTask,
    path: &str,
    image: &[u8],
    output: &mut O,
) -> Result<u8, ToolFault>
    ensures few { IfOk result (λ status. status ≤ 6) }
    ensures ends { ShrinksHistory O.took O.refused O.unflushed how image.now output.old output.new result }
{
    let shrunk = shrunk_from(rt, how, path, image)?;
    answer(output, shrunk.text.as_str(), status_of(how, &shrunk.end))
}

// What the history in a file is, and a short one of it.
fn shrunk_from<R: AllocGlobal + Files>(
    rt: &R,
    how: HistoryTask,
    path: &str,
    image: &[u8],
) -> Result<ShrunkHistory, ToolFault>
    ensures short { IfOk result (λ shrunk. IsShort (history_from how image.now) shrunk.end (string_bytes shrunk.text)) }
    ensures fault { IfErr result HistoryFileFails }
{
    let mut reader = history_file(rt, path)?;
    let mut again = history_file(rt, path)?;
    Ok(shrink_by_law(
        rt.alloc(),
        &mut reader,
        &mut again,
        how.law,
        image,
        how.rest,
    )?)
}

// A file that is read as it is asked for.
fn history_file<R: AllocGlobal + Files>(rt: &R, path: &str) -> Result<R::File, ToolFault>
    ensures { IfErr result (IsUnread faults.HistoryUnreadable) }
{
    match std::fs::File::open(rt, path) {
        Ok(file) => Ok(file),
        Err(error) if error.kind() == io::ErrorKind::OutOfMemory => {
            Err(ToolFault::Job(JobFault::OutOfMemory))
        }
        Err(_) => Err(ToolFault::HistoryUnreadable),
    }
}

fn sizes_of<R: AllocGlobal + Files>(rt: &R, name: MachineName<'_>) -> Result<Sizes, ToolFault>
    ensures sizes { IfOk result (IsMachineOf name.entry) }
    ensures good { IfOk result (λ sizes. bad_machine sizes ≡ None) }
    ensures fault { IfErr result (MachineFails name.entry) }
{
    match name {
        MachineName::Usual => Ok(ToolShape::default().sizes()),
        MachineName::Shape(path) => {
            let text = text_of(rt, path, ToolFault::Job(JobFault::ShapeUnreadable))?;
            let shape = shape_said(rt.alloc(), text.as_str())?;
            Ok(shape.sizes())
        }
        MachineName::Machine(path) => {
            let text = text_of(rt, path, ToolFault::MachineUnreadable)?;
            machine_said(rt.alloc(), text.as_str())
        }
    }
}

// The machine beside the first one.
fn beside_of<R: AllocGlobal + Files>(rt: &R, path: Option<&str>) -> Result<Option<Sizes>, ToolFault>
    ensures sizes { IfOk result (IsBesideOf path.entry) }
    ensures good { IfOk result IsGood }
    ensures fault { IfErr result (BesideFails path.entry) }
{
    match path {
        Some(path) => Ok(Some(sizes_of(rt, MachineName::Machine(path))?)),
        None => Ok(None),
    }
}

// Nothing is known of a text but that the file gave it.
fn text_of<R: AllocGlobal + Files>(
    rt: &R,
    path: &str,
    unreadable: ToolFault,
) -> Result<String, ToolFault>
    ensures { IfErr result (IsUnread unreadable) }
{
    match std::fs::read_to_string(rt, path) {
        Ok(text) => Ok(text),
        Err(error) if error.kind() == io::ErrorKind::OutOfMemory => {
            Err(ToolFault::Job(JobFault::OutOfMemory))
        }
        Err(_) => Err(unreadable),
    }
}

// The shape that a text says.
fn shape_said(alloc: Global, text: &str) -> Result<ToolShape, JobFault>
    ensures shape { IfOk result (λ shape. text_says (parse_document text.now) ≡ Ok shape) }
    ensures good { IfOk result (λ shape. bad_shape shape ≡ None) }
    ensures fault { IfErr result (ShapeTextFails text.now) }
{
    Ok(read_shape(alloc, text)?)
}

// The machine that a text says.
fn machine_said(alloc: Global, text: &str) -> Result<Sizes, ToolFault>
    ensures sizes { IfOk result (TextSays (parse_document text.now)) }
    ensures good { IfOk result (λ sizes. bad_machine sizes ≡ None) }
    ensures fault { IfErr result (MachineTextFails text.now) }
{
    Ok(read_machine(alloc, text)?)
}

// What memory has before the first store.
fn image_of<R: AllocGlobal + Files>(rt: &R, name: ImageName<'_>) -> Result<Image, ToolFault>
    ensures image { IfOk result (IsImageOf name.entry) }
    ensures fault { IfErr result (ImageFails name.entry) }
{
    match name {
        ImageName::Zeros => Ok(Image::Zeros),
        ImageName::Address => Ok(Image::Address),
        ImageName::File(path) => Ok(Image::Bytes(image_bytes(rt, path)?)),
    }
}

// As of a text.
fn file_bytes<R: AllocGlobal + Files>(
    rt: &R,
    path: &str,
    unreadable: ToolFault,
) -> Result<Vec<u8>, ToolFault>
    ensures { IfErr result (IsUnread unreadable) }
{
    match std::fs::read(rt, path) {
        Ok(bytes) => Ok(bytes),
        Err(error) if error.kind() == io::ErrorKind::OutOfMemory => {
            Err(ToolFault::Job(JobFault::OutOfMemory))
        }
        Err(_) => Err(unreadable),
    }
}

fn image_bytes<R: AllocGlobal + Files>(rt: &R, path: &str) -> Result<Vec<u8>, ToolFault>
    ensures { IfErr result (IsUnread faults.ImageUnreadable) }
{
    file_bytes(rt, path, ToolFault::ImageUnreadable)
}

// Whether the image fits. A history's memory has no end.
fn find_room(task: Task, sizes: &Sizes, image: &Image) -> Result<(), ToolFault>
    ensures ok { OnOk result (HasRoom task sizes.now image.now) }
    ensures fault { IfErr result (LacksRoom task sizes.now image.now) }
{
    let bytes = image.bytes().len();
    let memory = 4 * sizes.words as usize;
    match task {
        Task::History(_) => Ok(()),
        _ if bytes <= memory => Ok(()),
        _ => Err(ToolFault::LongImage(LongImage { bytes, memory })),
    }
}

fn find_room_beside(task: Task, beside: &Option<Sizes>, image: &Image) -> Result<(), ToolFault>
    ensures ok { OnOk result (HasRoomBeside task beside.now image.now) }
    ensures fault { IfErr result (LacksRoomBeside task beside.now image.now) }
{
    match beside {
        Some(sizes) => find_room(task, sizes, image),
        None => Ok(()),
    }
}
