//! What the program does with a sheet.

ghost use Rattle.std.specs.Prelude.{◌≡◌, ◌≤◌, None, IfOk, length};
ghost use Rattle.shape_files.specs.MachineFile.{bad_machine};
ghost use Rattle.register_sweeps.specs.Sweep.{machine_over};
ghost use Rattle.trace_sheets.specs.Grades.{grade_text};
ghost use Rattle.kroft_jobs.specs.Words.{MAX_LINES};
ghost use Rattle.kroft_jobs.specs.Grading.{GradeBy, GradeOf, SolutionOf, WritesSheet};
ghost use Rattle.kroft_jobs.specs.Writing.{IsWritten};

use crate::writing::put_text;
use flat_model::Image;
use named_fields::Format;
use register_sweeps::{Sizes, new_machine};
use std::alloc::Global;
use trace_sheets::{
    Grade, GradeHead, Marking, Question, Score, ScoreIn, grade_handed_in, grade_sheet, solve_sheet,
};
use trace_text::{Sink, Source, TraceFault};

/// Grades a sheet as [`grade_sheet`] does, and writes each wrong prediction, and at last the score,
/// in a format.
///
/// The sheet is read whole before anything is written. A refused write ends the job at once. The
/// output is flushed behind the score.
pub fn grade<I: Source, O: Sink>(
    alloc: Global,
    sizes: &Sizes,
    format: Format,
    marking: Marking,
    image: &Image,
    input: &mut I,
    output: &mut O,
) -> Result<Score, TraceFault>
    requires sizes { bad_machine sizes.now ≡ None }
    ensures { WritesSheet I.gave I.failed O.took O.refused O.unflushed (GradeOf format marking (machine_over image.now sizes.now))
        input.old input.new output.old output.new result }
{
    let mut machine = new_machine(alloc, sizes, image)?;
    let grade = grade_sheet(alloc, format, marking, input, &mut machine)?;
    write_grade(alloc, format, grade, output)
}

/// Grades what was handed in as [`grade_handed_in`] does, and writes it as [`grade`] does.
pub fn grade_by<I: Source, O: Sink>(
    alloc: Global,
    sizes: &Sizes,
    format: Format,
    questions: &[Question],
    image: &Image,
    input: &mut I,
    output: &mut O,
) -> Result<Score, TraceFault>
    requires sizes { bad_machine sizes.now ≡ None }
    requires few { length questions.now ≤ MAX_LINES }
    ensures { WritesSheet I.gave I.failed O.took O.refused O.unflushed (GradeBy format questions.now (machine_over image.now sizes.now))
        input.old input.new output.old output.new result }
{
    let mut machine = new_machine(alloc, sizes, image)?;
    let grade = grade_handed_in(alloc, format, questions, input, &mut machine)?;
    write_grade(alloc, format, grade, output)
}

/// Fills a sheet as [`solve_sheet`] does, and writes it. It is read whole before anything is
/// written.
pub fn solve<I: Source, O: Sink>(
    alloc: Global,
    sizes: &Sizes,
    image: &Image,
    input: &mut I,
    output: &mut O,
) -> Result<(), TraceFault>
    requires sizes { bad_machine sizes.now ≡ None }
    ensures { WritesSheet I.gave I.failed O.took O.refused O.unflushed (SolutionOf (machine_over image.now sizes.now))
        input.old input.new output.old output.new result }
{
    let mut machine = new_machine(alloc, sizes, image)?;
    let solution = solve_sheet(alloc, input, &mut machine)?;
    put_text(output, solution.as_slice())
}

// Writes a grade, and flushes it.
#[tactic(auto, unfolding(trace_sheets::specs::Grades::grade_text))]
fn write_grade<O: Sink>(
    alloc: Global,
    format: Format,
    grade: Grade,
    output: &mut O,
) -> Result<Score, TraceFault>
    ensures written { IsWritten O.took O.refused O.unflushed (grade_text format grade.report.items grade.score) output.old
        output.new result }
    ensures score { IfOk result (λ score. score ≡ grade.score) }
{
    let Grade { report, score } = grade;
    let head = format!(in alloc; "{}", GradeHead(format))?;
    let last = format!(in alloc; "{}\n", ScoreIn(format, score))?;
    let mut text = Vec::new(alloc);
    text.extend_from_slice(head.as_bytes())?;
    text.extend_from_slice(report.as_slice())?;
    text.extend_from_slice(last.as_bytes())?;
    put_text(output, text.as_slice())?;
    Ok(score)
}
