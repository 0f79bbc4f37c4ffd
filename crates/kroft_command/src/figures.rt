//! Tasks that draw. What a figure leaves out is told first, a line each.

ghost use Rattle.std.specs.Prelude.{◌≡◌, ◌≤◌, map, None, IfOk};
ghost use Rattle.std.specs.List.{All};
ghost use Rattle.std.specs.String.{string_bytes};
ghost use Rattle.kroft_jobs.specs.Words.{MOST_LATENCY};
ghost use Rattle.kroft_jobs.specs.Jobs.{swept};
ghost use Rattle.kroft_jobs.specs.Writing.{IsOffered};
ghost use Rattle.shape_files.specs.MachineFile.{bad_machine};
ghost use Rattle.result_figures.specs.Marks.{omissions_text};
ghost use Rattle.result_figures.specs.Sweeps.{told};
ghost use Rattle.kroft_command.specs.Tool.{IsTimely};
ghost use Rattle.kroft_command.specs.Program.{swept_rows, TellsText, PutsFigure, DrawsSweep, DrawsCounts};
ghost use Rattle.kroft_command.specs.Program.{DrawsTimeline, DrawsEvents, followed_marks, walked_marks, undrawn};
ghost use Rattle.kroft_jobs.specs.Following.{IsGood};

use crate::fault::ToolFault;
use crate::tasks::answer;
use flat_model::Image;
use kroft_jobs::{
    FollowedRun, LatencyRows, MOST_FOLLOWED, RequestText, WalkedRun, follow_requests, put_text,
    summarize_requests, sweep_latencies, walk_events,
};
use register_sweeps::Sizes;
use result_figures::{
    Drawing, Mark, Omission, Scale, SweepLine, Told, Undrawn, loss_marks, sweep_marks,
    timeline_marks,
};
use round_driver::Timing;
use std::alloc::{AllocError, Global};
use std::thread::Threads;
use trace_text::{Sink, Source};

// What these marks leave out, a line each.
fn omissions_of(alloc: Global, marks: &[Mark]) -> Result<String, AllocError>
    ensures { IfOk result (λ text. string_bytes text ≡ omissions_text marks.now) }
{
    let mut text = String::new(alloc);
    for mark in marks {
        if let Mark::Omitted(omission) = *mark {
            write!(text, "{omission}\n")?;
        }
    }
    Ok(text)
}

// A refusal has nowhere to go.
fn tell<E: Sink>(errors: &mut E, text: &str)
    ensures { TellsText E.took E.refused E.unflushed text.now errors.old errors.new }
{
    if !text.is_empty() {
        let _told = put_text(errors, text.as_bytes());
    }
}

fn put_figure<O: Sink, E: Sink>(
    alloc: Global,
    marks: Vec<Mark>,
    output: &mut O,
    errors: &mut E,
) -> Result<u8, ToolFault>
    ensures few { IfOk result (λ status. status ≤ 1) }
    ensures ends { PutsFigure O.took O.refused O.unflushed E.took E.refused E.unflushed marks.items
        errors.old errors.new output.old output.new result }
{
    let drawing = Drawing::new(alloc, marks)?;
    let omissions = omissions_of(alloc, drawing.marks())?;
    tell(errors, omissions.as_str());
    answer(output, drawing.as_str(), 0)
}

/// Drives requests, and draws the rounds that were lost.
pub(crate) fn draw_counts<I: Source, O: Sink, E: Sink>(
    alloc: Global,
    sizes: &Sizes,
    image: &Image,
    from: RequestText,
    timing: Timing,
    input: &mut I,
    output: &mut O,
    errors: &mut E,
) -> Result<u8, ToolFault>
    requires sizes { bad_machine sizes.now ≡ None }
    requires latency { timing.latency ≤ MOST_LATENCY }
    ensures few { IfOk result (λ status. status ≤ 1) }
    ensures ends { DrawsCounts I.gave I.failed O.took O.refused O.unflushed E.took E.refused E.unflushed from timing
        sizes.now image.now errors.old errors.new input.old input.new output.old output.new result }
{
    let counted = summarize_requests(alloc, sizes, image, timing, from, input)?;
    let marks = loss_marks(alloc, sizes, timing, &counted)?;
    put_figure(alloc, marks, output, errors)
}

fn lines_of_figure<'a>(
    alloc: Global,
    swept: &'a [LatencyRows],
) -> Result<Vec<SweepLine<'a>>, AllocError>
    ensures { IfOk result (λ lines. map told lines.items ≡ map swept_rows swept.now) }
{
    let mut lines = Vec::new(alloc);
    for one in swept {
        let rows = one.rows.as_slice();
        lines.push(SweepLine {
            latency: one.latency,
            rows,
        })?;
    }
    Ok(lines)
}

/// Drives requests with each number of registers and each latency, and draws their rounds.
pub(crate) fn draw_sweep<R: AllocGlobal + Threads + Sync, I: Source, O: Sink, E: Sink>(
    rt: &R,
    sizes: &Sizes,
    registers: &[u32],
    timings: &[Timing],
    scale: Scale,
    input: &mut I,
    output: &mut O,
    errors: &mut E,
) -> Result<u8, ToolFault>
    requires { All IsTimely timings.now }
    ensures few { IfOk result (λ status. status ≤ 1) }
    ensures ends { DrawsSweep I.gave I.failed O.took O.refused O.unflushed E.took E.refused E.unflushed timings.now scale
        sizes.now (swept sizes.now registers.now) errors.old errors.new input.old input.new output.old output.new result }
{
    let rows = sweep_latencies(rt, rt.alloc(), sizes, registers, timings, input)?;
    let lines = lines_of_figure(rt.alloc(), rows.as_slice())?;
    let marks = sweep_marks(rt.alloc(), sizes, scale, timings, lines.as_slice())?;
    put_figure(rt.alloc(), marks, output, errors)
}

// Which requests aren't drawn.
fn undrawn(requests: usize) -> Option<Omission>
    ensures { result ≡ undrawn requests }
{
    if requests > MOST_FOLLOWED {
        let drawn = MOST_FOLLOWED;
        Some(Omission::Undrawn(Undrawn { drawn, requests }))
    } else {
        None
    }
}

fn followed_marks(
    alloc: Global,
    sizes: &Sizes,
    beside: &Option<Sizes>,
    timing: Timing,
    run: &FollowedRun,
) -> Result<Vec<Mark>, AllocError>
    ensures { IfOk result (λ marks. marks.items ≡ followed_marks sizes.now beside.now timing run.now) }
{
    let omitted = undrawn(run.requests);
    let first = Told {
        sizes: *sizes,
        seen: &run.first,
    };
    match (beside, &run.beside) {
        (Some(other), Some(seen)) => {
            let second = Told {
                sizes: *other,
                seen,
            };
            timeline_marks(alloc, Some(timing), omitted, &[first, second])
        }
        _ => timeline_marks(alloc, Some(timing), omitted, &[first]),
    }
}

/// Drives the first requests, on two machines if there are two, and draws them by rounds.
pub(crate) fn draw_timeline<I: Source, O: Sink, E: Sink>(
    alloc: Global,
    sizes: &Sizes,
    beside: &Option<Sizes>,
    image: &Image,
    from: RequestText,
    timing: Timing,
    input: &mut I,
    output: &mut O,
    errors: &mut E,
) -> Result<u8, ToolFault>
    requires sizes { bad_machine sizes.now ≡ None }
    requires beside { IsGood beside.now }
    ensures few { IfOk result (λ status. status ≤ 1) }
    ensures ends { DrawsTimeline I.gave I.failed O.took O.refused O.unflushed E.took E.refused E.unflushed from timing
        sizes.now beside.now image.now errors.old errors.new input.old input.new output.old output.new result }
{
    let run = follow_requests(alloc, sizes, beside, image, timing, from, input)?;
    let marks = followed_marks(alloc, sizes, beside, timing, &run)?;
    put_figure(alloc, marks, output, errors)
}

fn walked_marks(alloc: Global, sizes: &Sizes, run: &WalkedRun) -> Result<Vec<Mark>, AllocError>
    ensures { IfOk result (λ marks. marks.items ≡ walked_marks sizes.now run.now) }
{
    let first = Told {
        sizes: *sizes,
        seen: &run.seen,
    };
    let omitted = match run.other {
        Some(event) => Some(Omission::Recorded(event)),
        None => None,
    };
    timeline_marks(alloc, None, omitted, &[first])
}

/// Makes the events of a trace or of a recorded run, and draws its first requests by events.
pub(crate) fn draw_events<I: Source, O: Sink, E: Sink>(
    alloc: Global,
    sizes: &Sizes,
    image: &Image,
    input: &mut I,
    output: &mut O,
    errors: &mut E,
) -> Result<u8, ToolFault>
    requires sizes { bad_machine sizes.now ≡ None }
    ensures few { IfOk result (λ status. status ≤ 1) }
    ensures ends { DrawsEvents I.gave I.failed O.took O.refused O.unflushed E.took E.refused E.unflushed sizes.now image.now
        errors.old errors.new input.old input.new output.old output.new result }
{
    let run = walk_events(alloc, sizes, image, input)?;
    let marks = walked_marks(alloc, sizes, &run)?;
    put_figure(alloc, marks, output, errors)
}
