//! A sweep's marks.

ghost use Rattle.std.specs.Prelude.{◌≡◌, ◌++◌, ◌∷◌, [], map, IfOk, OnOk};
ghost use Rattle.std.specs.List.{flat_map};
ghost use Rattle.result_figures.specs.Marks.{denials};
ghost use Rattle.result_figures.specs.Sweeps as sweeps;
ghost use Rattle.result_figures.specs.Sweeps.{told};

use crate::mark::{Denials, Mark, Omission, Scale, Title};
use crate::scale::push_ticks;
use register_sweeps::{RoundsRow, Sizes};
use round_driver::Timing;
use std::alloc::{AllocError, Global};

/// One latency's rows.
#[derive(Clone, Copy)]
pub struct SweepLine<'a> {
    /// Rounds from begin to service.
    pub latency: u64,
    /// The rows.
    pub rows: &'a [RoundsRow],
}

// The least and the most rounds of all rows, and the most requests that were denied, of how many.
#[derive(Clone, Copy)]
struct Ends {
    least: u64,
    most: u64,
    denied: u64,
    requests: u128,
}

// Of no rows.
const NO_ROWS: Ends = Ends {
    least: u64::MAX,
    most: 0,
    denied: 0,
    requests: 0,
};

fn with_row(ends: Ends, row: &RoundsRow) -> Ends
    ensures { result ≡ sweeps.with_row ends row.now }
{
    let table = row.table;
    let least = ends.least.min(table.rounds);
    let most = ends.most.max(table.rounds);
    if ends.denied < table.denied {
        let denied = table.denied;
        let requests = u128::from(table.accepted) + u128::from(denied);
        Ends {
            least,
            most,
            denied,
            requests,
        }
    } else {
        Ends {
            least,
            most,
            ..ends
        }
    }
}

fn with_rows(ends: Ends, rows: &[RoundsRow]) -> Ends
    ensures { result ≡ sweeps.with_rows ends rows.now }
{
    let mut all = ends;
    for row in rows {
        all = with_row(all, row);
    }
    all
}

fn ends_of(lines: &[SweepLine<'_>]) -> Ends
    ensures { result ≡ sweeps.with_lines sweeps.no_rows (map told lines.now) }
{
    let mut all = NO_ROWS;
    for line in lines {
        all = with_rows(all, line.rows);
    }
    all
}

fn first_rows<'a>(lines: &[SweepLine<'a>]) -> &'a [RoundsRow]
    ensures { result.now ≡ sweeps.first_rows (map told lines.now) }
{
    match lines {
        [] => &[],
        [line, ..] => line.rows,
    }
}

fn push_times(marks: &mut Vec<Mark>, timings: &[Timing]) -> Result<(), AllocError>
    ensures { OnOk result (marks.new.items ≡ marks.old.items ++ map sweeps.times timings.now) }
{
    for timing in timings {
        marks.push(Mark::Times(*timing))?;
    }
    Ok(())
}

fn push_columns(marks: &mut Vec<Mark>, rows: &[RoundsRow]) -> Result<(), AllocError>
    ensures { OnOk result (marks.new.items ≡ marks.old.items ++ map sweeps.column rows.now) }
{
    for row in rows {
        marks.push(Mark::Column(row.regs))?;
    }
    Ok(())
}

fn push_points(marks: &mut Vec<Mark>, rows: &[RoundsRow]) -> Result<(), AllocError>
    ensures { OnOk result (marks.new.items ≡ marks.old.items ++ map sweeps.point rows.now) }
{
    for row in rows {
        marks.push(Mark::Point(row.table.rounds))?;
    }
    Ok(())
}

fn push_line(marks: &mut Vec<Mark>, line: SweepLine<'_>) -> Result<(), AllocError>
    ensures { OnOk result (marks.new.items ≡ marks.old.items ++ sweeps.line_marks (told line.entry)) }
{
    push_points(marks, line.rows)?;
    marks.push(Mark::Line(line.latency))?;
    Ok(())
}

fn push_lines(marks: &mut Vec<Mark>, lines: &[SweepLine<'_>]) -> Result<(), AllocError>
    ensures { OnOk result
        (marks.new.items ≡ marks.old.items ++ flat_map sweeps.line_marks (map told lines.now)) }
{
    for line in lines {
        push_line(marks, *line)?;
    }
    Ok(())
}

/// That requests were denied, if any were.
pub(crate) fn push_denials(
    marks: &mut Vec<Mark>,
    denied: u64,
    requests: u128,
) -> Result<(), AllocError>
    ensures { OnOk result (marks.new.items ≡ marks.old.items ++ denials denied requests) }
{
    if denied > 0 {
        marks.push(Mark::Omitted(Omission::Denied(Denials { denied, requests })))?;
    }
    Ok(())
}

// What stands beside the plot.
fn heading(
    alloc: Global,
    sizes: &Sizes,
    scale: Scale,
    timings: &[Timing],
) -> Result<Vec<Mark>, AllocError>
    ensures { IfOk result (λ marks. marks.items ≡ sweeps.heading sizes.now scale timings.now) }
{
    let mut marks = Vec::new(alloc);
    marks.push(Mark::Title(Title::Registers))?;
    marks.push(Mark::Machine(*sizes))?;
    marks.push(Mark::Axis(scale))?;
    push_times(&mut marks, timings)?;
    Ok(marks)
}

/// A sweep's figure: rounds by registers, a line for each latency. Each latency has rows of the same
/// numbers of registers. The machine's own number isn't drawn.
pub fn sweep_marks(
    alloc: Global,
    sizes: &Sizes,
    scale: Scale,
    timings: &[Timing],
    lines: &[SweepLine<'_>],
) -> Result<Vec<Mark>, AllocError>
    ensures { IfOk result
        (λ marks. marks.items ≡ sweeps.sweep_marks sizes.now scale timings.now (map told lines.now)) }
{
    let ends = ends_of(lines);
    let mut marks = heading(alloc, sizes, scale, timings)?;
    push_denials(&mut marks, ends.denied, ends.requests)?;
    push_ticks(&mut marks, scale, ends.least, ends.most)?;
    push_columns(&mut marks, first_rows(lines))?;
    push_lines(&mut marks, lines)?;
    Ok(marks)
}
