//! A sweep's plot, and the table of its numbers.

ghost use Rattle.std.specs.Prelude.{◌<◌, ◌^◌};

use crate::layout::{
    LEFT, Layout, MARGIN, PLOT_BOTTOM, PLOT_HEIGHT, PLOT_RIGHT, PLOT_TOP, TEXT_LINE, TEXT_SINK,
};
use crate::looks::{colour_of, form_of};
use crate::mark::{Mark, Scale};
use crate::pen::Pen;
use crate::svg::{Place, put_coloured, put_form, put_path, put_text};
use std::alloc::{AllocError, Global};

// Where names of latencies begin, and how far two of them are apart.
const NAMES: u128 = 1030;

const NAMES_APART: u128 = 40;

const NAME_ROOM: u128 = 240;

/// The axes and their names.
pub(crate) fn put_plot_axis(out: &mut String, layout: &Layout) -> Result<(), AllocError> {
    put_path(out, "axis", (LEFT, PLOT_TOP), (LEFT, PLOT_BOTTOM))?;
    put_path(out, "axis", (LEFT, PLOT_BOTTOM), (PLOT_RIGHT, PLOT_BOTTOM))?;
    let name = match layout.scale {
        Scale::Linear => "rounds",
        Scale::Logarithmic => "rounds, by factors",
    };
    put_text(out, Place::begin(LEFT, PLOT_TOP - TEXT_LINE, 400), name)?;
    put_text(out, Place::begin(60, layout.table(0), 200), "registers")
}

fn level_of(layout: &Layout, rounds: u128) -> u128
    ensures { result < 2 ^ 16 }
{
    PLOT_BOTTOM - layout.along(rounds, PLOT_HEIGHT)
}

fn put_tick(
    alloc: Global,
    out: &mut String,
    layout: &Layout,
    value: u128,
) -> Result<(), AllocError> {
    let y = level_of(layout, value);
    let words = format!(in alloc; "{value}")?;
    if y < PLOT_BOTTOM {
        put_path(out, "grid", (LEFT, y), (PLOT_RIGHT, y))?;
    }
    put_text(
        out,
        Place::end(LEFT - 14, y + TEXT_SINK, 280),
        words.as_str(),
    )
}

fn put_column(
    alloc: Global,
    out: &mut String,
    layout: &Layout,
    pen: &mut Pen,
    registers: u32,
) -> Result<(), AllocError> {
    let (x, room) = layout.column(pen.heads);
    pen.heads = pen.heads.saturating_add(1);
    let words = format!(in alloc; "{registers}")?;
    put_text(out, Place::middle(x, layout.table(0), room), words.as_str())
}

// A point tied to the one before it, and its number in the table.
fn put_point(
    alloc: Global,
    out: &mut String,
    layout: &Layout,
    pen: &mut Pen,
    rounds: u64,
) -> Result<(), AllocError> {
    let (x, room) = layout.column(pen.column);
    let at = (x, level_of(layout, u128::from(rounds)));
    let colour = colour_of(pen.line);
    if let Some(corner) = pen.corner {
        put_coloured(out, "line", colour, corner, at)?;
    }
    put_form(out, colour, at, form_of(pen.line))?;
    pen.corner = Some(at);
    pen.column = pen.column.saturating_add(1);
    let level = layout.table(pen.line.saturating_add(1));
    let words = format!(in alloc; "{rounds}")?;
    put_text(out, Place::middle(x, level, room), words.as_str())
}

// How high a line's name stands: at its end, but not where the last one ends, and with room for
// those that follow.
fn name_height(layout: &Layout, pen: &Pen, end: u128) -> u128
    ensures { result < 2 ^ 16 }
{
    let behind = layout.lines.saturating_sub(pen.line).saturating_sub(1);
    let room = NAMES_APART * u128::from(behind);
    end.max(pen.low)
        .min(PLOT_HEIGHT.saturating_sub(room))
        .min(PLOT_HEIGHT)
}

// A line's name behind its end, and in the table.
fn put_line(
    alloc: Global,
    out: &mut String,
    layout: &Layout,
    pen: &mut Pen,
    latency: u64,
) -> Result<(), AllocError> {
    let (x, y) = pen.corner.unwrap_or((LEFT, PLOT_BOTTOM));
    let height = name_height(layout, pen, PLOT_BOTTOM.saturating_sub(y));
    let level = PLOT_BOTTOM.saturating_sub(height);
    let colour = colour_of(pen.line);
    let words = format!(in alloc; "latency {latency}")?;
    put_coloured(
        out,
        "tie",
        colour,
        (x.saturating_add(20), y),
        (NAMES - 10, level),
    )?;
    put_text(
        out,
        Place::begin(NAMES, level + TEXT_SINK, NAME_ROOM),
        words.as_str(),
    )?;
    let row = layout.table(pen.line.saturating_add(1));
    put_form(
        out,
        colour,
        (MARGIN, row.saturating_sub(TEXT_SINK)),
        form_of(pen.line),
    )?;
    put_text(out, Place::begin(60, row, NAME_ROOM), words.as_str())?;
    pen.low = height + NAMES_APART;
    pen.line = pen.line.saturating_add(1);
    pen.column = 0;
    pen.corner = None;
    Ok(())
}

pub(crate) fn put_plot_mark(
    alloc: Global,
    out: &mut String,
    layout: &Layout,
    pen: &mut Pen,
    mark: &Mark,
) -> Result<(), AllocError> {
    match *mark {
        Mark::Tick(value) => put_tick(alloc, out, layout, value),
        Mark::Column(registers) => put_column(alloc, out, layout, pen, registers),
        Mark::Point(rounds) => put_point(alloc, out, layout, pen, rounds),
        Mark::Line(latency) => put_line(alloc, out, layout, pen, latency),
        _ => Ok(()),
    }
}
