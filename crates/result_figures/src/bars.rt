//! Bars in rows: of lost rounds, and of requests.

ghost use Rattle.std.specs.Prelude.{◌<◌, ◌≤◌, ◌^◌};

use crate::layout::{LEFT, Layout, TEXT_LINE, TEXT_SINK, WIDTH};
use crate::looks::class_of;
use crate::mark::{Counted, Mark, Shade};
use crate::pen::Pen;
use crate::svg::{Place, put_bar, put_path, put_text};
use flat_model::{Cause, Word};
use std::alloc::{AllocError, Global};

// From a bar to its number.
const GAP: u128 = 12;

// A block in flight has a thin bar, so far below the middle of its row.
const FLIGHT_HEIGHT: u128 = 6;

const FLIGHT_SINK: u128 = 15;

// Where counts are named, and where they end.
const COUNTS: u128 = 920;

const COUNTS_END: u128 = 1264;

/// The axis below the rows, and its name.
pub(crate) fn put_bar_axis(out: &mut String, layout: &Layout) -> Result<(), AllocError> {
    let bars = layout.bars();
    let level = layout.axis();
    let right = LEFT + bars.width.min(WIDTH);
    let upper = bars.first.min(WIDTH).saturating_sub(bars.line / 2);
    put_path(out, "axis", (LEFT, upper), (LEFT, level))?;
    put_path(out, "axis", (LEFT, level), (right, level))?;
    put_text(
        out,
        Place::begin(right + 96, level + TEXT_LINE, 220),
        bars.name,
    )
}

fn put_named(out: &mut String, x: u128, shade: Shade, name: &str) -> Result<(), AllocError> {
    let x = x.min(WIDTH);
    put_bar(out, class_of(shade), (x, 84), 28, 26)?;
    put_text(out, Place::begin(x + 38, 108, 240), name)
}

/// What bars of requests stand for.
pub(crate) fn put_legend(out: &mut String) -> Result<(), AllocError> {
    put_named(out, LEFT, Shade::Asked, "asked")?;
    put_named(out, LEFT + 180, Shade::Miss, "miss")?;
    put_named(out, LEFT + 340, Shade::Join, "join")?;
    put_named(out, LEFT + 500, Shade::Hit, "hit")?;
    put_bar(
        out,
        class_of(Shade::Flight),
        (LEFT + 640, 94),
        28,
        FLIGHT_HEIGHT,
    )?;
    put_text(out, Place::begin(LEFT + 678, 108, 260), "block in flight")
}

fn put_tick(
    alloc: Global,
    out: &mut String,
    layout: &Layout,
    value: u128,
) -> Result<(), AllocError> {
    let bars = layout.bars();
    let x = LEFT + layout.along(value, bars.width.min(WIDTH));
    let level = layout.axis();
    let upper = bars.first.min(WIDTH).saturating_sub(bars.line / 2);
    let words = format!(in alloc; "{value}")?;
    if x > LEFT {
        put_path(out, "grid", (x, level), (x, upper))?;
    }
    put_text(
        out,
        Place::middle(x, level + TEXT_LINE, bars.room),
        words.as_str(),
    )
}

// A row begins: its name.
fn put_row(out: &mut String, layout: &Layout, pen: &mut Pen, name: &str) -> Result<(), AllocError> {
    pen.rows = pen.rows.saturating_add(1);
    pen.right = LEFT;
    let level = layout.row(pen.row()) + TEXT_SINK;
    put_text(out, Place::end(LEFT - 16, level, LEFT - 32), name)
}

fn put_cause(
    alloc: Global,
    out: &mut String,
    layout: &Layout,
    pen: &mut Pen,
    cause: Cause,
) -> Result<(), AllocError> {
    let number = cause.number();
    let name = cause.name();
    let words = format!(in alloc; "{number} {name}")?;
    put_row(out, layout, pen, words.as_str())
}

// Behind the row's last bar.
fn put_behind(out: &mut String, layout: &Layout, pen: &Pen, words: &str) -> Result<(), AllocError> {
    let x = pen.right.min(WIDTH) + GAP;
    let level = layout.row(pen.row()) + TEXT_SINK;
    put_text(
        out,
        Place::begin(x, level, (WIDTH - 8).saturating_sub(x).min(320)),
        words,
    )
}

// The upper end of a bar in the row, and its height.
fn level_of(layout: &Layout, pen: &Pen, shade: Shade) -> (u128, u128) {
    let bars = layout.bars();
    let middle = layout.row(pen.row());
    match shade {
        Shade::Flight => (middle + FLIGHT_SINK, FLIGHT_HEIGHT),
        _ => (middle.saturating_sub(bars.height / 2), bars.height),
    }
}

// A bar; behind that of lost rounds their number.
fn put_shaded(
    alloc: Global,
    out: &mut String,
    layout: &Layout,
    pen: &mut Pen,
    from: u64,
    to: u64,
    shade: Shade,
) -> Result<(), AllocError> {
    let bars = layout.bars();
    let length = bars.width.min(WIDTH);
    let left = LEFT + layout.along(u128::from(from), length);
    let right = LEFT + layout.along(u128::from(to), length);
    let (level, height) = level_of(layout, pen, shade);
    if from < to {
        let width = right.saturating_sub(left).max(2);
        put_bar(out, class_of(shade), (left, level), width, height)?;
    }
    pen.right = pen.right.max(right);
    match shade {
        Shade::Lost => {
            let words = format!(in alloc; "{to}")?;
            put_behind(out, layout, pen, words.as_str())
        }
        _ => Ok(()),
    }
}

fn put_value(
    alloc: Global,
    out: &mut String,
    layout: &Layout,
    pen: &Pen,
    word: Word,
) -> Result<(), AllocError> {
    let words = format!(in alloc;
        "{:02x}{:02x}{:02x}{:02x}",
        word.b0, word.b1, word.b2, word.b3
    )?;
    put_behind(out, layout, pen, words.as_str())
}

fn put_denied(
    alloc: Global,
    out: &mut String,
    layout: &Layout,
    pen: &Pen,
    cause: Cause,
) -> Result<(), AllocError> {
    let name = cause.name();
    let words = if cause.ends_request() {
        format!(in alloc; "denied: {name}")?
    } else {
        format!(in alloc; "refused: {name}")?
    };
    put_behind(out, layout, pen, words.as_str())
}

fn count_name(counted: Counted) -> &'static str {
    match counted {
        Counted::Rounds => "rounds",
        Counted::Accepted => "accepted",
        Counted::Hits => "hits",
        Counted::Joins => "joins",
        Counted::Misses => "misses",
    }
}

fn put_count(
    alloc: Global,
    out: &mut String,
    layout: &Layout,
    pen: &mut Pen,
    counted: Counted,
    count: u64,
) -> Result<(), AllocError> {
    let level = layout.row(pen.counts) + TEXT_SINK;
    pen.counts = pen.counts.saturating_add(1);
    put_text(out, Place::begin(COUNTS, level, 160), count_name(counted))?;
    let words = format!(in alloc; "{count}")?;
    put_text(out, Place::end(COUNTS_END, level, 160), words.as_str())
}

pub(crate) fn put_bar_mark(
    alloc: Global,
    out: &mut String,
    layout: &Layout,
    pen: &mut Pen,
    mark: &Mark,
) -> Result<(), AllocError> {
    match *mark {
        Mark::Tick(value) => put_tick(alloc, out, layout, value),
        Mark::Cause(cause) => put_cause(alloc, out, layout, pen, cause),
        Mark::Request(event) => {
            let words = format!(in alloc; "{event}")?;
            put_row(out, layout, pen, words.as_str())
        }
        Mark::Bar { from, to, shade } => put_shaded(alloc, out, layout, pen, from, to, shade),
        Mark::Value(word) => put_value(alloc, out, layout, pen, word),
        Mark::Denied(cause) => put_denied(alloc, out, layout, pen, cause),
        Mark::Count(counted, count) => put_count(alloc, out, layout, pen, counted, count),
        _ => Ok(()),
    }
}
