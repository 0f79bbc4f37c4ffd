//! What stands in words beside a figure.

use crate::layout::{LEFT, Layout, MARGIN, TEXT_SINK, WIDTH};
use crate::mark::Omission;
use crate::pen::Pen;
use crate::svg::{Place, put_text};
use register_sweeps::Sizes;
use round_driver::Timing;
use std::alloc::{AllocError, Global};

const ROOM: u128 = WIDTH - 2 * MARGIN;

// By the keys of a machine file.
fn rest_of(alloc: Global, sizes: &Sizes) -> Result<String, AllocError> {
    format!(in alloc;
        "ways {}, block_words {}, stack {}, words {}, sets {}, banks {}, bank_queue {}, write_queue {}, replies {}",
        sizes.ways,
        sizes.block_words,
        sizes.depth,
        sizes.words,
        sizes.sets,
        sizes.banks,
        sizes.bank_queue,
        sizes.write_queue,
        sizes.replies
    )
}

/// A machine: of a timeline in a row, else as a note. A sweep has its registers in columns.
pub(crate) fn put_machine(
    alloc: Global,
    out: &mut String,
    layout: &Layout,
    pen: &mut Pen,
    sizes: &Sizes,
) -> Result<(), AllocError> {
    let rest = rest_of(alloc, sizes)?;
    let registers = format!(in alloc; "registers {}", sizes.regs)?;
    if layout.is_timeline() {
        pen.rows = pen.rows.saturating_add(1);
        let level = layout.row(pen.row()) + TEXT_SINK;
        put_text(out, Place::begin(MARGIN, level, 270), registers.as_str())?;
        return put_text(
            out,
            Place::note(LEFT + 8, level, WIDTH - LEFT - 40),
            rest.as_str(),
        );
    }
    let place = Place::note(MARGIN, layout.note(0), ROOM);
    if layout.columns > 0 {
        return put_text(out, place, rest.as_str());
    }
    let words = format!(in alloc; "{}, {}", registers.as_str(), rest.as_str())?;
    put_text(out, place, words.as_str())
}

pub(crate) fn put_times(
    alloc: Global,
    out: &mut String,
    layout: &Layout,
    pen: &mut Pen,
    timing: Timing,
) -> Result<(), AllocError> {
    let (x, y) = layout.times_at(pen.times);
    pen.times = pen.times.saturating_add(1);
    let words = format!(in alloc; "latency {}, busy {}", timing.latency, timing.busy)?;
    put_text(out, Place::note(x, y, 290), words.as_str())
}

/// What an axis of events counts.
pub(crate) fn put_events_note(out: &mut String, layout: &Layout) -> Result<(), AllocError> {
    let (x, y) = layout.times_at(0);
    put_text(
        out,
        Place::note(x, y, ROOM),
        "The axis counts events, each a line of the trace, and no time.",
    )
}

pub(crate) fn put_omission(
    alloc: Global,
    out: &mut String,
    layout: &Layout,
    pen: &mut Pen,
    omission: Omission,
) -> Result<(), AllocError> {
    let y = layout.note(layout.omission_note(pen.omissions));
    pen.omissions = pen.omissions.saturating_add(1);
    let words = format!(in alloc; "{omission}")?;
    let place = Place {
        class: "left-out",
        ..Place::note(MARGIN, y, ROOM)
    };
    put_text(out, place, words.as_str())
}
