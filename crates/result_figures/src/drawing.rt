//! A figure, drawn from its marks.

ghost use Rattle.std.specs.Prelude.{◌≡◌, IfOk};
ghost use Rattle.std.specs.String.{string_bytes};

use crate::bars::{put_bar_axis, put_bar_mark, put_legend};
use crate::layout::Layout;
use crate::mark::{Mark, Title};
use crate::notes::{put_events_note, put_machine, put_omission, put_times};
use crate::pen::Pen;
use crate::plot::{put_plot_axis, put_plot_mark};
use crate::svg::{Place, put_opening, put_text};
use std::alloc::{AllocError, Global};

/// Marks, and a text of SVG that shows them.
#[derive(Drop)]
pub struct Drawing {
    marks: Vec<Mark>,
    text: String,
}

impl Drawing {
    /// Draws marks that one of this crate's functions made.
    pub fn new(alloc: Global, marks: Vec<Mark>) -> Result<Drawing, AllocError>
        ensures { IfOk result (λ drawing. drawing.marks ≡ marks) }
    {
        let text = text_of(alloc, marks.as_slice())?;
        Ok(Drawing { marks, text })
    }

    /// The marks.
    pub fn marks(&self) -> &[Mark]
        ensures { result.now ≡ self.now.marks.items }
    {
        self.marks.as_slice()
    }

    /// The text.
    pub fn as_str(&self) -> &str
        ensures { result.now ≡ string_bytes self.now.text }
    {
        self.text.as_str()
    }
}

fn layout_of(marks: &[Mark]) -> Layout {
    let mut layout = Layout::new();
    for mark in marks {
        layout.add(mark);
    }
    layout
}

fn title_of(title: Title) -> &'static str {
    match title {
        Title::Registers => "Rounds by the number of registers",
        Title::Losses => "Lost rounds by their cause",
        Title::Rounds => "Requests by rounds",
        Title::Events => "Requests by the events of the trace",
    }
}

fn text_of(alloc: Global, marks: &[Mark]) -> Result<String, AllocError> {
    let layout = layout_of(marks);
    let mut out = String::new(alloc);
    let title = title_of(layout.title);
    put_opening(&mut out, title, layout.height())?;
    put_text(&mut out, Place::title(), title)?;
    put_axes(&mut out, &layout, marks)?;
    let mut pen = Pen::new();
    for mark in marks {
        put_mark(alloc, &mut out, &layout, &mut pen, mark)?;
    }
    out.push_str("</svg>\n")?;
    Ok(out)
}

fn put_axes(out: &mut String, layout: &Layout, marks: &[Mark]) -> Result<(), AllocError> {
    match layout.title {
        Title::Registers => put_plot_axis(out, layout),
        Title::Losses => put_bar_axis(out, layout),
        Title::Rounds => {
            put_legend(out)?;
            put_bar_axis(out, layout)
        }
        Title::Events => {
            put_legend(out)?;
            put_bar_axis(out, layout)?;
            put_events_note(out, layout)
        }
    }
}

fn put_mark(
    alloc: Global,
    out: &mut String,
    layout: &Layout,
    pen: &mut Pen,
    mark: &Mark,
) -> Result<(), AllocError> {
    match *mark {
        Mark::Machine(sizes) => put_machine(alloc, out, layout, pen, &sizes),
        Mark::Times(timing) => put_times(alloc, out, layout, pen, timing),
        Mark::Omitted(omission) => put_omission(alloc, out, layout, pen, omission),
        _ => match layout.title {
            Title::Registers => put_plot_mark(alloc, out, layout, pen, mark),
            _ => put_bar_mark(alloc, out, layout, pen, mark),
        },
    }
}
