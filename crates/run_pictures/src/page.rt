//! A page that steps through the pictures of a machine. What it shows is proved; how that is written
//! is plain code, which browsers test.

ghost use Rattle.std.specs.Prelude.{OnOk, IfOk};
ghost use Rattle.run_pictures.specs.Drawn.{PageOpens, PageGoesOn};

use crate::cells::Cell;
use crate::film::Film;
use crate::page_parts::{PAGE_END, PAGE_HEAD};
use crate::place::Place;
use crate::shown::Shown;
use crate::step::Step;
use flat_model::Image;
use machine_core::{ShapedMachine, Sizes};
use std::alloc::{AllocError, Global};
use trace_text::{LineText, register_text};

/// What is shown last, and the page up to there.
#[derive(Drop)]
pub(crate) struct Page {
    film: Film,
    // `None` before the first event.
    step: Option<Step>,
    // The registers as `reg` shows them.
    lines: Vec<LineText>,
    text: String,
}

impl Page {
    pub(crate) fn new(
        alloc: Global,
        machine: &ShapedMachine,
        image: &Image,
    ) -> Result<Page, AllocError>
        ensures { IfOk result (λ page. PageOpens image.now machine.now page) }
    {
        let film = Film::new(alloc, machine, image)?;
        let mut lines = no_lines(alloc, machine.sizes())?;
        let mut text = opening(alloc, machine.sizes(), film.cells())?;
        put_picture(&mut text, None, film.cells(), machine, &mut lines)?;
        Ok(Page {
            film,
            step: None,
            lines,
            text,
        })
    }

    pub(crate) fn draw(
        &mut self,
        alloc: Global,
        machine: &ShapedMachine,
        step: &Step,
    ) -> Result<(), AllocError>
        ensures { OnOk result (PageGoesOn machine.now step.now self.old self.new) }
    {
        self.film.advance(alloc, machine, step.made)?;
        self.step = Some(*step);
        put_picture(
            &mut self.text,
            self.step,
            self.film.cells(),
            machine,
            &mut self.lines,
        )
    }

    pub(crate) fn finish(self) -> Result<String, AllocError> {
        let mut text = self.text;
        text.push_str(PAGE_END)?;
        Ok(text)
    }
}

fn no_lines(alloc: Global, sizes: &Sizes) -> Result<Vec<LineText>, AllocError> {
    let mut lines = Vec::new(alloc);
    for _slot in 0..sizes.regs {
        lines.push(LineText::new())?;
    }
    Ok(lines)
}

// The head, the machine's numbers, and the places' names.
fn opening(alloc: Global, sizes: &Sizes, cells: &[Cell]) -> Result<String, AllocError> {
    let mut text = String::from_str(alloc, PAGE_HEAD)?;
    let words = sizes.block_words;
    let ways = sizes.ways;
    write!(
        &mut text,
        "const blockWords = {words};\nconst ways = {ways};\nconst places = [\n"
    )?;
    for cell in cells {
        let place = cell.place;
        write!(&mut text, "'{place}',\n")?;
    }
    text.push_str("];\nconst steps = [\n")?;
    Ok(text)
}

// A step, and what stands at the places that it changed.
fn put_picture(
    text: &mut String,
    step: Option<Step>,
    cells: &[Cell],
    machine: &ShapedMachine,
    lines: &mut Vec<LineText>,
) -> Result<(), AllocError> {
    put_head(text, step)?;
    for (k, cell) in cells.iter().enumerate() {
        match cell.place {
            Place::Line { slot } => put_line(text, k, machine, slot, lines)?,
            _ => put_cell(text, k, cell, step.is_none())?,
        }
    }
    text.push_str("]],\n")
}

fn put_head(text: &mut String, step: Option<Step>) -> Result<(), AllocError> {
    let Some(step) = step else {
        return text.push_str("[\"\",\"\",\"the machine before the first event\",\"\",[");
    };
    let event = step.made.event;
    let answer = step.made.answer;
    let words = step.words;
    write!(text, "[\"{event}\",\"{answer}\",\"{words}\",\"")?;
    if let Some(recorded) = step.made.other {
        write!(text, "{recorded}")?;
    }
    text.push_str("\",[")
}

// Of the first picture what stands anywhere.
fn put_cell(text: &mut String, k: usize, cell: &Cell, is_first: bool) -> Result<(), AllocError> {
    let shown = cell.shown;
    if cell.is_changed || (is_first && shown != Shown::Nothing) {
        write!(text, "[{k},\"{shown}\"],")
    } else {
        Ok(())
    }
}

fn put_line(
    text: &mut String,
    k: usize,
    machine: &ShapedMachine,
    slot: u32,
    lines: &mut Vec<LineText>,
) -> Result<(), AllocError> {
    let now = register_text(machine, slot);
    let Some(before) = lines.get_mut(slot as usize) else {
        return Ok(());
    };
    if before.as_bytes() == now.as_bytes() {
        return Ok(());
    }
    let line = std::str::from_utf8(now.as_bytes()).unwrap_or("");
    write!(text, "[{k},\"{line}\"],")?;
    *before = now;
    Ok(())
}
