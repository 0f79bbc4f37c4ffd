//! The pictures of a machine, as lines for a terminal.

ghost use Rattle.std.specs.Prelude.{◌≡◌, ◌++◌, OnOk, IfOk, Some, true};
ghost use Rattle.std.specs.String.{string_bytes};
ghost use Rattle.run_pictures.specs.Phrases.{text_of};
ghost use Rattle.run_pictures.specs.Screens as screens;

use crate::cells::Cell;
use crate::film::Film;
use crate::phrase::Phrase;
use crate::place::Place;
use crate::shown::Shown;
use crate::step::Step;
use flat_model::{Answer, Image};
use machine_core::ShapedMachine;
use std::alloc::{AllocError, Global};
use std::fmt;

// Nothing for a place that isn't shown.
fn label_of(place: Place) -> Phrase
    ensures { text_of result ≡ screens.label_text place }
{
    match place {
        Place::Register { slot } => Phrase::One("register ", slot),
        Place::Line { .. } => Phrase::Word(""),
        Place::Field { i, .. } => Phrase::One("  word ", i),
        Place::Load { .. } => Phrase::Word("    load"),
        Place::Frame { frame } => Phrase::One("frame ", frame),
        Place::Cell { i, .. } => Phrase::One("  word ", i),
        Place::Stack { place } => Phrase::One("input stack ", place),
        Place::Queue { place } => Phrase::One("write queue ", place),
        Place::Command { bank, place } => Phrase::Two("bank ", bank, " command ", place),
        Place::Answer { bank, place } => Phrase::Two("bank ", bank, " answer ", place),
        Place::Reply { place } => Phrase::One("ready ", place),
        Place::Memory { at } => Phrase::One("memory ", at),
    }
}

fn is_there(shown: Shown) -> bool
    ensures { result ≡ screens.is_there shown }
{
    !matches!(shown, Shown::Nothing | Shown::Free)
}

// Memory only where it changed, other places where something stands or stood.
fn is_shown(place: Place, shown: Shown, is_changed: bool) -> bool
    ensures { result ≡ screens.is_shown place shown is_changed }
{
    match place {
        Place::Line { .. } => false,
        Place::Memory { .. } => is_changed,
        _ => is_changed || is_there(shown),
    }
}

// The register or the frame that a place is of.
#[derive(Clone, Copy, PartialEq, Eq)]
enum Owner {
    Register(u32),
    Frame(u32),
}

fn owner_of(place: Place) -> Option<Owner>
    ensures { result ≡ screens.owner_of place }
{
    match place {
        Place::Register { slot } | Place::Field { slot, .. } | Place::Load { slot, .. } => {
            Some(Owner::Register(slot))
        }
        Place::Frame { frame } | Place::Cell { frame, .. } => Some(Owner::Frame(frame)),
        _ => None,
    }
}

fn owner_changed(cell: &Cell) -> Option<Owner>
    ensures { result ≡ screens.owner_changed cell.now }
{
    if cell.is_changed {
        owner_of(cell.place)
    } else {
        None
    }
}

fn owners_changed(alloc: Global, cells: &[Cell]) -> Result<Vec<Owner>, AllocError>
    ensures { IfOk result (λ owners. owners.items ≡ screens.owners_changed cells.now) }
{
    cells.iter().filter_map(owner_changed).collect(alloc)
}

fn is_among(owners: &[Owner], owner: Option<Owner>) -> bool
    ensures { result ≡ screens.is_among owners.now owner }
{
    match owner {
        Some(owner) => owners.contains(&owner),
        None => false,
    }
}

// All of a picture, or what changed, with all of its registers and frames.
fn is_written(is_whole: bool, owners: &[Owner], cell: &Cell) -> bool
    ensures { result ≡ screens.is_written is_whole owners.now cell.now }
{
    is_shown(cell.place, cell.shown, cell.is_changed)
        && (is_whole || cell.is_changed || is_among(owners, owner_of(cell.place)))
}

// What stood there is gone where nothing stands.
#[derive(Clone, Copy)]
struct OrDash(Shown);

impl fmt::Display for OrDash {
    ghost output = { λ it. Some (screens.or_dash it.0) };

    fn fmt<W: fmt::Write>(&self, f: &mut fmt::Formatter<W>) -> fmt::Result {
        match self.0 {
            Shown::Nothing => f.write_str("-"),
            shown => write!(f, "{shown}"),
        }
    }
}

fn label_text(alloc: Global, place: Place) -> Result<String, AllocError>
    ensures { IfOk result (λ label. string_bytes label ≡ screens.label_text place) }
{
    let label = label_of(place);
    format!(in alloc; "{label}")
}

fn push_line(
    alloc: Global,
    screen: &mut String,
    is_whole: bool,
    owners: &[Owner],
    cell: &Cell,
) -> Result<(), AllocError>
    ensures { OnOk result
        (string_bytes screen.new ≡ string_bytes screen.old ++ screens.line_text is_whole owners.now cell.now) }
{
    if !is_written(is_whole, owners, cell) {
        return Ok(());
    }
    let mark = if cell.is_changed { "*" } else { " " };
    let label = label_text(alloc, cell.place)?;
    let shown = OrDash(cell.shown);
    write!(screen, "{mark} {label:<18} {shown}\n")
}

fn push_picture(
    alloc: Global,
    screen: &mut String,
    is_whole: bool,
    cells: &[Cell],
) -> Result<(), AllocError>
    ensures { OnOk result
        (string_bytes screen.new ≡ string_bytes screen.old ++ screens.picture_text is_whole cells.now) }
{
    let owners = owners_changed(alloc, cells)?;
    for cell in cells {
        push_line(alloc, screen, is_whole, owners.as_slice(), cell)?;
    }
    Ok(())
}

// Nothing where no other answer was recorded.
#[derive(Clone, Copy)]
struct RecordedLine(Option<Answer>);

impl fmt::Display for RecordedLine {
    ghost output = { λ line. Some (screens.recorded_text line.0) };

    fn fmt<W: fmt::Write>(&self, f: &mut fmt::Formatter<W>) -> fmt::Result {
        match self.0 {
            Some(answer) => write!(f, "  recorded: {answer}\n"),
            None => Ok(()),
        }
    }
}

fn push_head(screen: &mut String, step: &Step) -> Result<(), AllocError>
    ensures { OnOk result (string_bytes screen.new ≡ string_bytes screen.old ++ screens.head_text step.now) }
{
    let number = step.number;
    let event = step.made.event;
    let answer = step.made.answer;
    let recorded = RecordedLine(step.made.other);
    let words = step.words;
    write!(
        screen,
        "\nstep {number}: {event} -> {answer}\n{recorded}  {words}\n"
    )
}

#[derive(Drop)]
pub(crate) struct Screens {
    film: Film,
    text: String,
}

impl Screens {
    pub(crate) fn new(
        alloc: Global,
        machine: &ShapedMachine,
        image: &Image,
    ) -> Result<Screens, AllocError>
        ensures { IfOk result (λ first. screens.ScreensOpen image.now machine.now first) }
    {
        let film = Film::new(alloc, machine, image)?;
        let mut text = String::from_str(alloc, "step 0: the machine before the first event\n")?;
        push_picture(alloc, &mut text, true, film.cells())?;
        Ok(Screens { film, text })
    }

    pub(crate) fn draw(
        &mut self,
        alloc: Global,
        machine: &ShapedMachine,
        step: &Step,
        is_whole: bool,
    ) -> Result<(), AllocError>
        ensures { OnOk result (screens.ScreensGoOn is_whole machine.now step.now self.old self.new) }
    {
        self.film.advance(alloc, machine, step.made)?;
        push_head(&mut self.text, step)?;
        push_picture(alloc, &mut self.text, is_whole, self.film.cells())
    }

    pub(crate) fn finish(self) -> String
        ensures { string_bytes result ≡ string_bytes self.text }
    {
        self.text
    }
}
