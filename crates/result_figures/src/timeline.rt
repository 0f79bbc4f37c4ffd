//! The marks of requests by rounds, or by events.

ghost use Rattle.std.specs.Prelude.{◌≡◌, ◌++◌, ◌∷◌, [], map, IfOk, OnOk};
ghost use Rattle.result_figures.specs.Timelines as timelines;
ghost use Rattle.result_figures.specs.Timelines.{told};
ghost use Rattle.result_figures.specs.Turns.{sight_of};

use crate::lives::{Life, Returned, lives_of, returned_to, sent_by};
use crate::mark::{Mark, Omission, Shade, Title, Undrawn};
use crate::scale::{MOST_STEPS, push_linear};
use crate::seen::{Flight, Seen};
use crate::sweep::push_denials;
use flat_model::{Answer, Cause, Event};
use machine_core::Lookup;
use register_sweeps::Sizes;
use round_driver::Timing;
use std::alloc::{AllocError, Global};

/// The most requests that are drawn.
const MOST_DRAWN: usize = 16;

/// A machine's run.
#[derive(Clone, Copy)]
pub struct Told<'a> {
    /// The machine.
    pub sizes: Sizes,
    /// What was seen of it.
    pub seen: &'a Seen,
}

fn shade_of(found: Option<Lookup>) -> Shade
    ensures { result ≡ timelines.shade_of found }
{
    match found {
        Some(Lookup::Miss) => Shade::Miss,
        Some(Lookup::Join) => Shade::Join,
        _ => Shade::Hit,
    }
}

// The last turn of all, if something doesn't end.
fn open_end(turns: u64, turn: u64) -> u64
    ensures { result ≡ timelines.open_end turns turn }
{
    turns.max(turn.saturating_add(1))
}

// A load without a value is open; any other request takes one turn.
fn end_without_value(event: Event, turns: u64, turn: u64) -> u64
    ensures { result ≡ timelines.end_without_value event turns turn }
{
    match event {
        Event::Load { .. } => open_end(turns, turn),
        _ => turn.saturating_add(1),
    }
}

fn end_by(turns: u64, life: &Life, returned: Option<Returned>) -> u64
    ensures { result ≡ timelines.end_by turns life.now returned }
{
    match returned {
        Some(value) => value.round,
        None => end_without_value(life.event, turns, life.ended),
    }
}

fn push_flight(marks: &mut Vec<Mark>, turns: u64, flight: Option<Flight>) -> Result<(), AllocError>
    ensures { OnOk result (marks.new.items ≡ marks.old.items ++ timelines.flight_marks turns flight) }
{
    if let Some(flight) = flight {
        let from = flight.from;
        let to = flight.to.unwrap_or(open_end(turns, from));
        let shade = Shade::Flight;
        marks.push(Mark::Bar { from, to, shade })?;
    }
    Ok(())
}

fn push_value(marks: &mut Vec<Mark>, returned: Option<Returned>) -> Result<(), AllocError>
    ensures { OnOk result (marks.new.items ≡ marks.old.items ++ timelines.value_marks returned) }
{
    if let Some(value) = returned {
        marks.push(Mark::Value(value.word))?;
    }
    Ok(())
}

// A bar from acceptance to the value, and one of the block that it sent for.
fn push_accepted(
    marks: &mut Vec<Mark>,
    seen: &Seen,
    life: &Life,
    returned: Option<Returned>,
) -> Result<(), AllocError>
    ensures { OnOk result
        (marks.new.items ≡ marks.old.items ++ timelines.accepted (sight_of seen.now) life.now returned) }
{
    let from = life.ended;
    marks.push(Mark::Bar {
        from,
        to: end_by(seen.turns, life, returned),
        shade: shade_of(life.found),
    })?;
    push_flight(marks, seen.turns, sent_by(life, seen.flights.as_slice()))?;
    push_value(marks, returned)
}

fn denial_of(answer: Answer) -> Option<Cause>
    ensures { result ≡ timelines.denial_of answer }
{
    match answer {
        Answer::Refused(cause) => Some(cause),
        _ => None,
    }
}

fn push_life(marks: &mut Vec<Mark>, life: &Life, seen: &Seen) -> Result<(), AllocError>
    ensures { OnOk result
        (marks.new.items ≡ marks.old.items ++ timelines.life_marks (sight_of seen.now) life.now) }
{
    marks.push(Mark::Request(life.event))?;
    marks.push(Mark::Bar {
        from: life.asked,
        to: life.ended,
        shade: Shade::Asked,
    })?;
    match denial_of(life.answer) {
        Some(cause) => {
            marks.push(Mark::Denied(cause))?;
            Ok(())
        }
        None => push_accepted(marks, seen, life, returned_to(life, seen.notes.as_slice())),
    }
}

fn push_lives(marks: &mut Vec<Mark>, lives: &[Life], seen: &Seen) -> Result<(), AllocError>
    ensures { OnOk result
        (marks.new.items ≡ marks.old.items ++ timelines.lives_marks (sight_of seen.now) lives.now) }
{
    for life in lives {
        push_life(marks, life, seen)?;
    }
    Ok(())
}

fn is_denied(answer: Answer) -> bool
    ensures { result ≡ timelines.is_denied answer }
{
    match answer {
        Answer::Refused(cause) => cause.ends_request(),
        _ => false,
    }
}

// How many were denied.
fn denied_among(lives: &[Life]) -> usize
    ensures { result ≡ timelines.denied_among lives.now }
{
    lives.iter().filter(|life| is_denied(life.answer)).count()
}

// What isn't drawn of so many requests.
fn push_undrawn(marks: &mut Vec<Mark>, requests: usize) -> Result<(), AllocError>
    ensures { OnOk result (marks.new.items ≡ marks.old.items ++ timelines.undrawn requests) }
{
    if requests > MOST_DRAWN {
        let drawn = MOST_DRAWN;
        marks.push(Mark::Omitted(Omission::Undrawn(Undrawn { drawn, requests })))?;
    }
    Ok(())
}

fn drawn_among(lives: &[Life]) -> &[Life]
    ensures { result.now ≡ timelines.drawn_among lives.now }
{
    &lives[..lives.len().min(MOST_DRAWN)]
}

fn push_told(alloc: Global, marks: &mut Vec<Mark>, run: Told<'_>) -> Result<(), AllocError>
    ensures { OnOk result (marks.new.items ≡ marks.old.items ++ timelines.told_marks (told run.entry)) }
{
    let all = lives_of(alloc, run.seen.notes.as_slice())?;
    let lives = all.as_slice();
    marks.push(Mark::Machine(run.sizes))?;
    push_denials(marks, denied_among(lives) as u64, lives.len() as u128)?;
    push_undrawn(marks, lives.len())?;
    push_lives(marks, drawn_among(lives), run.seen)
}

fn rows_of(alloc: Global, runs: &[Told<'_>]) -> Result<Vec<Mark>, AllocError>
    ensures { IfOk result (λ rows. rows.items ≡ timelines.all_marks (map told runs.now)) }
{
    let mut rows = Vec::new(alloc);
    for run in runs {
        push_told(alloc, &mut rows, *run)?;
    }
    Ok(rows)
}

fn end_of(mark: &Mark) -> u64
    ensures { result ≡ timelines.end_of mark.now }
{
    match *mark {
        Mark::Bar { to, .. } => to,
        _ => 0,
    }
}

fn last_end(marks: &[Mark]) -> u64
    ensures { result ≡ timelines.last_end 0 marks.now }
{
    let mut last = 0;
    for mark in marks {
        last = end_of(mark).max(last);
    }
    last
}

fn heading(
    alloc: Global,
    timing: Option<Timing>,
    omitted: Option<Omission>,
) -> Result<Vec<Mark>, AllocError>
    ensures { IfOk result (λ marks. marks.items ≡ timelines.heading timing omitted) }
{
    let mut marks = Vec::new(alloc);
    match timing {
        Some(timing) => {
            marks.push(Mark::Title(Title::Rounds))?;
            marks.push(Mark::Times(timing))?;
        }
        None => marks.push(Mark::Title(Title::Events))?,
    }
    if let Some(omission) = omitted {
        marks.push(Mark::Omitted(omission))?;
    }
    Ok(marks)
}

/// The figure of requests by rounds, of one machine or of several, the first one above. A bar goes
/// from the round that first asked a request to the one that ended it, and of an accepted load
/// another one from there to its value. A thin one goes from a miss to its block's fill. Without
/// times of memory turns are events of a trace. 16 requests of each machine are drawn.
pub fn timeline_marks(
    alloc: Global,
    timing: Option<Timing>,
    omitted: Option<Omission>,
    runs: &[Told<'_>],
) -> Result<Vec<Mark>, AllocError>
    ensures { IfOk result
        (λ marks. marks.items ≡ timelines.timeline_marks timing omitted (map told runs.now)) }
{
    let rows = rows_of(alloc, runs)?;
    let mut marks = heading(alloc, timing, omitted)?;
    push_linear(&mut marks, last_end(rows.as_slice()), MOST_STEPS)?;
    marks.extend_from_slice(rows.as_slice())?;
    Ok(marks)
}
