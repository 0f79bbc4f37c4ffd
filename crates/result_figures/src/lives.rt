//! Requests of a run, from its notes.

ghost use Rattle.std.specs.Prelude.{◌≡◌, ◌++◌, [], IfOk, OnOk};
ghost use Rattle.round_driver.specs.Rounds as rounds;
ghost use Rattle.round_driver.specs.Walks as walks;
ghost use Rattle.result_figures.specs.Lives as lives;

use crate::seen::Flight;
use flat_model::{Answer, Event, Word};
use machine_core::Lookup;
use round_driver::Note;
use std::alloc::{AllocError, Global};

/// A request, and how it ended.
#[derive(Clone, Copy)]
pub(crate) struct Life {
    pub(crate) event: Event,
    // The turn that first asked it, and the one that asked it last.
    pub(crate) asked: u64,
    pub(crate) ended: u64,
    pub(crate) answer: Answer,
    pub(crate) found: Option<Lookup>,
}

/// What a load returned, and when.
#[derive(Clone, Copy)]
pub(crate) struct Returned {
    pub(crate) round: u64,
    pub(crate) word: Word,
}

fn is_request(event: Event) -> bool
    ensures { result ≡ walks.is_request event }
{
    match event {
        Event::Load { .. } | Event::Store { .. } | Event::Prefetch { .. } | Event::Evict { .. } => {
            true
        }
        _ => false,
    }
}

fn is_end(answer: Answer) -> bool
    ensures { result ≡ rounds.is_end answer }
{
    match answer {
        Answer::Accepted => true,
        Answer::Refused(cause) => cause.ends_request(),
        _ => false,
    }
}

fn is_same(event: Event, other: Event) -> bool
    ensures { result ≡ lives.is_same event other }
{
    event == other
}

// The turn that first asked a request.
fn since_of(refused: Option<Life>, note: &Note) -> u64
    ensures { result ≡ lives.since_of refused note.now }
{
    match refused {
        Some(life) if is_same(life.event, note.event) => life.asked,
        _ => note.round,
    }
}

fn push_given_up(all: &mut Vec<Life>, refused: Option<Life>, note: &Note) -> Result<(), AllocError>
    ensures { OnOk result (all.new.items ≡ all.old.items ++ lives.given_up refused note.now) }
{
    if let Some(life) = refused {
        if !is_same(life.event, note.event) {
            all.push(life)?;
        }
    }
    Ok(())
}

/// The requests of these notes, in order.
pub(crate) fn lives_of(alloc: Global, notes: &[Note]) -> Result<Vec<Life>, AllocError>
    ensures { IfOk result (λ all. all.items ≡ lives.lives_of notes.now) }
{
    let mut all = Vec::new(alloc);
    let mut refused = None;
    for note in notes {
        if is_request(note.event) {
            push_given_up(&mut all, refused, note)?;
            let life = life_of(since_of(refused, note), note);
            if is_end(note.answer) {
                all.push(life)?;
                refused = None;
            } else {
                refused = Some(life);
            }
        }
    }
    if let Some(life) = refused {
        all.push(life)?;
    }
    Ok(all)
}

fn life_of(asked: u64, note: &Note) -> Life
    ensures { result ≡ lives.life_of asked note.now }
{
    Life {
        event: note.event,
        asked,
        ended: note.round,
        answer: note.answer,
        found: note.found,
    }
}

// Whether the note is a load's value.
fn is_value_of(life: &Life, note: &Note) -> bool
    ensures { result ≡ lives.is_value_of life.now note.now }
{
    match (life.event, note.answer) {
        (Event::Load { tag, .. }, Answer::Value { tag: other, .. }) => {
            tag == other && life.ended < note.round
        }
        _ => false,
    }
}

fn returned_by(note: Note) -> Option<Returned>
    ensures { result ≡ lives.returned_by note }
{
    match note.answer {
        Answer::Value { word, .. } => Some(Returned {
            round: note.round,
            word,
        }),
        _ => None,
    }
}

/// The first value of a load's tag behind its acceptance.
pub(crate) fn returned_to(life: &Life, notes: &[Note]) -> Option<Returned>
    ensures { result ≡ lives.returned_to life.now notes.now }
{
    for note in notes {
        if is_value_of(life, note) {
            return returned_by(*note);
        }
    }
    None
}

/// The block that a request sent for.
pub(crate) fn sent_by(life: &Life, flights: &[Flight]) -> Option<Flight>
    ensures { result ≡ lives.sent_by life.now flights.now }
{
    flights
        .iter()
        .copied()
        .find(|flight| flight.from == life.ended)
}
