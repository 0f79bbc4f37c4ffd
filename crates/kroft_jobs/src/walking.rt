//! Events of a trace or of a recorded run, each made by a machine.

ghost use Rattle.std.specs.Prelude.{◌≡◌, None, IfOk, OnOk};
ghost use Rattle.machine_core.specs.AnyMachine.{after_event};
ghost use Rattle.shape_files.specs.MachineFile.{bad_machine};
ghost use Rattle.register_sweeps.specs.Sweep.{machine_over};
ghost use Rattle.round_driver.specs.Rounds as rounds;
ghost use Rattle.kroft_jobs.specs.Walking as walking;
ghost use Rattle.kroft_jobs.specs.Walking.{WalksAll, walk_of};

use flat_model::{Answer, Event, Image};
use machine_core::{Lookup, ShapedMachine};
use register_sweeps::{Sizes, new_machine};
use result_figures::Seen;
use round_driver::{Note, RoundReport};
use run_pictures::{Asked, ShowFault, other_answer, read_asked};
use std::alloc::{AllocError, Global};
use trace_text::Source;

/// What was seen of a run, event by event.
#[derive(Drop)]
pub struct WalkedRun {
    /// What was seen, with the machine's answers.
    pub seen: Seen,
    /// The first event that was recorded with another answer.
    pub other: Option<u64>,
}

#[tactic(auto, unfolding(round_driver::specs::Machines::found_at))]
fn finding(machine: &ShapedMachine, event: Event) -> Option<Lookup>
    ensures { result ≡ rounds.finding machine.now event }
{
    match event {
        Event::Load { at, .. } | Event::Store { at, .. } | Event::Prefetch { at } => {
            machine.find(at)
        }
        _ => None,
    }
}

#[tactic(auto, unfolding(machine_core::specs::AnyMachine::after_event, machine_core::specs::AnyMachine::answered))]
fn make_event(machine: &mut ShapedMachine, turn: u64, event: Event) -> Note
    ensures note { result ≡ walking.note_at turn machine.old event }
    ensures machine { machine.new ≡ after_event machine.old event }
{
    let found = finding(machine, event);
    let answer = machine.apply(event);
    Note {
        round: turn,
        event,
        answer,
        found,
        registers: 0,
    }
}

// As a round reports.
fn report_on(note: Note) -> RoundReport
    ensures { result ≡ walking.report_on note }
{
    RoundReport {
        asked: match note.event {
            Event::Load { .. }
            | Event::Store { .. }
            | Event::Prefetch { .. }
            | Event::Evict { .. } => Some(note),
            _ => None,
        },
        answered: match note.answer {
            Answer::Value { .. } => Some(note),
            _ => None,
        },
    }
}

fn first_other(other: Option<u64>, note: Note, recorded: Option<Answer>) -> Option<u64>
    ensures { result ≡ walking.first_other other note recorded }
{
    match other {
        Some(event) => Some(event),
        None if other_answer(note.answer, recorded).is_some() => Some(note.round),
        None => None,
    }
}

impl WalkedRun {
    fn walk(
        &mut self,
        machine: &mut ShapedMachine,
        turn: u64,
        asked: Asked,
    ) -> Result<(), AllocError>
        ensures machine { machine.new ≡ after_event machine.old asked.event }
        ensures walk { OnOk result
            (walk_of self.new ≡ walking.walk_behind turn machine.old asked (walk_of self.old)) }
    {
        let note = make_event(machine, turn, asked.event);
        self.other = first_other(self.other, note, asked.recorded);
        self.seen.see(machine, turn, report_on(note))
    }
}

fn walk_all(
    alloc: Global,
    machine: &mut ShapedMachine,
    all: &[Asked],
) -> Result<WalkedRun, AllocError>
    ensures { IfOk result (λ run. walk_of run ≡ walking.walked machine.old all.now) }
{
    let mut run = WalkedRun {
        seen: Seen::new(alloc),
        other: None,
    };
    for (k, asked) in all.iter().enumerate() {
        run.walk(machine, (k + 1) as u64, *asked)?;
    }
    Ok(run)
}

/// Makes the events of a trace or of a recorded run on a new machine, as
/// [`show_text`](run_pictures::show_text) does.
pub fn walk_events<I: Source>(
    alloc: Global,
    sizes: &Sizes,
    image: &Image,
    input: &mut I,
) -> Result<WalkedRun, ShowFault>
    requires sizes { bad_machine sizes.now ≡ None }
    ensures { WalksAll I.gave I.failed (machine_over image.now sizes.now) input.old input.new result }
{
    let Ok(mut machine) = new_machine(alloc, sizes, image) else {
        return Err(ShowFault::OutOfMemory);
    };
    let Some(all) = read_asked(alloc, input)? else {
        return Err(ShowFault::TooManyEvents);
    };
    Ok(walk_all(alloc, &mut machine, all.as_slice())?)
}
