//! What a step's words say of the machine before its event.

ghost use Rattle.std.specs.Prelude.{◌≡◌};
ghost use Rattle.run_pictures.specs.Words as words;

use flat_model::Event;
use machine_core::{BankAnswer, Entry, Lookup, Queued, ShapedMachine};

/// What [`words_by`](crate::words_by) can't see behind an event.
#[derive(Clone, Copy)]
pub struct Before {
    /// What a load, store or prefetch finds of its word.
    pub found: Option<Lookup>,
    /// The write queue's front.
    pub front: Option<Queued>,
    /// The bank's answer that is to arrive.
    pub answer: Option<BankAnswer>,
    /// The stack's word that is to be processed.
    pub entry: Option<Entry>,
}

impl Before {
    /// Sees a machine that is to be asked an event. Allocates nothing.
    #[tactic(auto, unfolding(crate::specs::Words::seen))]
    pub fn new(machine: &ShapedMachine, event: Event) -> Before
        ensures { result ≡ words.seen machine.now event }
    {
        Before {
            found: found_by(machine, event),
            front: machine.queue_entry(0),
            answer: answer_for(machine, event),
            entry: entry_for(machine, event),
        }
    }
}

#[tactic(auto, unfolding(crate::specs::Words::found_at))]
fn found_by(machine: &ShapedMachine, event: Event) -> Option<Lookup>
    ensures { result ≡ words.found_by machine.now event }
{
    match event {
        Event::Load { at, .. } | Event::Store { at, .. } | Event::Prefetch { at } => {
            machine.find(at)
        }
        _ => None,
    }
}

fn answer_for(machine: &ShapedMachine, event: Event) -> Option<BankAnswer>
    ensures { result ≡ words.answer_for machine.now event }
{
    match event {
        Event::Arrive { bank, place } => machine.answer_at(bank, place),
        _ => None,
    }
}

fn entry_for(machine: &ShapedMachine, event: Event) -> Option<Entry>
    ensures { result ≡ words.entry_for machine.now event }
{
    match event {
        Event::Process { place } => machine.stack_entry(place),
        _ => None,
    }
}
