//! One step of a run that is drawn.

ghost use Rattle.machine_core.specs.AnyMachine.{after_event};
ghost use Rattle.std.specs.Prelude.{◌≡◌};
ghost use Rattle.run_pictures.specs.Steps.{IsStep};

use crate::asked::{Asked, other_answer};
use crate::before::Before;
use crate::phrase::Phrase;
use crate::reasons::words_by;
use flat_model::{Answer, Event};
use machine_core::ShapedMachine;

/// An event that was made.
#[derive(Clone, Copy)]
pub(crate) struct Made {
    pub(crate) event: Event,
    /// The machine's answer.
    pub(crate) answer: Answer,
    /// The recorded answer, if it isn't the machine's.
    pub(crate) other: Option<Answer>,
}

/// One step of a run: an event that was made.
#[derive(Clone, Copy)]
pub(crate) struct Step {
    /// Its number, counted from 1.
    pub(crate) number: usize,
    /// The event, with its answer.
    pub(crate) made: Made,
    /// What it did, or why it didn't.
    pub(crate) words: Phrase,
}

impl Step {
    /// A machine is asked.
    #[tactic(auto, unfolding(machine_core::specs::AnyMachine::after_event, machine_core::specs::AnyMachine::answered, crate::specs::Words::step_words))]
    pub(crate) fn new(machine: &mut ShapedMachine, number: usize, asked: Asked) -> Step
        ensures state { machine.new ≡ after_event machine.old asked.event }
        ensures step { IsStep number machine.old asked result }
    {
        let before = Before::new(machine, asked.event);
        let answer = machine.apply(asked.event);
        Step {
            number,
            made: Made {
                event: asked.event,
                answer,
                other: other_answer(answer, asked.recorded),
            },
            words: words_by(machine, before, asked.event, answer),
        }
    }
}
