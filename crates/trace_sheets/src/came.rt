ghost use Rattle.std.specs.Prelude.{◌≡◌};
ghost use Rattle.trace_text.specs.Texts.{after_line, bank_text, settled_text};
ghost use Rattle.trace_sheets.specs.Sheets.{accepted_text as text_of_accepted};
ghost use Rattle.trace_sheets.specs.Forms as forms;
ghost use Rattle.trace_sheets.specs.Grades as grades;

use crate::score::{Mark, Marking};
use crate::sheet::is_open;
use flat_model::{Answer, Event, Word};
use machine_core::{Lookup, ShapedMachine};
use run_pictures::Before;
use trace_text::{Line, LineText, answer_text, register_text};

// What comes of a line. It isn't exported, but `pub`, since definitions name it.
#[derive(Drop)]
pub enum Came {
    // The answer, and what was seen of the machine before it: words are made only for a wrong
    // prediction.
    Answered {
        event: Event,
        answer: Answer,
        before: Before,
    },
    // What the machine shows.
    Shown(LineText),
}

impl Came {
    // Lets a machine answer a line.
    #[tactic(auto, unfolding(trace_text::specs::Texts::reply_text, trace_text::specs::Texts::after_line, machine_core::specs::AnyMachine::answered, machine_core::specs::AnyMachine::after_event, machine_core::specs::AnyMachine::bank_shown, machine_core::specs::AnyMachine::is_settled))]
    pub(crate) fn new(machine: &mut ShapedMachine, line: Line) -> Came
        ensures came { result ≡ grades.came_of machine.old line }
        ensures after { machine.new ≡ after_line machine.old line }
    {
        match line {
            Line::Event(event) => {
                let before = Before::new(machine, event);
                let answer = machine.apply(event);
                Came::Answered {
                    event,
                    answer,
                    before,
                }
            }
            Line::Register(slot) => Came::Shown(register_text(machine, slot)),
            Line::Bank(at) => Came::Shown(bank_said(machine.bank_word(at))),
            Line::Settled => Came::Shown(settled_said(machine.settled())),
        }
    }

    // What a prediction of it is.
    pub(crate) fn mark(&self, marking: Marking, said: &[u8]) -> Mark
        ensures { result ≡ grades.mark_of marking self.now said.now }
    {
        if is_open(said) {
            Mark::Open
        } else if self.is_right(marking, said) {
            Mark::Right
        } else {
            Mark::Wrong
        }
    }

    // Whether it is what is predicted.
    fn is_right(&self, marking: Marking, said: &[u8]) -> bool
        ensures { result ≡ grades.is_right self.now marking said.now }
    {
        match (self, marking) {
            (Came::Answered { answer, before, .. }, Marking::Lenient) => {
                said == answer_text(*answer).as_bytes()
                    || said == full_answer(*answer, before.found).as_bytes()
            }
            (Came::Answered { answer, before, .. }, Marking::Strict) => {
                said == full_answer(*answer, before.found).as_bytes()
            }
            (Came::Shown(text), _) => said == text.as_bytes(),
        }
    }
}

// An answer, with an accepted request's finding.
pub(crate) fn full_answer(answer: Answer, found: Option<Lookup>) -> LineText
    ensures { result ≡ forms.full_answer answer found }
{
    match (answer, found) {
        (Answer::Accepted, Some(lookup)) => accepted_text(lookup),
        _ => answer_text(answer),
    }
}

fn accepted_text(lookup: Lookup) -> LineText
    ensures { result ≡ text_of_accepted lookup }
{
    let mut text = LineText::new();
    match lookup {
        Lookup::Hit => text.push_bytes(b"accepted hit"),
        Lookup::Join => text.push_bytes(b"accepted join"),
        Lookup::Miss => text.push_bytes(b"accepted miss"),
    }
    text
}

// A word as it stands in its bank.
#[tactic(auto, unfolding(trace_text::specs::Texts::bank_text))]
fn bank_said(word: Option<Word>) -> LineText
    ensures { result ≡ bank_text word }
{
    let mut text = LineText::new();
    match word {
        None => text.push_bytes(b"none"),
        Some(word) => text.push_word(word),
    }
    text
}

// Whether a machine is settled.
#[tactic(auto, unfolding(trace_text::specs::Texts::settled_text))]
fn settled_said(is_settled: bool) -> LineText
    ensures { result ≡ settled_text is_settled }
{
    let mut text = LineText::new();
    if is_settled {
        text.push_bytes(b"yes");
    } else {
        text.push_bytes(b"no");
    }
    text
}
