//! Why a step isn't flat memory's.
ghost use Rattle.std.specs.Prelude.{◌≡◌, ◌≢◌, ℕ, true, Some};
ghost use Rattle.flat_model.specs.Flat.{Flat};
ghost use Rattle.flat_model.specs.Memory.{Finds};
ghost use Rattle.flat_model.specs.declared.Event.TheVariants.{Take};
ghost use Rattle.flat_judge.specs.Reasons.{against as against_answer, number_of};

use crate::judge::Found;
use flat_model::{Answer, Event, Word};

/// Why a step isn't accepted. For the first three only that refusal is flat.
#[derive(Clone, Copy)]
pub enum Reason {
    /// Memory has no such word.
    OutOfRange,
    /// The store names no lane.
    NoLanes,
    /// The load's tag is owed a word.
    TagInUse,
    /// The tag is owed nothing.
    NothingOwed,
    /// The tag is owed this word.
    WrongWord(Word),
    /// The event never gets this answer.
    OtherAnswer,
    /// The event's row says nothing.
    NoEvent,
    /// The answer's row says nothing.
    NoAnswer,
}

pub(crate) fn against(event: Event, answer: Answer, found: Found) -> Reason
    ensures { (s : Flat)
        → Finds s event answer found.inside found.owed
        → result ≡ against_answer s event answer }
{
    let Found { inside, owed } = found;
    match event {
        Event::Load { .. } | Event::Store { .. } | Event::Prefetch { .. } if !inside => {
            Reason::OutOfRange
        }
        Event::Load { .. } if owed.is_some() => Reason::TagInUse,
        Event::Store { lanes, .. } if !lanes.has_any() => Reason::NoLanes,
        Event::Take { .. } => against_taken(answer, owed),
        _ => Reason::OtherAnswer,
    }
}

fn against_taken(answer: Answer, owed: Option<Word>) -> Reason
    ensures { (s : Flat)
        → (place : ℕ)
        → Finds s (Take place) answer true owed
        → result ≡ against_answer s (Take place) answer }
{
    match (answer, owed) {
        (Answer::Value { .. }, Some(word)) => Reason::WrongWord(word),
        (Answer::Value { .. }, None) => Reason::NothingOwed,
        _ => Reason::OtherAnswer,
    }
}

// The number for C.
pub(crate) fn number(reason: Reason) -> u32
    ensures number { result ≡ number_of (Some reason) }
    ensures some { result ≢ 0 }
{
    match reason {
        Reason::OutOfRange => 141,
        Reason::NoLanes => 142,
        Reason::TagInUse => 143,
        Reason::NothingOwed => 144,
        Reason::WrongWord(_) => 145,
        Reason::OtherAnswer => 146,
        Reason::NoEvent => 147,
        Reason::NoAnswer => 148,
    }
}
