//! Which answers flat memory may give.

ghost use Rattle.std.specs.Prelude.{◌≡◌};
ghost use Rattle.flat_model.specs.Flat.{Flat, may_answer, load_refusals, store_refusals, prefetch_refusals, is_owed};
ghost use Rattle.flat_model.specs.Memory.{Finds, MovesOnly};

use crate::{Answer, Cause, Event, Word};

/// Whether flat memory may give this answer, by what it has there.
///
/// `inside`: the address of a load, store or prefetch has a word. `owed`: what the load's or the
/// value's tag is owed. Other events don't read them. Words kept otherwise than in a
/// [`crate::FlatMemory`] are judged so too.
pub fn may_answer(event: Event, answer: Answer, inside: bool, owed: Option<Word>) -> bool
    ensures { (s : Flat) → Finds s event answer inside owed → result ≡ may_answer s event answer }
{
    match event {
        Event::Load { .. } => match answer {
            Answer::Accepted => inside && owed.is_none(),
            Answer::Refused(cause) => load_refused(inside, owed.is_some(), cause),
            _ => false,
        },
        Event::Store { lanes, .. } => match answer {
            Answer::Accepted => inside && lanes.has_any(),
            Answer::Refused(cause) => store_refused(inside, lanes.has_any(), cause),
            _ => false,
        },
        Event::Prefetch { .. } => match answer {
            Answer::Accepted => inside,
            Answer::Refused(cause) => prefetch_refused(inside, cause),
            _ => false,
        },
        Event::Take { .. } => match answer {
            Answer::Nothing => true,
            Answer::Value { word, .. } => is_owed(owed, word),
            _ => false,
        },
        _ => may_move(event, answer),
    }
}

fn may_move(event: Event, answer: Answer) -> bool
    ensures { MovesOnly event → (s : Flat) → result ≡ may_answer s event answer }
{
    match answer {
        Answer::Accepted => matches!(event, Event::Evict { .. }),
        Answer::Moved | Answer::Nothing => !matches!(event, Event::Evict { .. }),
        Answer::Value { .. } => false,
        Answer::Refused(cause) => cause.may_refuse(event),
    }
}

fn is_owed(owed: Option<Word>, word: Word) -> bool
    ensures { result ≡ is_owed owed word }
{
    match owed {
        Some(due) => due == word,
        None => false,
    }
}

fn load_refused(inside: bool, owed: bool, cause: Cause) -> bool
    ensures { result ≡ load_refusals inside owed cause }
{
    match cause {
        Cause::OutOfRange => !inside,
        Cause::TagInUse => inside && owed,
        _ => inside && !owed && cause.is_of_a_load(),
    }
}

fn store_refused(inside: bool, any_lane: bool, cause: Cause) -> bool
    ensures { result ≡ store_refusals inside any_lane cause }
{
    match cause {
        Cause::OutOfRange => !inside,
        Cause::NoLanes => inside && !any_lane,
        _ => inside && any_lane && cause.is_of_a_miss(),
    }
}

fn prefetch_refused(inside: bool, cause: Cause) -> bool
    ensures { result ≡ prefetch_refusals inside cause }
{
    match cause {
        Cause::OutOfRange => !inside,
        _ => inside && cause.is_of_a_miss(),
    }
}
