//! When a request that lacks room needn't be asked again.

ghost use Rattle.std.specs.Prelude.{◌≡◌};
ghost use Rattle.register_sweeps.specs.Lacking as room;

use flat_model::{Answer, Cause, Event};

// It is refused until a pump makes room.
#[inline(always)]
pub(crate) fn is_refused_room(event: Event, answer: Answer) -> bool
    ensures { result ≡ room.is_refused_room event answer }
{
    match answer {
        Answer::Refused(cause) => is_of_a_word(event) && is_lack(cause),
        _ => false,
    }
}

#[inline(always)]
fn is_of_a_word(event: Event) -> bool
    ensures { result ≡ room.is_of_a_word event }
{
    matches!(
        event,
        Event::Load { .. } | Event::Store { .. } | Event::Prefetch { .. }
    )
}

#[inline(always)]
fn is_lack(cause: Cause) -> bool
    ensures { result ≡ room.is_lack cause }
{
    matches!(
        cause,
        Cause::NoRegister | Cause::SetPending | Cause::QueueFull
    )
}

#[inline(always)]
pub(crate) fn may_make_room(told: Option<(Event, Answer)>) -> bool
    ensures { result ≡ room.may_make_room told }
{
    match told {
        Some((event, _)) => !leaves_room(event),
        None => false,
    }
}

#[inline(always)]
fn leaves_room(event: Event) -> bool
    ensures { result ≡ room.leaves_room event }
{
    matches!(
        event,
        Event::Serve { .. } | Event::Arrive { .. } | Event::Take { .. }
    )
}
