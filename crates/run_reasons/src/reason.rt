//! Why flat memory can't answer a line so.

ghost use Rattle.std.specs.Prelude.{◌≡◌};
ghost use Rattle.run_reasons.specs.Reasons.{is_accepted, is_moved, is_ever, never, is_out_of_range, tag_reason};

use crate::origins::{AcceptedLoad, Stores, TagUse};
use crate::pasts::Pasts;
use flat_model::{Answer, Cause, Event, Word};

/// The first line that flat memory can't answer.
#[derive(Clone, Copy, PartialEq, Eq, Debug)]
pub struct Mismatch {
    /// Its number, from 1. Lines that only show something count.
    pub line: u64,
    /// Its event.
    pub event: Event,
    /// The answer it got.
    pub answer: Answer,
    /// Why that is never flat there.
    pub reason: Reason,
}

/// Why flat memory can't answer an event so.
#[derive(Clone, Copy, PartialEq, Eq, Debug)]
pub enum Reason {
    /// The event never gets such an answer.
    NeverAnswered,
    /// The event is never refused for this cause.
    NeverRefused,
    /// Not in memory: refused 1 is the only answer.
    Outside {
        /// The word's address.
        at: u32,
        /// Words of memory.
        words: u32,
    },
    /// Refused 1, though it is in memory.
    Inside {
        /// The word's address.
        at: u32,
        /// Words of memory.
        words: u32,
    },
    /// In use: refused 3 is the only answer.
    TagInUse {
        /// The tag.
        tag: u16,
        /// The line of its load.
        line: u64,
    },
    /// Owed nothing: no load has had it.
    NeverLoaded {
        /// The tag.
        tag: u16,
    },
    /// Owed nothing: its value was taken.
    Taken {
        /// The tag.
        tag: u16,
        /// The line with the value.
        line: u64,
    },
    /// No lane: refused 2 is the only answer.
    NoLanes,
    /// Refused 2, though the store has a lane.
    HasLanes,
    /// The load is owed another word.
    WrongWord(WrongWord),
}

/// A value that its load isn't owed.
#[derive(Clone, Copy, PartialEq, Eq, Debug)]
pub struct WrongWord {
    /// The value's tag.
    pub tag: u16,
    /// Its load.
    pub load: AcceptedLoad,
    /// The word that came.
    pub got: Word,
    /// The lines behind the load that stored these bytes, where memory still has them; else 0.
    pub later: Stores,
    /// When its bytes stood there before.
    pub past: Pasts,
    /// Whether the whole word stood there since the load was accepted. Then the run so far, as a
    /// history, is atomic.
    pub stood_since: bool,
}

pub(crate) fn is_ever(event: Event, answer: Answer) -> bool
    ensures { result ≡ is_ever event answer }
{
    match answer {
        Answer::Accepted => is_accepted(event),
        Answer::Moved => is_moved(event),
        Answer::Nothing => is_moved(event) || matches!(event, Event::Take { .. }),
        Answer::Value { .. } => matches!(event, Event::Take { .. }),
        Answer::Refused(cause) => cause.may_refuse(event),
    }
}

fn is_accepted(event: Event) -> bool
    ensures { result ≡ is_accepted event }
{
    matches!(
        event,
        Event::Load { .. } | Event::Store { .. } | Event::Prefetch { .. } | Event::Evict { .. }
    )
}

fn is_moved(event: Event) -> bool
    ensures { result ≡ is_moved event }
{
    matches!(
        event,
        Event::Drain | Event::Serve { .. } | Event::Arrive { .. } | Event::Process { .. }
    )
}

pub(crate) fn never(answer: Answer) -> Reason
    ensures { result ≡ never answer }
{
    match answer {
        Answer::Refused(_) => Reason::NeverRefused,
        _ => Reason::NeverAnswered,
    }
}

pub(crate) fn is_out_of_range(answer: Answer) -> bool
    ensures { result ≡ is_out_of_range answer }
{
    matches!(answer, Answer::Refused(Cause::OutOfRange))
}

pub(crate) fn tag_reason(tag: u16, state: TagUse) -> Reason
    ensures { result ≡ tag_reason tag state }
{
    match state {
        TagUse::Never => Reason::NeverLoaded { tag },
        TagUse::Loaded(load) => Reason::TagInUse {
            tag,
            line: load.line,
        },
        TagUse::Taken { line } => Reason::Taken { tag, line },
    }
}
