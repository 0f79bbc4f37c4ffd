//! The value of a signal, as a value change dump has it.

ghost use Rattle.std.specs.Prelude.{◌≡◌, Some};
ghost use Rattle.run_pictures.specs.Waves as waves;

use crate::step::Made;
use flat_model::{Answer, Event};
use std::fmt;

/// What an event or an answer is, without its numbers.
#[derive(Clone, Copy, PartialEq, Eq, Debug)]
pub enum Kind {
    Start,
    Load,
    Store,
    Prefetch,
    Evict,
    Drain,
    Serve,
    Arrive,
    Process,
    Take,
    Unanswered,
    Accepted,
    Moved,
    Value,
    Nothing,
    Refused,
}

impl fmt::Display for Kind {
    ghost output = { λ kind. Some (waves.kind_text kind) };

    fn fmt<W: fmt::Write>(&self, f: &mut fmt::Formatter<W>) -> fmt::Result {
        f.write_str(self.word())
    }
}

impl Kind {
    fn word(self) -> &'static str
        ensures { result.now ≡ waves.kind_text self }
    {
        match self {
            Kind::Start => "start",
            Kind::Load => "load",
            Kind::Store => "store",
            Kind::Prefetch => "prefetch",
            Kind::Evict => "evict",
            Kind::Drain => "drain",
            Kind::Serve => "serve",
            Kind::Arrive => "arrive",
            Kind::Process => "process",
            Kind::Take => "take",
            Kind::Unanswered => "none",
            Kind::Accepted => "accepted",
            Kind::Moved => "moved",
            Kind::Value => "value",
            Kind::Nothing => "nothing",
            Kind::Refused => "refused",
        }
    }

    /// Of the event, or before the first one.
    pub(crate) fn of_event(made: Option<Made>) -> Kind
        ensures { result ≡ waves.event_kind made }
    {
        let Some(made) = made else {
            return Kind::Start;
        };
        match made.event {
            Event::Load { .. } => Kind::Load,
            Event::Store { .. } => Kind::Store,
            Event::Prefetch { .. } => Kind::Prefetch,
            Event::Evict { .. } => Kind::Evict,
            Event::Drain => Kind::Drain,
            Event::Serve { .. } => Kind::Serve,
            Event::Arrive { .. } => Kind::Arrive,
            Event::Process { .. } => Kind::Process,
            Event::Take { .. } => Kind::Take,
        }
    }

    /// Of its answer, or before the first one.
    pub(crate) fn of_answer(made: Option<Made>) -> Kind
        ensures { result ≡ waves.answer_kind made }
    {
        let Some(made) = made else {
            return Kind::Unanswered;
        };
        match made.answer {
            Answer::Accepted => Kind::Accepted,
            Answer::Moved => Kind::Moved,
            Answer::Value { .. } => Kind::Value,
            Answer::Nothing => Kind::Nothing,
            Answer::Refused(_) => Kind::Refused,
        }
    }
}

/// Written in front of the signal.
#[derive(Clone, Copy, PartialEq, Eq, Debug)]
pub enum Level {
    Bit(bool),
    Number(u32),
    Kind(Kind),
    Unset,
}

impl fmt::Display for Level {
    ghost output = { λ level. Some (waves.level_text level) };

    fn fmt<W: fmt::Write>(&self, f: &mut fmt::Formatter<W>) -> fmt::Result {
        match *self {
            Level::Bit(true) => f.write_str("1"),
            Level::Bit(false) => f.write_str("0"),
            Level::Number(n) => write!(f, "b{n:b} "),
            Level::Kind(kind) => write!(f, "s{kind} "),
            Level::Unset => f.write_str("bx "),
        }
    }
}

impl Level {
    pub(crate) fn known(number: Option<u32>) -> Level
        ensures { result ≡ waves.known number }
    {
        match number {
            Some(n) => Level::Number(n),
            None => Level::Unset,
        }
    }
}
