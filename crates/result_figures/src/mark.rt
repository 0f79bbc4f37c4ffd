//! What a figure draws, in the units of its axes.

ghost use Rattle.std.specs.Prelude.{Some};
ghost use Rattle.result_figures.specs.Marks.{denials_text, undrawn_text, omission_text};

use flat_model::{Cause, Event, Word};
use register_sweeps::Sizes;
use round_driver::Timing;
use std::fmt;

/// Which figure it is.
#[derive(Clone, Copy)]
pub enum Title {
    /// Rounds by the number of registers.
    Registers,
    /// Lost rounds by their cause.
    Losses,
    /// Requests by rounds.
    Rounds,
    /// Requests by the events of a trace.
    Events,
}

/// How an axis of rounds is divided.
#[derive(Clone, Copy)]
pub enum Scale {
    /// Equal distances are equal numbers of rounds.
    Linear,
    /// Equal distances are equal factors.
    Logarithmic,
}

/// What a bar stands for.
#[derive(Clone, Copy)]
pub enum Shade {
    /// Rounds that were lost.
    Lost,
    /// A request that is asked again.
    Asked,
    /// Its word was at hand.
    Hit,
    /// Its word was on its way.
    Join,
    /// Its block was asked for.
    Miss,
    /// The block that it asked for is on its way.
    Flight,
}

/// What is counted beside lost rounds.
#[derive(Clone, Copy)]
pub enum Counted {
    /// All rounds.
    Rounds,
    /// Requests that were accepted.
    Accepted,
    /// Accepted: the word was at hand.
    Hits,
    /// Accepted: the word was on its way.
    Joins,
    /// Accepted: the block was asked for.
    Misses,
}

/// Requests that no machine serves.
#[derive(Clone, Copy)]
pub struct Denials {
    /// How many.
    pub denied: u64,
    /// Of so many.
    pub requests: u128,
}

impl fmt::Display for Denials {
    ghost output = { λ it. Some (denials_text it.denied it.requests) };

    #[tactic(auto, unfolding(crate::specs::Marks::denials_text))]
    fn fmt<W: fmt::Write>(&self, f: &mut fmt::Formatter<W>) -> fmt::Result {
        write!(
            f,
            "{} of {} requests denied: outside of memory, or nothing to store or evict",
            self.denied, self.requests
        )
    }
}

/// Requests behind the last one that is drawn.
#[derive(Clone, Copy)]
pub struct Undrawn {
    /// How many are drawn.
    pub drawn: usize,
    /// Of so many.
    pub requests: usize,
}

impl fmt::Display for Undrawn {
    ghost output = { λ it. Some (undrawn_text it.drawn it.requests) };

    #[tactic(auto, unfolding(crate::specs::Marks::undrawn_text))]
    fn fmt<W: fmt::Write>(&self, f: &mut fmt::Formatter<W>) -> fmt::Result {
        write!(
            f,
            "the first {} of {} requests are drawn",
            self.drawn, self.requests
        )
    }
}

/// What a figure leaves out.
#[derive(Clone, Copy)]
pub enum Omission {
    /// Requests that were denied.
    Denied(Denials),
    /// Requests that aren't drawn.
    Undrawn(Undrawn),
    /// Recorded answers, of which the first that isn't the machine's is this event's.
    Recorded(u64),
}

impl fmt::Display for Omission {
    ghost output = { λ it. Some (omission_text it) };

    #[tactic(auto, unfolding(crate::specs::Marks::recorded_text))]
    fn fmt<W: fmt::Write>(&self, f: &mut fmt::Formatter<W>) -> fmt::Result {
        match *self {
            Omission::Denied(it) => write!(f, "{it}"),
            Omission::Undrawn(it) => write!(f, "{it}"),
            Omission::Recorded(event) => write!(
                f,
                "event {event} has another recorded answer: the machine's are drawn"
            ),
        }
    }
}

/// A mark of a figure. Rows, columns and lines are counted by their order.
#[derive(Clone, Copy)]
pub enum Mark {
    /// The title.
    Title(Title),
    /// A machine; of a timeline, the rows behind it are this machine's.
    Machine(Sizes),
    /// Times of memory.
    Times(Timing),
    /// What is left out.
    Omitted(Omission),
    /// How the axis of rounds is divided.
    Axis(Scale),
    /// A number of the axis; it ends with the last one.
    Tick(u128),
    /// A column: a number of registers.
    Column(u32),
    /// A line's point in the next column, at so many rounds.
    Point(u64),
    /// The end of a line: its latency.
    Line(u64),
    /// A row: a cause of lost rounds.
    Cause(Cause),
    /// A row: a request.
    Request(Event),
    /// A bar of the row.
    Bar {
        /// The number of the axis at which it begins.
        from: u64,
        /// Where it ends.
        to: u64,
        /// What it stands for.
        shade: Shade,
    },
    /// What a load of the row returned.
    Value(Word),
    /// Why the row's request was denied.
    Denied(Cause),
    /// A count.
    Count(Counted, u64),
}
