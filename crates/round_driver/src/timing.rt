//! How long a bank takes for a command.
ghost use Rattle.std.specs.Prelude.{◌≡◌};
ghost use Rattle.round_driver.specs.Timings as timings;

/// How long a bank takes for a command, in rounds.
///
/// If `busy` is less than `latency`, a bank is a pipeline: it begins commands while others are on
/// their way, and serves them in order. Otherwise it begins the next one in the round behind the
/// last one's service.
#[derive(Clone, Copy, PartialEq, Eq, Debug)]
pub struct Timing {
    /// Rounds from a command's begin to its service, at most [`MOST_LATENCY`](crate::MOST_LATENCY).
    pub latency: u64,
    /// The fewest rounds from one begin to the next, 1 or more.
    pub busy: u64,
}

impl Timing {
    /// One command at a time, so many rounds each.
    pub fn unpipelined(latency: u64) -> Timing
        ensures { result ≡ timings.unpipelined latency }
    {
        Timing {
            latency,
            busy: latency,
        }
    }

    /// Whether a bank has several commands on their way.
    pub fn is_pipelined(&self) -> bool
        ensures { result ≡ timings.is_pipelined self.now }
    {
        self.busy < self.latency
    }
}
