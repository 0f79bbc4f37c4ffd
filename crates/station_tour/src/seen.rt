//! What a job found, and its status.
ghost use Rattle.std.specs.Prelude.{◌≡◌, ◌↔◌, ◌≤◌, true};
ghost use Rattle.station_tour.specs.Statuses.{IsGood};

use crate::soak::Soaked;
use station_checks::{Findings, Outcome};

/// What was seen behind a job.
#[derive(Clone, Copy)]
pub(crate) enum Seen {
    /// The last segment's findings.
    Tour(Findings),
    Soak(Soaked),
    /// Of the servers that were measured.
    Rates {
        /// All came to rest, with clean audits.
        all_good: bool,
    },
}

impl Seen {
    /// 1 if something wrong was found, else 0.
    pub(crate) fn status(&self) -> u8
        ensures good { (result ≡ 0) ↔ IsGood self.now }
        ensures few { result ≤ 1 }
    {
        if self.is_good() { 0 } else { 1 }
    }

    // Whether nothing wrong was found.
    fn is_good(&self) -> bool
        ensures { (result ≡ true) ↔ IsGood self.now }
    {
        match self {
            Seen::Tour(found) => matches!(found.outcome(), Outcome::Good),
            Seen::Soak(soaked) => soaked.failed == 0,
            Seen::Rates { all_good } => *all_good,
        }
    }
}
