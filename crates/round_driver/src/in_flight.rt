//! The commands that a bank has begun and not served.
ghost use Rattle.std.specs.Prelude.{◌≡◌, ◌<◌, ◌-◌, [], ◌∷◌, ◌++◌, length, slice_get, drop};
ghost use Rattle.flat_model.specs.declared.limits.TheConstants.{MAX_BANK_QUEUE};

use arrayvec::ArrayVec;
use flat_model::MAX_BANK_QUEUE;
use std::marker::Model;

const MOST_IN_FLIGHT: usize = MAX_BANK_QUEUE as usize;

// When a bank began each command that it hasn't served, the oldest first.
#[derive(Drop)]
pub(crate) struct InFlight {
    begun: ArrayVec<u64, MOST_IN_FLIGHT>,
}

impl Model for InFlight {
    ghost use Rattle.std.specs.Prelude.{List, ℕ};

    ghost Value = { List ℕ };

    ghost view = { λ a. a.begun.items };
}

impl Default for InFlight {
    ghost use Rattle.std.specs.Prelude.{◌≡◌, []};

    ghost is_default = { λ v. v ≡ [] };

    fn default() -> InFlight {
        InFlight {
            begun: ArrayVec::new(),
        }
    }
}

impl InFlight {
    pub(crate) fn len(&self) -> u32
        ensures { result ≡ length self.now }
    {
        self.begun.len() as u32
    }

    /// When the next command to be served was begun.
    pub(crate) fn first(&self) -> Option<u64>
        ensures { result ≡ slice_get self.now 0 }
    {
        self.begun.first().copied()
    }

    pub(crate) fn last(&self) -> Option<u64>
        ensures { result ≡ slice_get self.now (length self.now - 1) }
    {
        self.begun.last().copied()
    }

    pub(crate) fn push(&mut self, round: u64)
        requires { length self.old < MAX_BANK_QUEUE }
        ensures { self.new ≡ self.old ++ round ∷ [] }
    {
        self.begun.push(round);
    }

    pub(crate) fn remove_first(&mut self)
        requires { 0 < length self.old }
        ensures { self.new ≡ drop 1 self.old }
    {
        self.begun.remove(0);
    }
}
