//! How often each number came.
ghost use Rattle.std.specs.Prelude.{◌≡◌, ◌<◌, ◌≤◌, ◌+◌, ◌^◌, replicate, IfOk};
ghost use Rattle.std.specs.List.{sum};
ghost use Rattle.round_driver.specs.Details.{with_one_at};

use std::alloc::{AllocError, Global};
use std::marker::Model;

/// How often each number came, from 0 up.
#[derive(Drop)]
pub struct Tally {
    counts: Vec<u64>,
}

impl Model for Tally {
    ghost use Rattle.std.specs.Prelude.{List, ℕ};

    ghost Value = { List ℕ };

    ghost view = { λ t. t.counts.items };
}

impl Tally {
    pub(crate) fn new(alloc: Global, places: usize) -> Result<Tally, AllocError>
        ensures { IfOk result (λ tally. tally ≡ replicate places 0) }
    {
        let counts = vec![in alloc; 0u64; places]?;
        Ok(Tally { counts })
    }

    // Counts a number, if it has a place.
    #[tactic(auto, unfolding(crate::specs::Details::with_one_at))]
    pub(crate) fn count(&mut self, number: usize)
        requires { sum self.old < 2 ^ 63 }
        ensures value { self.new ≡ with_one_at self.old number }
        ensures sum { sum self.new ≤ sum self.old + 1 }
    {
        if number < self.counts.len() {
            self.counts[number] += 1;
        }
    }

    /// At place `n`: how often `n` came.
    pub fn as_slice(&self) -> &[u64]
        ensures { result.now ≡ self.now }
    {
        self.counts.as_slice()
    }
}
