//! How long loads waited.
ghost use Rattle.std.specs.Prelude.{◌≡◌, ◌<◌, ◌≤◌, ◌+◌, ◌^◌, IfOk};
ghost use Rattle.round_driver.specs.Details as details;
ghost use Rattle.round_driver.specs.Details.{waits_total};
ghost use Rattle.round_driver.specs.Texts as texts;

use crate::tally::Tally;
use crate::texts::mean_of;
use std::alloc::{AllocError, Global};

/// One for each number of binary digits of 64 bits.
pub const WAIT_BUCKETS: usize = 65;

/// The bucket of a wait: its number of binary digits. So bucket 3 has the waits of 4 to 7 rounds.
pub fn wait_bucket(wait: u64) -> usize
    ensures bucket { result ≡ details.bucket_of wait }
    ensures within { result < WAIT_BUCKETS }
{
    (u64::BITS - wait.leading_zeros()) as usize
}

/// How long answered loads waited, in rounds.
#[derive(Drop)]
pub struct Waits {
    /// These loads.
    pub loads: u64,
    /// Their rounds in all.
    pub rounds: u128,
    /// The most of these for one load.
    pub longest: u64,
    /// Loads by [`wait_bucket`].
    pub buckets: Tally,
}

impl Waits {
    pub(crate) fn new(alloc: Global) -> Result<Waits, AllocError>
        ensures { IfOk result (λ waits. waits ≡ details.no_waits) }
    {
        Ok(Waits {
            loads: 0,
            rounds: 0,
            longest: 0,
            buckets: Tally::new(alloc, WAIT_BUCKETS)?,
        })
    }

    pub(crate) fn count(&mut self, wait: u64)
        requires room { waits_total self.old < 2 ^ 62 }
        requires rounds { self.old.rounds < 2 ^ 127 }
        ensures value { self.new ≡ details.with_wait self.old wait }
        ensures total { waits_total self.new ≤ waits_total self.old + 2 }
        ensures rounds { self.new.rounds ≤ self.old.rounds + 2 ^ 64 }
    {
        self.loads += 1;
        self.rounds += u128::from(wait);
        self.longest = self.longest.max(wait);
        self.buckets.count(wait_bucket(wait));
    }

    /// Whole rounds, and hundredths rounded down; zeros without a load.
    pub fn mean(&self) -> (u128, u128)
        ensures { result ≡ texts.mean_of self.now.rounds self.now.loads }
    {
        mean_of(self.rounds, self.loads)
    }
}
