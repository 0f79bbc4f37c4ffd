//! Commands on their way through the banks, and the next bank's turn.
ghost use Rattle.std.specs.Prelude.{◌≡◌, ◌<◌, length, IsTrue};
ghost use Rattle.flat_model.specs.declared.limits.TheConstants.{MAX_BANKS, MAX_BANK_QUEUE};
ghost use Rattle.round_driver.specs.Rounds as rounds;

use crate::in_flight::InFlight;
use crate::timing::Timing;
use flat_model::MAX_BANKS;

pub(crate) const MOST_BANKS: usize = MAX_BANKS as usize;

// Where a run stands in time.
#[derive(Drop)]
pub(crate) struct Schedule {
    // How long a bank takes for a command.
    pub(crate) timing: Timing,
    // The round under way, counted from 1.
    pub(crate) round: u64,
    // When each bank began its open commands.
    pub(crate) begun: [InFlight; MOST_BANKS],
    // The bank behind the one whose answer arrived last.
    pub(crate) next: u32,
}

impl Schedule {
    // Before the first round.
    pub(crate) fn new(timing: Timing) -> Schedule
        ensures { result ≡ rounds.opening timing }
    {
        Schedule {
            timing,
            round: 0,
            begun: Default::default(),
            next: 0,
        }
    }

    pub(crate) fn in_flight(&self, bank: u32) -> u32
        requires { bank < MAX_BANKS }
        ensures { result ≡ length (rounds.begun_at self.now bank) }
    {
        self.begun[bank as usize].len()
    }

    pub(crate) fn is_free(&self, bank: u32) -> bool
        requires { bank < MAX_BANKS }
        ensures { result ≡ rounds.is_free self.now bank }
    {
        match self.begun[bank as usize].last() {
            Some(last) => {
                self.timing.is_pipelined() && self.round.saturating_sub(last) >= self.timing.busy
            }
            None => true,
        }
    }

    pub(crate) fn begin(&mut self, bank: u32)
        requires bank { bank < MAX_BANKS }
        requires room { length (rounds.begun_at self.old bank) < MAX_BANK_QUEUE }
        ensures { self.new ≡ rounds.with_begin self.old bank }
    {
        self.begun[bank as usize].push(self.round);
    }

    pub(crate) fn is_due(&self, bank: u32) -> bool
        requires { bank < MAX_BANKS }
        ensures { result ≡ rounds.is_due self.now bank }
    {
        match self.begun[bank as usize].first() {
            Some(begun) => self.round.saturating_sub(begun) >= self.timing.latency,
            None => false,
        }
    }

    /// A bank has served its first command.
    pub(crate) fn end(&mut self, bank: u32)
        requires bank { bank < MAX_BANKS }
        requires due { IsTrue (rounds.is_due self.old bank) }
        ensures { self.new ≡ rounds.without_first self.old bank }
    {
        self.begun[bank as usize].remove_first();
    }
}
