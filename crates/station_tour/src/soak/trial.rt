//! The numbers and the scripts of a station of a soak, drawn at random.
ghost use Rattle.std.specs.Prelude.{◌≡◌, ◌↔◌, ◌≤◌, ◌%◌, ◌==◌, IfOk, IfSome, max, min, true, vec_len};
ghost use Rattle.std.specs.List.{All};
ghost use Rattle.rand_pcg.specs.Lcg.{started, increment_of};
ghost use Rattle.rand_pcg.specs.Pcg.{multiplier_64, pcg32};
ghost use Rattle.station_journal.specs.Conversation.{is_request};
ghost use Rattle.station_checks.specs.Scripts.{AreRequests};
ghost use Rattle.station_parts.specs.declared.make.TheConstants.{MAX_ENTRIES};
ghost use Rattle.station_tour.specs.Trials.{IsInRange, number_between};

use flat_model::{Lanes, MAX_BANK_QUEUE, MAX_BANKS, MAX_REPLIES, MAX_SETS, Shape};
use rand_core::utils::NextWord;
use rand_pcg::Pcg32;
use ring_station::{Ask, Crew};
use station_checks::bytes_of;
use station_parts::{MAX_ENTRIES, MAX_PORTS};
use std::alloc::{AllocError, Global};

// The most blocks of memory that a trial has mostly, and in a few trials.
const FEW_BLOCKS: u32 = 64;

const MANY_BLOCKS: u32 = 65_536;

// The most asks of a port.
const ASKS: u32 = 40;

// Turns that are enough, also for one whose neighbours are without a processor for seconds.
const MANY_TURNS: u64 = 1_000_000_000;

// The most entries of a journal that is to become full, and the turns of such a trial.
const SMALL_JOURNAL: u32 = 1_000;

const TURNS_FOR_SMALL: u64 = 50_000;

// The most turns of a trial that is to use them up.
const FEW_TURNS: u32 = 5_000;

/// Numbers at random, by a seed and the number of a station.
#[derive(Drop)]
pub(crate) struct Draws {
    random: Pcg32,
}

impl Draws {
    pub(crate) fn new(seed: u64, number: u32) -> Draws
        ensures { result.random ≡ started 64 multiplier_64 seed (increment_of 64 number) }
    {
        Draws {
            random: Pcg32::new(seed, u64::from(number)),
        }
    }

    /// Any number.
    pub(crate) fn word(&mut self) -> u32
        ensures { (result, self.new.random) ≡ pcg32 self.old.random }
    {
        self.random.next_word()
    }

    /// A number from the least to the most: each of these two in one of four draws, and all numbers
    /// alike in the others.
    pub(crate) fn between(&mut self, least: u32, most: u32) -> u32
        requires { least ≤ most }
        ensures least { least ≤ result }
        ensures most { result ≤ most }
        ensures exact { result ≡ number_between least most (pcg32 self.old.random).0 }
        ensures rest { self.new.random ≡ (pcg32 self.old.random).1 }
    {
        let pick = self.word();
        match pick % 4 {
            0 => least,
            1 => most,
            _ => least + (pick / 4 % (most - least).saturating_add(1)).min(most - least),
        }
    }

    // Whether something comes that comes once in so many draws.
    fn one_in(&mut self, draws: u32) -> bool
        requires { 1 ≤ draws }
        ensures exact { result ≡ ((pcg32 self.old.random).0 % draws == 0) }
        ensures rest { self.new.random ≡ (pcg32 self.old.random).1 }
    {
        self.word() % draws == 0
    }
}

/// The numbers of a station, and what its threads may do.
#[derive(Clone, Copy)]
pub(crate) struct Trial {
    pub(crate) shape: Shape,
    /// From 1 to [`MAX_PORTS`].
    pub(crate) ports: u32,
    /// Entries that the journal takes.
    pub(crate) journal: u32,
    /// Turns of each thread.
    pub(crate) turns: u64,
    // Words of a block.
    block_words: u32,
}

impl Trial {
    /// A trial with so many words in a block.
    pub(crate) fn draw(draws: &mut Draws, block_words: u32) -> Trial
        ensures range { IsInRange result }
        ensures block { result.block_words ≡ max 1 (min block_words 16) }
    {
        let block_words = block_words.clamp(1, 16);
        let most_blocks = if draws.one_in(32) {
            MANY_BLOCKS
        } else {
            FEW_BLOCKS
        };
        let banks = draws.between(1, MAX_BANKS);
        let shape = Shape {
            words: draws.between(1, most_blocks).saturating_mul(block_words),
            sets: draws.between(1, MAX_SETS),
            banks,
            bank_queue: draws.between(block_words.div_ceil(banks), MAX_BANK_QUEUE),
            write_queue: draws.between(block_words, 256),
            replies: draws.between(1, MAX_REPLIES),
        };
        let (journal, turns) = draw_limits(draws);
        Trial {
            shape,
            ports: draws.between(1, MAX_PORTS),
            journal,
            turns,
            block_words,
        }
    }

    /// Whether it has enough turns and entries, so that its run has to come to its end.
    pub(crate) fn has_to_end(&self) -> bool
        ensures { (result ≡ true) ↔ ((self.now.journal ≡ MAX_ENTRIES) × (self.now.turns ≡ MANY_TURNS)) }
    {
        self.journal == MAX_ENTRIES && self.turns == MANY_TURNS
    }

    /// How many threads the ports and the banks share, or `None` if each has its own, as in one of
    /// two draws.
    pub(crate) fn crew(&self, draws: &mut Draws) -> Option<Crew>
        ensures ports { IfSome result (λ crew. (1 ≤ crew.port_threads) × (crew.port_threads ≤ max 1 self.now.ports)) }
        ensures banks { IfSome result (λ crew. crew.bank_threads ≤ self.now.shape.banks) }
    {
        if draws.one_in(2) {
            return None;
        }
        Some(Crew {
            port_threads: draws.between(1, self.ports.max(1)) as usize,
            bank_threads: draws.between(0, self.shape.banks) as usize,
        })
    }

    /// A script for each port.
    pub(crate) fn scripts(
        &self,
        alloc: Global,
        draws: &mut Draws,
    ) -> Result<Vec<Vec<Ask>>, AllocError>
        ensures number { IfOk result (λ scripts. vec_len scripts ≡ self.now.ports) }
        ensures requests { IfOk result (λ scripts. All (λ s. AreRequests s.items) scripts.items) }
    {
        let mut scripts = Vec::new(alloc);
        for _port in 0..self.ports {
            scripts.push(self.script(alloc, draws)?)?;
        }
        Ok(scripts)
    }

    fn script(&self, alloc: Global, draws: &mut Draws) -> Result<Vec<Ask>, AllocError>
        ensures { IfOk result (λ script. AreRequests script.items) }
    {
        let mut asks = Vec::new(alloc);
        for _number in 0..draws.between(0, ASKS) {
            asks.push(self.ask(draws))?;
        }
        Ok(asks)
    }

    // Mostly of a word of memory. Tags are few, so that some are in use; a store has any lanes, and
    // may have none.
    fn ask(&self, draws: &mut Draws) -> Ask
        ensures { is_request result ≡ true }
    {
        let at = if draws.one_in(16) {
            draws.word()
        } else {
            draws.word() % self.shape.words.max(1)
        };
        let pick = draws.word();
        match pick % 8 {
            0..=3 => Ask::Load {
                tag: (pick / 8 % 6) as u8 * 51,
                at,
            },
            4 | 5 => Ask::Store {
                at,
                word: bytes_of(draws.word()),
                lanes: Lanes((pick / 8 % 16) as u8),
            },
            6 => Ask::Prefetch { at },
            _ => Ask::Evict {
                block: at / self.block_words.max(1),
            },
        }
    }
}

// How many entries the journal takes, and how many turns each thread has: mostly enough of both.
fn draw_limits(draws: &mut Draws) -> (u32, u64)
    ensures { (1 ≤ result.0) × (result.0 ≤ MAX_ENTRIES) }
{
    match draws.word() % 32 {
        0 => (draws.between(1, SMALL_JOURNAL), TURNS_FOR_SMALL),
        1 => (MAX_ENTRIES, u64::from(draws.between(0, FEW_TURNS))),
        _ => (MAX_ENTRIES, MANY_TURNS),
    }
}
