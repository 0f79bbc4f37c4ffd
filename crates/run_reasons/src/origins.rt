//! Where flat memory's words come from.

ghost use Rattle.std.specs.Prelude.{◌≡◌, ◌==◌, bit_and, if◌then◌else◌};
ghost use Rattle.run_reasons.specs.Origins.{stored_in, later_store, later_stores};

use bitflags::Flags;
use flat_model::{Lanes, Word};

/// The lines, from 1, that last stored a word's bytes. Line 0 is what memory began with.
#[derive(Clone, Copy, PartialEq, Eq, Debug, Default)]
pub struct Stores {
    /// Of byte 0.
    pub b0: u64,
    /// Of byte 1.
    pub b1: u64,
    /// Of byte 2.
    pub b2: u64,
    /// Of byte 3.
    pub b3: u64,
}

/// A load as it was accepted.
#[derive(Clone, Copy, PartialEq, Eq, Debug)]
pub struct AcceptedLoad {
    /// Its line.
    pub line: u64,
    /// The address of its word.
    pub at: u32,
    /// The word there: what it is owed.
    pub word: Word,
    /// The lines that had stored it.
    pub stores: Stores,
}

/// What became of a tag.
#[derive(Clone, Copy, PartialEq, Eq, Debug)]
pub enum TagUse {
    /// No load has had it.
    Never,
    /// Its load's value hasn't been taken.
    Loaded(AcceptedLoad),
    /// Its last load's value was taken.
    Taken {
        /// In this line.
        line: u64,
    },
}

fn store_line(old: u64, line: u64, lanes: Lanes, lane: Lanes) -> u64
    ensures { result ≡ (if bit_and lanes.0 lane.0 == lane.0 then line else old) }
{
    if lanes.contains(lane) { line } else { old }
}

impl Stores {
    /// The lines behind a store of these lanes in `line`.
    #[tactic(auto, unfolding(crate::specs::Origins::stored_in, flat_model::specs::Words::has))]
    pub fn stored_in(self, line: u64, lanes: Lanes) -> Stores
        ensures { result ≡ stored_in line lanes self }
    {
        Stores {
            b0: store_line(self.b0, line, lanes, Lanes::LANE_0),
            b1: store_line(self.b1, line, lanes, Lanes::LANE_1),
            b2: store_line(self.b2, line, lanes, Lanes::LANE_2),
            b3: store_line(self.b3, line, lanes, Lanes::LANE_3),
        }
    }

    /// Those behind `load` that stored bytes of `got` which `now` has; else 0.
    pub fn later_stores(self, load: u64, now: Word, got: Word) -> Stores
        ensures { result ≡ later_stores load now got self }
    {
        Stores {
            b0: later_store(load, now.b0, got.b0, self.b0),
            b1: later_store(load, now.b1, got.b1, self.b1),
            b2: later_store(load, now.b2, got.b2, self.b2),
            b3: later_store(load, now.b3, got.b3, self.b3),
        }
    }
}

fn later_store(load: u64, now: u8, got: u8, store: u64) -> u64
    ensures { result ≡ later_store load now got store }
{
    if now == got && load < store { store } else { 0 }
}
