//! The registers that keep what is known of missing blocks (MSHRs).
//!
//! - First call: [`RegisterTable::new`]. A primary miss takes a register by
//!   [`RegisterTable::allocate`]; a secondary miss finds it by [`RegisterTable::live_for`].
//! - Caller: `cache_unit`.
//!
//! For each word a register keeps up to four targets (waiting loads), and the lanes that the arriving
//! word must leave alone. [`RegisterTable::finish_word`] returns the loads when the word comes. Only
//! `new` allocates.
#![tactic(auto)]

ghost use Rattle.std.specs.Prelude.{◌≡◌, ◌<◌, ◌≤◌, ◌++◌, [], ◌∷◌, length, slice_get};
ghost use Rattle.miss_registers.specs.declared.TheConstants.{MAX_WAITING};

mod file;
mod marks;
mod slot;
mod table;
mod targets;

use arrayvec::ArrayVec;
pub use file::RegisterFile;
use flat_model::{Lanes, Word};
use std::marker::Model;
pub use table::RegisterTable;

/// A waiting load, and the bytes that it has.
#[derive(Clone, Copy, PartialEq, Eq, Debug, Default)]
pub struct Owed {
    /// The load's tag.
    pub tag: u16,
    /// Its bytes: only those in the lanes count.
    pub held: Word,
    /// Lanes that the arriving word mustn't give it.
    pub lanes: Lanes,
}

/// What a register shows of itself; 0 or clear if it doesn't apply, as a free one's block.
#[derive(Clone, Copy, PartialEq, Eq, Debug, Default)]
pub struct RegisterView {
    /// Whether its block is missing words.
    pub valid: bool,
    /// Whether its block lost its frame.
    pub obsolete: bool,
    /// The missing block.
    pub block: u32,
    /// The frame of a live register.
    pub frame: u32,
    /// Processed words of the block.
    pub processed: u32,
}

/// What it shows of a word; 0 or clear if it doesn't apply.
#[derive(Clone, Copy, PartialEq, Eq, Debug, Default)]
pub struct FieldView {
    /// Whether a load waits for the word.
    pub send: bool,
    /// The word stands in the input stack.
    pub in_stack: bool,
    /// Whether the word was processed.
    pub processed: bool,
    /// Lanes of the buffer that the arriving word mustn't change.
    pub code: Lanes,
    /// The first waiting load's tag.
    pub tag: u16,
    /// Lanes whose bytes it has.
    pub held_lanes: Lanes,
    /// Its bytes: only those in the held lanes count.
    pub held: Word,
    /// How many loads wait.
    pub targets: u32,
}

/// The most loads that wait for a word.
pub const MAX_WAITING: usize = 4;

/// At most [`MAX_WAITING`] loads, in their order.
#[derive(Drop)]
pub struct OwedList {
    items: ArrayVec<Owed, MAX_WAITING>,
}

impl Model for OwedList {
    ghost use Rattle.std.specs.Prelude.{List};
    ghost use Rattle.miss_registers.specs.declared.Owed.{Owed};

    ghost Value = { List Owed };

    ghost view = { λ a. a.items.items };
}

impl OwedList {
    fn new() -> Self
        ensures { result ≡ [] }
    {
        OwedList {
            items: ArrayVec::new(),
        }
    }

    fn push(&mut self, owed: Owed)
        requires { length self.old < MAX_WAITING }
        ensures { self.new ≡ self.old ++ owed ∷ [] }
    {
        self.items.push(owed);
    }

    /// At most four.
    pub fn len(&self) -> u32
        ensures count { result ≡ length self.now }
        ensures few { result ≤ MAX_WAITING }
    {
        self.items.len() as u32
    }

    /// The load at a place, from 0.
    pub fn get(&self, place: u32) -> Option<Owed>
        ensures { result ≡ slice_get self.now place }
    {
        self.items.get(place as usize).copied()
    }
}

/// What a processed word leaves to do.
#[derive(Drop)]
pub struct WordEnd {
    /// The loads that waited, oldest first.
    pub send: OwedList,
    /// Lanes of the buffer that it mustn't change.
    pub keep: Lanes,
    /// The frame that it goes into, if the register is live.
    pub live: Option<u32>,
    /// It was the block's last word: the register is free.
    pub last: bool,
}
