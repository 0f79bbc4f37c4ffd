//! The laws of a cache unit: its state, its steps, and what always holds.
//!
//! - First call: none. `specs/State.antt` has the state, `specs/Steps.antt` what each step changes,
//!   `specs/Sound.antt` the invariant. [`laws`] is what callers cite.
//! - Caller: `cache_unit`, whose contracts speak of these steps, and through it all crates above.
//!
//! There is no code of a unit here. [`Sizes`] are the numbers of a unit and its machine;
//! [`Request`], [`Reply`] and [`Lookup`] are the words in which a unit answers.
#![tactic(auto)]

ghost use Rattle.std.specs.Prelude.{◌≡◌};
ghost use Rattle.cache_law.specs.Shown.{shape_of};

pub mod laws;

use flat_model::{Lanes, Shape, Word};

/// The numbers of a unit and its machine.
#[derive(Clone, Copy, PartialEq, Eq, Debug)]
pub struct Sizes {
    /// Of each set: 1 to 16.
    pub ways: u32,
    /// 1 to 16.
    pub block_words: u32,
    /// For missing blocks: 1 to 64.
    pub regs: u32,
    /// Of the input stack: 1 to 64.
    pub depth: u32,
    /// Whole blocks: 1 to 4,294,967,295.
    pub words: u32,
    /// 1 to 1024.
    pub sets: u32,
    /// 1 to 16.
    pub banks: u32,
    /// A bank's share of a block, to 64.
    pub bank_queue: u32,
    /// A block's words, to 256.
    pub write_queue: u32,
    /// Loads awaited or ready: 1 to 64.
    pub replies: u32,
}

impl Sizes {
    /// Those of a [`Shape`].
    pub fn shape(&self) -> Shape
        ensures { result ≡ shape_of self.now }
    {
        Shape {
            words: self.words,
            sets: self.sets,
            banks: self.banks,
            bank_queue: self.bank_queue,
            write_queue: self.write_queue,
            replies: self.replies,
        }
    }
}

/// What the processor asks.
#[derive(Clone, Copy, PartialEq, Eq, Debug)]
pub enum Request {
    /// The word at `at`.
    Load { tag: u16, at: u32 },
    /// The lanes of `word`.
    Store { at: u32, word: Word, lanes: Lanes },
    /// The word's block in the cache.
    Prefetch { at: u32 },
}

/// A ready value.
#[derive(Clone, Copy, PartialEq, Eq, Debug, Default)]
pub struct Reply {
    /// Its load's tag.
    pub tag: u16,
    /// The load's word.
    pub word: Word,
}

/// What a request finds.
#[derive(Clone, Copy, PartialEq, Eq, Debug)]
pub enum Lookup {
    /// The word is at hand.
    Hit,
    /// On its way: loads wait, stores' bytes stay.
    Join,
    /// No frame holds the block.
    Miss,
}
