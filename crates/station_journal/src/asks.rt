//! What ports ask, and what they are told.

use flat_model::{Cause, Lanes, Word};

/// The core's tag of a port's load is `port * PORT_TAGS + tag`.
pub const PORT_TAGS: u16 = 256;

/// What a port asks of the cache.
#[derive(Clone, Copy, PartialEq, Eq, Debug)]
pub enum Ask {
    /// The word at `at`, under a tag of the port's own.
    Load { tag: u8, at: u32 },
    /// Writes the lanes of `word` at `at`.
    Store { at: u32, word: Word, lanes: Lanes },
    /// Wants the block of the word at `at` in the cache.
    Prefetch { at: u32 },
    /// Gives the block up.
    Evict { block: u32 },
    /// Asks nothing more.
    Done,
}

/// What a port is told.
#[derive(Clone, Copy, PartialEq, Eq, Debug)]
pub enum Told {
    Accepted,
    Refused(Cause),
    /// Of an accepted load.
    Value { tag: u8, word: Word },
}
