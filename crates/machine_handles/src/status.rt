//! What a call of any handle may tell.

/// The call was made.
pub(crate) const DONE: u32 = 0;

/// No such thing, or nothing to do.
pub(crate) const ABSENT: u32 = 1;

/// No machine is behind the handle.
pub(crate) const CLOSED: u32 = 100;

/// There was too little memory.
pub(crate) const OUT_OF_MEMORY: u32 = 101;

/// No rounds were begun.
pub(crate) const NO_ROUNDS: u32 = 106;

/// Rounds make the machine's events.
pub(crate) const IN_ROUNDS: u32 = 107;

/// A row says nothing.
pub(crate) const NO_EVENT: u32 = 147;
