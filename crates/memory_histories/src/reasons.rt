//! What a load is owed, and by which store.

/// A store, by its number and its request.
#[derive(Clone, Copy, PartialEq, Eq, Debug)]
pub struct StoreName {
    /// Its number.
    pub number: u64,
    /// The event that requested it, counted from 0.
    pub requested: u64,
}

/// What flat memory owes a load for a byte, from its request on.
#[derive(Clone, Copy, PartialEq, Eq, Debug)]
pub enum Owed {
    /// Anything: nothing was stored, and what was there is unknown.
    Unknown,
    /// The byte that memory had before the first store.
    Initial { byte: u8 },
    /// The byte that this store put there.
    Stored { byte: u8, store: StoreName },
}
