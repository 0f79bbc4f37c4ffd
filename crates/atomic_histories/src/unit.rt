//! What a unit of memory is, and the operations that are open there.

/// A unit's bytes; `None` is unknown.
pub type Word = [Option<u8>; 8];

/// One aligned unit of memory.
#[derive(Clone, Copy, PartialEq, Eq, Debug)]
pub struct UnitPlace {
    /// The address of its first byte.
    pub first: u64,
    /// 1, 2, 4 or 8.
    pub size: u64,
}

/// An open operation.
#[derive(Clone, Copy, PartialEq, Eq, Debug)]
pub struct Operation {
    /// Its number.
    pub number: u64,
    /// The address of its first byte.
    pub address: u64,
    /// How many bytes it has.
    pub length: usize,
    /// Which of them are enabled: bit `k` is byte `k`'s.
    pub enables: u64,
}

/// Where a load reads.
#[derive(Clone, Copy, PartialEq, Eq, Debug)]
pub struct LoadAddress {
    /// The address of its first byte.
    pub first: u64,
    /// Which of its bytes are enabled: bit `k` is byte `k`'s.
    pub enables: u64,
}

/// An open store at a unit: its bytes there (`None` for those it doesn't write), and whether it has
/// taken effect.
#[derive(Clone, Copy, PartialEq, Eq, Debug)]
pub struct OpenStore {
    /// The number of the store.
    pub number: u64,
    /// What it writes.
    pub bytes: Word,
    /// Whether it has taken effect.
    pub is_done: bool,
}

/// An open load at a unit.
#[derive(Clone, Copy, PartialEq, Eq, Debug)]
pub struct WatchedLoad {
    /// The number of the load.
    pub number: u64,
    /// Where it reads.
    pub address: LoadAddress,
    /// The moment of its request: how many loads had been requested here by then, since there were
    /// none. It may get words overwritten then or later.
    pub since: u64,
}
