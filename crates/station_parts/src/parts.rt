//! The parts of a station.
ghost use Rattle.std.specs.Prelude.{◌≡◌, ◌+◌, ◌≤◌, ◌++◌, ℕ, length, vec_capacity, None};
ghost use Rattle.station_parts.specs.declared.make.TheConstants.{MAX_ENTRIES, MAX_NOTED, MAX_PORTS};
ghost use Rattle.cache_law.specs.Sound.{InRange};
ghost use Rattle.station_parts.specs.Rows.{sent_at, popped_at, taken_at};
ghost use Rattle.station_journal.specs.Side.{SideTells};
ghost use Rattle.station_parts.specs.Ports.{PortsTell};
ghost use Rattle.station_parts.specs.Segments.{whole_of};

use crate::bank::BankSide;
use crate::lines::Row;
use crate::past::Past;
use crate::port::Port;
use cache_unit::{ShapedUnit, Sizes};
use memory_banks::BankAnswer;
use rtrb::{Consumer, Producer};
use station_journal::{Ask, Entry, SideFault, Told};

/// What a step did.
#[derive(Clone, Copy, PartialEq, Eq, Debug)]
pub enum Stepped {
    /// One thing was done.
    Did,
    /// There is nothing to do, or no room for what it makes.
    Idle,
    /// The journal has no room.
    JournalFull,
    /// A word came that wasn't asked for.
    Faulted,
}

/// The side of a station with the cache.
#[derive(Drop)]
pub struct CacheSide {
    pub(crate) sizes: Sizes,
    pub(crate) unit: ShapedUnit,
    pub(crate) asks: Vec<Consumer<Ask>>,
    pub(crate) tellings: Vec<Producer<Told>>,
    pub(crate) row: Row,
    pub(crate) answers: Vec<Consumer<BankAnswer>>,
    // Handed out, and how many entries they had.
    pub(crate) earlier: Past<Vec<Entry>>,
    pub(crate) handed: u64,
    pub(crate) journal: Vec<Entry>,
    pub(crate) limit: u32,
    pub(crate) fault: Option<SideFault>,
    ghost shaped: { unit.sizes ≡ sizes },
    ghost in_range: { InRange unit.sizes },
    ghost lines: { length row.lines.items ≡ unit.sizes.banks },
    ghost ends: { length answers.items ≡ unit.sizes.banks },
    ghost small: { limit ≤ MAX_ENTRIES },
    ghost within: { length journal.items ≤ limit },
    ghost reserved: { limit ≤ vec_capacity journal },
    ghost handed_is: { handed ≡ length (whole_of earlier.values) },
    ghost lasts: { handed + limit ≤ MAX_NOTED },
    ghost tells: { ∥ SideTells unit.sizes unit.cache (sent_at row.lines.items)
        (popped_at answers.items) fault (whole_of earlier.values ++ journal.items) ∥₁ },
    ghost counted: { fault ≡ None → (b : ℕ) → taken_at row.lines.items b
        ≡ length (popped_at answers.items b) },
    ghost few_ports: { length asks.items ≤ MAX_PORTS },
    ghost ports: { PortsTell asks.items tellings.items (whole_of earlier.values ++ journal.items) },
}

/// A cache side with its ports and banks, each in the order of their numbers.
#[derive(Drop)]
pub struct Station {
    /// The cache's side.
    pub cache: CacheSide,
    /// Those who ask it.
    pub ports: Vec<Port>,
    /// The banks of its memory.
    pub banks: Vec<BankSide>,
}

/// A ring, by its kind and the number of its port or bank.
#[derive(Clone, Copy, PartialEq, Eq, Debug)]
pub enum Ring {
    /// From a port.
    Asks(u32),
    /// To a port.
    Told(u32),
    /// To a bank.
    Commands(u32),
    /// From a bank.
    Answers(u32),
}

/// What an audit finds.
#[derive(Clone, Copy, PartialEq, Eq, Debug)]
pub enum Audit {
    /// A word came that wasn't asked for.
    Faulted,
    /// The first ring with an item, in the order asks by port, tellings by port, commands by bank, answers
    /// by bank.
    Left {
        /// The ring.
        ring: Ring,
    },
    /// No ring holds an item, and accepted loads are owed values.
    Owed {
        /// How many loads.
        count: u32,
    },
    /// No ring holds an item, and nothing is owed.
    Clean,
}
