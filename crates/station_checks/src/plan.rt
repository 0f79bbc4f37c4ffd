//! What the ports of a tour ask, made from a seed.
ghost use Rattle.std.specs.Prelude.{◌≡◌, ◌≤◌, ◌<◌, max, min, true};
ghost use Rattle.flat_model.specs.Images.{number_word};
ghost use Rattle.station_checks.specs.Asked.{ask_picked, ask_drawn, drawn_on, own_word};
ghost use Rattle.station_journal.specs.Conversation.{is_request};
ghost use Rattle.station_parts.specs.declared.make.TheConstants.{MAX_PORTS};

use flat_model::{Lanes, Shape, Word};
use rand_core::utils::NextWord;
use rand_pcg::Pcg32;
use station_journal::Ask;
use station_parts::{MAX_ENTRIES, MAX_PORTS, PORT_TAGS};

/// Words of a block.
pub const BLOCK_WORDS: usize = 4;

/// Ways of a set.
pub const WAYS: usize = 2;

/// Registers of the cache.
pub const REGS: usize = 4;

/// Places of the input stack.
pub const DEPTH: usize = 4;

/// Words of memory.
pub const WORDS: u32 = 64;

/// Ports, at most.
pub const MOST_PORTS: u32 = MAX_PORTS;

/// Entries of a journal.
pub const ENTRIES: u32 = MAX_ENTRIES;

// They are few, so that a port loads what it stored, and blocks are shared.
const OWN_WORDS: u32 = WORDS / MOST_PORTS;

/// The tour's station, as `kroft` has it without a shape file.
pub fn shape() -> Shape
    ensures { result ≡ record { words = WORDS; sets = 4; banks = 4; bank_queue = 8; write_queue = 8; replies = 8 } }
{
    Shape {
        words: WORDS,
        sets: 4,
        banks: 4,
        bank_queue: 8,
        write_queue: 8,
        replies: 8,
    }
}

/// How many ports ask, how often, and by which seed.
#[derive(Clone, Copy, PartialEq, Eq, Debug)]
pub struct Plan {
    /// 1 to 16.
    pub ports: u32,
    /// Of each port.
    pub asks: u32,
    /// Equal plans have equal scripts.
    pub seed: u64,
    ghost some: { 1 ≤ ports },
    ghost few: { ports ≤ MAX_PORTS },
}

impl Plan {
    /// Fewer ports than 1 count as 1, and more than 16 as 16.
    pub fn new(ports: u32, asks: u32, seed: u64) -> Plan
        ensures ports { result.ports ≡ max 1 (min ports MOST_PORTS) }
        ensures asks { result.asks ≡ asks }
        ensures seed { result.seed ≡ seed }
    {
        Plan {
            ports: ports.clamp(1, MOST_PORTS),
            asks,
            seed,
        }
    }
}

/// The words are the port's own, so what it is told doesn't depend on the others.
pub(crate) fn own_ask(random: &mut Pcg32, port: u32, number: u32) -> Ask
    requires { port < MAX_PORTS }
    ensures request { is_request result ≡ true }
    ensures asked { result ≡ ask_drawn (own_word port) random.old number }
    ensures rest { random.new ≡ drawn_on random.old }
{
    let pick = random.next_word();
    let at = pick / 8 % OWN_WORDS * MOST_PORTS + port;
    let word = bytes_of(random.next_word());
    let tag = (number % u32::from(PORT_TAGS)) as u8;
    ask_by(pick, tag, at, word, BLOCK_WORDS as u32)
}

/// Half of the picks are loads, a quarter stores, the others prefetches and evictions.
pub fn ask_by(pick: u32, tag: u8, at: u32, word: Word, block_words: u32) -> Ask
    requires { 1 ≤ block_words }
    ensures request { is_request result ≡ true }
    ensures asked { result ≡ ask_picked pick tag at word block_words }
{
    match pick % 8 {
        0..=3 => Ask::Load { tag, at },
        4 => Ask::Store {
            at,
            word,
            lanes: Lanes(15),
        },
        5 => Ask::Store {
            at,
            word,
            lanes: Lanes(3),
        },
        6 => Ask::Prefetch { at },
        _ => Ask::Evict {
            block: at / block_words,
        },
    }
}

/// The word with these bytes, the lowest first.
pub fn bytes_of(number: u32) -> Word
    ensures { result ≡ number_word number }
{
    let [b0, b1, b2, b3] = number.to_le_bytes();
    Word { b0, b1, b2, b3 }
}
