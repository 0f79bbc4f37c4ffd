//! Words and lanes of memory, a machine's events and answers, and the flat memory they speak of.
//!
//! - First call: [`FlatMemory::new`]. [`FlatMemory::step`] judges one answer, and
//!   [`FlatMemory::replay`] a whole run.
//! - Caller: all other crates, which use these plain types.
//!
//! `specs/Flat.antt` says which answers an event may get, and what each changes. An [`Image`] is
//! what memory begins with. A refusal has a [`Cause`]; a machine's numbers are a [`Shape`].
#![tactic(auto)]

ghost use Rattle.std.specs.Prelude.{⊤, ◌≡◌, ◌==◌, [], ◌∷◌, codes, bit_and, if◌then◌else◌};
ghost use Rattle.flat_model.specs.Flat.{number, cause_of};
ghost use Rattle.flat_model.specs.Words.{no_lanes, merged, joined, has_any, has_all};

mod answers;
mod causes;
mod display;
mod faults;
mod image;
mod limits;
mod memory;
mod operators;

pub use answers::may_answer;
use bitflags::{Flag, Flags};
pub use display::TwoDigits;
pub use faults::FaultText;
pub use image::Image;
pub use limits::{
    MAX_BANK_QUEUE, MAX_BANKS, MAX_BLOCK_WORDS, MAX_CONST_DEPTH, MAX_CONST_REGS, MAX_CONST_WAYS,
    MAX_DEPTH, MAX_MEMORY, MAX_REGS, MAX_REPLIES, MAX_SETS, MAX_WAYS, MAX_WORDS, MAX_WRITE_QUEUE,
};
pub use memory::{FlatMemory, ReplayFault, StepFault};
use std::alloc::AllocError;
use thiserror::Error;

/// Four bytes in memory order, also in C.
#[repr(C)]
#[derive(Clone, Copy, PartialEq, Eq, Debug, Default)]
pub struct Word {
    /// The first byte.
    pub b0: u8,
    /// Byte 1.
    pub b1: u8,
    /// Byte 2.
    pub b2: u8,
    /// The last byte.
    pub b3: u8,
}

/// A set of a word's lanes: bit `k` for byte `k`.
///
/// Bits 4 to 7, which `from_bits_retain` keeps, name no lane. A merge and [`Lanes::has_any`] pass
/// them over, but `==` compares them.
#[derive(Clone, Copy, PartialEq, Eq, Debug, Default)]
pub struct Lanes(pub u8);

impl Lanes {
    /// The lane of byte 0.
    pub const LANE_0: Lanes = Lanes(1);

    /// Of byte 1.
    pub const LANE_1: Lanes = Lanes(2);

    /// Of byte 2.
    pub const LANE_2: Lanes = Lanes(4);

    /// Of byte 3.
    pub const LANE_3: Lanes = Lanes(8);

    /// The lanes' names, lane 0 first.
    pub const FLAGS: &'static [Flag<Lanes>] = &[
        Flag {
            name: "LANE_0",
            value: Lanes::LANE_0,
        },
        Flag {
            name: "LANE_1",
            value: Lanes::LANE_1,
        },
        Flag {
            name: "LANE_2",
            value: Lanes::LANE_2,
        },
        Flag {
            name: "LANE_3",
            value: Lanes::LANE_3,
        },
    ];
}

impl Flags for Lanes {
    type Bits = u8;

    ghost exact = { ⊤ };

    ghost table = { (codes "LANE_0", 1)
        ∷ (codes "LANE_1", 2)
        ∷ (codes "LANE_2", 4)
        ∷ (codes "LANE_3", 8)
        ∷ [] };

    ghost set_of = { λ m. m.0 };

    fn flags<'a>() -> &'a [Flag<Lanes>] {
        Lanes::FLAGS
    }

    fn bits(&self) -> u8 {
        self.0
    }

    fn from_bits_retain(bits: u8) -> Lanes {
        Lanes(bits)
    }
}

#[tactic(auto, unfolding(crate::specs::Words::has, crate::specs::Words::joined))]
impl Lanes {
    /// No lane.
    pub fn none() -> Lanes
        ensures { result ≡ no_lanes }
    {
        Lanes(0)
    }

    /// Whether a lane is set.
    pub fn has_any(self) -> bool
        ensures { result ≡ has_any self }
    {
        self.contains(Lanes::LANE_0)
            || self.contains(Lanes::LANE_1)
            || self.contains(Lanes::LANE_2)
            || self.contains(Lanes::LANE_3)
    }

    /// Whether all four are set.
    pub fn has_all(self) -> bool
        ensures { result ≡ has_all self }
    {
        self.contains(Lanes::LANE_0)
            && self.contains(Lanes::LANE_1)
            && self.contains(Lanes::LANE_2)
            && self.contains(Lanes::LANE_3)
    }

    /// The lanes of either set.
    pub fn joined(self, other: Lanes) -> Lanes
        ensures { result ≡ joined self other }
    {
        let mut all = self;
        all.insert(other);
        all
    }
}

fn byte_in(under: u8, over: u8, lanes: Lanes, lane: Lanes) -> u8
    ensures { result ≡ (if bit_and lanes.0 lane.0 == lane.0 then over else under) }
{
    if lanes.contains(lane) { over } else { under }
}

/// `over` in the lanes, else `under`.
#[tactic(auto, unfolding(crate::specs::Words::merged, crate::specs::Words::has))]
pub fn merge(under: Word, over: Word, lanes: Lanes) -> Word
    ensures { result ≡ merged under over lanes }
{
    Word {
        b0: byte_in(under.b0, over.b0, lanes, Lanes::LANE_0),
        b1: byte_in(under.b1, over.b1, lanes, Lanes::LANE_1),
        b2: byte_in(under.b2, over.b2, lanes, Lanes::LANE_2),
        b3: byte_in(under.b3, over.b3, lanes, Lanes::LANE_3),
    }
}

/// Why an event is refused: the first that holds in the event's own list. A refusal changes
/// nothing.
#[derive(Clone, Copy, PartialEq, Eq, Debug)]
pub enum Cause {
    /// No word or block has this number.
    OutOfRange = 1,
    /// A store sets no lane.
    NoLanes = 2,
    /// The tag is awaited or ready.
    TagInUse = 3,
    /// No more loads may be awaited and ready.
    RepliesFull = 4,
    /// Four loads wait for the word.
    TargetsFull = 5,
    /// Never answered; the number isn't used again.
    BlockQueued = 6,
    /// Every register is valid.
    NoRegister = 7,
    /// Every way of the set is pending.
    SetPending = 8,
    /// The write queue has too little room for the words of a frame.
    QueueFull = 9,
    /// A bank has too little room for the commands.
    BankFull = 10,
    /// No frame holds the block.
    NotPresent = 11,
    /// The input stack is full.
    StackFull = 12,
    /// No register waits for the word, or it is processed or stacked already.
    StrayWord = 13,
}

#[tactic(auto, unfolding(crate::specs::Flat::cause_of))]
impl Cause {
    /// 1 to 13, as a trace shows it.
    pub fn number(self) -> u8
        ensures { result ≡ number self }
    {
        self as u8
    }

    /// The cause of a number.
    pub fn from_number(number: u32) -> Option<Cause>
        ensures { result ≡ cause_of number }
    {
        match number {
            1 => Some(Cause::OutOfRange),
            2 => Some(Cause::NoLanes),
            3 => Some(Cause::TagInUse),
            4 => Some(Cause::RepliesFull),
            5 => Some(Cause::TargetsFull),
            6 => Some(Cause::BlockQueued),
            7 => Some(Cause::NoRegister),
            8 => Some(Cause::SetPending),
            9 => Some(Cause::QueueFull),
            10 => Some(Cause::BankFull),
            11 => Some(Cause::NotPresent),
            12 => Some(Cause::StackFull),
            13 => Some(Cause::StrayWord),
            _ => None,
        }
    }
}

/// A step that the machine is asked for.
#[derive(Clone, Copy, PartialEq, Eq, Debug)]
pub enum Event {
    /// Asks for the word at `at`, under a tag.
    Load { tag: u16, at: u32 },
    /// Writes the lanes of `word` at `at`.
    Store { at: u32, word: Word, lanes: Lanes },
    /// Wants the word's block in the cache.
    Prefetch { at: u32 },
    /// Gives the block up.
    Evict { block: u32 },
    /// Sends the front of the write queue to its bank.
    Drain,
    /// The bank serves its first command.
    Serve { bank: u32 },
    /// The bank's answer at `place` comes to the input stack.
    Arrive { bank: u32, place: u32 },
    /// The input stack's entry at `place` is processed.
    Process { place: u32 },
    /// The ready reply at `place` is taken.
    Take { place: u32 },
}

/// What the machine answers.
#[derive(Clone, Copy, PartialEq, Eq, Debug)]
pub enum Answer {
    /// The request or eviction is accepted.
    Accepted,
    /// Something moved on.
    Moved,
    /// The reply taken: what the load of `tag` was owed.
    Value { tag: u16, word: Word },
    /// Nothing was to do.
    Nothing,
    /// Refused, with everything unchanged.
    Refused(Cause),
}

/// A machine's numbers at run time.
#[derive(Clone, Copy, PartialEq, Eq, Debug)]
pub struct Shape {
    /// Words of memory: 1 to 1,048,576, in whole blocks.
    pub words: u32,
    /// Sets: 1 to 1024.
    pub sets: u32,
    /// Banks: 1 to 16.
    pub banks: u32,
    /// Commands that wait at a bank: its share of a block, rounded up, to 64.
    pub bank_queue: u32,
    /// Words in the write queue: a block's, to 256.
    pub write_queue: u32,
    /// Loads awaited and ready: 1 to 64.
    pub replies: u32,
}

/// A number out of its range, in the order of checks. To a part without blocks a block is one word.
#[derive(Clone, Copy, PartialEq, Eq, Debug)]
pub enum ShapeField {
    /// 1 to 16.
    BlockWords,
    /// Const 1 to 8, at run time 1 to 16.
    Ways,
    /// Const 1 to 16, at run time 1 to 64.
    Regs,
    /// Of the input stack: const 1 to 16, at run time 1 to 64.
    Depth,
    /// Whole blocks: 1 to 1,048,576, or 4,294,967,295 with all numbers at run time.
    Words,
    /// 1 to 1024.
    Sets,
    /// 1 to 16.
    Banks,
    /// A bank's share of a block, rounded up, to 64.
    BankQueue,
    /// A block's words, to 256.
    WriteQueue,
    /// 1 to 64.
    Replies,
    /// Of a station, a machine on threads: 1 to 16.
    Ports,
    /// A station's entries: 1 to 1,048,576.
    Journal,
    /// As many words as memory has.
    Image,
}

/// Why nothing is made. Fields are checked before memory is taken.
#[derive(Clone, Copy, PartialEq, Eq, Debug, Error)]
#[error("{}", FaultText(self))]
pub enum MakeFault {
    /// The first field out of its range.
    BadShape(ShapeField),
    /// Too little memory.
    OutOfMemory,
}

impl From<AllocError> for MakeFault {
    ghost use Rattle.std.specs.Prelude.{◌≡◌};
    ghost use Rattle.flat_model.specs.declared.MakeFault.TheVariants.{OutOfMemory};

    ghost from_gives = { λ e f. f ≡ OutOfMemory };

    fn from(_fault: AllocError) -> MakeFault {
        MakeFault::OutOfMemory
    }
}
