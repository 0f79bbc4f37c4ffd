//! What frames, stack, queue and banks show, as rows.
ghost use Rattle.std.specs.Prelude.{◌≡◌};
ghost use Rattle.machine_handles.specs.Parts as parts;

use flat_model::{Lanes, Word};
use machine_core::{BankAnswer, Command, Entry, Lookup, Queued};

/// A frame of the cache.
#[repr(C)]
#[derive(Clone, Copy)]
pub struct FrameRow {
    /// 1 if it holds a block.
    pub valid: u32,
    /// The block, 0 if it is free.
    pub block: u32,
}

/// A word of a frame's block.
#[repr(C)]
#[derive(Clone, Copy)]
pub struct FrameWordRow {
    /// The buffer's bytes. Of a word on its way only the code's lanes have come.
    pub word: Word,
    /// Lanes stored since the frame took the block, not yet in memory.
    pub dirty: u8,
}

/// A word on its way from its bank.
#[repr(C)]
#[derive(Clone, Copy)]
pub struct ArrivalRow {
    /// The register.
    pub slot: u32,
    /// Word of the register's block.
    pub i: u32,
    /// As it was when the bank served.
    pub word: Word,
}

/// A word of the write queue.
#[repr(C)]
#[derive(Clone, Copy)]
pub struct QueuedRow {
    /// The block that was given up.
    pub block: u32,
    /// The address of the word.
    pub at: u32,
    /// Only bytes in the lanes count.
    pub word: Word,
    /// The lanes to be written.
    pub lanes: u8,
}

/// A bank's command; 0 where it doesn't apply.
#[repr(C)]
#[derive(Clone, Copy)]
pub struct CommandRow {
    /// 0: read for a register. 1: written.
    pub kind: u32,
    /// The register of a read.
    pub slot: u32,
    /// A read's word of the register's block.
    pub i: u32,
    /// The word's place in the bank, from 0.
    pub place: u32,
    /// Only bytes in the lanes count.
    pub word: Word,
    /// The lanes to be written.
    pub lanes: u8,
}

const ZERO_WORD: Word = Word {
    b0: 0,
    b1: 0,
    b2: 0,
    b3: 0,
};

pub(crate) fn frame_row(block: Option<u32>) -> FrameRow
    ensures { result ≡ parts.frame_row block }
{
    match block {
        Some(block) => FrameRow { valid: 1, block },
        None => FrameRow { valid: 0, block: 0 },
    }
}

pub(crate) fn frame_word_row(word: Option<Word>, dirty: Option<Lanes>) -> Option<FrameWordRow>
    ensures { result ≡ parts.frame_word_row word dirty }
{
    match (word, dirty) {
        (Some(word), Some(dirty)) => Some(FrameWordRow {
            word,
            dirty: dirty.0,
        }),
        _ => None,
    }
}

pub(crate) fn entry_row(entry: Entry) -> ArrivalRow
    ensures { result ≡ parts.entry_row entry }
{
    ArrivalRow {
        slot: entry.slot,
        i: entry.i,
        word: entry.word,
    }
}

/// A bank's answer as a row.
pub(crate) fn bank_answer_row(answer: BankAnswer) -> ArrivalRow
    ensures { result ≡ parts.bank_answer_row answer }
{
    ArrivalRow {
        slot: answer.slot,
        i: answer.i,
        word: answer.word,
    }
}

pub(crate) fn queued_row(queued: Queued) -> QueuedRow
    ensures { result ≡ parts.queued_row queued }
{
    QueuedRow {
        block: queued.block,
        at: queued.at,
        word: queued.word,
        lanes: queued.lanes.0,
    }
}

/// A bank's command as a row.
pub(crate) fn command_row(command: Command) -> CommandRow
    ensures { result ≡ parts.command_row command }
{
    match command {
        Command::Read { slot, i, place } => CommandRow {
            kind: 0,
            slot,
            i,
            place,
            word: ZERO_WORD,
            lanes: 0,
        },
        Command::Write { place, word, lanes } => CommandRow {
            kind: 1,
            slot: 0,
            i: 0,
            place,
            word,
            lanes: lanes.0,
        },
    }
}

/// 0 a hit, 1 a join, 2 a miss.
pub(crate) fn lookup_number(lookup: Lookup) -> u32
    ensures { result ≡ parts.lookup_number lookup }
{
    match lookup {
        Lookup::Hit => 0,
        Lookup::Join => 1,
        Lookup::Miss => 2,
    }
}
