//! A machine's numbers and registers as rows.
ghost use Rattle.std.specs.Prelude.{◌≡◌};
ghost use Rattle.machine_handles.specs.Rows.{sizes_of, register_row, field_row, target_row};

use flat_model::Word;
use machine_core::{FieldView, Owed, RegisterView, Sizes};

/// A machine's numbers, in their ranges.
#[repr(C)]
#[derive(Clone, Copy)]
pub struct ShapeRow {
    /// Ways of a set: 1 to 16.
    pub ways: u32,
    /// Words of a block: 1 to 16.
    pub block_words: u32,
    /// Registers: 1 to 64.
    pub regs: u32,
    /// Places of the input stack: 1 to 64.
    pub depth: u32,
    /// Words of memory: 1 to 4,294,967,295, in whole blocks.
    pub words: u32,
    /// Sets of the cache: 1 to 1024.
    pub sets: u32,
    /// Banks of memory: 1 to 16.
    pub banks: u32,
    /// Commands at a bank: from a block's words divided by the banks, rounded up, to 64.
    pub bank_queue: u32,
    /// Words in the write queue: a block's, to 256.
    pub write_queue: u32,
    /// Loads awaited and ready: 1 to 64.
    pub replies: u32,
}

/// A register; 0 where it doesn't apply.
#[repr(C)]
#[derive(Clone, Copy)]
pub struct RegisterRow {
    /// 1 if its block is missing words.
    pub valid: u32,
    /// 1 if its block lost its frame.
    pub obsolete: u32,
    /// The missing block.
    pub block: u32,
    /// The frame of a live register.
    pub frame: u32,
    /// Processed words of the block.
    pub processed: u32,
}

/// A register's word; 0 where it doesn't apply.
#[repr(C)]
#[derive(Clone, Copy)]
pub struct FieldRow {
    /// 1 if a load waits for the word.
    pub send: u32,
    /// 1 if the word stands in the input stack.
    pub in_stack: u32,
    /// 1 if the word was processed.
    pub processed: u32,
    /// How many loads wait.
    pub targets: u32,
    /// The first waiting load's tag.
    pub tag: u16,
    /// Lanes of the buffer that the arriving word mustn't change.
    pub code: u8,
    /// Lanes whose bytes that load has.
    pub held_lanes: u8,
    /// Its bytes: only those in the held lanes count.
    pub held: Word,
}

/// A waiting load, and the bytes that it has.
#[repr(C)]
#[derive(Clone, Copy)]
pub struct TargetRow {
    /// The load's tag.
    pub tag: u16,
    /// Lanes that the arriving word mustn't give it.
    pub lanes: u8,
    /// Its bytes: only those in the lanes count.
    pub held: Word,
}

impl ShapeRow {
    pub(crate) fn sizes(&self) -> Sizes
        ensures { result ≡ sizes_of self.now }
    {
        Sizes {
            ways: self.ways,
            block_words: self.block_words,
            regs: self.regs,
            depth: self.depth,
            words: self.words,
            sets: self.sets,
            banks: self.banks,
            bank_queue: self.bank_queue,
            write_queue: self.write_queue,
            replies: self.replies,
        }
    }
}

/// A register as a row.
pub(crate) fn register_row(view: &RegisterView) -> RegisterRow
    ensures { result ≡ register_row view.now }
{
    RegisterRow {
        valid: u32::from(view.valid),
        obsolete: u32::from(view.obsolete),
        block: view.block,
        frame: view.frame,
        processed: view.processed,
    }
}

/// A register's word as a row.
pub(crate) fn field_row(view: &FieldView) -> FieldRow
    ensures { result ≡ field_row view.now }
{
    FieldRow {
        send: u32::from(view.send),
        in_stack: u32::from(view.in_stack),
        processed: u32::from(view.processed),
        targets: view.targets,
        tag: view.tag,
        code: view.code.0,
        held_lanes: view.held_lanes.0,
        held: view.held,
    }
}

/// A waiting load as a row.
pub(crate) fn target_row(owed: &Owed) -> TargetRow
    ensures { result ≡ target_row owed.now }
{
    TargetRow {
        tag: owed.tag,
        lanes: owed.lanes.0,
        held: owed.held,
    }
}
