//! The most of a machine's numbers. The least is 1, but a queue takes a whole block.

/// Words of a block.
pub const MAX_BLOCK_WORDS: usize = 16;

/// Ways of a set, at run time.
pub const MAX_WAYS: usize = 16;

/// Ways, as const argument.
pub const MAX_CONST_WAYS: usize = 8;

/// Registers, at run time.
pub const MAX_REGS: usize = 64;

/// Registers, as const argument.
pub const MAX_CONST_REGS: usize = 16;

/// Places of the input stack, at run time.
pub const MAX_DEPTH: usize = 64;

/// Places, as const argument.
pub const MAX_CONST_DEPTH: usize = 16;

/// Words of memory, in the program or with const arguments.
pub const MAX_WORDS: u32 = 1_048_576;

/// Words of memory, with all numbers at run time.
pub const MAX_MEMORY: u32 = u32::MAX;

/// Sets of the cache.
pub const MAX_SETS: u32 = 1024;

/// Banks of memory.
pub const MAX_BANKS: u32 = 16;

/// Commands at a bank.
pub const MAX_BANK_QUEUE: u32 = 64;

/// Words in the write queue.
pub const MAX_WRITE_QUEUE: u32 = 256;

/// Loads awaited and ready.
pub const MAX_REPLIES: u32 = 64;
