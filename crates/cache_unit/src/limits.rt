//! The ranges of a unit's numbers.
ghost use Rattle.std.specs.Prelude.{◌≡◌, ◌<◌, ◌≤◌};
ghost use Rattle.flat_model.specs.declared.limits.TheConstants.{MAX_BLOCK_WORDS, MAX_WAYS, MAX_REGS, MAX_DEPTH};
ghost use Rattle.cache_law.specs.Shown.{sizes_of};
ghost use Rattle.cache_unit.specs.Limits as limits;

use crate::Sizes;
use flat_model::{
    MAX_BANK_QUEUE, MAX_BANKS, MAX_BLOCK_WORDS, MAX_CONST_DEPTH, MAX_CONST_REGS, MAX_CONST_WAYS,
    MAX_DEPTH, MAX_MEMORY, MAX_REGS, MAX_REPLIES, MAX_SETS, MAX_WAYS, MAX_WORDS, MAX_WRITE_QUEUE,
    Shape, ShapeField,
};

/// The first number out of its range. Words of a block are 1 to 16, ways 1 to 16, registers 1 to
/// 64, places of the stack 1 to 64. Then come words, sets, banks, queues and replies.
pub fn bad_size(sizes: &Sizes) -> Option<ShapeField>
    ensures { result ≡ limits.bad_size sizes.now }
{
    if sizes.block_words < 1 || sizes.block_words > MAX_BLOCK_WORDS as u32 {
        Some(ShapeField::BlockWords)
    } else if sizes.ways < 1 || sizes.ways > MAX_WAYS as u32 {
        Some(ShapeField::Ways)
    } else if sizes.regs < 1 || sizes.regs > MAX_REGS as u32 {
        Some(ShapeField::Regs)
    } else if sizes.depth < 1 || sizes.depth > MAX_DEPTH as u32 {
        Some(ShapeField::Depth)
    } else {
        bad_number(MAX_MEMORY, sizes)
    }
}

/// The same of a [`CacheUnit`](crate::CacheUnit): words of a block (1 to 16), ways (1 to 8),
/// registers (1 to 16), places (1 to 16), with at most 1,048,576 words of memory.
pub fn bad_field<const WAYS: usize, const WORDS: usize, const REGS: usize, const DEPTH: usize>(
    shape: &Shape,
) -> Option<ShapeField>
    ensures { result ≡ limits.bad_field (sizes_of WAYS WORDS REGS DEPTH shape.now) }
{
    if WORDS < 1 || WORDS > MAX_BLOCK_WORDS {
        Some(ShapeField::BlockWords)
    } else if WAYS < 1 || WAYS > MAX_CONST_WAYS {
        Some(ShapeField::Ways)
    } else if REGS < 1 || REGS > MAX_CONST_REGS {
        Some(ShapeField::Regs)
    } else if DEPTH < 1 || DEPTH > MAX_CONST_DEPTH {
        Some(ShapeField::Depth)
    } else {
        bad_number(MAX_WORDS, &sizes_of::<WAYS, WORDS, REGS, DEPTH>(shape))
    }
}

/// The numbers of a unit, four of them from its type.
pub fn sizes_of<const WAYS: usize, const WORDS: usize, const REGS: usize, const DEPTH: usize>(
    shape: &Shape,
) -> Sizes
    requires ways { WAYS ≤ MAX_WAYS }
    requires words { WORDS ≤ MAX_BLOCK_WORDS }
    requires registers { REGS ≤ MAX_REGS }
    requires places { DEPTH ≤ MAX_DEPTH }
    ensures { result ≡ sizes_of WAYS WORDS REGS DEPTH shape.now }
{
    Sizes {
        ways: WAYS as u32,
        block_words: WORDS as u32,
        regs: REGS as u32,
        depth: DEPTH as u32,
        words: shape.words,
        sets: shape.sets,
        banks: shape.banks,
        bank_queue: shape.bank_queue,
        write_queue: shape.write_queue,
        replies: shape.replies,
    }
}

// The first other number out of its range.
fn bad_number(most: u32, sizes: &Sizes) -> Option<ShapeField>
    requires some { 1 ≤ sizes.now.block_words }
    requires few { sizes.now.block_words ≤ MAX_BLOCK_WORDS }
    ensures { result ≡ limits.bad_number_within most sizes.now }
{
    let block = sizes.block_words;
    if sizes.words < 1 || sizes.words > most || sizes.words % block != 0 {
        Some(ShapeField::Words)
    } else if sizes.sets < 1 || sizes.sets > MAX_SETS {
        Some(ShapeField::Sets)
    } else if sizes.banks < 1 || sizes.banks > MAX_BANKS {
        Some(ShapeField::Banks)
    } else if sizes.bank_queue < (block + sizes.banks - 1) / sizes.banks
        || sizes.bank_queue > MAX_BANK_QUEUE
    {
        Some(ShapeField::BankQueue)
    } else if sizes.write_queue < block || sizes.write_queue > MAX_WRITE_QUEUE {
        Some(ShapeField::WriteQueue)
    } else if sizes.replies < 1 || sizes.replies > MAX_REPLIES {
        Some(ShapeField::Replies)
    } else {
        None
    }
}
