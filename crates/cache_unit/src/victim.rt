//! What a frame owes to memory when its block goes.
ghost use Rattle.std.specs.Prelude.{◌≡◌, ℕ, ◌+◌, ◌-◌, ◌*◌, ◌^◌, ◌<◌, ◌≤◌, ◌++◌, length, IsTrue, Some};
ghost use Rattle.flat_model.specs.declared.limits.TheConstants.{MAX_BLOCK_WORDS};
ghost use Rattle.cache_directory.specs.Frames.{IsWhole, frame_at, is_held};
ghost use Rattle.write_queue.specs.Queue.{queue as queue_of};
ghost use Rattle.cache_law.specs.Causes.{dirty_from, owed_words};
ghost use Rattle.cache_law.specs.Steps.{given_up};

use crate::Sizes;
use cache_directory::FrameTable;
use flat_model::{Lanes, Word, merge};
use write_queue::{Queued, WriteQueue};

#[inline(always)]
pub(crate) fn dirty_words(directory: &FrameTable, sizes: &Sizes, frame: u32) -> u32
    requires whole { IsWhole sizes.now.ways sizes.now.block_words directory.now }
    requires held { IsTrue (is_held directory.now frame) }
    ensures count { (block at : ℕ)
        → result ≡ length (dirty_from block at (frame_at directory.now.frames frame).cells) }
    ensures small { result ≤ MAX_BLOCK_WORDS }
{
    let mut count = 0;
    for i in 0..sizes.block_words {
        if directory.dirty(frame, i).has_any() {
            count += 1;
        }
    }
    count
}

// Queues the frame's dirty words in word order.
fn queue_dirty_words(
    directory: &FrameTable,
    queue: &mut WriteQueue,
    sizes: &Sizes,
    frame: u32,
    block: u32,
)
    requires whole { IsWhole sizes.now.ways sizes.now.block_words directory.now }
    requires held { IsTrue (is_held directory.now frame) }
    requires fits { block * sizes.now.block_words + sizes.now.block_words < 2 ^ 32 }
    requires room { length queue.old.entries + length
        (dirty_from block (block * sizes.now.block_words) (frame_at directory.now.frames frame).cells)
        ≤ queue.old.limit }
    ensures { queue.new ≡ queue_of
        (queue.old.entries ++ dirty_from block (block * sizes.now.block_words)
        (frame_at directory.now.frames frame).cells) queue.old.limit }
{
    for i in 0..sizes.block_words {
        let lanes = directory.dirty(frame, i);
        if lanes.has_any() {
            queue.push(Queued {
                block,
                at: block * sizes.block_words + i,
                word: merge(Word::default(), directory.word(frame, i), lanes),
                lanes,
            });
        }
    }
}

/// Empties the frame: its dirty words are queued.
pub(crate) fn vacate(directory: &mut FrameTable, queue: &mut WriteQueue, sizes: &Sizes, frame: u32)
    requires whole { IsWhole sizes.now.ways sizes.now.block_words directory.old }
    requires frame { frame < length directory.old.frames }
    requires fits { (block : ℕ) → (frame_at directory.old.frames frame).block ≡ Some block
        → block * sizes.now.block_words + sizes.now.block_words < 2 ^ 32 }
    requires room { length queue.old.entries + length (owed_words sizes.now.block_words directory.old frame)
        ≤ queue.old.limit }
    ensures directory { directory.new ≡ given_up sizes.now.ways directory.old frame }
    ensures queue { queue.new
        ≡ queue_of (queue.old.entries ++ owed_words sizes.now.block_words directory.old frame) queue.old.limit }
    ensures whole { IsWhole sizes.now.ways sizes.now.block_words directory.new }
{
    if let Some(block) = directory.block_of(frame) {
        queue_dirty_words(directory, queue, sizes, frame, block);
        directory.release(sizes.ways, frame);
    }
}
