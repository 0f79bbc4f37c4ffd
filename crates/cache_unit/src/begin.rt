//! How a miss begins the words of its block.
ghost use Rattle.std.specs.Prelude.{◌≡◌, ◌+◌, ◌*◌, ◌^◌, ◌<◌, length, slice_set};
ghost use Rattle.cache_directory.specs.Frames.{IsWhole, frame_at, fresh_frame, with_frame};
ghost use Rattle.miss_registers.specs.Registers.{register_at, fresh};
ghost use Rattle.miss_registers.specs.Whole as file;
ghost use Rattle.cache_law.specs.Begun.{begun_frame, begun_register};

use crate::Sizes;
use cache_directory::FrameTable;
use flat_model::Lanes;
use miss_registers::RegisterTable;
use write_queue::WriteQueue;

/// A new block's words get their newest queued bytes, which the arriving words mustn't change.
pub(crate) fn begin_words(
    directory: &mut FrameTable,
    registers: &mut RegisterTable,
    queue: &WriteQueue,
    sizes: &Sizes,
    frame: u32,
    slot: u32,
    block: u32,
)
    requires whole { IsWhole sizes.now.ways sizes.now.block_words directory.old }
    requires whole_file { file.IsWhole sizes.now.block_words sizes.now.regs registers.old }
    requires fits { block * sizes.now.block_words + sizes.now.block_words < 2 ^ 32 }
    requires frame { frame < length directory.old.frames }
    requires fresh { frame_at directory.old.frames frame ≡ fresh_frame sizes.now.block_words block }
    requires slot { slot < length registers.old }
    requires allocated { register_at registers.old slot ≡ fresh sizes.now.block_words block frame }
    ensures directory { directory.new
        ≡ with_frame directory.old frame (begun_frame sizes.now.block_words queue.now.entries block) }
    ensures whole { IsWhole sizes.now.ways sizes.now.block_words directory.new }
    ensures whole_file { file.IsWhole sizes.now.block_words sizes.now.regs registers.new }
    ensures registers { registers.new
        ≡ slice_set registers.old slot (begun_register sizes.now.block_words queue.now.entries block frame) }
{
    for i in 0..sizes.block_words {
        let newest = queue.newest(block * sizes.block_words + i);
        directory.fill(frame, i, newest.word, Lanes::none());
        registers.note_store(slot, i, newest.lanes);
    }
}
