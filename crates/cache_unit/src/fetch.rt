//! A miss, on the parts of the unit.
ghost use Rattle.std.specs.Prelude.{◌≡◌, ℕ, ◌+◌, ◌*◌, ◌/◌, ◌^◌, ◌<◌, ◌≤◌, ◌++◌, length, false, None, Some, slice_set};
ghost use Rattle.cache_directory.specs.Frames as dir;
ghost use Rattle.miss_registers.specs.Registers as regs;
ghost use Rattle.miss_registers.specs.Whole as whole;
ghost use Rattle.write_queue.specs.Queue.{queue as queue_of};
ghost use Rattle.memory_banks.specs.Banks.{HasSent, commands_for};
ghost use Rattle.cache_law.specs.Reads.{block_reads};
ghost use Rattle.cache_law.specs.Miss.{chosen_frame};
ghost use Rattle.cache_law.specs.Causes.{owed_words};
ghost use Rattle.cache_law.specs.Begun.{begun_register};
ghost use Rattle.cache_law.specs.Steps.{frames_with};

use crate::begin::begin_words;
use crate::reads::send_reads;
use crate::victim::{dirty_words, vacate};
use crate::{Places, Sizes};
use cache_directory::{Choice, FrameTable};
use memory_banks::Lines;
use miss_registers::RegisterTable;
use write_queue::WriteQueue;

/// The frame for an absent block: a free one, else the oldest resident one. `None`: all are
/// pending.
pub(crate) fn choose_frame(directory: &FrameTable, sizes: &Sizes, block: u32) -> Option<u32>
    requires { dir.IsWhole sizes.now.ways sizes.now.block_words directory.now }
    ensures { result ≡ chosen_frame
        (dir.chosen sizes.now.ways directory.now (dir.set_of directory.now block)) }
{
    match directory.choose(sizes.ways, block) {
        Choice::Free(frame) => Some(frame),
        Choice::Victim(frame) => Some(frame),
        Choice::AllPending => None,
    }
}

#[inline(always)]
pub(crate) fn words_owed(directory: &FrameTable, sizes: &Sizes, frame: u32) -> u32
    requires whole { dir.IsWhole sizes.now.ways sizes.now.block_words directory.now }
    requires frame { frame < length directory.now.frames }
    ensures { result ≡ length (owed_words sizes.now.block_words directory.now frame) }
{
    match directory.block_of(frame) {
        Some(_) => dirty_words(directory, sizes, frame),
        None => 0,
    }
}

/// Brings an absent block in: the victim goes, the newest queued bytes come, the register waits,
/// and reads go to the banks.
pub(crate) fn bring_in<L: Lines>(
    directory: &mut FrameTable,
    registers: &mut RegisterTable,
    queue: &mut WriteQueue,
    lines: &mut L,
    sizes: &Sizes,
    block: u32,
    places: Places,
)
    requires whole { dir.IsWhole sizes.now.ways sizes.now.block_words directory.old }
    requires whole_file { whole.IsWhole sizes.now.block_words sizes.now.regs registers.old }
    requires absent { dir.frame_of directory.old.frames block ≡ None }
    requires frame { places.frame < length directory.old.frames }
    requires of_set { places.frame / sizes.now.ways ≡ dir.set_of directory.old block }
    requires slot { places.slot < length registers.old }
    requires free { (regs.register_at registers.old places.slot).valid ≡ false }
    requires no_live { regs.live_for registers.old block ≡ None }
    requires fits { block * sizes.now.block_words + sizes.now.block_words < 2 ^ 32 }
    requires held_fits { (b : ℕ) → (dir.frame_at directory.old.frames places.frame).block ≡ Some b
        → b * sizes.now.block_words + sizes.now.block_words < 2 ^ 32 }
    requires room { length queue.old.entries + length (owed_words sizes.now.block_words directory.old places.frame)
        ≤ queue.old.limit }
    requires some_banks { 0 < sizes.now.banks }
    requires bank_room { (b : ℕ)
        → length (commands_for b
        (block_reads places.slot (block * sizes.now.block_words) sizes.now.block_words sizes.now.banks
        sizes.now.block_words))
        ≤ L.room_of lines.old b }
    ensures directory { directory.new
        ≡ frames_with sizes.now.ways sizes.now.block_words
        (dir.released sizes.now.ways directory.old places.frame)
        (queue.old.entries ++ owed_words sizes.now.block_words directory.old places.frame) places.frame
        block }
    ensures registers { registers.new
        ≡ slice_set registers.old places.slot
        (begun_register sizes.now.block_words
        (queue.old.entries ++ owed_words sizes.now.block_words directory.old places.frame) block
        places.frame) }
    ensures queue { queue.new
        ≡ queue_of (queue.old.entries ++ owed_words sizes.now.block_words directory.old places.frame)
        queue.old.limit }
    ensures lines { HasSent L.sent_to L.room_of L.same lines.old lines.new
        (block_reads places.slot (block * sizes.now.block_words) sizes.now.block_words sizes.now.banks sizes.now.block_words) }
    ensures whole { dir.IsWhole sizes.now.ways sizes.now.block_words directory.new }
    ensures whole_file { whole.IsWhole sizes.now.block_words sizes.now.regs registers.new }
{
    let Places { frame, slot } = places;
    vacate(directory, queue, sizes, frame);
    directory.install(sizes.ways, sizes.block_words, frame, block);
    registers.allocate(sizes.block_words, slot, block, frame);
    begin_words(directory, registers, queue, sizes, frame, slot, block);
    send_reads(
        lines,
        slot,
        block * sizes.block_words,
        sizes.block_words,
        sizes.banks,
    );
}
