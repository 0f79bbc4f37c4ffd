//! What the parts of the machine behind a handle show, and what a request would find.
ghost use Rattle.std.specs.Prelude.{◌≡◌};
ghost use Rattle.std.specs.Option.{option_map};
ghost use Rattle.machine_handles.specs.Behind.{standing, behind};
ghost use Rattle.machine_handles.specs.Parts as parts;
ghost use Rattle.machine_handles.specs.Calls.{found_status, shown_row};

use flat_judge::AnswerRow;
use machine_handles::{ArrivalRow, CommandRow, FrameRow, FrameWordRow, Handle, QueuedRow};
use std::alloc::Global;

/// What a frame shows.
#[unsafe(no_mangle)]
pub extern "C" fn kroft_machine_frame(
    alloc: Global,
    handle: &mut Handle,
    frame: u32,
    row: &mut FrameRow,
) -> u32
    ensures status { result
        ≡ found_status (option_map (λ m. parts.frame_shown m frame) (behind handle.old)) }
    ensures row { row.new
        ≡ shown_row row.old
        (option_map (λ m. parts.frame_shown m frame) (behind handle.old)) }
    ensures same { standing handle.new ≡ standing handle.old }
{
    machine_handles::frame(alloc, handle, frame, row)
}

/// Word `i` of the block that a frame holds.
#[unsafe(no_mangle)]
pub extern "C" fn kroft_machine_frame_word(
    alloc: Global,
    handle: &mut Handle,
    frame: u32,
    i: u32,
    row: &mut FrameWordRow,
) -> u32
    ensures status { result
        ≡ found_status (option_map (λ m. parts.frame_word_shown m frame i) (behind handle.old)) }
    ensures row { row.new
        ≡ shown_row row.old
        (option_map (λ m. parts.frame_word_shown m frame i) (behind handle.old)) }
    ensures same { standing handle.new ≡ standing handle.old }
{
    machine_handles::frame_word(alloc, handle, frame, i, row)
}

/// The word at `place` of the input stack, the one that came first at 0.
#[unsafe(no_mangle)]
pub extern "C" fn kroft_machine_stack_entry(
    alloc: Global,
    handle: &mut Handle,
    place: u32,
    row: &mut ArrivalRow,
) -> u32
    ensures status { result
        ≡ found_status (option_map (λ m. parts.stack_shown m place) (behind handle.old)) }
    ensures row { row.new
        ≡ shown_row row.old
        (option_map (λ m. parts.stack_shown m place) (behind handle.old)) }
    ensures same { standing handle.new ≡ standing handle.old }
{
    machine_handles::stack_entry(alloc, handle, place, row)
}

/// The word at `place` of the write queue, the one that is drained next at 0.
#[unsafe(no_mangle)]
pub extern "C" fn kroft_machine_queue_entry(
    alloc: Global,
    handle: &mut Handle,
    place: u32,
    row: &mut QueuedRow,
) -> u32
    ensures status { result
        ≡ found_status (option_map (λ m. parts.queue_shown m place) (behind handle.old)) }
    ensures row { row.new
        ≡ shown_row row.old
        (option_map (λ m. parts.queue_shown m place) (behind handle.old)) }
    ensures same { standing handle.new ≡ standing handle.old }
{
    machine_handles::queue_entry(alloc, handle, place, row)
}

/// The command at `place` of a bank, the one that is served next at 0.
#[unsafe(no_mangle)]
pub extern "C" fn kroft_machine_bank_command(
    alloc: Global,
    handle: &mut Handle,
    bank: u32,
    place: u32,
    row: &mut CommandRow,
) -> u32
    ensures status { result
        ≡ found_status (option_map (λ m. parts.command_shown m bank place) (behind handle.old)) }
    ensures row { row.new
        ≡ shown_row row.old
        (option_map (λ m. parts.command_shown m bank place) (behind handle.old)) }
    ensures same { standing handle.new ≡ standing handle.old }
{
    machine_handles::bank_command(alloc, handle, bank, place, row)
}

/// The answer at `place` of a bank, the oldest one at 0.
#[unsafe(no_mangle)]
pub extern "C" fn kroft_machine_bank_answer(
    alloc: Global,
    handle: &mut Handle,
    bank: u32,
    place: u32,
    row: &mut ArrivalRow,
) -> u32
    ensures status { result
        ≡ found_status (option_map (λ m. parts.bank_answer_shown m bank place) (behind handle.old)) }
    ensures row { row.new
        ≡ shown_row row.old
        (option_map (λ m. parts.bank_answer_shown m bank place) (behind handle.old)) }
    ensures same { standing handle.new ≡ standing handle.old }
{
    machine_handles::bank_answer(alloc, handle, bank, place, row)
}

/// The ready value at `place`, the first one at 0.
#[unsafe(no_mangle)]
pub extern "C" fn kroft_machine_reply(
    alloc: Global,
    handle: &mut Handle,
    place: u32,
    row: &mut AnswerRow,
) -> u32
    ensures status { result
        ≡ found_status (option_map (λ m. parts.reply_shown m place) (behind handle.old)) }
    ensures row { row.new
        ≡ shown_row row.old
        (option_map (λ m. parts.reply_shown m place) (behind handle.old)) }
    ensures same { standing handle.new ≡ standing handle.old }
{
    machine_handles::reply(alloc, handle, place, row)
}

/// What a request for the word at `at` would find now.
#[unsafe(no_mangle)]
pub extern "C" fn kroft_machine_find(
    alloc: Global,
    handle: &mut Handle,
    at: u32,
    lookup: &mut u32,
) -> u32
    ensures status { result
        ≡ found_status (option_map (λ m. parts.lookup_shown m at) (behind handle.old)) }
    ensures lookup { lookup.new
        ≡ shown_row lookup.old
        (option_map (λ m. parts.lookup_shown m at) (behind handle.old)) }
    ensures same { standing handle.new ≡ standing handle.old }
{
    machine_handles::find(alloc, handle, at, lookup)
}
