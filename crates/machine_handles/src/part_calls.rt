//! Calls that show a machine's parts.
ghost use Rattle.std.specs.Prelude.{◌≡◌, Some};
ghost use Rattle.std.specs.Option.{option_map};
ghost use Rattle.machine_handles.specs.Behind.{standing, behind};
ghost use Rattle.machine_handles.specs.Parts as parts;
ghost use Rattle.machine_handles.specs.Calls.{found_status, shown_row};

use crate::handle::Handle;
use crate::part_rows::{ArrivalRow, CommandRow, FrameRow, FrameWordRow, QueuedRow};
use crate::parts::{
    bank_answer_of, command_of, frame_of, frame_word_of, lookup_of, queue_entry_of, reply_of,
    stack_entry_of,
};
use crate::status::{ABSENT, CLOSED, DONE};
use flat_judge::AnswerRow;
use std::alloc::Global;

// Tells what was found, if something was.
fn tell<T: Copy>(found: Option<T>, row: &mut T) -> u32
    ensures status { result ≡ found_status (Some found) }
    ensures row { row.new ≡ shown_row row.old (Some found) }
{
    match found {
        Some(shown) => {
            *row = shown;
            DONE
        }
        None => ABSENT,
    }
}

/// What a frame shows.
pub fn frame(alloc: Global, handle: &mut Handle, frame: u32, row: &mut FrameRow) -> u32
    ensures status { result
        ≡ found_status (option_map (λ m. parts.frame_shown m frame) (behind handle.old)) }
    ensures row { row.new
        ≡ shown_row row.old
        (option_map (λ m. parts.frame_shown m frame) (behind handle.old)) }
    ensures same { standing handle.new ≡ standing handle.old }
{
    let Some(kept) = handle.take(alloc) else {
        return CLOSED;
    };
    let found = frame_of(&kept.as_ref().machine, frame);
    handle.keep(kept);
    tell(found, row)
}

/// Word `i` of a frame's block.
pub fn frame_word(
    alloc: Global,
    handle: &mut Handle,
    frame: u32,
    i: u32,
    row: &mut FrameWordRow,
) -> u32
    ensures status { result
        ≡ found_status (option_map (λ m. parts.frame_word_shown m frame i) (behind handle.old)) }
    ensures row { row.new
        ≡ shown_row row.old
        (option_map (λ m. parts.frame_word_shown m frame i) (behind handle.old)) }
    ensures same { standing handle.new ≡ standing handle.old }
{
    let Some(kept) = handle.take(alloc) else {
        return CLOSED;
    };
    let found = frame_word_of(&kept.as_ref().machine, frame, i);
    handle.keep(kept);
    tell(found, row)
}

/// The stack's word at `place`, the oldest at 0.
pub fn stack_entry(alloc: Global, handle: &mut Handle, place: u32, row: &mut ArrivalRow) -> u32
    ensures status { result
        ≡ found_status (option_map (λ m. parts.stack_shown m place) (behind handle.old)) }
    ensures row { row.new
        ≡ shown_row row.old
        (option_map (λ m. parts.stack_shown m place) (behind handle.old)) }
    ensures same { standing handle.new ≡ standing handle.old }
{
    let Some(kept) = handle.take(alloc) else {
        return CLOSED;
    };
    let found = stack_entry_of(&kept.as_ref().machine, place);
    handle.keep(kept);
    tell(found, row)
}

/// The queue's word at `place`, the next one at 0.
pub fn queue_entry(alloc: Global, handle: &mut Handle, place: u32, row: &mut QueuedRow) -> u32
    ensures status { result
        ≡ found_status (option_map (λ m. parts.queue_shown m place) (behind handle.old)) }
    ensures row { row.new
        ≡ shown_row row.old
        (option_map (λ m. parts.queue_shown m place) (behind handle.old)) }
    ensures same { standing handle.new ≡ standing handle.old }
{
    let Some(kept) = handle.take(alloc) else {
        return CLOSED;
    };
    let found = queue_entry_of(&kept.as_ref().machine, place);
    handle.keep(kept);
    tell(found, row)
}

/// A bank's command at `place`, the next one at 0.
pub fn bank_command(
    alloc: Global,
    handle: &mut Handle,
    bank: u32,
    place: u32,
    row: &mut CommandRow,
) -> u32
    ensures status { result
        ≡ found_status (option_map (λ m. parts.command_shown m bank place) (behind handle.old)) }
    ensures row { row.new
        ≡ shown_row row.old
        (option_map (λ m. parts.command_shown m bank place) (behind handle.old)) }
    ensures same { standing handle.new ≡ standing handle.old }
{
    let Some(kept) = handle.take(alloc) else {
        return CLOSED;
    };
    let found = command_of(&kept.as_ref().machine, bank, place);
    handle.keep(kept);
    tell(found, row)
}

/// A bank's answer at `place`, the oldest at 0. An arrival with this place brings it.
pub fn bank_answer(
    alloc: Global,
    handle: &mut Handle,
    bank: u32,
    place: u32,
    row: &mut ArrivalRow,
) -> u32
    ensures status { result
        ≡ found_status (option_map (λ m. parts.bank_answer_shown m bank place) (behind handle.old)) }
    ensures row { row.new
        ≡ shown_row row.old
        (option_map (λ m. parts.bank_answer_shown m bank place) (behind handle.old)) }
    ensures same { standing handle.new ≡ standing handle.old }
{
    let Some(kept) = handle.take(alloc) else {
        return CLOSED;
    };
    let found = bank_answer_of(&kept.as_ref().machine, bank, place);
    handle.keep(kept);
    tell(found, row)
}

/// What a take at `place` would be answered.
pub fn reply(alloc: Global, handle: &mut Handle, place: u32, row: &mut AnswerRow) -> u32
    ensures status { result
        ≡ found_status (option_map (λ m. parts.reply_shown m place) (behind handle.old)) }
    ensures row { row.new
        ≡ shown_row row.old
        (option_map (λ m. parts.reply_shown m place) (behind handle.old)) }
    ensures same { standing handle.new ≡ standing handle.old }
{
    let Some(kept) = handle.take(alloc) else {
        return CLOSED;
    };
    let found = reply_of(&kept.as_ref().machine, place);
    handle.keep(kept);
    tell(found, row)
}

/// What a request for this word would find.
pub fn find(alloc: Global, handle: &mut Handle, at: u32, lookup: &mut u32) -> u32
    ensures status { result
        ≡ found_status (option_map (λ m. parts.lookup_shown m at) (behind handle.old)) }
    ensures lookup { lookup.new
        ≡ shown_row lookup.old
        (option_map (λ m. parts.lookup_shown m at) (behind handle.old)) }
    ensures same { standing handle.new ≡ standing handle.old }
{
    let Some(kept) = handle.take(alloc) else {
        return CLOSED;
    };
    let found = lookup_of(&kept.as_ref().machine, at);
    handle.keep(kept);
    tell(found, lookup)
}
