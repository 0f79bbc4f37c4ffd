//! A machine's parts as rows; `None` if there is none.
ghost use Rattle.std.specs.Prelude.{◌≡◌};
ghost use Rattle.machine_handles.specs.Parts as parts;

use crate::part_rows::{
    ArrivalRow, CommandRow, FrameRow, FrameWordRow, QueuedRow, bank_answer_row, command_row,
    entry_row, frame_row, frame_word_row, lookup_number, queued_row,
};
use flat_judge::{AnswerRow, answer_row};
use machine_core::ShapedMachine;

// Set `s` has the frames from `s` times its ways on.
#[tactic(auto, unfolding(crate::specs::Parts::frame_shown))]
pub(crate) fn frame_of(machine: &ShapedMachine, frame: u32) -> Option<FrameRow>
    ensures { result ≡ parts.frame_shown machine.now frame }
{
    // (its numbers are in their ranges, as its weight's contract says)
    let _weight = machine.weight();
    if frame < machine.sizes().sets * machine.sizes().ways {
        Some(frame_row(machine.frame_block(frame)))
    } else {
        None
    }
}

#[tactic(auto, unfolding(crate::specs::Parts::frame_word_shown))]
pub(crate) fn frame_word_of(machine: &ShapedMachine, frame: u32, i: u32) -> Option<FrameWordRow>
    ensures { result ≡ parts.frame_word_shown machine.now frame i }
{
    frame_word_row(machine.buffer_word(frame, i), machine.dirty(frame, i))
}

#[tactic(auto, unfolding(crate::specs::Parts::stack_shown))]
pub(crate) fn stack_entry_of(machine: &ShapedMachine, place: u32) -> Option<ArrivalRow>
    ensures { result ≡ parts.stack_shown machine.now place }
{
    machine.stack_entry(place).map(entry_row)
}

#[tactic(auto, unfolding(crate::specs::Parts::queue_shown))]
pub(crate) fn queue_entry_of(machine: &ShapedMachine, place: u32) -> Option<QueuedRow>
    ensures { result ≡ parts.queue_shown machine.now place }
{
    machine.queue_entry(place).map(queued_row)
}

#[tactic(auto, unfolding(crate::specs::Parts::command_shown))]
pub(crate) fn command_of(machine: &ShapedMachine, bank: u32, place: u32) -> Option<CommandRow>
    ensures { result ≡ parts.command_shown machine.now bank place }
{
    machine.command_at(bank, place).map(command_row)
}

#[tactic(auto, unfolding(crate::specs::Parts::bank_answer_shown))]
pub(crate) fn bank_answer_of(machine: &ShapedMachine, bank: u32, place: u32) -> Option<ArrivalRow>
    ensures { result ≡ parts.bank_answer_shown machine.now bank place }
{
    machine.answer_at(bank, place).map(bank_answer_row)
}

#[tactic(auto, unfolding(crate::specs::Parts::reply_shown))]
pub(crate) fn reply_of(machine: &ShapedMachine, place: u32) -> Option<AnswerRow>
    ensures { result ≡ parts.reply_shown machine.now place }
{
    machine.reply(place).map(|answer| answer_row(answer))
}

#[tactic(auto, unfolding(crate::specs::Parts::lookup_shown))]
pub(crate) fn lookup_of(machine: &ShapedMachine, at: u32) -> Option<u32>
    ensures { result ≡ parts.lookup_shown machine.now at }
{
    machine.find(at).map(lookup_number)
}
