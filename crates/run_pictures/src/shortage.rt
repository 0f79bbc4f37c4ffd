//! What there was too little room for, in words.

ghost use Rattle.std.specs.Prelude.{◌≡◌};
ghost use Rattle.run_pictures.specs.Phrases.{text_of};
ghost use Rattle.run_pictures.specs.Words as words;

use crate::cells::is_pending;
use crate::layout::{bank_in, frames_in, set_in, set_of_frame};
use crate::phrase::Phrase;
use crate::reasons::block_about;
use flat_model::Event;
use machine_core::{Queued, ShapedMachine, Sizes};

/// Why an event was refused that would have queued dirty words.
pub(crate) fn queue_full(machine: &ShapedMachine, event: Event) -> Phrase
    ensures { text_of result ≡ words.queue_words machine.now event }
{
    let free = free_places(machine);
    match victim(machine, event) {
        Some(frame) => Phrase::TooMany {
            free,
            dirty: dirty_count(machine, frame),
        },
        None => Phrase::Between(
            "the write queue has ",
            free,
            " free places, too few for the victim's dirty words",
        ),
    }
}

#[tactic(auto, unfolding(crate::specs::Words::free_places))]
fn free_places(machine: &ShapedMachine) -> u32
    ensures { result ≡ words.free_places machine.now }
{
    machine
        .sizes()
        .write_queue
        .saturating_sub(machine.queue_len())
}

#[tactic(auto, unfolding(crate::specs::Words::is_dirty))]
fn is_dirty(machine: &ShapedMachine, frame: u32, i: u32) -> bool
    ensures { result ≡ words.is_dirty machine.now frame i }
{
    match machine.dirty(frame, i) {
        Some(lanes) => lanes.has_any(),
        None => false,
    }
}

#[tactic(auto, unfolding(crate::specs::Words::dirty_count))]
fn dirty_count(machine: &ShapedMachine, frame: u32) -> usize
    ensures { result ≡ words.dirty_count machine.now frame }
{
    let words = machine.sizes().block_words;
    (0..words).filter(|i| is_dirty(machine, frame, *i)).count()
}

#[tactic(auto, unfolding(crate::specs::Words::is_whole_in))]
fn is_whole_in(machine: &ShapedMachine, set: u32, frame: u32, block: u32) -> bool
    ensures { result ≡ words.is_whole_in machine.now set frame block }
{
    set_of_frame(machine.sizes(), frame) == set && !is_pending(machine, block)
}

// An eviction takes its block's frame; a miss one of its set that waits for no word.
#[tactic(auto, unfolding(crate::specs::Words::may_go))]
fn may_go(machine: &ShapedMachine, event: Event, frame: u32) -> bool
    ensures { result ≡ words.may_go machine.now event frame }
{
    let Some(held) = machine.frame_block(frame) else {
        return false;
    };
    match event {
        Event::Evict { block } => held == block,
        _ => {
            let sizes = machine.sizes();
            let set = set_in(sizes, block_about(sizes, event));
            is_whole_in(machine, set, frame, held)
        }
    }
}

#[tactic(auto, unfolding(crate::specs::Words::count_that_may_go))]
fn count_that_may_go(machine: &ShapedMachine, event: Event) -> usize
    ensures { result ≡ words.count_that_may_go machine.now event }
{
    let frames = frames_in(machine.sizes());
    (0..frames)
        .filter(|frame| may_go(machine, event, *frame))
        .count()
}

#[tactic(auto, unfolding(crate::specs::Words::first_that_may_go))]
fn first_that_may_go(machine: &ShapedMachine, event: Event) -> Option<u32>
    ensures { result ≡ words.first_that_may_go machine.now event }
{
    let frames = frames_in(machine.sizes());
    (0..frames).find(|frame| may_go(machine, event, *frame))
}

// `None` if several may go: which came first isn't shown.
#[tactic(auto, unfolding(crate::specs::Words::victim))]
fn victim(machine: &ShapedMachine, event: Event) -> Option<u32>
    ensures { result ≡ words.victim machine.now event }
{
    if count_that_may_go(machine, event) == 1 {
        first_that_may_go(machine, event)
    } else {
        None
    }
}

pub(crate) fn bank_full(machine: &ShapedMachine, event: Event) -> Phrase
    ensures { text_of result ≡ words.bank_words machine.now event }
{
    match event {
        Event::Drain => no_room(machine.sizes(), machine.queue_entry(0)),
        _ => bank_short(machine, block_about(machine.sizes(), event)),
    }
}

fn no_room(sizes: &Sizes, front: Option<Queued>) -> Phrase
    ensures { text_of result ≡ words.no_room_words sizes.now front }
{
    match front {
        Some(front) => Phrase::Full {
            bank: bank_in(sizes, u64::from(front.at)),
        },
        None => Phrase::Word(""),
    }
}

fn bank_short(machine: &ShapedMachine, block: u32) -> Phrase
    ensures { text_of result ≡ words.short_words machine.now block (words.short_bank machine.now block) }
{
    match short_bank(machine, block) {
        Some(bank) => Phrase::Short {
            bank,
            room: room_at(machine, bank),
            reads: reads_in(machine.sizes(), block, bank),
        },
        None => Phrase::Word(""),
    }
}

fn lies_in(sizes: &Sizes, block: u32, bank: u32, i: u32) -> bool
    ensures { result ≡ words.lies_in sizes.now block bank i }
{
    let first = u64::from(block) * u64::from(sizes.block_words);
    bank_in(sizes, first + u64::from(i)) == u64::from(bank)
}

#[tactic(auto, unfolding(crate::specs::Words::reads_in))]
fn reads_in(sizes: &Sizes, block: u32, bank: u32) -> usize
    ensures { result ≡ words.reads_in sizes.now block bank }
{
    (0..sizes.block_words)
        .filter(|i| lies_in(sizes, block, bank, *i))
        .count()
}

#[tactic(auto, unfolding(crate::specs::Words::room_at))]
fn room_at(machine: &ShapedMachine, bank: u32) -> u32
    ensures { result ≡ words.room_at machine.now bank }
{
    machine
        .sizes()
        .bank_queue
        .saturating_sub(machine.commands(bank))
}

#[tactic(auto, unfolding(crate::specs::Words::is_short))]
fn is_short(machine: &ShapedMachine, block: u32, bank: u32) -> bool
    ensures { result ≡ words.is_short machine.now block bank }
{
    (room_at(machine, bank) as usize) < reads_in(machine.sizes(), block, bank)
}

#[tactic(auto, unfolding(crate::specs::Words::short_bank))]
fn short_bank(machine: &ShapedMachine, block: u32) -> Option<u32>
    ensures { result ≡ words.short_bank machine.now block }
{
    let banks = machine.sizes().banks;
    (0..banks).find(|bank| is_short(machine, block, *bank))
}
