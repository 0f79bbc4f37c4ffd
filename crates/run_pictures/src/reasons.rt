//! What an event did, or why it didn't, in words.

ghost use Rattle.std.specs.Prelude.{◌≡◌};
ghost use Rattle.run_pictures.specs.Phrases.{text_of};
ghost use Rattle.run_pictures.specs.Words as words;

use crate::before::Before;
use crate::layout::{bank_in, block_in, set_in};
use crate::phrase::Phrase;
use crate::shortage::{bank_full, queue_full};
use flat_model::{Answer, Cause, Event};
use machine_core::{BankAnswer, Entry, Lookup, Queued, ShapedMachine, Sizes};

/// What an event did, or why it didn't, as a sentence without full stop.
///
/// It speaks of the machine before the event: [`Before::new`] reads `before` there. `machine`
/// has had the event, which it answered with `answer`. The sentence has the numbers that it
/// rests on, as the block or the free places.
pub fn words_by(machine: &ShapedMachine, before: Before, event: Event, answer: Answer) -> Phrase
    ensures { text_of result ≡ words.words_by before machine.now event answer }
{
    match answer {
        Answer::Accepted => accepted(machine.sizes(), event, before.found),
        Answer::Moved => moved(machine.sizes(), before, event),
        Answer::Value { tag, word } => Phrase::Taken { tag, word },
        Answer::Nothing => idle(event),
        Answer::Refused(cause) => refused(machine, event, cause),
    }
}

// Block 0 for events without one.
pub(crate) fn block_about(sizes: &Sizes, event: Event) -> u32
    ensures { result ≡ words.block_about sizes.now event }
{
    match event {
        Event::Load { at, .. } | Event::Store { at, .. } | Event::Prefetch { at } => {
            block_in(sizes, at)
        }
        Event::Evict { block } => block,
        _ => 0,
    }
}

fn accepted(sizes: &Sizes, event: Event, found: Option<Lookup>) -> Phrase
    ensures { text_of result ≡ words.accepted_words sizes.now event found }
{
    match event {
        Event::Evict { block } => Phrase::Between("the frame of block ", block, " is given up"),
        _ => requested(block_about(sizes, event), event, found),
    }
}

fn requested(block: u32, event: Event, found: Option<Lookup>) -> Phrase
    ensures { text_of result ≡ words.request_words block event found }
{
    match found {
        Some(Lookup::Hit) => Phrase::Word(hit(event)),
        Some(Lookup::Join) => Phrase::Word(joined(event)),
        Some(Lookup::Miss) => Phrase::Between(
            "a miss: a register is taken, and block ",
            block,
            "'s words are asked for",
        ),
        None => Phrase::Word(""),
    }
}

fn hit(event: Event) -> &'static str
    ensures { result.now ≡ words.hit_words event }
{
    match event {
        Event::Load { .. } => "a hit: the value stands ready",
        Event::Store { .. } => "a hit: the frame's word is changed",
        _ => "the word is in its frame already",
    }
}

fn joined(event: Event) -> &'static str
    ensures { result.now ≡ words.join_words event }
{
    match event {
        Event::Load { .. } => "the word is on its way: the load waits for it",
        Event::Store { .. } => "the word is on its way: the code keeps the stored bytes from it",
        _ => "the word is on its way already",
    }
}

fn moved(sizes: &Sizes, before: Before, event: Event) -> Phrase
    ensures { text_of result ≡ words.moved_words sizes.now before event }
{
    match event {
        Event::Drain => drained(sizes, before.front),
        Event::Serve { bank } => Phrase::Between("bank ", bank, " serves its first command"),
        Event::Arrive { bank, .. } => arrived(bank, before.answer),
        Event::Process { .. } => processed(before.entry),
        _ => Phrase::Word(""),
    }
}

fn drained(sizes: &Sizes, front: Option<Queued>) -> Phrase
    ensures { text_of result ≡ words.drained_words sizes.now front }
{
    match front {
        Some(front) => Phrase::Sent {
            lanes: front.lanes,
            at: front.at,
            bank: bank_in(sizes, u64::from(front.at)),
        },
        None => Phrase::Word(""),
    }
}

fn arrived(bank: u32, answer: Option<BankAnswer>) -> Phrase
    ensures { text_of result ≡ words.arrived_words bank answer }
{
    match answer {
        Some(BankAnswer { slot, i, .. }) => Phrase::Given { bank, i, slot },
        None => Phrase::Word(""),
    }
}

fn processed(entry: Option<Entry>) -> Phrase
    ensures { text_of result ≡ words.processed_words entry }
{
    match entry {
        Some(entry) => Phrase::Around(
            "word ",
            entry.i,
            " of register ",
            entry.slot,
            "'s block has come: its loads are answered",
        ),
        None => Phrase::Word(""),
    }
}

fn idle(event: Event) -> Phrase
    ensures { text_of result ≡ words.idle_words event }
{
    match event {
        Event::Drain => Phrase::Word("the write queue is empty"),
        Event::Serve { bank } => Phrase::One("no command waits at bank ", bank),
        Event::Arrive { bank, place } => {
            Phrase::Two("no answer stands at place ", place, " of bank ", bank)
        }
        Event::Process { place } => {
            Phrase::Between("no word stands at place ", place, " of the input stack")
        }
        Event::Take { place } => Phrase::One("no value stands ready at place ", place),
        _ => Phrase::Word(""),
    }
}

fn refused(machine: &ShapedMachine, event: Event, cause: Cause) -> Phrase
    ensures { text_of result ≡ words.refused_words machine.now event cause }
{
    match cause {
        Cause::TagInUse => in_use(machine, event),
        Cause::QueueFull => queue_full(machine, event),
        Cause::BankFull => bank_full(machine, event),
        _ => limited(machine.sizes(), event, cause),
    }
}

// What the machine's numbers alone explain.
fn limited(sizes: &Sizes, event: Event, cause: Cause) -> Phrase
    ensures { text_of result ≡ words.limit_words sizes.now event cause }
{
    match cause {
        Cause::OutOfRange => outside(sizes, event),
        Cause::RepliesFull => Phrase::One(
            "the limit of outstanding loads is reached: ",
            sizes.replies,
        ),
        Cause::NoRegister => Phrase::One("all registers are in use: ", sizes.regs),
        Cause::SetPending => Phrase::Between(
            "every way of set ",
            set_in(sizes, block_about(sizes, event)),
            " waits for words",
        ),
        Cause::NotPresent => Phrase::One("no frame holds block ", block_about(sizes, event)),
        Cause::StackFull => Phrase::Between("the input stack is full: ", sizes.depth, " words"),
        _ => Phrase::Word(cause.words()),
    }
}

fn outside(sizes: &Sizes, event: Event) -> Phrase
    ensures { text_of result ≡ words.outside_words sizes.now event }
{
    match event {
        Event::Load { at, .. } | Event::Store { at, .. } | Event::Prefetch { at } => {
            word_outside(sizes, at)
        }
        Event::Evict { block } => block_outside(block, block_in(sizes, sizes.words)),
        _ => Phrase::Word(""),
    }
}

fn word_outside(sizes: &Sizes, at: u32) -> Phrase
    ensures { text_of result ≡ words.word_outside sizes.now at }
{
    Phrase::Around(
        "word ",
        at,
        " is outside memory, which has ",
        sizes.words,
        " words",
    )
}

fn block_outside(block: u32, blocks: u32) -> Phrase
    ensures { text_of result ≡ words.block_outside block blocks }
{
    Phrase::Around(
        "block ",
        block,
        " is outside memory, which has ",
        blocks,
        " blocks",
    )
}

#[tactic(auto, unfolding(crate::specs::Words::is_ready))]
fn is_ready(machine: &ShapedMachine, tag: u16, place: u32) -> bool
    ensures { result ≡ words.is_ready machine.now tag place }
{
    match machine.reply(place) {
        Some(Answer::Value { tag: ready, .. }) => ready == tag,
        _ => false,
    }
}

#[tactic(auto, unfolding(crate::specs::Words::has_value))]
fn has_value(machine: &ShapedMachine, tag: u16) -> bool
    ensures { result ≡ words.has_value machine.now tag }
{
    (0..machine.replies_len()).any(|place| is_ready(machine, tag, place))
}

#[tactic(auto, unfolding(crate::specs::Words::tag_words))]
fn tag_taken(machine: &ShapedMachine, tag: u16) -> Phrase
    ensures { text_of result ≡ words.tag_words machine.now tag }
{
    if has_value(machine, tag) {
        Phrase::Between(
            "the value of tag ",
            u32::from(tag),
            " stands ready, and wasn't taken",
        )
    } else {
        Phrase::Between("a load of tag ", u32::from(tag), " waits for its word")
    }
}

fn in_use(machine: &ShapedMachine, event: Event) -> Phrase
    ensures { text_of result ≡ words.in_use_words machine.now event }
{
    match event {
        Event::Load { tag, .. } => tag_taken(machine, tag),
        _ => Phrase::Word(""),
    }
}
