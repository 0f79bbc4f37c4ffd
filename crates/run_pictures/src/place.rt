//! The places of a picture.
ghost use Rattle.std.specs.Prelude.{◌≡◌, ◌*◌, ◌++◌, Some, OnOk, IfOk};
ghost use Rattle.machine_core.specs.Words.{MAX_WAITING};
ghost use Rattle.run_pictures.specs.Layouts.{fitted};
ghost use Rattle.run_pictures.specs.Places as spots;

use crate::layout::{answers_in, frames_in};
use machine_core::{MAX_WAITING, Sizes};
use std::alloc::{AllocError, Global};
use std::fmt;

/// The most words of memory that are drawn, from the first one on.
pub(crate) const MOST_MEMORY: u32 = 256;

/// A place of a picture: what of the machine is drawn there. Numbers count from 0.
#[derive(Clone, Copy, PartialEq, Eq, Debug)]
pub enum Place {
    /// A register.
    Register { slot: u32 },
    /// The same register, as `reg` shows it in a trace.
    Line { slot: u32 },
    /// What a register keeps of word `i` of its block.
    Field { slot: u32, i: u32 },
    /// One of the loads that wait for that word, in their order.
    Load { slot: u32, i: u32, place: u32 },
    /// A frame.
    Frame { frame: u32 },
    /// Word `i` of the block that a frame holds.
    Cell { frame: u32, i: u32 },
    /// An entry of the input stack.
    Stack { place: u32 },
    /// An entry of the write queue.
    Queue { place: u32 },
    /// A command that waits at a bank, the one that is served next at place 0.
    Command { bank: u32, place: u32 },
    /// An answer that stands in a bank, the one that was given first at place 0.
    Answer { bank: u32, place: u32 },
    /// A value that stands ready.
    Reply { place: u32 },
    /// A word of memory, as its bank has it.
    Memory { at: u32 },
}

/// The place's name in a page: a letter, and its numbers with a point between them.
impl fmt::Display for Place {
    fn fmt<W: fmt::Write>(&self, f: &mut fmt::Formatter<W>) -> fmt::Result {
        match *self {
            Place::Register { slot } => write!(f, "r{slot}"),
            Place::Line { slot } => write!(f, "g{slot}"),
            Place::Field { slot, i } => write!(f, "w{slot}.{i}"),
            Place::Load { slot, i, place } => write!(f, "l{slot}.{i}.{place}"),
            Place::Frame { frame } => write!(f, "f{frame}"),
            Place::Cell { frame, i } => write!(f, "c{frame}.{i}"),
            Place::Stack { place } => write!(f, "s{place}"),
            Place::Queue { place } => write!(f, "q{place}"),
            Place::Command { bank, place } => write!(f, "m{bank}.{place}"),
            Place::Answer { bank, place } => write!(f, "a{bank}.{place}"),
            Place::Reply { place } => write!(f, "v{place}"),
            Place::Memory { at } => write!(f, "b{at}"),
        }
    }
}

impl Place {
    // The place of this kind with this last number.
    fn nth(self, n: u32) -> Place
        ensures { result ≡ spots.nth self n }
    {
        match self {
            Place::Register { .. } => Place::Register { slot: n },
            Place::Line { .. } => Place::Line { slot: n },
            Place::Field { slot, .. } => Place::Field { slot, i: n },
            Place::Load { slot, i, .. } => Place::Load { slot, i, place: n },
            Place::Frame { .. } => Place::Frame { frame: n },
            Place::Cell { frame, .. } => Place::Cell { frame, i: n },
            Place::Stack { .. } => Place::Stack { place: n },
            Place::Queue { .. } => Place::Queue { place: n },
            Place::Command { bank, .. } => Place::Command { bank, place: n },
            Place::Answer { bank, .. } => Place::Answer { bank, place: n },
            Place::Reply { .. } => Place::Reply { place: n },
            Place::Memory { .. } => Place::Memory { at: n },
        }
    }
}

// So many places of a kind.
#[tactic(auto, using(trace_text::proofs::Ranges::flat_map_next))]
fn push_all(places: &mut Vec<Place>, first: Place, count: u32) -> Result<(), AllocError>
    ensures { OnOk result (places.new.items ≡ places.old.items ++ spots.all first count) }
{
    for n in 0..count {
        places.push(first.nth(n))?;
    }
    Ok(())
}

// A word of a register, and the loads that may wait for it.
fn push_field(places: &mut Vec<Place>, slot: u32, i: u32) -> Result<(), AllocError>
    ensures { OnOk result (places.new.items ≡ places.old.items ++ spots.field_places slot i) }
{
    let place = 0;
    places.push(Place::Field { slot, i })?;
    push_all(places, Place::Load { slot, i, place }, MAX_WAITING as u32)
}

#[tactic(auto, using(trace_text::proofs::Ranges::flat_map_next))]
fn push_register(places: &mut Vec<Place>, words: u32, slot: u32) -> Result<(), AllocError>
    ensures { OnOk result (places.new.items ≡ places.old.items ++ spots.register_places words slot) }
{
    places.push(Place::Register { slot })?;
    places.push(Place::Line { slot })?;
    for i in 0..words {
        push_field(places, slot, i)?;
    }
    Ok(())
}

#[tactic(auto, using(trace_text::proofs::Ranges::flat_map_next))]
fn push_registers(places: &mut Vec<Place>, sizes: &Sizes) -> Result<(), AllocError>
    ensures { OnOk result (places.new.items ≡ places.old.items ++ spots.all_registers sizes.now) }
{
    for slot in 0..sizes.regs {
        push_register(places, sizes.block_words, slot)?;
    }
    Ok(())
}

fn push_frame(places: &mut Vec<Place>, words: u32, frame: u32) -> Result<(), AllocError>
    ensures { OnOk result (places.new.items ≡ places.old.items ++ spots.frame_places words frame) }
{
    places.push(Place::Frame { frame })?;
    push_all(places, Place::Cell { frame, i: 0 }, words)
}

#[tactic(auto, using(trace_text::proofs::Ranges::flat_map_next))]
fn push_frames(places: &mut Vec<Place>, sizes: &Sizes) -> Result<(), AllocError>
    ensures { OnOk result (places.new.items ≡ places.old.items ++ spots.all_frames sizes.now) }
{
    for frame in 0..frames_in(sizes) {
        push_frame(places, sizes.block_words, frame)?;
    }
    Ok(())
}

// The registers ask for each word of their blocks once.
fn push_bank(places: &mut Vec<Place>, sizes: &Sizes, bank: u32) -> Result<(), AllocError>
    ensures { OnOk result (places.new.items ≡ places.old.items ++ spots.bank_places sizes.now bank) }
{
    push_all(places, Place::Command { bank, place: 0 }, sizes.bank_queue)?;
    push_all(places, Place::Answer { bank, place: 0 }, answers_in(sizes))
}

#[tactic(auto, using(trace_text::proofs::Ranges::flat_map_next))]
fn push_banks(places: &mut Vec<Place>, sizes: &Sizes) -> Result<(), AllocError>
    ensures { OnOk result (places.new.items ≡ places.old.items ++ spots.all_banks sizes.now) }
{
    for bank in 0..sizes.banks {
        push_bank(places, sizes, bank)?;
    }
    Ok(())
}

/// A picture's places in the order of drawing. Registers come with words and waiting loads, frames
/// with words. Then come the input stack, the write queue, each bank's commands and answers, the
/// ready values, and the first words of memory.
pub(crate) fn places_of(alloc: Global, sizes: &Sizes) -> Result<Vec<Place>, AllocError>
    ensures { IfOk result (λ places. places.items ≡ spots.places_in sizes.now) }
{
    let mut places = Vec::new(alloc);
    push_registers(&mut places, sizes)?;
    push_frames(&mut places, sizes)?;
    push_all(&mut places, Place::Stack { place: 0 }, sizes.depth)?;
    push_all(&mut places, Place::Queue { place: 0 }, sizes.write_queue)?;
    push_banks(&mut places, sizes)?;
    push_all(&mut places, Place::Reply { place: 0 }, sizes.replies)?;
    push_all(
        &mut places,
        Place::Memory { at: 0 },
        sizes.words.min(MOST_MEMORY),
    )?;
    Ok(places)
}
