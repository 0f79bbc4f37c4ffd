//! What stands at each place of a picture.
ghost use Rattle.std.specs.Prelude.{◌≡◌};
ghost use Rattle.flat_model.specs.Memory.{shown};
ghost use Rattle.run_pictures.specs.Cells as cells;

use crate::place::Place;
use crate::shown::{Shown, Way};
use flat_model::{Answer, FlatMemory, Lanes, MAX_REGS, Word};
use machine_core::{
    BankAnswer, Command, Entry, FieldView, Owed, Queued, RegisterView, ShapedMachine,
};

fn register_seen(register: Option<RegisterView>) -> Shown
    ensures { result ≡ cells.register_seen register }
{
    let Some(register) = register else {
        return Shown::Nothing;
    };
    let block = register.block;
    let frame = register.frame;
    let came = register.processed;
    if !register.valid {
        Shown::Free
    } else if register.obsolete {
        Shown::Obsolete { block, came }
    } else {
        Shown::Valid { block, frame, came }
    }
}

pub(crate) fn is_valid(register: Option<RegisterView>) -> bool
    ensures { result ≡ cells.is_valid register }
{
    match register {
        Some(register) => register.valid,
        None => false,
    }
}

fn way_of(field: FieldView) -> Way
    ensures { result ≡ cells.way_of field }
{
    if field.processed {
        Way::Processed
    } else if field.in_stack {
        Way::InStack
    } else {
        Way::Missing
    }
}

fn with_code(way: Way, code: Lanes) -> Shown
    ensures { result ≡ cells.with_code way code }
{
    if code.has_any() {
        Shown::Coded(way, code)
    } else {
        Shown::Field(way)
    }
}

fn field_seen(is_used: bool, field: Option<FieldView>) -> Shown
    ensures { result ≡ cells.field_seen is_used field }
{
    match field {
        Some(field) if is_used => with_code(way_of(field), field.code),
        _ => Shown::Nothing,
    }
}

fn owed(load: Owed, due: Option<Word>) -> Shown
    ensures { result ≡ cells.owed load due }
{
    let tag = load.tag;
    let lanes = load.lanes;
    let held = load.held;
    match due {
        Some(word) if lanes.has_any() => Shown::Holding {
            tag,
            word,
            lanes,
            held,
        },
        Some(word) => Shown::Owed { tag, word },
        None => Shown::Load { tag },
    }
}

fn is_awaited(is_used: bool, field: Option<FieldView>) -> bool
    ensures { result ≡ cells.is_awaited is_used field }
{
    match field {
        Some(field) => is_used && !field.processed,
        None => false,
    }
}

fn load_seen(flat: &FlatMemory, is_awaited: bool, load: Option<Owed>) -> Shown
    ensures { result ≡ cells.load_seen (shown flat.now) is_awaited load }
{
    match load {
        Some(load) if is_awaited => owed(load, flat.due_word(load.tag)),
        _ => Shown::Nothing,
    }
}

#[tactic(auto, unfolding(crate::specs::Cells::is_live_for, machine_core::specs::AnyMachine::register_shown))]
fn is_live_for(machine: &ShapedMachine, slot: u32, block: u32) -> bool
    ensures { result ≡ cells.is_live_for machine.now slot block }
{
    match machine.register(slot) {
        Some(register) => register.valid && !register.obsolete && register.block == block,
        None => false,
    }
}

#[tactic(auto, unfolding(crate::specs::Cells::is_pending))]
pub(crate) fn is_pending(machine: &ShapedMachine, block: u32) -> bool
    ensures { result ≡ cells.is_pending machine.now block }
{
    (0..MAX_REGS as u32).any(|slot| is_live_for(machine, slot, block))
}

fn frame_seen(machine: &ShapedMachine, block: Option<u32>) -> Shown
    ensures { result ≡ cells.frame_seen machine.now block }
{
    match block {
        Some(block) if is_pending(machine, block) => Shown::Pending(block),
        Some(block) => Shown::Block(block),
        None => Shown::Nothing,
    }
}

fn cell_seen(word: Option<Word>, dirty: Option<Lanes>) -> Shown
    ensures { result ≡ cells.cell_seen word dirty }
{
    match (word, dirty) {
        (Some(word), Some(dirty)) if dirty.has_any() => Shown::Dirty(word, dirty),
        (Some(word), Some(_)) => Shown::Word(word),
        _ => Shown::Nothing,
    }
}

fn entry_seen(entry: Option<Entry>) -> Shown
    ensures { result ≡ cells.entry_seen entry }
{
    match entry {
        Some(Entry { slot, i, word }) => Shown::Entry { slot, i, word },
        None => Shown::Nothing,
    }
}

fn queued_seen(queued: Option<Queued>) -> Shown
    ensures { result ≡ cells.queued_seen queued }
{
    match queued {
        Some(q) => Shown::Queued {
            at: q.at,
            block: q.block,
            lanes: q.lanes,
            word: q.word,
        },
        None => Shown::Nothing,
    }
}

fn command_seen(command: Option<Command>) -> Shown
    ensures { result ≡ cells.command_seen command }
{
    match command {
        Some(Command::Read { slot, i, place }) => Shown::Read { place, slot, i },
        Some(Command::Write { place, word, lanes }) => Shown::Write { place, lanes, word },
        None => Shown::Nothing,
    }
}

fn answer_seen(answer: Option<BankAnswer>) -> Shown
    ensures { result ≡ cells.answer_seen answer }
{
    match answer {
        Some(BankAnswer { slot, i, word }) => Shown::Entry { slot, i, word },
        None => Shown::Nothing,
    }
}

fn reply_seen(reply: Option<Answer>) -> Shown
    ensures { result ≡ cells.reply_seen reply }
{
    match reply {
        Some(Answer::Value { tag, word }) => Shown::Value { tag, word },
        _ => Shown::Nothing,
    }
}

fn memory_seen(word: Option<Word>) -> Shown
    ensures { result ≡ cells.memory_seen word }
{
    match word {
        Some(word) => Shown::Word(word),
        None => Shown::Nothing,
    }
}

/// What stands at a place. `flat` is what loads are owed. A register's line is that of
/// [`register_text`](trace_text::register_text), and nothing stands there.
#[tactic(auto, unfolding(machine_core::specs::AnyMachine::register_shown, machine_core::specs::AnyMachine::field_shown, machine_core::specs::AnyMachine::target_shown, machine_core::specs::AnyMachine::bank_shown))]
pub fn shown_at(machine: &ShapedMachine, flat: &FlatMemory, place: Place) -> Shown
    ensures { result ≡ cells.shown_at machine.now (shown flat.now) place }
{
    match place {
        Place::Register { slot } => register_seen(machine.register(slot)),
        Place::Line { .. } => Shown::Nothing,
        Place::Field { slot, i } => {
            field_seen(is_valid(machine.register(slot)), machine.field(slot, i))
        }
        Place::Load { slot, i, place } => {
            let is_awaited = is_awaited(is_valid(machine.register(slot)), machine.field(slot, i));
            load_seen(flat, is_awaited, machine.target(slot, i, place))
        }
        Place::Frame { frame } => frame_seen(machine, machine.frame_block(frame)),
        Place::Cell { frame, i } => {
            cell_seen(machine.buffer_word(frame, i), machine.dirty(frame, i))
        }
        Place::Stack { place } => entry_seen(machine.stack_entry(place)),
        Place::Queue { place } => queued_seen(machine.queue_entry(place)),
        Place::Command { bank, place } => command_seen(machine.command_at(bank, place)),
        Place::Answer { bank, place } => answer_seen(machine.answer_at(bank, place)),
        Place::Reply { place } => reply_seen(machine.reply(place)),
        Place::Memory { at } => memory_seen(machine.bank_word(at)),
    }
}

/// A place of a picture, what stands there, and whether the step changed it.
#[derive(Clone, Copy)]
pub(crate) struct Cell {
    pub(crate) place: Place,
    pub(crate) shown: Shown,
    pub(crate) is_changed: bool,
}

impl Cell {
    /// Before the first event.
    pub(crate) fn first(machine: &ShapedMachine, flat: &FlatMemory, place: Place) -> Cell
        ensures { result ≡ cells.first_cell machine.now (shown flat.now) place }
    {
        Cell {
            place,
            shown: shown_at(machine, flat, place),
            is_changed: false,
        }
    }

    /// The same place in a machine that stands so now.
    pub(crate) fn behind(&self, machine: &ShapedMachine, flat: &FlatMemory) -> Cell
        ensures { result ≡ cells.cell_behind machine.now (shown flat.now) self.now }
    {
        let shown = shown_at(machine, flat, self.place);
        Cell {
            place: self.place,
            shown,
            is_changed: self.shown != shown,
        }
    }
}
