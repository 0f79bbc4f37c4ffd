//! The signals of a waveform.
ghost use Rattle.std.specs.Prelude.{◌≡◌, ◌++◌, Some, OnOk, IfOk};
ghost use Rattle.std.specs.List.{flat_map, range_with_len};
ghost use Rattle.run_pictures.specs.Waves as waves;

use crate::cells::is_valid;
use crate::level::{Kind, Level};
use crate::step::Made;
use flat_model::{Answer, Event};
use machine_core::{RegisterView, ShapedMachine, Sizes};
use std::alloc::{AllocError, Global};
use std::fmt;

/// What a signal of a waveform follows. Numbers count from 0.
#[derive(Clone, Copy, PartialEq, Eq, Debug)]
pub enum Signal {
    /// The event's kind, as a word: `load` and the like, and `start` before the first event.
    EventKind,
    /// The tag of a load, or of the value that is taken.
    Tag,
    /// The address of the word that a load, store or prefetch asks for.
    Address,
    /// The machine's answer without its numbers, as a word: `accepted` and the like, and `none` before
    /// the first event.
    AnswerKind,
    /// The number of the cause of a refusal.
    Cause,
    /// Whether another answer was recorded: one bit.
    Differs,
    /// Whether a register stands for a block: one bit.
    Valid { slot: u32 },
    /// Whether its block lost its frame: one bit.
    Obsolete { slot: u32 },
    /// The register's block.
    Block { slot: u32 },
    /// The words of the input stack.
    Stack,
    /// The words of the write queue.
    Queue,
    /// The commands that wait at a bank.
    Commands { bank: u32 },
    /// The answers that stand in a bank.
    Answers { bank: u32 },
    /// The values that stand ready.
    Replies,
}

/// The signal's name in the waveform.
impl fmt::Display for Signal {
    ghost output = { λ signal. Some (waves.name_text signal) };

    fn fmt<W: fmt::Write>(&self, f: &mut fmt::Formatter<W>) -> fmt::Result {
        match *self {
            Signal::EventKind => f.write_str("event"),
            Signal::Tag => f.write_str("tag"),
            Signal::Address => f.write_str("address"),
            Signal::AnswerKind => f.write_str("answer"),
            Signal::Cause => f.write_str("cause"),
            Signal::Differs => f.write_str("differs"),
            Signal::Valid { slot } => write!(f, "reg{slot}_valid"),
            Signal::Obsolete { slot } => write!(f, "reg{slot}_obsolete"),
            Signal::Block { slot } => write!(f, "reg{slot}_block"),
            Signal::Stack => f.write_str("input_stack"),
            Signal::Queue => f.write_str("write_queue"),
            Signal::Commands { bank } => write!(f, "bank{bank}_commands"),
            Signal::Answers { bank } => write!(f, "bank{bank}_answers"),
            Signal::Replies => f.write_str("ready"),
        }
    }
}

impl Signal {
    /// How many bits it has: 1, 16 or 32. A word is declared as one.
    pub fn width(self) -> u32
        ensures { result ≡ waves.width_of self }
    {
        match self {
            Signal::EventKind | Signal::AnswerKind | Signal::Differs => 1,
            Signal::Valid { .. } | Signal::Obsolete { .. } => 1,
            Signal::Tag => 16,
            _ => 32,
        }
    }

    /// What it is declared as: a word, or bits.
    pub(crate) fn type_word(self) -> &'static str
        ensures { result.now ≡ waves.type_text self }
    {
        match self {
            Signal::EventKind | Signal::AnswerKind => "string",
            _ => "wire",
        }
    }

    /// What it stands at behind an event that was made, or before the first one, in a machine of this state.
    #[tactic(auto, unfolding(machine_core::specs::AnyMachine::register_shown))]
    pub(crate) fn level(self, machine: &ShapedMachine, made: Option<Made>) -> Level
        ensures { result ≡ waves.level_at made machine.now self }
    {
        match self {
            Signal::EventKind => Level::Kind(Kind::of_event(made)),
            Signal::Tag => Level::known(tag_of(made)),
            Signal::Address => Level::known(address_of(made)),
            Signal::AnswerKind => Level::Kind(Kind::of_answer(made)),
            Signal::Cause => Level::known(cause_of(made)),
            Signal::Differs => Level::Bit(is_other(made)),
            Signal::Valid { slot } => Level::Bit(is_valid(machine.register(slot))),
            Signal::Obsolete { slot } => Level::Bit(is_obsolete(machine.register(slot))),
            Signal::Block { slot } => Level::Number(block_number(machine.register(slot))),
            Signal::Stack => Level::Number(machine.stack_len()),
            Signal::Queue => Level::Number(machine.queue_len()),
            Signal::Commands { bank } => Level::Number(machine.commands(bank)),
            Signal::Answers { bank } => Level::Number(machine.answers(bank)),
            Signal::Replies => Level::Number(machine.replies_len()),
        }
    }
}

fn tag_of(made: Option<Made>) -> Option<u32>
    ensures { result ≡ waves.tag_of made }
{
    let made = made?;
    match made.event {
        Event::Load { tag, .. } => Some(u32::from(tag)),
        _ => value_tag(made.answer),
    }
}

fn value_tag(answer: Answer) -> Option<u32>
    ensures { result ≡ waves.value_tag answer }
{
    match answer {
        Answer::Value { tag, .. } => Some(u32::from(tag)),
        _ => None,
    }
}

fn address_of(made: Option<Made>) -> Option<u32>
    ensures { result ≡ waves.address_of made }
{
    match made?.event {
        Event::Load { at, .. } | Event::Store { at, .. } | Event::Prefetch { at } => Some(at),
        _ => None,
    }
}

fn cause_of(made: Option<Made>) -> Option<u32>
    ensures { result ≡ waves.cause_of made }
{
    match made?.answer {
        Answer::Refused(cause) => Some(u32::from(cause.number())),
        _ => None,
    }
}

fn is_other(made: Option<Made>) -> bool
    ensures { result ≡ waves.is_other made }
{
    match made {
        Some(made) => made.other.is_some(),
        None => false,
    }
}

fn is_obsolete(register: Option<RegisterView>) -> bool
    ensures { result ≡ waves.is_obsolete register }
{
    match register {
        Some(register) => register.obsolete,
        None => false,
    }
}

fn block_number(register: Option<RegisterView>) -> u32
    ensures { result ≡ waves.block_number register }
{
    match register {
        Some(register) => register.block,
        None => 0,
    }
}

#[tactic(auto, using(trace_text::proofs::Ranges::flat_map_next))]
fn push_registers(signals: &mut Vec<Signal>, sizes: &Sizes) -> Result<(), AllocError>
    ensures { OnOk result
        (signals.new.items ≡ signals.old.items ++ flat_map waves.register_signals (range_with_len 0 sizes.now.regs)) }
{
    for slot in 0..sizes.regs {
        signals.extend_from_slice(&[
            Signal::Valid { slot },
            Signal::Obsolete { slot },
            Signal::Block { slot },
        ])?;
    }
    Ok(())
}

#[tactic(auto, using(trace_text::proofs::Ranges::flat_map_next))]
fn push_banks(signals: &mut Vec<Signal>, sizes: &Sizes) -> Result<(), AllocError>
    ensures { OnOk result
        (signals.new.items ≡ signals.old.items ++ flat_map waves.bank_signals (range_with_len 0 sizes.now.banks)) }
{
    for bank in 0..sizes.banks {
        signals.extend_from_slice(&[Signal::Commands { bank }, Signal::Answers { bank }])?;
    }
    Ok(())
}

/// A machine's signals in the order of declaration.
pub(crate) fn signals_of(alloc: Global, sizes: &Sizes) -> Result<Vec<Signal>, AllocError>
    ensures { IfOk result (λ signals. signals.items ≡ waves.signals_in sizes.now) }
{
    let mut signals = Vec::new(alloc);
    signals.extend_from_slice(&[
        Signal::EventKind,
        Signal::Tag,
        Signal::Address,
        Signal::AnswerKind,
        Signal::Cause,
        Signal::Differs,
    ])?;
    push_registers(&mut signals, sizes)?;
    signals.push(Signal::Stack)?;
    signals.push(Signal::Queue)?;
    push_banks(&mut signals, sizes)?;
    signals.push(Signal::Replies)?;
    Ok(signals)
}
