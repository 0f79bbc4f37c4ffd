//! What is asked of a machine that is driven in rounds.
ghost use Rattle.std.specs.Prelude.{◌≡◌, ◌<◌, ◌≤◌, ◌+◌};
ghost use Rattle.flat_model.specs.declared.limits.TheConstants.{MAX_BANK_QUEUE};
ghost use Rattle.machine_core.specs.Words.{InRange};
ghost use Rattle.machine_core.specs.Law.{greatest_weight};
ghost use Rattle.machine_core.specs.Whole.{IsWholeState};
ghost use Rattle.round_driver.specs.Details as details;
ghost use Rattle.round_driver.specs.Machines as machines;
ghost use Rattle.round_driver.specs.Rounds.{most_moves};

use flat_model::MAX_BANK_QUEUE;
use machine_core::{ShapedMachine, Sizes};

/// Numbers of a machine for its counts.
#[derive(Clone, Copy, PartialEq, Eq, Debug)]
pub struct MachineNumbers {
    /// Words of a block.
    pub block_words: usize,
    /// Sets of the cache.
    pub sets: u32,
    /// Registers.
    pub regs: usize,
    /// The most loads that are owed a value at once.
    pub replies: u32,
}

impl MachineNumbers {
    /// The set of the word at `at`, if the machine has it.
    pub fn set_of(self, at: u32) -> usize
        requires words { 0 < self.block_words }
        requires sets { 0 < self.sets }
        ensures { result ≡ details.set_of self at }
    {
        (at as usize / self.block_words) % self.sets as usize
    }
}

/// Does nothing. Its contract is what every machine keeps; so each run of requests ends.
pub fn keeps_whole(machine: &ShapedMachine)
    ensures { IsWholeState machine.now }
{
    let _weight = machine.weight();
}

// More moves than can follow while nothing is asked: each one makes what is on its way lighter.
pub(crate) fn most_moves(machine: &ShapedMachine) -> u64
    ensures value { result ≡ most_moves machine.now.sizes }
    ensures few { result ≤ greatest_weight + 1 }
{
    keeps_whole(machine);
    most_moves_for(machine.sizes())
}

// The same of numbers in their ranges.
fn most_moves_for(sizes: &Sizes) -> u64
    requires { InRange sizes.now }
    ensures value { result ≡ most_moves sizes.now }
    ensures few { result ≤ greatest_weight + 1 }
{
    let registers = 4 * u64::from(sizes.regs) * u64::from(sizes.block_words);
    let queued = u64::from(sizes.replies) + 2 * u64::from(sizes.write_queue);
    registers + queued + u64::from(sizes.banks) * u64::from(sizes.bank_queue) + 1
}

#[tactic(auto, unfolding(crate::specs::Machines::command_count))]
pub(crate) fn command_count(machine: &ShapedMachine, bank: u32) -> u32
    ensures value { result ≡ machines.command_count machine.now bank }
    ensures within { result ≤ MAX_BANK_QUEUE }
{
    let count = machine.commands(bank);
    if count <= MAX_BANK_QUEUE {
        return count;
    }
    // (Never so. It is asked here alone, since to weigh takes long.)
    keeps_whole(machine);
    count
}

#[tactic(auto, unfolding(crate::specs::Machines::has_answer))]
pub(crate) fn has_answer(machine: &ShapedMachine, bank: u32) -> bool
    ensures { result ≡ machines.has_answer machine.now bank }
{
    machine.answers(bank) > 0
}

#[tactic(auto, unfolding(crate::specs::Machines::has_stack_room))]
pub(crate) fn has_stack_room(machine: &ShapedMachine) -> bool
    ensures { result ≡ machines.has_stack_room machine.now }
{
    machine.stack_len() < machine.sizes().depth
}

pub(crate) fn numbers_of(machine: &ShapedMachine) -> MachineNumbers
    ensures { result ≡ details.numbers_of machine.now.sizes }
{
    let sizes = machine.sizes();
    MachineNumbers {
        block_words: sizes.block_words as usize,
        sets: sizes.sets,
        regs: sizes.regs as usize,
        replies: sizes.replies,
    }
}

#[tactic(auto, unfolding(crate::specs::Machines::used_at))]
fn used_at(machine: &ShapedMachine, slot: u32) -> u32
    ensures used { result ≡ machines.used_at machine.now slot }
    ensures few { result ≤ 1 }
{
    match machine.register(slot) {
        Some(register) => { if register.valid { 1 } else { 0 } }
        None => 0,
    }
}

fn used_among(machine: &ShapedMachine, number: u32) -> u32
    ensures { result ≡ machines.used_among machine.now number 0 }
{
    let mut used = 0;
    for slot in 0..number {
        used += used_at(machine, slot);
    }
    used
}

#[tactic(auto, unfolding(crate::specs::Machines::used_registers))]
pub(crate) fn used_registers(machine: &ShapedMachine) -> u32
    ensures { result ≡ machines.used_registers machine.now }
{
    used_among(machine, machine.sizes().regs)
}
