//! The weight of what is on its way.
ghost use Rattle.std.specs.Prelude.{◌≡◌, ℕ, ◌<◌, ◌≤◌, ◌^◌, true, length};
ghost use Rattle.flat_model.specs.declared.limits.TheConstants.{MAX_BANKS, MAX_REGS, MAX_BLOCK_WORDS};
ghost use Rattle.memory_banks.specs.Banks.{bank_at};
ghost use Rattle.cache_law.specs.State.{register_at, field_at};
ghost use Rattle.machine_core.specs.Pump.{total, bank_weight, field_weight, register_weight};

use cache_unit::ShapedUnit;
use memory_banks::Banks;

/// 4 for each queued read, 1 for each queued write, 3 for each answer.
pub(crate) fn weight_of_banks(banks: &Banks, number: u32) -> u64
    requires number { length banks.now.banks ≡ number }
    requires few { number ≤ MAX_BANKS }
    ensures value { result ≡ total bank_weight banks.now.banks }
    ensures small { result < 2 ^ 48 }
{
    let mut weight = 0;
    for bank in 0..number {
        weight += weight_of_bank(banks, bank);
    }
    weight
}

fn weight_of_bank(banks: &Banks, bank: u32) -> u64
    ensures value { result ≡ bank_weight (bank_at banks.now.banks bank) }
    ensures small { result < 2 ^ 40 }
{
    let commands = u64::from(banks.queued(bank)) + 3 * u64::from(banks.reads(bank));
    commands + 3 * u64::from(banks.answers(bank))
}

/// 1 for each load behind the first one of its word.
pub(crate) fn weight_of_registers(unit: &ShapedUnit) -> u64
    requires few { unit.now.sizes.regs ≤ MAX_REGS }
    requires few_words { unit.now.sizes.block_words ≤ MAX_BLOCK_WORDS }
    requires registers { length unit.now.cache.registers ≡ unit.now.sizes.regs }
    requires fields { (s : ℕ) → (register_at unit.now.cache s).valid ≡ true
        → length (register_at unit.now.cache s).fields ≡ unit.now.sizes.block_words }
    ensures value { result ≡ total register_weight unit.now.cache.registers }
    ensures small { result < 2 ^ 48 }
{
    // One load alone adds nothing, and mostly there is no other.
    if unit.owed() - unit.replies_len() < 2 {
        return 0;
    }
    let mut weight = 0;
    for slot in 0..unit.sizes().regs {
        weight += weight_of_register(unit, slot);
    }
    weight
}

fn weight_of_register(unit: &ShapedUnit, slot: u32) -> u64
    requires few_words { unit.now.sizes.block_words ≤ MAX_BLOCK_WORDS }
    requires slot { slot < length unit.now.cache.registers }
    requires fields { (register_at unit.now.cache slot).valid ≡ true
        → length (register_at unit.now.cache slot).fields ≡ unit.now.sizes.block_words }
    ensures value { result ≡ register_weight (register_at unit.now.cache slot) }
    ensures small { result < 2 ^ 40 }
{
    match unit.register(slot) {
        Some(register) if register.valid => weight_of_fields(unit, slot),
        _ => 0,
    }
}

fn weight_of_fields(unit: &ShapedUnit, slot: u32) -> u64
    requires few_words { unit.now.sizes.block_words ≤ MAX_BLOCK_WORDS }
    requires slot { slot < length unit.now.cache.registers }
    requires fields { length (register_at unit.now.cache slot).fields ≡ unit.now.sizes.block_words }
    ensures value { result ≡ total field_weight (register_at unit.now.cache slot).fields }
    ensures small { result < 2 ^ 40 }
{
    let mut weight = 0;
    for i in 0..unit.sizes().block_words {
        weight += weight_of_field(unit, slot, i);
    }
    weight
}

fn weight_of_field(unit: &ShapedUnit, slot: u32, i: u32) -> u64
    requires slot { slot < length unit.now.cache.registers }
    requires word { i < unit.now.sizes.block_words }
    ensures value { result ≡ field_weight (field_at unit.now.cache slot i) }
    ensures small { result < 2 ^ 32 }
{
    match unit.field(slot, i) {
        Some(field) if !field.processed => u64::from(field.targets.saturating_sub(1)),
        _ => 0,
    }
}
