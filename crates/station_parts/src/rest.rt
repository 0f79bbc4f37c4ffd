//! Whether anything is under way.
ghost use Rattle.std.specs.Prelude.{◌≡◌, ◌≤◌, length, not};
ghost use Rattle.std.specs.List.{list_all};
ghost use Rattle.flat_model.specs.declared.limits.TheConstants.{MAX_REGS};
ghost use Rattle.cache_law.specs.State.{register_at};
ghost use Rattle.station_parts.specs.Rest.{is_at_rest};
ghost use Rattle.station_parts.specs.Words.{cache_in};

use crate::parts::CacheSide;
use cache_unit::ShapedUnit;

impl CacheSide {
    /// Whether no accepted load waits for its value or has it ready, no register is valid, and the write
    /// queue is empty. Dirty lanes may remain.
    pub fn is_at_rest(&self) -> bool
        ensures { result ≡ is_at_rest (cache_in self.now) }
    {
        self.unit.owed() == 0 && self.unit.queue_len() == 0 && are_free(&self.unit)
    }
}

fn are_free(unit: &ShapedUnit) -> bool
    requires number { length unit.now.cache.registers ≡ unit.now.sizes.regs }
    requires few { unit.now.sizes.regs ≤ MAX_REGS }
    ensures { result ≡ list_all (λ r. not r.valid) unit.now.cache.registers }
{
    for slot in 0..unit.sizes().regs {
        if is_valid(unit, slot) {
            return false;
        }
    }
    true
}

fn is_valid(unit: &ShapedUnit, slot: u32) -> bool
    ensures { result ≡ (register_at unit.now.cache slot).valid }
{
    match unit.register(slot) {
        Some(shown) => shown.valid,
        None => false,
    }
}
