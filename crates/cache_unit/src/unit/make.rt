//! A new unit.
ghost use Rattle.std.specs.Prelude.{◌≡◌, IfOk, IfErr, OnOk, None};
ghost use Rattle.memory_banks.specs.Memory.{fault_of};
ghost use Rattle.cache_law.specs.State.{opening_cache};
ghost use Rattle.cache_unit.specs.Limits as limits;

use crate::{ShapedUnit, Sizes, bad_size};
use arrayvec::ArrayVec;
use cache_directory::FrameTable;
use flat_model::MakeFault;
use input_stack::ArrivalStack;
use miss_registers::RegisterTable;
use std::alloc::Global;
use write_queue::WriteQueue;

impl ShapedUnit {
    /// An empty unit.
    ///
    /// `BadShape` names the first number out of its range, by [`bad_size`]. `OutOfMemory`: too
    /// little memory, and none is kept.
    pub fn new(alloc: Global, sizes: &Sizes) -> Result<Self, MakeFault>
        ensures ok { IfOk result
            (λ u. u ≡ record {
              sizes = sizes.now;
              cache = opening_cache sizes.now;
            }) }
        ensures in_range { OnOk result
            (limits.bad_size sizes.now ≡ None) }
        ensures fault { IfErr result
            (λ e. e ≡ fault_of (limits.bad_size sizes.now)) }
    {
        if let Some(field) = bad_size(sizes) {
            return Err(MakeFault::BadShape(field));
        }
        let directory = FrameTable::new(alloc, sizes.ways, sizes.sets)?;
        let registers = RegisterTable::new(alloc, sizes.regs)?;
        let queue = WriteQueue::new(alloc, sizes.write_queue)?;
        Ok(ShapedUnit {
            sizes: *sizes,
            directory,
            registers,
            stack: ArrivalStack::new(),
            queue,
            ready: ArrayVec::new(),
        })
    }
}
