//! The machine of given numbers.

ghost use Rattle.std.specs.Prelude.{◌≡◌, ◌^◌, ◌<◌, ◌≤◌, None, IfOk};
ghost use Rattle.shape_files.specs.MachineFile.{bad_machine};
ghost use Rattle.flat_model.specs.declared.limits.TheConstants.{MAX_BANKS};
ghost use Rattle.machine_core.specs.Law.{most_weight};
ghost use Rattle.register_sweeps.specs.Sweep.{machine_over};

use flat_model::{Image, MakeFault};
use machine_core::{ShapedMachine, Sizes};
use std::alloc::{AllocError, Global};

/// A new machine of numbers in their ranges, over as much of an image as fits. An error: too little
/// memory.
pub fn new_machine(alloc: Global, sizes: &Sizes, image: &Image) -> Result<ShapedMachine, AllocError>
    requires sizes { bad_machine sizes.now ≡ None }
    ensures machine { IfOk result (λ machine. machine ≡ machine_over image.now sizes.now) }
    ensures banks { IfOk result (λ machine. machine.sizes.banks ≤ MAX_BANKS) }
    ensures few { IfOk result (λ machine. most_weight machine.sizes < 2 ^ 32) }
{
    let memory = image.memory(alloc, sizes.words)?;
    match ShapedMachine::new(alloc, sizes, memory.as_slice()) {
        Ok(machine) => Ok(machine),
        Err(MakeFault::OutOfMemory) => Err(AllocError),
        Err(MakeFault::BadShape(_)) => unreachable!(),
    }
}
