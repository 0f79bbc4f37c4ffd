//! What the program draws of a trace.

ghost use Rattle.std.specs.Prelude.{◌≡◌, None};
ghost use Rattle.run_pictures.specs.Drawn.{Shows};
ghost use Rattle.shape_files.specs.MachineFile.{bad_machine};
ghost use Rattle.register_sweeps.specs.Sweep.{machine_over};

use flat_model::Image;
use register_sweeps::{Sizes, new_machine};
use run_pictures::{Form, ShowFault, show_text};
use std::alloc::Global;
use trace_text::Source;

/// Draws a machine at each event of a trace or of a recorded run, as `show_text` does.
pub fn show<I: Source>(
    alloc: Global,
    sizes: &Sizes,
    image: &Image,
    form: Form,
    input: &mut I,
) -> Result<String, ShowFault>
    requires sizes { bad_machine sizes.now ≡ None }
    ensures { Shows I.gave I.failed form image.now (machine_over image.now sizes.now) input.old input.new result }
{
    let Ok(machine) = new_machine(alloc, sizes, image) else {
        return Err(ShowFault::OutOfMemory);
    };
    show_text(alloc, input, machine, image, form)
}
