//! The machine behind a handle: it is opened, makes its events, and is given up.
ghost use Rattle.std.specs.Prelude.{◌≡◌, ◌≢◌, None, length};
ghost use Rattle.std.specs.Option.{option_map, unwrap_or};
ghost use Rattle.machine_handles.specs.AnyMachine.{weight_of, is_settled, pump_tells};
ghost use Rattle.flat_judge.specs.Rows.{event_of};
ghost use Rattle.machine_handles.specs.Behind.{standing, behind, idle, alone};
ghost use Rattle.machine_handles.specs.Made as made;
ghost use Rattle.machine_handles.specs.Rows.{sizes_of, bit};
ghost use Rattle.machine_handles.specs.Opening.{open_fault, IsTold};
ghost use Rattle.machine_handles.specs.Calls.{apply_status, apply_row, applied, IsFlat, pump_status, pumped, told_status};
ghost use Rattle.machine_handles.specs.Calls.{found_row, pumped_event, pumped_answer};

use flat_judge::{AnswerRow, EventRow};
use flat_model::Word;
use machine_handles::{Handle, ShapeRow};
use std::alloc::Global;

/// Opens a machine over the words of an image, behind a closed handle.
#[unsafe(no_mangle)]
pub extern "C" fn kroft_machine_open(
    alloc: Global,
    handle: &mut Handle,
    shape: &ShapeRow,
    image: &[Word],
) -> u32
    ensures status { IsTold result
        (open_fault (behind handle.old) shape.now (length image.now)) }
    ensures machine { result ≡ 0
        → standing handle.new ≡ Some (alone (made.opened (sizes_of shape.now) image.now)) }
    ensures unchanged { result ≢ 0 → standing handle.new ≡ standing handle.old }
{
    machine_handles::open_machine(alloc, handle, shape, image)
}

/// Gives the machine up, with its rounds and all its memory.
#[unsafe(no_mangle)]
pub extern "C" fn kroft_machine_close(alloc: Global, handle: &mut Handle) -> u32
    ensures status { result ≡ told_status (standing handle.old) }
    ensures closed { standing handle.new ≡ None }
{
    machine_handles::free_machine(alloc, handle)
}

/// Makes one event.
#[unsafe(no_mangle)]
pub extern "C" fn kroft_machine_apply(
    alloc: Global,
    handle: &mut Handle,
    event: &EventRow,
    answer: &mut AnswerRow,
) -> u32
    ensures status { result ≡ apply_status (standing handle.old) (event_of event.now) }
    ensures answer { answer.new
        ≡ apply_row (idle handle.old) (event_of event.now) answer.old }
    ensures machine { standing handle.new
        ≡ applied (standing handle.old) (event_of event.now) }
    ensures flat { IsFlat (idle handle.old) (event_of event.now) }
{
    machine_handles::apply(alloc, handle, event, answer)
}

/// Makes the driver's event: the first that is possible of take, process, arrive, serve and drain.
#[unsafe(no_mangle)]
pub extern "C" fn kroft_machine_pump(
    alloc: Global,
    handle: &mut Handle,
    event: &mut EventRow,
    answer: &mut AnswerRow,
) -> u32
    ensures status { result ≡ pump_status (standing handle.old) }
    ensures event { event.new
        ≡ found_row pumped_event event.old (option_map pump_tells (idle handle.old)) }
    ensures answer { answer.new
        ≡ found_row pumped_answer answer.old (option_map pump_tells (idle handle.old)) }
    ensures machine { standing handle.new ≡ pumped (standing handle.old) }
{
    machine_handles::pump(alloc, handle, event, answer)
}

/// What is on its way, weighed, and whether memory has everything.
#[unsafe(no_mangle)]
pub extern "C" fn kroft_machine_weight(
    alloc: Global,
    handle: &mut Handle,
    weight: &mut u64,
    settled: &mut u32,
) -> u32
    ensures status { result ≡ told_status (behind handle.old) }
    ensures weight { weight.new
        ≡ unwrap_or (option_map weight_of (behind handle.old)) weight.old }
    ensures settled { settled.new
        ≡ unwrap_or (option_map (λ m. bit (is_settled m)) (behind handle.old)) settled.old }
    ensures same { standing handle.new ≡ standing handle.old }
{
    machine_handles::weight(alloc, handle, weight, settled)
}
