//! What the machine behind a handle shows.
ghost use Rattle.std.specs.Prelude.{◌≡◌};
ghost use Rattle.std.specs.Option.{option_map};
ghost use Rattle.machine_handles.specs.AnyMachine.{bank_shown, register_shown, field_shown, target_shown};
ghost use Rattle.machine_handles.specs.Behind.{standing, behind};
ghost use Rattle.machine_handles.specs.Rows as rows;
ghost use Rattle.machine_handles.specs.Calls.{found_status, found_row, same_word};

use flat_model::Word;
use machine_handles::{FieldRow, Handle, RegisterRow, TargetRow};
use std::alloc::Global;

/// The word of memory at `at`, as it stands in its bank.
#[unsafe(no_mangle)]
pub extern "C" fn kroft_machine_bank_word(
    alloc: Global,
    handle: &mut Handle,
    at: u32,
    word: &mut Word,
) -> u32
    ensures status { result
        ≡ found_status (option_map (λ m. bank_shown m at) (behind handle.old)) }
    ensures word { word.new
        ≡ found_row same_word word.old (option_map (λ m. bank_shown m at) (behind handle.old)) }
    ensures same { standing handle.new ≡ standing handle.old }
{
    machine_handles::bank_word(alloc, handle, at, word)
}

/// What the register `slot` shows.
#[unsafe(no_mangle)]
pub extern "C" fn kroft_machine_register(
    alloc: Global,
    handle: &mut Handle,
    slot: u32,
    row: &mut RegisterRow,
) -> u32
    ensures status { result
        ≡ found_status (option_map (λ m. register_shown m slot) (behind handle.old)) }
    ensures row { row.new
        ≡ found_row rows.register_row row.old
        (option_map (λ m. register_shown m slot) (behind handle.old)) }
    ensures same { standing handle.new ≡ standing handle.old }
{
    machine_handles::register(alloc, handle, slot, row)
}

/// What the register `slot` shows of word `i` of its block.
#[unsafe(no_mangle)]
pub extern "C" fn kroft_machine_field(
    alloc: Global,
    handle: &mut Handle,
    slot: u32,
    i: u32,
    row: &mut FieldRow,
) -> u32
    ensures status { result
        ≡ found_status (option_map (λ m. field_shown m slot i) (behind handle.old)) }
    ensures row { row.new
        ≡ found_row rows.field_row row.old
        (option_map (λ m. field_shown m slot i) (behind handle.old)) }
    ensures same { standing handle.new ≡ standing handle.old }
{
    machine_handles::field(alloc, handle, slot, i, row)
}

/// The load at `place` among those that wait for word `i` of register `slot`, the oldest at 0.
#[unsafe(no_mangle)]
pub extern "C" fn kroft_machine_target(
    alloc: Global,
    handle: &mut Handle,
    slot: u32,
    i: u32,
    place: u32,
    row: &mut TargetRow,
) -> u32
    ensures status { result
        ≡ found_status (option_map (λ m. target_shown m slot i place) (behind handle.old)) }
    ensures row { row.new
        ≡ found_row rows.target_row row.old
        (option_map (λ m. target_shown m slot i place) (behind handle.old)) }
    ensures same { standing handle.new ≡ standing handle.old }
{
    machine_handles::target(alloc, handle, slot, i, place, row)
}
