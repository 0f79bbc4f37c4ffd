//! The calls of a machine behind a handle.
ghost use Rattle.std.specs.Prelude.{◌≡◌, Some};
ghost use Rattle.std.specs.Option.{option_map, unwrap_or};
ghost use Rattle.machine_core.specs.AnyMachine.{weight_of, is_settled, bank_shown, register_shown, field_shown, target_shown, pump_tells};
ghost use Rattle.machine_core.specs.AnyMachine.{pump_leaves};
ghost use Rattle.machine_handles.specs.Behind.{standing, standing_of, behind, idle, idle_in};
ghost use Rattle.flat_judge.specs.Rows.{event_of};
ghost use Rattle.machine_handles.specs.Rows as rows;
ghost use Rattle.machine_handles.specs.Calls.{apply_status, apply_row, applied, IsFlat, pump_status, pumped, told_status};
ghost use Rattle.machine_handles.specs.Calls.{found_status, found_row, pumped_event, pumped_answer, same_word};

use crate::handle::Handle;
use crate::kept::Kept;
use crate::status::{ABSENT, CLOSED, DONE, IN_ROUNDS, NO_EVENT};
use crate::views::{FieldRow, RegisterRow, TargetRow, field_row, register_row, target_row};
use flat_judge::{AnswerRow, EventRow, answer_row, event_row};
use flat_model::{Answer, Event, Word};
use machine_core::ShapedMachine;
use std::alloc::Global;

/// Makes one event.
pub fn apply(alloc: Global, handle: &mut Handle, event: &EventRow, answer: &mut AnswerRow) -> u32
    ensures status { result ≡ apply_status (standing handle.old) (event_of event.now) }
    ensures answer { answer.new
        ≡ apply_row (idle handle.old) (event_of event.now) answer.old }
    ensures machine { standing handle.new
        ≡ applied (standing handle.old) (event_of event.now) }
    ensures flat { IsFlat (idle handle.old) (event_of event.now) }
{
    let Some(mut kept) = handle.take(alloc) else {
        return CLOSED;
    };
    let status = apply_in(kept.as_mut(), event, answer);
    handle.keep(kept);
    status
}

// Makes one event, unless rounds make them.
#[tactic(auto, unfolding(machine_core::specs::AnyMachine::answered, machine_core::specs::AnyMachine::after_event, machine_core::specs::AnyMachine::flat))]
fn apply_in(kept: &mut Kept, event: &EventRow, answer: &mut AnswerRow) -> u32
    ensures status { result ≡ apply_status (Some (standing_of kept.old)) (event_of event.now) }
    ensures answer { answer.new
        ≡ apply_row (idle_in (Some (standing_of kept.old))) (event_of event.now) answer.old }
    ensures machine { Some (standing_of kept.new)
        ≡ applied (Some (standing_of kept.old)) (event_of event.now) }
    ensures flat { IsFlat (idle_in (Some (standing_of kept.old))) (event_of event.now) }
{
    if !kept.is_idle() {
        return IN_ROUNDS;
    }
    match event.event() {
        Some(event) => {
            *answer = answer_row(kept.machine.apply(event));
            DONE
        }
        None => NO_EVENT,
    }
}

/// Makes the first driver's event that is possible: a take, process, arrive, serve or drain.
pub fn pump(alloc: Global, handle: &mut Handle, event: &mut EventRow, answer: &mut AnswerRow) -> u32
    ensures status { result ≡ pump_status (standing handle.old) }
    ensures event { event.new
        ≡ found_row pumped_event event.old (option_map pump_tells (idle handle.old)) }
    ensures answer { answer.new
        ≡ found_row pumped_answer answer.old (option_map pump_tells (idle handle.old)) }
    ensures machine { standing handle.new ≡ pumped (standing handle.old) }
{
    let Some(mut kept) = handle.take(alloc) else {
        return CLOSED;
    };
    let status = pump_in(kept.as_mut(), event, answer);
    handle.keep(kept);
    status
}

#[tactic(auto, unfolding(machine_core::specs::AnyMachine::answered, machine_core::specs::AnyMachine::after_event, machine_core::specs::AnyMachine::pump_tells, machine_core::specs::AnyMachine::pump_leaves))]
fn pump_machine(machine: &mut ShapedMachine) -> Option<(Event, Answer)>
    ensures told { result ≡ pump_tells machine.old }
    ensures after { machine.new ≡ pump_leaves machine.old }
{
    machine.pump()
}

fn pump_in(kept: &mut Kept, event: &mut EventRow, answer: &mut AnswerRow) -> u32
    ensures status { result ≡ pump_status (Some (standing_of kept.old)) }
    ensures event { event.new
        ≡ found_row pumped_event event.old
        (option_map pump_tells (idle_in (Some (standing_of kept.old)))) }
    ensures answer { answer.new
        ≡ found_row pumped_answer answer.old
        (option_map pump_tells (idle_in (Some (standing_of kept.old)))) }
    ensures machine { Some (standing_of kept.new) ≡ pumped (Some (standing_of kept.old)) }
{
    if !kept.is_idle() {
        return IN_ROUNDS;
    }
    let made = pump_machine(&mut kept.machine);
    match made {
        Some((pumped, told)) => {
            *event = event_row(pumped);
            *answer = answer_row(told);
            DONE
        }
        None => ABSENT,
    }
}

/// What is on its way, weighed, and 1 in `settled` if memory has everything, else 0.
#[tactic(auto, unfolding(machine_core::specs::AnyMachine::weight_of, machine_core::specs::AnyMachine::is_settled))]
pub fn weight(alloc: Global, handle: &mut Handle, weight: &mut u64, settled: &mut u32) -> u32
    ensures status { result ≡ told_status (behind handle.old) }
    ensures weight { weight.new
        ≡ unwrap_or (option_map weight_of (behind handle.old)) weight.old }
    ensures settled { settled.new
        ≡ unwrap_or (option_map (λ m. rows.bit (is_settled m)) (behind handle.old)) settled.old }
    ensures same { standing handle.new ≡ standing handle.old }
{
    let Some(kept) = handle.take(alloc) else {
        return CLOSED;
    };
    *weight = kept.as_ref().machine.weight();
    *settled = u32::from(kept.as_ref().machine.settled());
    handle.keep(kept);
    DONE
}

/// The word of memory at `at`, as it stands in its bank.
#[tactic(auto, unfolding(machine_core::specs::AnyMachine::bank_shown))]
pub fn bank_word(alloc: Global, handle: &mut Handle, at: u32, word: &mut Word) -> u32
    ensures status { result
        ≡ found_status (option_map (λ m. bank_shown m at) (behind handle.old)) }
    ensures word { word.new
        ≡ found_row same_word word.old (option_map (λ m. bank_shown m at) (behind handle.old)) }
    ensures same { standing handle.new ≡ standing handle.old }
{
    let Some(kept) = handle.take(alloc) else {
        return CLOSED;
    };
    let found = kept.as_ref().machine.bank_word(at);
    handle.keep(kept);
    match found {
        Some(stored) => {
            *word = stored;
            DONE
        }
        None => ABSENT,
    }
}

/// What the register `slot` shows.
#[tactic(auto, unfolding(machine_core::specs::AnyMachine::register_shown))]
pub fn register(alloc: Global, handle: &mut Handle, slot: u32, row: &mut RegisterRow) -> u32
    ensures status { result
        ≡ found_status (option_map (λ m. register_shown m slot) (behind handle.old)) }
    ensures row { row.new
        ≡ found_row rows.register_row row.old
        (option_map (λ m. register_shown m slot) (behind handle.old)) }
    ensures same { standing handle.new ≡ standing handle.old }
{
    let Some(kept) = handle.take(alloc) else {
        return CLOSED;
    };
    let found = kept.as_ref().machine.register(slot);
    handle.keep(kept);
    match found {
        Some(view) => {
            *row = register_row(&view);
            DONE
        }
        None => ABSENT,
    }
}

/// Word `i` of a register's block.
#[tactic(auto, unfolding(machine_core::specs::AnyMachine::field_shown))]
pub fn field(alloc: Global, handle: &mut Handle, slot: u32, i: u32, row: &mut FieldRow) -> u32
    ensures status { result
        ≡ found_status (option_map (λ m. field_shown m slot i) (behind handle.old)) }
    ensures row { row.new
        ≡ found_row rows.field_row row.old
        (option_map (λ m. field_shown m slot i) (behind handle.old)) }
    ensures same { standing handle.new ≡ standing handle.old }
{
    let Some(kept) = handle.take(alloc) else {
        return CLOSED;
    };
    let found = kept.as_ref().machine.field(slot, i);
    handle.keep(kept);
    match found {
        Some(view) => {
            *row = field_row(&view);
            DONE
        }
        None => ABSENT,
    }
}

/// The load at `place` of those that wait for a register's word `i`, oldest first.
#[tactic(auto, unfolding(machine_core::specs::AnyMachine::target_shown))]
pub fn target(
    alloc: Global,
    handle: &mut Handle,
    slot: u32,
    i: u32,
    place: u32,
    row: &mut TargetRow,
) -> u32
    ensures status { result
        ≡ found_status (option_map (λ m. target_shown m slot i place) (behind handle.old)) }
    ensures row { row.new
        ≡ found_row rows.target_row row.old
        (option_map (λ m. target_shown m slot i place) (behind handle.old)) }
    ensures same { standing handle.new ≡ standing handle.old }
{
    let Some(kept) = handle.take(alloc) else {
        return CLOSED;
    };
    let found = kept.as_ref().machine.target(slot, i, place);
    handle.keep(kept);
    match found {
        Some(owed) => {
            *row = target_row(&owed);
            DONE
        }
        None => ABSENT,
    }
}
