//! Which operations are open, and which events are malformed.

ghost use Rattle.std.specs.Prelude.{◌≡◌, length};
ghost use Rattle.std.specs.List.{find, list_any};
ghost use Rattle.atomic_histories.specs.Operations.{has_number, without_number, answer_fault, form_fault};

use crate::unit::Operation;
use memory_histories::{
    HistoryEvent, HistoryFault, enables_any, has_enabled, is_inside, request_fault,
    store_response_fault,
};

// Whether an operation has this number.
fn has_number(operation: &Operation, number: u64) -> bool
    ensures { result ≡ has_number number operation.now }
{
    operation.number == number
}

// Whether an operation is open under this number.
fn is_open(operations: &[Operation], number: u64) -> bool
    ensures { result ≡ list_any (has_number number) operations.now }
{
    operations
        .iter()
        .any(|operation| has_number(operation, number))
}

// The operation that is open under this number.
pub(crate) fn open_under(operations: &[Operation], number: u64) -> Option<Operation>
    ensures { result ≡ find (has_number number) operations.now }
{
    operations
        .iter()
        .copied()
        .find(|operation| has_number(operation, number))
}

// It is answered.
pub(crate) fn close(operations: &mut Vec<Operation>, number: u64)
    ensures { operations.new.items ≡ without_number number operations.old.items }
{
    operations.retain(|operation| !has_number(operation, number));
}

// Why so many bytes aren't the load's answer.
fn answer_fault(load: Option<Operation>, length: usize) -> Option<HistoryFault>
    ensures { result ≡ answer_fault load length }
{
    match load {
        None => Some(HistoryFault::NotOpen),
        Some(load) => {
            if load.length == length {
                None
            } else {
                Some(HistoryFault::WrongLength)
            }
        }
    }
}

pub(crate) fn form_fault(
    loads: &[Operation],
    stores: &[Operation],
    event: HistoryEvent,
) -> Option<HistoryFault>
    ensures { result ≡ form_fault (record { loads = loads.now; stores = stores.now }) event.entry }
{
    match event {
        HistoryEvent::LoadRequest {
            number,
            address,
            length,
            enables,
        } => request_fault(
            is_inside(address, length),
            enables_any(length, enables),
            is_open(loads, number),
        ),
        HistoryEvent::LoadResponse { number, bytes } => {
            answer_fault(open_under(loads, number), bytes.len())
        }
        HistoryEvent::StoreRequest {
            number,
            address,
            bytes,
            enables,
        } => request_fault(
            is_inside(address, bytes.len()),
            has_enabled(bytes, enables),
            is_open(stores, number),
        ),
        HistoryEvent::StoreResponse { number } => store_response_fault(is_open(stores, number)),
    }
}
