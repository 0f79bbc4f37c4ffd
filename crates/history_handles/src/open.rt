//! Opening and freeing a history.
ghost use Rattle.std.specs.Prelude.{◌≡◌, ◌≢◌, None, IfErr, OnOk, OnErr};
ghost use Rattle.history_handles.specs.Behind.{behind};
ghost use Rattle.history_handles.specs.Coverage.{coverage_behind};
ghost use Rattle.history_handles.specs.Opening.{chosen, law_of, unit_of, of_bytes, rest_of, open_fault, open_number, fault_or_memory};
ghost use Rattle.history_handles.specs.Opening.{IsTold, IsOpened, told_status};

use crate::handle::HistoryHandle;
use crate::history::OpenHistory;
use crate::status::{CLOSED, DONE, NO_LAW, OPEN_ALREADY, OUT_OF_MEMORY};
use atomic_histories::{DEFAULT_LIMIT, UnitSize};
use history_sessions::{HistoryLaw, HistorySession};
use memory_histories::Rest;
use std::alloc::{AllocError, Global};

#[derive(Clone, Copy)]
pub(crate) enum OpenFault {
    OpenAlready,
    /// No law has this number or unit, or `rest` is neither.
    NoLaw,
    OutOfMemory,
}

impl From<AllocError> for OpenFault {
    ghost use Rattle.std.specs.Prelude.{◌≡◌};
    ghost use Rattle.history_handles.specs.declared.open.OpenFault.TheVariants.{OutOfMemory};

    ghost from_gives = { λ e f. f ≡ OutOfMemory };

    fn from(_fault: AllocError) -> OpenFault {
        OpenFault::OutOfMemory
    }
}

/// Opens an empty history behind a closed handle.
///
/// `law` 0 is regular, 1 flat, 2 atomic. `unit`: bytes read and written as one, 1, and also 2, 4 or
/// 8 by the atomic law, aligned. Memory begins with the image from address 0 on; beyond it `rest` 0
/// says zeros, 1 unknown.
///
/// 0: opened. 102: open already. 103: no such law, unit or rest. 101: too little memory. They are
/// looked for in this order; after each the handle is as it was.
pub fn open_history(
    alloc: Global,
    handle: &mut HistoryHandle,
    law: u32,
    unit: u32,
    rest: u32,
    image: &[u8],
) -> u32
    ensures status { IsTold result (open_fault (behind handle.old) law unit rest) }
    ensures opened { result ≡ 0 → IsOpened (behind handle.new) (chosen law unit rest) image.now }
    ensures uncovered { result ≡ 0 → coverage_behind handle.new ≡ None }
    ensures unchanged { result ≢ 0 → behind handle.new ≡ behind handle.old }
{
    match open_into(alloc, handle, law, unit, rest, image) {
        Ok(()) => DONE,
        Err(fault) => open_number(fault),
    }
}

/// Frees a history and closes the handle. 0: done. 100: closed already.
pub fn free_history(alloc: Global, handle: &mut HistoryHandle) -> u32
    ensures status { result ≡ told_status (behind handle.old) }
    ensures closed { behind handle.new ≡ None }
{
    match handle.take(alloc) {
        Some(history) => {
            drop(history);
            DONE
        }
        None => CLOSED,
    }
}

fn open_into(
    alloc: Global,
    handle: &mut HistoryHandle,
    law: u32,
    unit: u32,
    rest: u32,
    image: &[u8],
) -> Result<(), OpenFault>
    ensures lawful { OnOk result (open_fault (behind handle.old) law unit rest ≡ None) }
    ensures opened { OnOk result (IsOpened (behind handle.new) (chosen law unit rest) image.now) }
    ensures uncovered { OnOk result (coverage_behind handle.new ≡ None) }
    ensures fault { IfErr result (λ e. e ≡ fault_or_memory (open_fault (behind handle.old) law unit rest)) }
    ensures unchanged { OnErr result (behind handle.new ≡ behind handle.old) }
{
    if handle.is_open() {
        return Err(OpenFault::OpenAlready);
    }
    let Some((law, rest)) = chosen(law, unit, rest) else {
        return Err(OpenFault::NoLaw);
    };
    let session = HistorySession::new(alloc, law, image, rest)?;
    let boxed = Box::new(alloc, OpenHistory { session }).map_err(AllocError::from)?;
    handle.keep(boxed);
    Ok(())
}

fn chosen(law: u32, unit: u32, rest: u32) -> Option<(HistoryLaw, Rest)>
    ensures { result ≡ chosen law unit rest }
{
    Some((law_of(law, unit)?, rest_of(rest)?))
}

fn law_of(law: u32, unit: u32) -> Option<HistoryLaw>
    ensures { result ≡ law_of law unit }
{
    match law {
        0 => of_bytes(HistoryLaw::Regular, unit),
        1 => of_bytes(HistoryLaw::Flat, unit),
        2 => match unit_of(unit) {
            Some(unit) => Some(HistoryLaw::Atomic {
                unit,
                limit: DEFAULT_LIMIT,
            }),
            None => None,
        },
        _ => None,
    }
}

fn of_bytes(law: HistoryLaw, unit: u32) -> Option<HistoryLaw>
    ensures { result ≡ of_bytes law unit }
{
    if unit == 1 { Some(law) } else { None }
}

fn unit_of(bytes: u32) -> Option<UnitSize>
    ensures { result ≡ unit_of bytes }
{
    match bytes {
        1 => Some(UnitSize::One),
        2 => Some(UnitSize::Two),
        4 => Some(UnitSize::Four),
        8 => Some(UnitSize::Eight),
        _ => None,
    }
}

fn rest_of(rest: u32) -> Option<Rest>
    ensures { result ≡ rest_of rest }
{
    match rest {
        0 => Some(Rest::Zeros),
        1 => Some(Rest::Unknown),
        _ => None,
    }
}

fn open_number(fault: OpenFault) -> u32
    ensures number { result ≡ open_number fault }
    ensures fault { result ≢ 0 }
{
    match fault {
        OpenFault::NoLaw => NO_LAW,
        OpenFault::OutOfMemory => OUT_OF_MEMORY,
        OpenFault::OpenAlready => OPEN_ALREADY,
    }
}
