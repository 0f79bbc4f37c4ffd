//! A machine is opened and freed.
ghost use Rattle.std.specs.Prelude.{◌≡◌, ◌≢◌, Some, None, IfOk, OnOk, IfErr, OnErr, length};
ghost use Rattle.machine_handles.specs.Behind.{standing, standing_of, behind, alone};
ghost use Rattle.machine_handles.specs.Calls.{told_status};
ghost use Rattle.machine_handles.specs.Made as made;
ghost use Rattle.machine_handles.specs.Rows.{sizes_of};
ghost use Rattle.machine_handles.specs.Opening.{field_number, fault_number, open_fault, IsTold};

use crate::handle::Handle;
use crate::kept::Kept;
use crate::made::{OpenFault, made};
use crate::status::{CLOSED, DONE, OUT_OF_MEMORY};
use crate::views::ShapeRow;
use flat_model::{ShapeField, Word};
use std::alloc::Global;

/// A machine is behind the handle already.
const OPEN_ALREADY: u32 = 102;

/// Opens a machine over an image, behind a closed handle.
pub fn open_machine(alloc: Global, handle: &mut Handle, shape: &ShapeRow, image: &[Word]) -> u32
    ensures status { IsTold result
        (open_fault (behind handle.old) shape.now (length image.now)) }
    ensures machine { result ≡ 0
        → standing handle.new ≡ Some (alone (made.opened (sizes_of shape.now) image.now)) }
    ensures unchanged { result ≢ 0 → standing handle.new ≡ standing handle.old }
{
    match open_into(alloc, handle, shape, image) {
        Ok(()) => DONE,
        Err(fault) => fault_number(fault),
    }
}

/// Gives the machine up, with its rounds.
pub fn free_machine(alloc: Global, handle: &mut Handle) -> u32
    ensures status { result ≡ told_status (standing handle.old) }
    ensures closed { standing handle.new ≡ None }
{
    match handle.take(alloc) {
        Some(kept) => {
            drop(kept);
            DONE
        }
        None => CLOSED,
    }
}

// Puts a machine behind a closed handle.
fn open_into(
    alloc: Global,
    handle: &mut Handle,
    shape: &ShapeRow,
    image: &[Word],
) -> Result<(), OpenFault>
    ensures in_range { OnOk result
        (open_fault (behind handle.old) shape.now (length image.now) ≡ None) }
    ensures opened { OnOk result
        (standing handle.new ≡ Some (alone (made.opened (sizes_of shape.now) image.now))) }
    ensures fault { IfErr result
        (λ e. e ≡ made.why (open_fault (behind handle.old) shape.now (length image.now))) }
    ensures unchanged { OnErr result (standing handle.new ≡ standing handle.old) }
{
    if handle.is_open() {
        return Err(OpenFault::OpenAlready);
    }
    let kept = boxed(alloc, shape, image)?;
    handle.keep(kept);
    Ok(())
}

fn boxed(alloc: Global, shape: &ShapeRow, image: &[Word]) -> Result<Box<Kept, Global>, OpenFault>
    ensures ok { IfOk result
        (λ b. alone (made.opened (sizes_of shape.now) image.now) ≡ standing_of b.value) }
    ensures in_range { OnOk result
        (made.fault_in (sizes_of shape.now) (length image.now) ≡ None) }
    ensures fault { IfErr result
        (λ e. e ≡ made.why (made.fault_in (sizes_of shape.now) (length image.now))) }
{
    let machine = made(alloc, shape, image)?;
    let kept = Kept {
        machine,
        rounds: None,
    };
    match Box::new(alloc, kept) {
        Ok(kept) => Ok(kept),
        Err(_) => Err(OpenFault::OutOfMemory),
    }
}

fn fault_number(fault: OpenFault) -> u32
    ensures number { result ≡ fault_number fault }
    ensures fault { result ≢ 0 }
{
    match fault {
        OpenFault::BadShape(field) => field_number(field),
        OpenFault::OutOfMemory => OUT_OF_MEMORY,
        OpenFault::OpenAlready => OPEN_ALREADY,
    }
}

fn field_number(field: ShapeField) -> u32
    ensures number { result ≡ field_number field }
    ensures fault { result ≢ 0 }
{
    match field {
        ShapeField::BlockWords => 111,
        ShapeField::Ways => 112,
        ShapeField::Regs => 113,
        ShapeField::Depth => 114,
        ShapeField::Words => 115,
        ShapeField::Sets => 116,
        ShapeField::Banks => 117,
        ShapeField::BankQueue => 118,
        ShapeField::WriteQueue => 119,
        ShapeField::Replies => 120,
        ShapeField::Ports => 122,
        ShapeField::Journal => 123,
        ShapeField::Image => 121,
    }
}
