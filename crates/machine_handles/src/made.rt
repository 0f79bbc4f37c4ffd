//! The machine that is opened.
ghost use Rattle.std.specs.Prelude.{◌≡◌, None, IfOk, OnOk, IfErr, length};
ghost use Rattle.machine_handles.specs.Made.{opened, fault_in, why};
ghost use Rattle.machine_handles.specs.Rows.{sizes_of};

use crate::views::ShapeRow;
use flat_model::{MakeFault, ShapeField, Word};
use machine_core::ShapedMachine;
use std::alloc::Global;
use thiserror::Error;

/// Why a machine isn't opened.
#[derive(Clone, Copy, Debug, Error)]
pub enum OpenFault {
    /// The first number that is out of its range.
    #[error("{}", MakeFault::BadShape(*.0))]
    BadShape(ShapeField),
    /// There was too little memory.
    #[error("out of memory")]
    OutOfMemory,
    /// A machine is behind the handle already.
    #[error("a machine is behind the handle already")]
    OpenAlready,
}

impl From<MakeFault> for OpenFault {
    ghost use Rattle.std.specs.Prelude.{◌≡◌};
    ghost use Rattle.machine_handles.specs.Made.{open_fault_of};

    ghost from_gives = { λ e f. f ≡ open_fault_of e };

    fn from(fault: MakeFault) -> OpenFault {
        match fault {
            MakeFault::BadShape(field) => OpenFault::BadShape(field),
            MakeFault::OutOfMemory => OpenFault::OutOfMemory,
        }
    }
}

/// A machine in which nothing has happened, over the image. Numbers are judged in the row's order,
/// the image's length last, before anything is allocated.
pub(crate) fn made(
    alloc: Global,
    row: &ShapeRow,
    image: &[Word],
) -> Result<ShapedMachine, OpenFault>
    ensures ok { IfOk result (λ m. m ≡ opened (sizes_of row.now) image.now) }
    ensures in_range { OnOk result (fault_in (sizes_of row.now) (length image.now) ≡ None) }
    ensures fault { IfErr result (λ e. e ≡ why (fault_in (sizes_of row.now) (length image.now))) }
{
    Ok(ShapedMachine::new(alloc, &row.sizes(), image)?)
}
