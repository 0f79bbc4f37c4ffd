//! The texts of faults.

ghost use Rattle.std.specs.Prelude.{Some};
ghost use Rattle.atomic_histories.specs.Faults as texts;

use crate::memory::AtomicFault;
use std::fmt;

/// A fault's text, of which a contract knows each byte.
#[derive(Drop)]
pub struct FaultText<'a>(pub &'a AtomicFault);

/// Why the event was not taken: of one that is none of the law, what was wrong with it.
impl fmt::Display for FaultText<'_> {
    ghost output = { λ told. Some (texts.atomic_fault_text told.0.now) };

    fn fmt<W: fmt::Write>(&self, f: &mut fmt::Formatter<W>) -> fmt::Result {
        match self.0 {
            AtomicFault::Refused(fault) => {
                let cause = memory_histories::FaultText(fault);
                write!(f, "the event is none of the law: {cause}")
            }
            AtomicFault::Undecided { address } => {
                write!(f, "undecided: too many ways in the unit with 0x{address:x}")
            }
            AtomicFault::OutOfMemory => f.write_str("out of memory"),
        }
    }
}
