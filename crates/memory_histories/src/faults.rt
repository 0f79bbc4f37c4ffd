//! The texts of faults.

ghost use Rattle.std.specs.Prelude.{Some};
ghost use Rattle.memory_histories.specs.Faults as texts;

use crate::events::{HistoryFault, StepFault};
use std::fmt;

/// A fault's text, of which a contract knows each byte.
#[derive(Drop)]
pub struct FaultText<'a, F>(pub &'a F);

/// What was wrong with the event, in a few words, with the place of a wrong byte.
impl fmt::Display for FaultText<'_, HistoryFault> {
    ghost output = { λ told. Some (texts.history_fault_text told.0.now) };

    fn fmt<W: fmt::Write>(&self, f: &mut fmt::Formatter<W>) -> fmt::Result {
        match self.0 {
            HistoryFault::OutOfRange => f.write_str("the operation is out of range"),
            HistoryFault::NoByteEnabled => f.write_str("no byte is enabled"),
            HistoryFault::NumberInUse => f.write_str("the number is in use"),
            HistoryFault::NotOpen => f.write_str("no operation is open under the number"),
            HistoryFault::WrongLength => f.write_str("the load was requested with another length"),
            HistoryFault::WrongByte { place } => {
                write!(f, "the byte at place {place} of the answer is wrong")
            }
        }
    }
}

/// Why the event was not taken: of one that is none of the law, what was wrong with it.
impl fmt::Display for FaultText<'_, StepFault> {
    ghost output = { λ told. Some (texts.step_fault_text told.0.now) };

    fn fmt<W: fmt::Write>(&self, f: &mut fmt::Formatter<W>) -> fmt::Result {
        match self.0 {
            StepFault::Refused(fault) => {
                let cause = FaultText(fault);
                write!(f, "the event is none of the law: {cause}")
            }
            StepFault::TooLong => f.write_str("the history is too long"),
            StepFault::OutOfMemory => f.write_str("out of memory"),
        }
    }
}
