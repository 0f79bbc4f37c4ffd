//! Texts of faults.

ghost use Rattle.std.specs.Prelude.{Some, ◌≡◌};
ghost use Rattle.flat_model.specs.Faults as texts;

use crate::{MakeFault, ReplayFault, ShapeField, StepFault};
use std::fmt;

/// A fault's exact text.
#[derive(Drop)]
pub struct FaultText<'a, F>(pub &'a F);

/// As `Sets is out of range`, or `out of memory`.
impl fmt::Display for FaultText<'_, MakeFault> {
    ghost output = { λ told. Some (texts.make_fault_text told.0.now) };

    fn fmt<W: fmt::Write>(&self, f: &mut fmt::Formatter<W>) -> fmt::Result {
        match self.0 {
            MakeFault::BadShape(field) => write!(f, "{} is out of range", name_of(*field)),
            MakeFault::OutOfMemory => f.write_str("out of memory"),
        }
    }
}

fn name_of(field: ShapeField) -> &'static str
    ensures { result.now ≡ texts.field_name field }
{
    match field {
        ShapeField::BlockWords => "BlockWords",
        ShapeField::Ways => "Ways",
        ShapeField::Regs => "Regs",
        ShapeField::Depth => "Depth",
        ShapeField::Words => "Words",
        ShapeField::Sets => "Sets",
        ShapeField::Banks => "Banks",
        ShapeField::BankQueue => "BankQueue",
        ShapeField::WriteQueue => "WriteQueue",
        ShapeField::Replies => "Replies",
        ShapeField::Ports => "Ports",
        ShapeField::Journal => "Journal",
        ShapeField::Image => "Image",
    }
}

/// What was wrong, and at which place.
impl fmt::Display for FaultText<'_, ReplayFault> {
    ghost output = { λ told. Some (texts.replay_fault_text told.0.now) };

    fn fmt<W: fmt::Write>(&self, f: &mut fmt::Formatter<W>) -> fmt::Result {
        match self.0 {
            ReplayFault::Lengths => f.write_str("as many answers as events are needed"),
            ReplayFault::Mismatch { place } => {
                write!(f, "the answer at place {place} is not one of flat memory")
            }
            ReplayFault::OutOfMemory => f.write_str("out of memory"),
        }
    }
}

/// What was wrong.
impl fmt::Display for FaultText<'_, StepFault> {
    ghost output = { λ told. Some (texts.step_fault_text told.0.now) };

    fn fmt<W: fmt::Write>(&self, f: &mut fmt::Formatter<W>) -> fmt::Result {
        match self.0 {
            StepFault::Mismatch => f.write_str("the answer is not one of flat memory"),
            StepFault::OutOfMemory => f.write_str("out of memory"),
        }
    }
}
