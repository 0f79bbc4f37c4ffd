//! A recorded run, judged as it comes.
ghost use Rattle.std.specs.Prelude.{◌≡◌, OnOk, OnErr, IfOk};
ghost use Rattle.flat_model.specs.Memory.{shown};
ghost use Rattle.trace_text.specs.Pairs.{ended_pair_of};
ghost use Rattle.uses.specs.Judged.{verdict_of, memory_after};

use flat_model::{FlatMemory, StepFault};
use std::alloc::AllocError;
use trace_text::{Line, LineFault, Pair, read_pair};

/// What flat memory says of a line.
#[derive(Clone, Copy, PartialEq, Eq, Debug)]
pub enum Verdict {
    /// It gives this answer.
    Explained,
    /// It never answers so.
    Wrong,
    /// The line only shows something.
    Passed,
    /// No line of a recorded run.
    Faulty(LineFault),
}

/// Judges one line of a run, as `load 1 5 -> accepted` and its line feed. Only an explained step changes
/// memory. `AllocError`: too little memory, and nothing changes.
pub fn judge_line(memory: &mut FlatMemory, line: &[u8]) -> Result<Verdict, AllocError>
    ensures verdict { IfOk result
        (λ verdict. verdict ≡ verdict_of (ended_pair_of line.now) (shown memory.old)) }
    ensures memory { OnOk result
        (shown memory.new ≡ memory_after (ended_pair_of line.now) (shown memory.old)) }
    ensures unchanged { OnErr result (shown memory.new ≡ shown memory.old) }
{
    let Pair { line, answer } = match read_pair(line) {
        Ok(pair) => pair,
        Err(fault) => return Ok(Verdict::Faulty(fault)),
    };
    let (Line::Event(event), Some(answer)) = (line, answer) else {
        return Ok(Verdict::Passed);
    };
    match memory.step(event, answer) {
        Ok(()) => Ok(Verdict::Explained),
        Err(StepFault::Mismatch) => Ok(Verdict::Wrong),
        Err(StepFault::OutOfMemory) => Err(AllocError),
    }
}
