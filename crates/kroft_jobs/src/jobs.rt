//! What is done with a trace, for the shape that was read.

ghost use Rattle.std.specs.Prelude.{◌≡◌, ℕ, List, None, Some, IfOk, IfErr, map};
ghost use Rattle.flat_model.specs.Flat.{Flat};
ghost use Rattle.flat_model.specs.Images.{memory_from, flat_from};
ghost use Rattle.register_sweeps.specs.Machine.{MachineState};
ghost use Rattle.kroft_jobs.specs.Words.{MAX_LINE, MAX_PAIR};
ghost use Rattle.trace_text.specs.Reading.{ReadWhole, ReadFails};
ghost use Rattle.trace_text.specs.Serving.{trace_fault, Ends};
ghost use Rattle.trace_text.specs.Checks.{pair_fault, IsJudgedFrom};
ghost use Rattle.trace_text.specs.Requests.{requests_of};
ghost use Rattle.run_reasons.specs.Runs.{Explains};
ghost use Rattle.shape_files.specs.MachineFile.{bad_machine};
ghost use Rattle.register_sweeps.specs.Sweep.{machine_over, row_of};
ghost use Rattle.kroft_jobs.specs.Jobs.{swept, with_registers, verdict_status, verdict_text};
ghost use Rattle.kroft_jobs.specs.Sweeping.{SweepFails};

use crate::fault::JobFault;
use flat_model::Image;
use register_sweeps::{OpenGate, Row, Sizes, new_machine, sweep_machines};
use run_reasons::{Explanation, explain_text};
use std::alloc::{AllocError, Global};
use std::fmt;
use std::thread::Threads;
use trace_text::{
    CheckEnd, Counts, Sink, Source, TraceFault, check_from, read_requests, serve_text,
};

// The sweep's gate is always open, so one turn is enough.
pub(crate) const SWEEP_TURNS: u64 = 1_000_000;

/// Serves a trace on a new machine, as `serve_text` does.
pub fn serve<I: Source, O: Sink>(
    alloc: Global,
    sizes: &Sizes,
    image: &Image,
    input: &mut I,
    output: &mut O,
) -> Result<Counts, TraceFault>
    requires sizes { bad_machine sizes.now ≡ None }
    ensures { (after : MachineState)
        × Ends I.gave I.failed O.took O.refused O.unflushed input.old input.new output.old output.new
        (machine_over image.now sizes.now) after result }
{
    let Ok(mut machine) = new_machine(alloc, sizes, image) else {
        return Err(TraceFault::OutOfMemory);
    };
    serve_text(alloc, input, output, &mut machine)
}

/// Judges a run over the shape's memory, as `check_from` does.
pub fn check<I: Source>(
    alloc: Global,
    sizes: &Sizes,
    image: &Image,
    input: &mut I,
) -> Result<CheckEnd, TraceFault>
    ensures judged { IfOk result
        (λ end. (texts : List (List ℕ)) × (last : Flat)
        × ReadWhole I.gave pair_fault MAX_PAIR input.old input.new texts
        × IsJudgedFrom (flat_from image.now sizes.now.words) texts end last) }
    ensures fault { IfErr result
        (ReadFails I.gave I.failed pair_fault MAX_PAIR input.old input.new) }
{
    let memory = image.flat_memory(alloc, sizes.words)?;
    let checked = check_from(alloc, input, memory)?;
    Ok(checked.end)
}

/// Says why a run isn't flat memory's, as `explain_text` does.
pub fn explain<I: Source>(
    alloc: Global,
    sizes: &Sizes,
    image: &Image,
    input: &mut I,
) -> Result<Explanation, TraceFault>
    ensures { Explains I.gave I.failed (memory_from image.now sizes.now.words) input.old input.new result }
{
    explain_text(alloc, input, image, sizes.words)
}

/// A check's verdict as the program tells it.
#[derive(Clone, Copy)]
pub struct Verdict(pub CheckEnd);

impl Verdict {
    /// 0: a flat run. 1: a mismatch.
    pub fn status(self) -> u8
        ensures { result ≡ verdict_status self.0 }
    {
        match self.0 {
            CheckEnd::Flat { .. } => 0,
            CheckEnd::Mismatch { .. } => 1,
        }
    }
}

impl fmt::Display for Verdict {
    ghost output = { λ verdict. Some (verdict_text verdict.0) };

    fn fmt<W: fmt::Write>(&self, f: &mut fmt::Formatter<W>) -> fmt::Result {
        match self.0 {
            CheckEnd::Flat { steps } => write!(f, "flat run, {steps} steps"),
            CheckEnd::Mismatch { line } => write!(f, "mismatch at line {line}"),
        }
    }
}

/// A sweep's rows, one for each number of registers. Its faults are those of
/// [`sweep_in_rounds`](crate::sweep_in_rounds).
pub fn sweep_registers<R: Threads + Sync, I: Source>(
    rt: &R,
    alloc: Global,
    sizes: &Sizes,
    registers: &[u32],
    input: &mut I,
) -> Result<Vec<Row>, JobFault>
    ensures rows { IfOk result
        (λ rows. (texts : List (List ℕ)) × ReadWhole I.gave trace_fault MAX_LINE input.old input.new texts
        × (rows.items ≡ map (row_of (requests_of texts)) (swept sizes.now registers.now))) }
    ensures fault { IfErr result (SweepFails I.gave I.failed (swept sizes.now registers.now) input.old input.new) }
{
    let requests = read_requests(alloc, input)?;
    let machines = swept_machines(alloc, sizes, registers)?;
    let rows = sweep_machines(
        rt,
        alloc,
        requests.as_slice(),
        machines.as_slice(),
        SWEEP_TURNS,
        &OpenGate,
    )?;
    Ok(rows)
}

pub(crate) fn swept_machines(
    alloc: Global,
    sizes: &Sizes,
    registers: &[u32],
) -> Result<Vec<Sizes>, AllocError>
    ensures { IfOk result (λ machines. machines.items ≡ swept sizes.now registers.now) }
{
    let mut machines = Vec::new(alloc);
    for regs in registers {
        machines.push(with_registers(sizes, *regs))?;
    }
    Ok(machines)
}

// The machine with so many registers.
fn with_registers(sizes: &Sizes, regs: u32) -> Sizes
    ensures { result ≡ with_registers sizes.now regs }
{
    Sizes { regs, ..*sizes }
}
