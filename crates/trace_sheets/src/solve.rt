//! A sheet is solved.

ghost use Rattle.std.specs.Prelude.{◌≡◌, ◌++◌, ◌∷◌, [], ◌≤◌, if◌then◌else◌, length, OnOk};
ghost use Rattle.trace_text.specs.Codes.{line_feed};
ghost use Rattle.trace_text.specs.declared.fault.TheConstants.{BUFFER_LEN, MAX_LINES, MAX_PAIR};
ghost use Rattle.trace_sheets.specs.Forms.{full_text};
ghost use Rattle.trace_sheets.specs.Sheets.{is_open, sheet_fault};
ghost use Rattle.trace_sheets.specs.Solutions.{SheetSolved, Solves, filled};

use crate::came::{Came, full_answer};
use crate::ended::read_ended;
use crate::sheet::{Said, is_open, sheet_said, without_blanks};
use machine_core::ShapedMachine;
use std::alloc::{AllocError, Global};
use trace_text::{BUFFER_LEN, Collector, Failed, Source, TraceFault, Uncollected};

// A machine in a sheet, and the solution so far.
#[derive(Drop)]
pub(crate) struct Solving<'a> {
    pub(crate) alloc: Global,
    pub(crate) machine: &'a mut ShapedMachine,
    pub(crate) solution: &'a mut Vec<u8>,
}

// Adds what came.
fn push_full(solution: &mut Vec<u8>, came: &Came) -> Result<(), AllocError>
    ensures { OnOk result (solution.new.items ≡ solution.old.items ++ full_text came.now) }
{
    match came {
        Came::Answered { answer, before, .. } => {
            solution.extend_from_slice(full_answer(*answer, before.found).as_bytes())
        }
        Came::Shown(text) => solution.extend_from_slice(text.as_bytes()),
    }
}

// Adds a line of so many bytes before the blanks at its end, with what came in place of its `?`.
fn push_filled(
    solution: &mut Vec<u8>,
    front: usize,
    text: &[u8],
    came: &Came,
) -> Result<(), AllocError>
    requires { front ≤ length text.now }
    ensures { OnOk result (solution.new.items ≡ solution.old.items ++ filled front text.now (full_text came.now)) }
{
    solution.extend_from_slice(&text[..front.saturating_sub(1)])?;
    push_full(solution, came)?;
    solution.extend_from_slice(&text[front..])
}

impl<'a> Solving<'a> {
    // Adds a line as it stands.
    fn keep(&mut self, text: &[u8]) -> Result<(), AllocError>
        ensures added { OnOk result
            (self.new.solution.now.items ≡ self.old.solution.now.items ++ (text.now ++ line_feed ∷ [])) }
        ensures machine { self.new.machine ≡ self.old.machine }
        ensures same { self.new.solution.ghost_name ≡ self.old.solution.ghost_name }
    {
        self.solution.extend_from_slice(text)?;
        self.solution.push(b'\n')?;
        Ok(())
    }

    // Adds a line of so many bytes before the blanks at its end, filled if its answer is open.
    fn answer(
        &mut self,
        front: usize,
        text: &[u8],
        said: &[u8],
        came: &Came,
    ) -> Result<(), AllocError>
        requires { front ≤ length text.now }
        ensures added { OnOk result (self.new.solution.now.items ≡ self.old.solution.now.items
            ++ ((if is_open said.now then filled front text.now (full_text came.now) else text.now) ++ line_feed ∷ [])) }
        ensures machine { self.new.machine ≡ self.old.machine }
        ensures same { self.new.solution.ghost_name ≡ self.old.solution.ghost_name }
    {
        if !is_open(said) {
            return self.keep(text);
        }
        push_filled(self.solution, front, text, came)?;
        self.solution.push(b'\n')?;
        Ok(())
    }

    // The solution, which is taken out.
    fn finished(&mut self) -> Vec<u8>
        ensures solution { result.items ≡ self.old.solution.now.items }
        ensures machine { self.new.machine ≡ self.old.machine }
        ensures same { self.new.solution.ghost_name ≡ self.old.solution.ghost_name }
    {
        std::mem::replace(self.solution, Vec::new(self.alloc))
    }
}

impl<'a> Collector for Solving<'a> {
    ghost fault_in = { sheet_fault };

    ghost longest = { MAX_PAIR };

    ghost most_lines = { MAX_LINES };

    ghost went = { λ s texts t. Solves s.machine.now texts t.machine.now t.solution.now.items };

    ghost stopped = { λ s text t. Unit {0} };

    ghost paused = { λ s t. t ≡ s };

    ghost unpaused = { λ s t. ⊥ };

    ghost holds_same = { λ s t. (t.machine.ghost_name ≡ s.machine.ghost_name) × (t.solution.ghost_name ≡ s.solution.ghost_name) };

    fn collect(&mut self, _number: u64, text: &[u8]) -> Result<(), Uncollected> {
        let front = without_blanks(text);
        let read = match sheet_said(front) {
            Ok(read) => read,
            Err(fault) => return Err(Uncollected::Fault(fault)),
        };
        match read {
            Said::Nothing => match self.keep(text) {
                Ok(()) => Ok(()),
                Err(_) => Err(Uncollected::Halted),
            },
            Said::Command(line) => {
                let _came = Came::new(self.machine, line);
                match self.keep(text) {
                    Ok(()) => Ok(()),
                    Err(_) => Err(Uncollected::Halted),
                }
            }
            Said::Prediction { line, said, .. } => {
                let came = Came::new(self.machine, line);
                match self.answer(front.len(), text, said, &came) {
                    Ok(()) => Ok(()),
                    Err(_) => Err(Uncollected::Halted),
                }
            }
        }
    }

    fn pause(&mut self) -> Result<(), Failed> {
        Ok(())
    }
}

/// Fills a sheet: each `?` becomes what the machine answers, in full, so that the sheet is graded
/// right by any marking. Nothing else changes, but that each line has its LF.
///
/// It is read as by [`grade_sheet`](crate::grade_sheet), with the same faults.
pub fn solve_sheet<R: Source>(
    alloc: Global,
    reader: &mut R,
    machine: &mut ShapedMachine,
) -> Result<Vec<u8>, TraceFault>
    ensures { SheetSolved R.gave R.failed reader.old reader.new machine.old machine.new result }
{
    let mut buffer = vec![in alloc; 0u8; BUFFER_LEN]?;
    let mut solution = Vec::new(alloc);
    let mut solving = Solving {
        alloc,
        machine,
        solution: &mut solution,
    };
    solve_through(reader, &mut solving, &mut buffer)
}

fn solve_through<R: Source>(
    reader: &mut R,
    solving: &mut Solving,
    buffer: &mut [u8],
) -> Result<Vec<u8>, TraceFault>
    requires room { length buffer.old ≡ BUFFER_LEN }
    requires empty { solving.old.solution.now.items ≡ [] }
    ensures ends { SheetSolved R.gave R.failed reader.old reader.new solving.old.machine.now solving.new.machine.now
        result }
    ensures same_machine { solving.new.machine.ghost_name ≡ solving.old.machine.ghost_name }
    ensures same_solution { solving.new.solution.ghost_name ≡ solving.old.solution.ghost_name }
{
    match read_ended(reader, solving, buffer) {
        Ok(()) => Ok(solving.finished()),
        Err(stop) => Err(stop.fault_or(TraceFault::OutOfMemory)),
    }
}
