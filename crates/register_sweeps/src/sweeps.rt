//! Sweeps: a row for each machine, each by its own thread.

ghost use Rattle.std.specs.Prelude.{⊤, ◌≡◌, ◌≢◌, ◌∷◌, [], ◌≤◌, ◌<◌, Bool, length, map, Some, None, Err, IfOk, IfErr, OnOk, true, false};
ghost use Rattle.std.specs.List.{list_all};
ghost use Rattle.round_driver.specs.Rounds.{most_requests};
ghost use Rattle.round_driver.specs.Walks.{is_request};
ghost use Rattle.register_sweeps.specs.declared.sweeps.SweepFault.TheVariants.{TurnLimit};
ghost use Rattle.shape_files.specs.MachineFile.{bad_machine};
ghost use Rattle.shape_files.specs.ShapeFile.{bad_field, sizes_of};
ghost use Rattle.register_sweeps.specs.Sweep.{FaultSays, CountsAll, EachCountsAll, bad_from, row_from, row_of, sweep_fault_text};

use crate::machines::new_machine;
use crate::row::{Row, row_from};
use crate::threads::{RowMaker, all_good, rows_on_threads};
use flat_model::{Event, Image, MakeFault, ShapeField};
use machine_core::Sizes;
use shape_files::{ToolShape, bad_field};
use std::alloc::{AllocError, Global};
use std::fmt;
use std::thread::Threads;
use thiserror::Error;

/// Why a sweep gave no rows.
#[derive(Clone, Copy, PartialEq, Eq, Debug, Error)]
#[error("{}", FaultText(self))]
pub enum SweepFault {
    /// The first number out of its range, of the first such shape or machine, from 0. No thread
    /// began.
    BadShape { place: usize, field: ShapeField },
    /// A thread's turns ended before its gate let it begin.
    TurnLimit,
    /// Too little memory.
    OutOfMemory,
}

/// A fault's exact text.
#[derive(Drop)]
pub struct FaultText<'a>(pub &'a SweepFault);

/// As `shape 2: Sets is out of range`.
impl fmt::Display for FaultText<'_> {
    ghost output = { λ told. Some (sweep_fault_text told.0.now) };

    fn fmt<W: fmt::Write>(&self, f: &mut fmt::Formatter<W>) -> fmt::Result {
        match self.0 {
            SweepFault::BadShape { place, field } => {
                let fault = MakeFault::BadShape(*field);
                write!(f, "shape {place}: {}", flat_model::FaultText(&fault))
            }
            SweepFault::TurnLimit => f.write_str("turn limit"),
            SweepFault::OutOfMemory => f.write_str("out of memory"),
        }
    }
}

impl From<AllocError> for SweepFault {
    ghost use Rattle.std.specs.Prelude.{◌≡◌};
    ghost use Rattle.register_sweeps.specs.declared.sweeps.SweepFault.TheVariants.{OutOfMemory};

    ghost from_gives = { λ e f. f ≡ OutOfMemory };

    fn from(_fault: AllocError) -> SweepFault {
        SweepFault::OutOfMemory
    }
}

/// Says when rows may begin, and is told when they ended.
pub trait SweepGate: Sync {
    /// It lets every row begin.
    ghost is_open: { Self → Bool } = { λ gate. false };

    /// Whether the row at this place may begin. Asked once in each turn.
    fn may(&self, place: usize) -> bool
        ensures begins { is_open self.now ≡ true → result ≡ true };

    /// The row at this place has ended.
    fn ended(&self, place: usize);
}

/// Lets every row begin.
#[derive(Drop)]
pub struct OpenGate;

impl SweepGate for OpenGate {
    ghost is_open = { λ gate. true };

    fn may(&self, _place: usize) -> bool
        ensures { result ≡ true }
    {
        true
    }

    fn ended(&self, _place: usize) {}
}

fn row_of(alloc: Global, sizes: &Sizes, events: &[Event]) -> Result<Row, AllocError>
    requires events { length events.now ≤ most_requests }
    requires sizes { bad_machine sizes.now ≡ None }
    ensures { IfOk result (λ row. row ≡ row_of events.now sizes.now) }
{
    let mut machine = new_machine(alloc, sizes, &Image::Zeros)?;
    Ok(row_from(&mut machine, sizes.regs, events))
}

#[derive(Drop)]
struct PumpedRows<'a> {
    events: &'a [Event],
}

impl RowMaker for PumpedRows<'_> {
    type Row = Row;

    ghost can = { λ s. length s.events.now ≤ most_requests };

    ghost gives = { λ s sizes. row_of s.events.now sizes };

    ghost shows = { λ s sizes. ⊤ };

    fn make_row(&self, alloc: Global, sizes: &Sizes) -> Result<Row, AllocError> {
        row_of(alloc, sizes, self.events)
    }
}

/// One shape's row: a new machine over zeros serves the events and is pumped dry. A request that
/// lacks room is asked again after each pump, until accepted or denied.
///
/// At most 16,777,216 events, meant to be requests. `BadShape` has place 0, and comes before memory
/// is asked for. `TurnLimit` never comes.
pub fn sweep_row(alloc: Global, shape: &ToolShape, events: &[Event]) -> Result<Row, SweepFault>
    requires { length events.now ≤ most_requests }
    ensures row { IfOk result
        (λ row. (bad_field shape.now ≡ None) × (row ≡ row_of events.now (sizes_of shape.now))) }
    ensures counts { IfOk result
        (λ row. list_all is_request events.now ≡ true → CountsAll events.now (sizes_of shape.now) row) }
    ensures fault { IfErr result (FaultSays bad_field (shape.now ∷ [])) }
    ensures no_turns { result ≢ Err TurnLimit }
{
    if let Some(field) = bad_field(shape) {
        return Err(SweepFault::BadShape { place: 0, field });
    }
    Ok(row_of(alloc, &shape.sizes(), events)?)
}

fn machines_of(alloc: Global, shapes: &[ToolShape]) -> Result<Vec<Sizes>, AllocError>
    ensures { IfOk result (λ machines. machines.items ≡ map sizes_of shapes.now) }
{
    let mut machines = Vec::new(alloc);
    for shape in shapes {
        machines.push(shape.sizes())?;
    }
    Ok(machines)
}

/// The rows of these machines, in their order, each by a thread, all at once.
///
/// Each thread has `turns` turns, and asks the gate in each. Once it may, it makes its row as
/// [`sweep_row`] does, and tells the gate.
///
/// `BadShape` comes before any thread begins. `OutOfMemory` goes before `TurnLimit`. Behind a fault
/// no row is given, and all threads have ended.
pub fn sweep_machines<R: Threads + Sync, G: SweepGate>(
    rt: &R,
    alloc: Global,
    events: &[Event],
    machines: &[Sizes],
    turns: u64,
    gate: &G,
) -> Result<Vec<Row>, SweepFault>
    requires { length events.now ≤ most_requests }
    ensures rows { IfOk result (λ rows. rows.items ≡ map (row_of events.now) machines.now) }
    ensures counts { IfOk result
        (λ rows. list_all is_request events.now ≡ true → EachCountsAll events.now machines.now rows.items) }
    ensures good { OnOk result (bad_from bad_machine 0 machines.now ≡ None) }
    ensures fault { IfErr result (FaultSays bad_machine machines.now) }
    ensures begins { G.is_open gate.now ≡ true → 0 < turns → result ≢ Err TurnLimit }
{
    all_good(machines)?;
    rows_on_threads(rt, alloc, &PumpedRows { events }, machines, turns, gate)
}

/// [`sweep_machines`] for shapes, whose fields have the ranges of a shape file.
pub fn sweep<R: Threads + Sync, G: SweepGate>(
    rt: &R,
    alloc: Global,
    events: &[Event],
    shapes: &[ToolShape],
    turns: u64,
    gate: &G,
) -> Result<Vec<Row>, SweepFault>
    requires { length events.now ≤ most_requests }
    ensures rows { IfOk result (λ rows. rows.items ≡ map (row_of events.now) (map sizes_of shapes.now)) }
    ensures counts { IfOk result
        (λ rows. list_all is_request events.now ≡ true
        → EachCountsAll events.now (map sizes_of shapes.now) rows.items) }
    ensures good { OnOk result (bad_from bad_field 0 shapes.now ≡ None) }
    ensures fault { IfErr result (FaultSays bad_field shapes.now) }
    ensures begins { G.is_open gate.now ≡ true → 0 < turns → result ≢ Err TurnLimit }
{
    all_good(shapes)?;
    let machines = machines_of(alloc, shapes)?;
    rows_on_threads(
        rt,
        alloc,
        &PumpedRows { events },
        machines.as_slice(),
        turns,
        gate,
    )
}
