//! The rows of a sweep in rounds.

ghost use Rattle.std.specs.Prelude.{◌≡◌, ◌≢◌, ◌≤◌, ◌<◌, length, map, Some, None, Err, IfOk, IfErr, OnOk, true};
ghost use Rattle.shape_files.specs.MachineFile.{bad_machine};
ghost use Rattle.round_driver.specs.declared.driving.TheConstants.{MOST_LATENCY};
ghost use Rattle.round_driver.specs.Rounds.{most_requests};
ghost use Rattle.round_driver.specs.Tables.{table_of};
ghost use Rattle.round_driver.specs.Walks.{RequestsEnd};
ghost use Rattle.register_sweeps.specs.declared.sweeps.SweepFault.TheVariants.{TurnLimit};
ghost use Rattle.register_sweeps.specs.Sweep.{FaultSays, bad_from, machine_over};
ghost use Rattle.register_sweeps.specs.Rounds.{RunEnds, EachRunEnds, rounds_row_of, rounds_row_text};

use crate::machines::new_machine;
use crate::sweeps::{SweepFault, SweepGate};
use crate::threads::{RowMaker, all_good, rows_on_threads};
use flat_model::{Event, Image};
use machine_core::Sizes;
use round_driver::{Table, Timing, summarize_with};
use std::alloc::{AllocError, Global};
use std::fmt;
use std::thread::Threads;

/// What rounds counted with one number of registers.
#[derive(Clone, Copy, PartialEq, Eq, Debug, Default)]
pub struct RoundsRow {
    /// Registers of the machine.
    pub regs: u32,
    /// The counts.
    pub table: Table,
}

/// `regs N`, and the table behind a space.
impl fmt::Display for RoundsRow {
    ghost output = { λ row. Some (rounds_row_text row) };

    fn fmt<W: fmt::Write>(&self, f: &mut fmt::Formatter<W>) -> fmt::Result {
        write!(f, "regs {} {}", self.regs, self.table)
    }
}

/// The requests' table, as [`summarize_with`] counts it, of rounds through a new machine over an
/// image. `AllocError`: too little memory.
pub fn rounds_table(
    alloc: Global,
    sizes: &Sizes,
    image: &Image,
    timing: Timing,
    requests: &[Event],
) -> Result<Table, AllocError>
    requires sizes { bad_machine sizes.now ≡ None }
    requires latency { timing.latency ≤ MOST_LATENCY }
    requires requests { length requests.now ≤ most_requests }
    ensures table { IfOk result
        (λ table. table ≡ table_of timing (machine_over image.now sizes.now) requests.now) }
    ensures over { OnOk result (RequestsEnd timing (machine_over image.now sizes.now) requests.now) }
{
    let mut machine = new_machine(alloc, sizes, image)?;
    summarize_with(alloc, &mut machine, timing, requests)
}

#[derive(Drop)]
struct RoundsRows<'a> {
    timing: Timing,
    requests: &'a [Event],
}

impl RowMaker for RoundsRows<'_> {
    type Row = RoundsRow;

    ghost can = { λ s. (s.timing.latency ≤ MOST_LATENCY) × (length s.requests.now ≤ most_requests) };

    ghost gives = { λ s sizes. rounds_row_of s.timing s.requests.now sizes };

    ghost shows = { λ s sizes. RunEnds s.timing s.requests.now sizes };

    fn make_row(&self, alloc: Global, sizes: &Sizes) -> Result<RoundsRow, AllocError> {
        let table = rounds_table(alloc, sizes, &Image::Zeros, self.timing, self.requests)?;
        Ok(RoundsRow {
            regs: sizes.regs,
            table,
        })
    }
}

/// The tables of machines of these numbers, over zeros, in their order, each by a thread.
///
/// The latency is at most [`MOST_LATENCY`](round_driver::MOST_LATENCY), and there are 16,777,216
/// requests at most. Turns, gate and faults are those of [`sweep_machines`](crate::sweep_machines).
pub fn sweep_rounds<R: Threads + Sync, G: SweepGate>(
    rt: &R,
    alloc: Global,
    timing: Timing,
    requests: &[Event],
    machines: &[Sizes],
    turns: u64,
    gate: &G,
) -> Result<Vec<RoundsRow>, SweepFault>
    requires latency { timing.latency ≤ MOST_LATENCY }
    requires requests { length requests.now ≤ most_requests }
    ensures rows { IfOk result
        (λ rows. rows.items ≡ map (rounds_row_of timing requests.now) machines.now) }
    ensures over { OnOk result (EachRunEnds timing requests.now machines.now) }
    ensures good { OnOk result (bad_from bad_machine 0 machines.now ≡ None) }
    ensures fault { IfErr result (FaultSays bad_machine machines.now) }
    ensures begins { G.is_open gate.now ≡ true → 0 < turns → result ≢ Err TurnLimit }
{
    all_good(machines)?;
    let maker = RoundsRows { timing, requests };
    rows_on_threads(rt, alloc, &maker, machines, turns, gate)
}
