//! Requests in rounds.

ghost use Rattle.std.specs.Prelude.{◌≡◌, ◌≢◌, ◌≤◌, ℕ, List, None, Err, true, IfOk, IfErr, OnOk, length};
ghost use Rattle.std.specs.List.{All, list_all};
ghost use Rattle.kroft_jobs.specs.Words.{MAX_LINE, MOST_LATENCY, Event as EventValue, AccessGroup as Group};
ghost use Rattle.trace_text.specs.Reading.{ReadWhole};
ghost use Rattle.trace_text.specs.Serving.{trace_fault};
ghost use Rattle.trace_text.specs.Requests.{requests_of};
ghost use Rattle.shape_files.specs.MachineFile.{bad_machine};
ghost use Rattle.register_sweeps.specs.declared.sweeps.SweepFault.TheVariants.{TurnLimit};
ghost use Rattle.register_sweeps.specs.Sweep.{FaultSays, machine_over};
ghost use Rattle.round_driver.specs.Details.{details_of};
ghost use Rattle.round_driver.specs.Rounds.{most_requests};
ghost use Rattle.round_driver.specs.Walks.{is_request, RequestsEnd};
ghost use Rattle.kroft_jobs.specs.Asking.{Asks, AsksNothing, room_of};
ghost use Rattle.kroft_jobs.specs.Jobs.{swept};
ghost use Rattle.kroft_jobs.specs.Sweeping.{IsCounted, CountsAll, AreCounted, AreSwept, SweepFails};

use crate::asked::{RequestText, accesses_of, read_asked};
use crate::fault::JobFault;
use crate::jobs::{SWEEP_TURNS, swept_machines};
use access_logs::LogFault;
use flat_model::{Event, Image};
use register_sweeps::{
    OpenGate, RoundsRow, Sizes, SweepFault, new_machine, rounds_table, sweep_rounds,
};
use result_formats::AccessCounts;
use round_driver::{Details, Table, Timing, detail_with};
use std::alloc::{AllocError, Global};
use std::thread::Threads;
use trace_text::{Source, read_requests};

/// Drives requests, and counts as [`rounds_table`] does. The latency is at most `MOST_LATENCY`.
pub fn summarize_requests<I: Source>(
    alloc: Global,
    sizes: &Sizes,
    image: &Image,
    timing: Timing,
    from: RequestText,
    input: &mut I,
) -> Result<Table, LogFault>
    requires sizes { bad_machine sizes.now ≡ None }
    requires latency { timing.latency ≤ MOST_LATENCY }
    ensures table { IfOk result
        (λ table. (requests : List EventValue) × (groups : List Group)
        × Asks I.gave from (room_of sizes.now) input.old input.new requests groups
        × IsCounted timing (machine_over image.now sizes.now) requests table) }
    ensures fault { IfErr result
        (AsksNothing I.gave I.failed from (room_of sizes.now) input.old input.new) }
{
    let asked = read_asked(alloc, from, sizes, input)?;
    Ok(rounds_table(alloc, sizes, image, timing, asked.requests.as_slice())?)
}

/// What was counted of a run.
#[derive(Drop)]
pub struct CountedRun {
    /// The details.
    pub details: Details,
    /// Of a log, its accesses.
    pub accesses: Option<AccessCounts>,
}

/// Counts also what [`detail_with`] does, and of a log its accesses by
/// [`count_accesses`](result_formats::count_accesses).
pub fn detail_requests<I: Source>(
    alloc: Global,
    sizes: &Sizes,
    image: &Image,
    timing: Timing,
    from: RequestText,
    input: &mut I,
) -> Result<CountedRun, LogFault>
    requires sizes { bad_machine sizes.now ≡ None }
    requires latency { timing.latency ≤ MOST_LATENCY }
    ensures counted { IfOk result
        (λ run. CountsAll I.gave from (room_of sizes.now) timing (machine_over image.now sizes.now) input.old input.new
        run.details run.accesses) }
    ensures fault { IfErr result
        (AsksNothing I.gave I.failed from (room_of sizes.now) input.old input.new) }
{
    let asked = read_asked(alloc, from, sizes, input)?;
    let details = detail_all(alloc, sizes, image, timing, asked.requests.as_slice())?;
    let accesses = accesses_of(from, asked.groups.as_slice(), details.outcomes.as_slice());
    Ok(CountedRun { details, accesses })
}

fn detail_all(
    alloc: Global,
    sizes: &Sizes,
    image: &Image,
    timing: Timing,
    requests: &[Event],
) -> Result<Details, AllocError>
    requires sizes { bad_machine sizes.now ≡ None }
    requires latency { timing.latency ≤ MOST_LATENCY }
    requires few { length requests.now ≤ most_requests }
    ensures details { IfOk result
        (λ details. details ≡ details_of timing (machine_over image.now sizes.now) requests.now) }
    ensures over { OnOk result (RequestsEnd timing (machine_over image.now sizes.now) requests.now) }
{
    let mut machine = new_machine(alloc, sizes, image)?;
    detail_with(alloc, &mut machine, timing, requests)
}

/// A sweep's rows in rounds, one for each number of registers, as [`sweep_rounds`] makes them. The
/// latency is at most `MOST_LATENCY`.
///
/// A trace's fault goes before a machine's. `TurnLimit` never comes.
pub fn sweep_in_rounds<R: Threads + Sync, I: Source>(
    rt: &R,
    alloc: Global,
    sizes: &Sizes,
    registers: &[u32],
    timing: Timing,
    input: &mut I,
) -> Result<Vec<RoundsRow>, JobFault>
    requires latency { timing.latency ≤ MOST_LATENCY }
    ensures rows { IfOk result
        (λ rows. (texts : List (List ℕ)) × ReadWhole I.gave trace_fault MAX_LINE input.old input.new texts
        × AreCounted timing (swept sizes.now registers.now) (requests_of texts) rows.items) }
    ensures fault { IfErr result (SweepFails I.gave I.failed (swept sizes.now registers.now) input.old input.new) }
{
    let requests = read_requests(alloc, input)?;
    let machines = swept_machines(alloc, sizes, registers)?;
    let rows = sweep_rounds(
        rt,
        alloc,
        timing,
        requests.as_slice(),
        machines.as_slice(),
        SWEEP_TURNS,
        &OpenGate,
    )?;
    Ok(rows)
}

/// The rows of one latency.
#[derive(Debug, Drop)]
pub struct LatencyRows {
    /// Rounds from begin to service.
    pub latency: u64,
    /// One for each number of registers.
    pub rows: Vec<RoundsRow>,
}

fn sweep_each<R: Threads + Sync>(
    rt: &R,
    alloc: Global,
    machines: &[Sizes],
    timings: &[Timing],
    requests: &[Event],
) -> Result<Vec<LatencyRows>, SweepFault>
    requires latency { All (λ timing. timing.latency ≤ MOST_LATENCY) timings.now }
    requires few { length requests.now ≤ most_requests }
    requires all { list_all is_request requests.now ≡ true }
    ensures rows { IfOk result (λ swept. AreSwept timings.now machines.now requests.now swept.items) }
    ensures fault { IfErr result (FaultSays bad_machine machines.now) }
    ensures no_turns { result ≢ Err TurnLimit }
{
    let mut swept = Vec::new(alloc);
    for timing in timings {
        let made = sweep_rounds(
            rt,
            alloc,
            *timing,
            requests,
            machines,
            SWEEP_TURNS,
            &OpenGate,
        )?;
        let rows = LatencyRows {
            latency: timing.latency,
            rows: made,
        };
        match swept.push(rows) {
            Ok(()) => {}
            Err(_) => return Err(SweepFault::OutOfMemory),
        }
    }
    Ok(swept)
}

/// The rows of each of these times of memory, as [`sweep_in_rounds`] makes them. The requests are
/// read once.
pub fn sweep_latencies<R: Threads + Sync, I: Source>(
    rt: &R,
    alloc: Global,
    sizes: &Sizes,
    registers: &[u32],
    timings: &[Timing],
    input: &mut I,
) -> Result<Vec<LatencyRows>, JobFault>
    requires latency { All (λ timing. timing.latency ≤ MOST_LATENCY) timings.now }
    ensures rows { IfOk result
        (λ rows. (texts : List (List ℕ)) × ReadWhole I.gave trace_fault MAX_LINE input.old input.new texts
        × AreSwept timings.now (swept sizes.now registers.now) (requests_of texts) rows.items) }
    ensures fault { IfErr result (SweepFails I.gave I.failed (swept sizes.now registers.now) input.old input.new) }
{
    let requests = read_requests(alloc, input)?;
    let machines = swept_machines(alloc, sizes, registers)?;
    let rows = sweep_each(rt, alloc, machines.as_slice(), timings, requests.as_slice())?;
    Ok(rows)
}
