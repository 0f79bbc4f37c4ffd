//! Requests are driven, and the run is written.

ghost use Rattle.std.specs.Prelude.{◌≡◌, ◌≤◌, true, None, length, IfOk, IfErr, OnOk, OnErr};
ghost use Rattle.std.specs.List.{list_all};
ghost use Rattle.shape_files.specs.MachineFile.{bad_machine};
ghost use Rattle.register_sweeps.specs.Sweep.{machine_over};
ghost use Rattle.kroft_jobs.specs.Words.{MOST_LATENCY};
ghost use Rattle.round_driver.specs.Rounds.{most_requests};
ghost use Rattle.round_driver.specs.Walks.{is_request};
ghost use Rattle.trace_text.specs.Streams.{Moves, Stopped};
ghost use Rattle.kroft_jobs.specs.Asking.{room_of};
ghost use Rattle.kroft_jobs.specs.Driving.{IsDriven, IsToldAndDriven, DrivesAll};
ghost use Rattle.kroft_jobs.specs.Lengths.{IsMeasured, long_run_line};
ghost use Rattle.kroft_jobs.specs.Writing.{IsOffered};

use crate::asked::{RequestText, read_asked};
use crate::lengths::{RunLength, RunMeasure};
use crate::writing::put_text;
use access_logs::LogFault;
use flat_model::{Event, Image};
use register_sweeps::{Sizes, new_machine};
use round_driver::{Timing, drive_with, keeps_whole};
use std::alloc::Global;
use trace_text::{Sink, Source, TraceFault, write_whole};

/// Drives the requests of a trace or of a log over an image, as [`drive_with`] does, and writes the
/// run. Returns its rounds. The output isn't flushed.
///
/// If the run has more than 16,777,216 lines, a line on `errors` says so first, since no check
/// reads more. So a run above 16 MiB is driven twice: to measure it, then to write it.
///
/// All requests are read before anything is written. A refused write ends the run at once; a
/// refused line on `errors` doesn't. The latency is at most `MOST_LATENCY`.
pub fn drive_requests<I: Source, O: Sink, E: Sink>(
    alloc: Global,
    sizes: &Sizes,
    image: &Image,
    timing: Timing,
    from: RequestText,
    input: &mut I,
    output: &mut O,
    errors: &mut E,
) -> Result<u64, LogFault>
    requires sizes { bad_machine sizes.now ≡ None }
    requires latency { timing.latency ≤ MOST_LATENCY }
    ensures { DrivesAll I.gave I.failed O.took O.refused E.took E.refused E.unflushed from (room_of sizes.now) timing
        (machine_over image.now sizes.now) input.old input.new output.old output.new errors.old errors.new result }
{
    let asked = read_asked(alloc, from, sizes, input)?;
    let requests = asked.requests.as_slice();
    match tell_and_drive(alloc, sizes, image, timing, requests, output, errors) {
        Ok(rounds) => Ok(rounds),
        Err(fault) => Err(LogFault::Trace(fault)),
    }
}

// Drives requests; of a run too long for a check it tells first.
fn tell_and_drive<O: Sink, E: Sink>(
    alloc: Global,
    sizes: &Sizes,
    image: &Image,
    timing: Timing,
    requests: &[Event],
    output: &mut O,
    errors: &mut E,
) -> Result<u64, TraceFault>
    requires sizes { bad_machine sizes.now ≡ None }
    requires latency { timing.latency ≤ MOST_LATENCY }
    requires few { length requests.now ≤ most_requests }
    requires all { list_all is_request requests.now ≡ true }
    ensures { IsToldAndDriven O.took O.refused E.took E.refused E.unflushed timing (machine_over image.now sizes.now)
        requests.now output.old output.new errors.old errors.new result }
{
    match measure_run(alloc, sizes, image, timing, requests)? {
        RunLength::Kept { text, rounds } => put_run(output, text.as_slice(), rounds),
        RunLength::Readable => drive_all(alloc, sizes, image, timing, requests, output),
        RunLength::TooLong => {
            tell_length(errors);
            drive_all(alloc, sizes, image, timing, requests, output)
        }
    }
}

// Tells that a check doesn't read the whole run. A refusal has nowhere to go.
fn tell_length<E: Sink>(errors: &mut E)
    ensures { IsOffered E.took E.refused E.unflushed errors.old long_run_line errors.new }
{
    let _told = put_text(
        errors,
        b"note: the run has more than 16777216 lines, and check reads no more: explain reads any number\n",
    );
}

fn put_run<O: Sink>(output: &mut O, text: &[u8], rounds: u64) -> Result<u64, TraceFault>
    ensures ok { OnOk result (Moves O.took output.old text.now output.new) }
    ensures rounds { IfOk result (λ told. told ≡ rounds) }
    ensures err { OnErr result (Stopped O.took O.refused output.old text.now output.new) }
    ensures fault { IfErr result (λ fault. fault ≡ TraceFault.Write) }
{
    match write_whole(output, text) {
        Ok(()) => Ok(rounds),
        Err(_) => Err(TraceFault::Write),
    }
}

// How long the run is, by driving it on a new machine. Memory may be missing.
fn measure_run(
    alloc: Global,
    sizes: &Sizes,
    image: &Image,
    timing: Timing,
    requests: &[Event],
) -> Result<RunLength, TraceFault>
    requires sizes { bad_machine sizes.now ≡ None }
    requires latency { timing.latency ≤ MOST_LATENCY }
    requires few { length requests.now ≤ most_requests }
    requires all { list_all is_request requests.now ≡ true }
    ensures measured { IfOk result
        (IsMeasured timing (machine_over image.now sizes.now) requests.now) }
    ensures fault { IfErr result (λ fault. fault ≡ TraceFault.OutOfMemory) }
{
    let mut measure = RunMeasure::new(alloc);
    match drive_all(alloc, sizes, image, timing, requests, &mut measure) {
        Ok(rounds) => Ok(measure.length(rounds)),
        Err(TraceFault::Write) => Ok(RunLength::TooLong),
        Err(fault) => Err(fault),
    }
}

// Drives requests on a new machine.
fn drive_all<O: Sink>(
    alloc: Global,
    sizes: &Sizes,
    image: &Image,
    timing: Timing,
    requests: &[Event],
    output: &mut O,
) -> Result<u64, TraceFault>
    requires sizes { bad_machine sizes.now ≡ None }
    requires latency { timing.latency ≤ MOST_LATENCY }
    requires few { length requests.now ≤ most_requests }
    requires all { list_all is_request requests.now ≡ true }
    ensures { IsDriven O.took O.refused timing (machine_over image.now sizes.now) requests.now output.old output.new
        result }
{
    let Ok(mut machine) = new_machine(alloc, sizes, image) else {
        return Err(TraceFault::OutOfMemory);
    };
    keeps_whole(&machine);
    drive_with(alloc, &mut machine, timing, requests, output)
}
