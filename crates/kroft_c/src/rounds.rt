//! The machine behind a handle in rounds.
ghost use Rattle.std.specs.Prelude.{◌≡◌, ◌≢◌, Some};
ghost use Rattle.std.specs.Option.{option_map, unwrap_or};
ghost use Rattle.machine_handles.specs.Behind.{standing, behind, alone};
ghost use Rattle.machine_handles.specs.Rounds.{rounds_fault, counted, driven, IsDriven, IsToldOfRounds};
ghost use Rattle.machine_handles.specs.Stepping.{begin_fault, begun, ended, round_fault, made, after_round, round_row, counts_in, absent};
ghost use Rattle.machine_handles.specs.Stepping.{fault_status};

use flat_judge::EventRow;
use machine_handles::{CountsRow, Handle, RoundRow};
use std::alloc::Global;

/// Drives these requests through the machine in rounds until nothing is on its way, and counts.
#[unsafe(no_mangle)]
pub extern "C" fn kroft_machine_drive(
    alloc: Global,
    handle: &mut Handle,
    latency: u32,
    busy: u32,
    requests: &[EventRow],
    counts: &mut CountsRow,
) -> u32
    ensures status { IsToldOfRounds result
        (rounds_fault (standing handle.old) latency requests.now) }
    ensures counts { result ≡ 0
        → Some counts.new ≡ counted latency busy requests.now (behind handle.old) }
    ensures machine { result ≡ 0
        → standing handle.new
        ≡ option_map alone (driven latency busy requests.now (behind handle.old)) }
    ensures over { result ≡ 0
        → IsDriven latency busy requests.now (behind handle.old) }
    ensures unchanged { result ≢ 0 → standing handle.new ≡ standing handle.old }
    ensures kept { result ≢ 0 → counts.new ≡ counts.old }
{
    machine_handles::drive(alloc, handle, latency, busy, requests, counts)
}

/// Begins rounds in the machine: the next one is round 1, and nothing is counted.
#[unsafe(no_mangle)]
pub extern "C" fn kroft_machine_begin_rounds(
    alloc: Global,
    handle: &mut Handle,
    latency: u32,
    busy: u32,
) -> u32
    ensures status { IsToldOfRounds result (begin_fault (standing handle.old) latency) }
    ensures begun { result ≡ 0
        → standing handle.new ≡ begun latency busy (standing handle.old) }
    ensures unchanged { result ≢ 0 → standing handle.new ≡ standing handle.old }
{
    machine_handles::begin_rounds(alloc, handle, latency, busy)
}

/// Makes one round, which offers the first of these requests, if there is one.
#[unsafe(no_mangle)]
pub extern "C" fn kroft_machine_round(
    alloc: Global,
    handle: &mut Handle,
    requests: &[EventRow],
    row: &mut RoundRow,
) -> u32
    ensures status { result
        ≡ fault_status (round_fault (standing handle.old) requests.now) }
    ensures row { result ≡ 0 → Some row.new
        ≡ option_map (round_row requests.now) (made (standing handle.old) requests.now) }
    ensures machine { result ≡ 0
        → standing handle.new ≡ after_round (standing handle.old) requests.now }
    ensures unchanged { result ≢ 0 → standing handle.new ≡ standing handle.old }
    ensures kept { result ≢ 0 → row.new ≡ row.old }
{
    machine_handles::round(alloc, handle, requests, row)
}

/// What was counted since the rounds were begun.
#[unsafe(no_mangle)]
pub extern "C" fn kroft_machine_round_counts(
    alloc: Global,
    handle: &mut Handle,
    counts: &mut CountsRow,
) -> u32
    ensures status { result ≡ fault_status (absent (standing handle.old)) }
    ensures counts { counts.new ≡ unwrap_or (counts_in (standing handle.old)) counts.old }
    ensures same { standing handle.new ≡ standing handle.old }
{
    machine_handles::round_counts(alloc, handle, counts)
}

/// Ends the rounds: from then on the caller makes the machine's events.
#[unsafe(no_mangle)]
pub extern "C" fn kroft_machine_end_rounds(alloc: Global, handle: &mut Handle) -> u32
    ensures status { result ≡ fault_status (absent (standing handle.old)) }
    ensures ended { standing handle.new ≡ ended (standing handle.old) }
{
    machine_handles::end_rounds(alloc, handle)
}
