//! A station on a crew's threads, a port for each script.

ghost use Rattle.std.specs.Prelude.{◌≡◌, length, vec_len};
ghost use Rattle.station_parts.specs.Station.{AreOneStation};

use crate::fault::StationFault;
use crate::patience::PatientGate;
use ring_station::{Ask, Audit, Crew, Station, run_and_audit, station};
use station_checks::{BLOCK_WORDS, DEPTH, Plan, REGS, WAYS, shape};
use std::rt::Clock;
use std::thread::Threads;

// A run doesn't use them up unless its journal is full.
const TURNS: u64 = 100_000_000;

// A port lets them go by before it offers again: few come too early.
const PATIENCE: u32 = 100;

/// Runs the scripts with a journal of so many entries. Says whether the audit is clean.
pub(crate) fn ask_on_threads<R: AllocGlobal + Clock + Threads + Sync>(
    rt: &R,
    plan: &Plan,
    scripts: &[Vec<Ask>],
    entries: u32,
    crew: Crew,
) -> Result<bool, StationFault>
    requires { length scripts.now ≡ plan.now.ports }
{
    let alloc = rt.alloc();
    let gate = PatientGate::new(alloc, PATIENCE)?;
    let mut station = station::<WAYS, BLOCK_WORDS, REGS, DEPTH>(
        alloc,
        shape(),
        plan.ports,
        entries,
    )?;
    runs_clean(rt, &mut station, scripts, crew, &gate)
}

fn runs_clean<R: AllocGlobal + Clock + Threads + Sync>(
    rt: &R,
    station: &mut Station,
    scripts: &[Vec<Ask>],
    crew: Crew,
    gate: &PatientGate,
) -> Result<bool, StationFault>
    requires one { AreOneStation station.old.cache station.old.ports.items station.old.banks.items }
    requires ports { length scripts.now ≡ vec_len station.old.ports }
{
    let run = run_and_audit(rt, rt.alloc(), station, scripts, TURNS, crew, gate)?;
    match run.fault() {
        Some(fault) => Err(fault.into()),
        None => Ok(run.audit == Audit::Clean),
    }
}
