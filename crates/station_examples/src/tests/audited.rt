//! What a caller knows of a run and its audit, by their contracts alone.
ghost use Rattle.std.specs.Prelude.{◌≡◌, length, IfOk};
ghost use Rattle.station_parts.specs.declared.parts.Audit.TheVariants.{Clean};
ghost use Rattle.station_parts.specs.Promises.{IsFlatRun, PaysLoads};
ghost use Rattle.station_parts.specs.Runs.{AreAnswered};
ghost use Rattle.station_parts.specs.Words.{journal_of, sizes_in};

use super::gates::{Rule, RuledGate};
use super::{LOAD_5, SHAPE, TURNS, VALUE, scripts_of};
use ring_station::{Ask, Audit, Gate, Station, Told, audit, run_threads, station};
use std::alloc::Global;
use std::rt::Clock;
use std::test::Fail;
use std::thread::Threads;

#[derive(Drop)]
struct Audited {
    station: Station,
    lists: Vec<Vec<Told>>,
    found: Audit,
}

fn run_and_audit<R: Clock + Threads + Sync, G: Gate>(
    rt: &R,
    alloc: Global,
    scripts: &[Vec<Ask>],
    gate: &G,
) -> Result<Audited, Fail>
    requires { length scripts.now ≡ 2 }
    ensures flat { IfOk result
        (λ run. IsFlatRun (sizes_in run.station.cache) (journal_of run.station.cache)) }
    ensures answered { IfOk result
        (λ run. AreAnswered run.found (journal_of run.station.cache) run.lists.items) }
    ensures paid { IfOk result (λ run. run.found ≡ Clean
        → PaysLoads (sizes_in run.station.cache) (journal_of run.station.cache)) }
{
    let mut all = station::<1, 4, 2, 2>(alloc, SHAPE, 2, 1_000)?;
    let lists = run_threads(rt, alloc, &mut all, scripts, TURNS, gate)?;
    let found = audit(&mut all.cache, &mut all.ports, &mut all.banks);
    Ok(Audited {
        station: all,
        lists,
        found,
    })
}

// For each port an ask, a reply and its end; and four words, which come and are processed.
const ENTRIES: u32 = 14;

fn have_loaded(run: &Audited) -> bool {
    let told = [Told::Accepted, VALUE];
    run.found == Audit::Clean
        && run.lists.len() == 2
        && run
            .lists
            .iter()
            .all(|list| list.as_slice() == told.as_slice())
        && run.station.cache.entries() == ENTRIES
}

#[test]
fn run_with_its_audit(rt: HostRuntime) -> Result<(), Fail> {
    let alloc = rt.alloc();
    let scripts = scripts_of(alloc, &[&[LOAD_5], &[LOAD_5]])?;
    assert_eq!(rt; scripts.len(), 2);
    let run = run_and_audit(&rt, alloc, &scripts, &RuledGate::new(Rule::Open))?;
    assert!(rt; have_loaded(&run));
    Ok(())
}
