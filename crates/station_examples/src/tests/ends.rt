//! How the parts of a run end. A row has the gate's rule, the threads, and each part's end.
ghost use Rattle.std.specs.Prelude.{◌≡◌, length, vec_len};
ghost use Rattle.station_parts.specs.Station.{AreOneStation};

use super::gates::{Rule, RuledGate};
use super::{LOAD_5, SHAPE, TURNS, VALUE, scripts_of};
use flat_model::MakeFault;
use ring_station::{
    Actor, Ask, Audit, Crew, Ring, Run, Station, ThreadEnd, ThreadFault, Told, run_and_audit,
    station,
};
use std::alloc::{AllocError, Global};
use std::process::Abort;
use std::rt::Clock;
use std::test::Fail;
use std::thread::Threads;

/// A run of a new station with two ports and two banks.
#[derive(Clone, Copy)]
struct Ending {
    name: &'static str,
    rule: Rule,
    crew: Crew,
    /// Entries that it takes.
    journal: u32,
    /// Of each part.
    turns: u64,
    scripts: [&'static [Ask]; 2],
    /// Taken by each port.
    lists: [&'static [Told]; 2],
    cache: Option<ThreadFault>,
    ports: [Option<ThreadFault>; 2],
    banks: [Option<ThreadFault>; 2],
    /// If it is the same in every run.
    audit: Option<Audit>,
    /// Of bank 0, at least.
    bank_turns: u64,
}

const LIMIT: Option<ThreadFault> = Some(ThreadFault::TurnLimit);

// Enough for a thread that isn't held.
const SOME_TURNS: u64 = 100_000;

const EACH: Crew = Crew {
    port_threads: 2,
    bank_threads: 2,
};

const SHARED: Crew = Crew {
    port_threads: 1,
    bank_threads: 1,
};

const BESIDE: Crew = Crew {
    port_threads: 2,
    bank_threads: 0,
};

// No part comes to its end.
const ENDING: Ending = Ending {
    name: "",
    rule: Rule::Open,
    crew: EACH,
    journal: 1_000,
    turns: SOME_TURNS,
    scripts: [&[], &[]],
    lists: [&[], &[]],
    cache: LIMIT,
    ports: [LIMIT, LIMIT],
    banks: [LIMIT, LIMIT],
    audit: None,
    bank_turns: 0,
};

const PREFETCH: Ask = Ask::Prefetch { at: 0 };

const LEFT_ASKS: Option<Audit> = Some(Audit::Left {
    ring: Ring::Asks(0),
});

static ENDINGS: [Ending; 15] = [
    Ending {
        name: "all come to their ends",
        turns: TURNS,
        scripts: [&[LOAD_5], &[LOAD_5]],
        lists: [&[Told::Accepted, VALUE], &[Told::Accepted, VALUE]],
        cache: None,
        ports: [None, None],
        banks: [None, None],
        audit: Some(Audit::Clean),
        ..ENDING
    },
    Ending {
        name: "no turns",
        turns: 0,
        audit: Some(Audit::Clean),
        ..ENDING
    },
    Ending {
        name: "a held cache side",
        rule: Rule::Holds(Actor::Cache),
        turns: 1_000,
        scripts: [&[PREFETCH], &[]],
        // Without asks a port ends when it has offered Done.
        ports: [LIMIT, None],
        audit: LEFT_ASKS,
        ..ENDING
    },
    Ending {
        name: "a held port",
        rule: Rule::Holds(Actor::Port(0)),
        scripts: [&[PREFETCH], &[PREFETCH]],
        lists: [&[], &[Told::Accepted]],
        ports: [LIMIT, None],
        ..ENDING
    },
    Ending {
        name: "the other held port, whose thread another one shares",
        crew: SHARED,
        rule: Rule::Holds(Actor::Port(1)),
        scripts: [&[PREFETCH], &[PREFETCH]],
        lists: [&[Told::Accepted], &[]],
        ports: [None, LIMIT],
        ..ENDING
    },
    Ending {
        name: "a held bank",
        rule: Rule::Holds(Actor::Bank(1)),
        scripts: [&[LOAD_5], &[]],
        lists: [&[Told::Accepted], &[]],
        ports: [LIMIT, None],
        audit: Some(Audit::Left {
            ring: Ring::Commands(1),
        }),
        ..ENDING
    },
    // The prefetch takes the one entry; Done isn't heard.
    Ending {
        name: "a full journal",
        journal: 1,
        rule: Rule::Holds(Actor::Port(1)),
        scripts: [&[PREFETCH], &[]],
        lists: [&[Told::Accepted], &[]],
        cache: Some(ThreadFault::JournalFull),
        ports: [None, LIMIT],
        audit: LEFT_ASKS,
        ..ENDING
    },
    // The flag is set in the bank's first turn, so it has another.
    Ending {
        name: "a bank that hears late of the cache side's end",
        rule: Rule::LateBank,
        turns: TURNS,
        cache: None,
        ports: [None, None],
        banks: [None, None],
        audit: Some(Audit::Clean),
        bank_turns: 2,
        ..ENDING
    },
    Ending {
        name: "ports that share a thread, and banks that do",
        crew: SHARED,
        turns: TURNS,
        scripts: [&[LOAD_5], &[LOAD_5]],
        lists: [&[Told::Accepted, VALUE], &[Told::Accepted, VALUE]],
        cache: None,
        ports: [None, None],
        banks: [None, None],
        audit: Some(Audit::Clean),
        ..ENDING
    },
    Ending {
        name: "banks beside the cache side",
        crew: BESIDE,
        turns: TURNS,
        scripts: [&[LOAD_5], &[LOAD_5]],
        lists: [&[Told::Accepted, VALUE], &[Told::Accepted, VALUE]],
        cache: None,
        ports: [None, None],
        banks: [None, None],
        audit: Some(Audit::Clean),
        bank_turns: 2,
        ..ENDING
    },
    Ending {
        name: "a held bank beside the cache side",
        crew: BESIDE,
        rule: Rule::Holds(Actor::Bank(0)),
        scripts: [&[LOAD_5], &[]],
        lists: [&[Told::Accepted, VALUE], &[]],
        ports: [None, None],
        audit: Some(Audit::Left {
            ring: Ring::Commands(0),
        }),
        ..ENDING
    },
    Ending {
        name: "banks beside a held cache side",
        crew: BESIDE,
        rule: Rule::Holds(Actor::Cache),
        turns: 1_000,
        scripts: [&[LOAD_5], &[]],
        ports: [LIMIT, None],
        audit: LEFT_ASKS,
        bank_turns: 1_000,
        ..ENDING
    },
    Ending {
        name: "a full journal, with the banks beside the cache side",
        crew: BESIDE,
        journal: 1,
        rule: Rule::Holds(Actor::Port(1)),
        scripts: [&[PREFETCH], &[]],
        lists: [&[Told::Accepted], &[]],
        cache: Some(ThreadFault::JournalFull),
        ports: [None, LIMIT],
        audit: LEFT_ASKS,
        bank_turns: SOME_TURNS,
        ..ENDING
    },
    // No thread counts as one.
    Ending {
        name: "ports that share a thread, without turns",
        crew: Crew {
            port_threads: 0,
            bank_threads: 0,
        },
        turns: 0,
        audit: Some(Audit::Clean),
        ..ENDING
    },
    Ending {
        name: "a held bank beside one that goes on",
        crew: SHARED,
        rule: Rule::Holds(Actor::Bank(0)),
        scripts: [&[LOAD_5], &[]],
        lists: [&[Told::Accepted, VALUE], &[]],
        ports: [None, None],
        audit: Some(Audit::Left {
            ring: Ring::Commands(0),
        }),
        ..ENDING
    },
];

fn have_ended(ends: &[ThreadEnd], faults: [Option<ThreadFault>; 2], turns: u64) -> bool {
    ends.len() == faults.len()
        && ends
            .iter()
            .zip(&faults)
            .all(|(end, fault)| has_ended(end, *fault, turns))
}

fn has_ended(end: &ThreadEnd, fault: Option<ThreadFault>, turns: u64) -> bool {
    end.fault == fault && (fault != LIMIT || end.turns == turns)
}

// In the gate's order.
fn turns_of(run: &Run) -> Option<[u64; 5]> {
    Some([
        run.cache.turns,
        run.ports.first()?.turns,
        run.ports.get(1)?.turns,
        run.banks.first()?.turns,
        run.banks.get(1)?.turns,
    ])
}

pub(crate) fn are_lists(lists: &[Vec<Told>], wanted: &[&[Told]]) -> bool {
    lists.len() == wanted.len()
        && lists
            .iter()
            .zip(wanted)
            .all(|(list, told)| list.as_slice() == *told)
}

// Each turn asked the gate once, too.
fn is_as_said(run: &Run, gate: &RuledGate, row: &Ending) -> bool {
    let Some(turns) = turns_of(run) else {
        return false;
    };
    has_ended(&run.cache, row.cache, row.turns)
        && have_ended(&run.ports, row.ports, row.turns)
        && have_ended(&run.banks, row.banks, row.turns)
        && are_lists(&run.lists, &row.lists)
        && row.audit.is_none_or(|found| run.audit == found)
        && turns == gate.turns()
        && turns[3] >= row.bank_turns
}

fn make_run<R: Abort + Clock + Threads + Sync>(
    rt: &R,
    alloc: Global,
    row: &Ending,
) -> Result<bool, MakeFault> {
    let scripts = scripts_of(alloc, &row.scripts)?;
    let mut all = station::<1, 4, 2, 2>(alloc, SHAPE, 2, row.journal)?;
    assert_eq!(rt; scripts.len(), all.ports.len());
    Ok(runs_as_said(rt, alloc, &mut all, &scripts, row)?)
}

fn runs_as_said<R: Clock + Threads + Sync>(
    rt: &R,
    alloc: Global,
    all: &mut Station,
    scripts: &[Vec<Ask>],
    row: &Ending,
) -> Result<bool, AllocError>
    requires one { AreOneStation all.old.cache all.old.ports.items all.old.banks.items }
    requires scripts { length scripts.now ≡ vec_len all.old.ports }
{
    let gate = RuledGate::new(row.rule);
    let run = run_and_audit(rt, alloc, all, scripts, row.turns, row.crew, &gate)?;
    Ok(is_as_said(&run, &gate, row))
}

#[test]
fn ends_of_threads(rt: HostRuntime) -> Result<(), Fail> {
    for row in &ENDINGS {
        assert!(rt; make_run(&rt, rt.alloc(), row)?, "{}", row.name);
    }
    Ok(())
}
