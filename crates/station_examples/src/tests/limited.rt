//! Runs that come to their limit, behind which a station isn't renewed. In a turn a port makes at most one
//! move: an ask, a telling or Done. The cache side notes at most one entry.
ghost use Rattle.station_parts.specs.Station.{AreOneStation};

use super::ends::are_lists;
use super::gates::{Rule, RuledGate};
use super::{LOAD_5, SHAPE, TURNS, VALUE, scripts_of};
use ring_station::{
    Actor, Ask, Audit, Crew, Gate, RunFault, Segment, SegmentFault, Station, Told, audit,
    run_and_renew, run_in_segments, station,
};
use std::alloc::Global;
use std::process::Abort;
use std::rt::Clock;
use std::sync::atomic::{AtomicU64, Ordering};
use std::test::Fail;
use std::thread::Threads;

/// A run of a new station, each script an ask at most.
#[derive(Clone, Copy)]
struct Limited {
    name: &'static str,
    rule: Rule,
    /// Of each part.
    turns: u64,
    scripts: [&'static [Ask]; 2],
    /// Held behind it, at least and at most.
    entries: [u32; 2],
    /// If it is the same in every run.
    is_clean: Option<bool>,
}

const AT_LIMIT: SegmentFault = SegmentFault::Run(RunFault::TurnLimit);

// Enough for a thread that isn't held.
const SOME_TURNS: u64 = 100_000;

static LIMITED: [Limited; 4] = [
    // The cache side has a turn for one port.
    Limited {
        name: "one turn",
        rule: Rule::Open,
        turns: 1,
        scripts: [&[LOAD_5], &[]],
        entries: [0, 1],
        is_clean: Some(false),
    },
    // The load, its verdict, its value and Done are four moves.
    Limited {
        name: "a turn too few for a port",
        rule: Rule::Open,
        turns: 3,
        scripts: [&[LOAD_5], &[]],
        entries: [0, 3],
        is_clean: Some(false),
    },
    // Fourteen entries: for each port an ask, a reply and its end; and four words, which come and are
    // processed.
    Limited {
        name: "a turn too few for the cache side",
        rule: Rule::Open,
        turns: 13,
        scripts: [&[LOAD_5], &[LOAD_5]],
        entries: [0, 13],
        is_clean: None,
    },
    // Nothing is owed. The other port's end is handed out in no journal.
    Limited {
        name: "a held port",
        rule: Rule::Holds(Actor::Port(0)),
        turns: SOME_TURNS,
        scripts: [&[LOAD_5], &[]],
        entries: [1, 1],
        is_clean: Some(true),
    },
];

fn run_once<R: Abort + Clock + Threads + Sync, G: Gate>(
    rt: &R,
    alloc: Global,
    all: &mut Station,
    row: &Limited,
    turns: u64,
    gate: &G,
) -> Result<Option<SegmentFault>, Fail>
    requires { AreOneStation all.old.cache all.old.ports.items all.old.banks.items }
    ensures { AreOneStation all.new.cache all.new.ports.items all.new.banks.items }
{
    let scripts = scripts_of(alloc, &row.scripts)?;
    assert_eq!(rt; scripts.len(), all.ports.len());
    Ok(run_and_renew(rt, alloc, all, &scripts, turns, Crew::one_each(), gate).err())
}

fn run_by_asks<R: Abort + Clock + Threads + Sync, G: Gate>(
    rt: &R,
    alloc: Global,
    all: &mut Station,
    rows: &[&[Ask]],
    turns: u64,
    gate: &G,
    kept: &mut Vec<Segment>,
) -> Result<Option<SegmentFault>, Fail>
    requires { AreOneStation all.old.cache all.old.ports.items all.old.banks.items }
    ensures { AreOneStation all.new.cache all.new.ports.items all.new.banks.items }
{
    let scripts = scripts_of(alloc, rows)?;
    assert_eq!(rt; scripts.len(), all.ports.len());
    let crew = Crew::one_each();
    let run = run_in_segments(rt, alloc, all, &scripts, 1, turns, crew, gate, kept);
    Ok(run.err())
}

#[derive(Clone, Copy)]
struct Left {
    fault: Option<SegmentFault>,
    entries: u32,
    is_clean: bool,
}

fn left_in(all: &mut Station, fault: Option<SegmentFault>) -> Left
    requires { AreOneStation all.old.cache all.old.ports.items all.old.banks.items }
{
    let found = audit(&mut all.cache, &mut all.ports, &mut all.banks);
    Left {
        fault,
        entries: all.cache.entries(),
        is_clean: found == Audit::Clean,
    }
}

fn left_at_once<R: Abort + Clock + Threads + Sync>(
    rt: &R,
    alloc: Global,
    row: &Limited,
    turns: u64,
    gate: &RuledGate,
) -> Result<Left, Fail> {
    let mut all = station::<1, 4, 2, 2>(alloc, SHAPE, 2, 1_000)?;
    let fault = run_once(rt, alloc, &mut all, row, turns, gate)?;
    Ok(left_in(&mut all, fault))
}

fn left_by_asks<R: Abort + Clock + Threads + Sync, G: Gate>(
    rt: &R,
    alloc: Global,
    rows: &[&[Ask]],
    turns: u64,
    gate: &G,
    kept: &mut Vec<Segment>,
) -> Result<Left, Fail> {
    let mut all = station::<1, 4, 2, 2>(alloc, SHAPE, 2, 1_000)?;
    let fault = run_by_asks(rt, alloc, &mut all, rows, turns, gate, kept)?;
    Ok(left_in(&mut all, fault))
}

// The cache side and the banks end behind all ports.
fn kept_to_turns(gate: &RuledGate, turns: u64) -> bool {
    let [cache, first_port, second_port, first_bank, second_bank] = gate.turns();
    [cache, first_bank, second_bank] == [turns; 3] && first_port.max(second_port) <= turns
}

// And nothing was handed out.
fn is_left_so(left: &Left, gate: &RuledGate, row: &Limited) -> bool {
    let [least, most] = row.entries;
    left.fault == Some(AT_LIMIT)
        && kept_to_turns(gate, row.turns)
        && (least..=most).contains(&left.entries)
        && row.is_clean.is_none_or(|wanted| left.is_clean == wanted)
}

#[test]
fn no_renewal_at_a_limit(rt: HostRuntime) -> Result<(), Fail> {
    for row in &LIMITED {
        let gate = RuledGate::new(row.rule);
        let left = left_at_once(&rt, rt.alloc(), row, row.turns, &gate)?;
        assert!(rt; is_left_so(&left, &gate, row), "{}", row.name);
    }
    Ok(())
}

#[test]
fn no_segment_at_a_limit(rt: HostRuntime) -> Result<(), Fail> {
    let alloc = rt.alloc();
    for row in &LIMITED {
        let gate = RuledGate::new(row.rule);
        let mut kept: Vec<Segment> = Vec::new(alloc);
        let left = left_by_asks(&rt, alloc, &row.scripts, row.turns, &gate, &mut kept)?;
        assert!(rt;
            kept.is_empty() && is_left_so(&left, &gate, row),
            "{}",
            row.name
        );
    }
    Ok(())
}

#[test]
fn the_same_scripts_with_enough_turns(rt: HostRuntime) -> Result<(), Fail> {
    for row in &LIMITED {
        let gate = RuledGate::new(Rule::Open);
        let left = left_at_once(&rt, rt.alloc(), row, TURNS, &gate)?;
        assert_eq!(rt; (left.fault, left.entries), (None, 0), "{}", row.name);
    }
    Ok(())
}

/// Lets all go on until the ports were told so much.
#[derive(Drop)]
struct ClosingGate {
    told: AtomicU64,
    most: u64,
}

impl Gate for ClosingGate {
    fn may(&self, _actor: Actor) -> bool {
        self.told.load(Ordering::SeqCst) < self.most
    }

    fn told(&self, _port: u32, _told: &Told) {
        self.told.fetch_add(1, Ordering::SeqCst);
    }
}

// The second load is told its verdict alone.
#[test]
fn a_segment_before_the_limit_is_kept(rt: HostRuntime) -> Result<(), Fail> {
    let alloc = rt.alloc();
    let gate = ClosingGate {
        told: AtomicU64::new(0),
        most: 3,
    };
    let mut kept: Vec<Segment> = Vec::new(alloc);
    let rows: [&[Ask]; 2] = [&[LOAD_5, LOAD_5], &[]];
    let left = left_by_asks(&rt, alloc, &rows, SOME_TURNS, &gate, &mut kept)?;
    assert_eq!(rt; (left.fault, left.is_clean), (Some(AT_LIMIT), false));
    assert_eq!(rt; kept.len(), 1);
    assert!(rt; are_lists(&kept[0].lists, &[&[Told::Accepted, VALUE], &[]]));
    Ok(())
}
