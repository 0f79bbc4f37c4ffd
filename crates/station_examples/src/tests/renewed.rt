//! A station renewed behind each run. Later runs load what earlier ones stored: the journals together are a run
//! of flat memory, and a later one alone is none.
ghost use Rattle.std.specs.Prelude.{◌≡◌};
ghost use Rattle.station_parts.specs.Station.{AreOneStation};

use super::ends::are_lists;
use super::gates::{Rule, RuledGate};
use super::{LOAD_5, SHAPE, TURNS, VALUE, scripts_of};
use flat_model::{Lanes, Word};
use ring_station::{
    Ask, Crew, Entry, Keeper, RunFault, Segment, SegmentFault, Station, Told, run_and_renew,
    run_in_segments, station,
};
use station_checks::is_flat;
use std::alloc::{AllocError, Global};
use std::process::Abort;
use std::rt::Clock;
use std::test::Fail;
use std::thread::Threads;

/// What two ports are told.
#[derive(Clone, Copy)]
struct Expected {
    lists: [&'static [Told]; 2],
    /// Without the journals before.
    is_flat_alone: bool,
}

#[derive(Clone, Copy)]
struct Turn {
    scripts: [&'static [Ask]; 2],
    gives: Expected,
}

/// Scripts in pieces, and what is kept of each run.
#[derive(Clone, Copy)]
struct Cut {
    name: &'static str,
    scripts: [&'static [Ask]; 2],
    asks: usize,
    gives: &'static [Expected],
}

const STORED: Word = Word {
    b0: 0xee,
    b1: 0xdd,
    b2: 0xcc,
    b3: 0xbb,
};

const STORE_5: Ask = Ask::Store {
    at: 5,
    word: STORED,
    lanes: Lanes(15),
};

const STORED_VALUE: Told = Told::Value {
    tag: 1,
    word: STORED,
};

const LOADED: [Told; 2] = [Told::Accepted, STORED_VALUE];

static TURNS_OF_RUNS: [Turn; 3] = [
    Turn {
        scripts: [&[STORE_5], &[]],
        gives: Expected {
            lists: [&[Told::Accepted], &[]],
            is_flat_alone: true,
        },
    },
    Turn {
        scripts: [&[], &[LOAD_5]],
        gives: Expected {
            lists: [&[], &LOADED],
            is_flat_alone: false,
        },
    },
    Turn {
        scripts: [&[LOAD_5], &[]],
        gives: Expected {
            lists: [&LOADED, &[]],
            is_flat_alone: false,
        },
    },
];

const WANT_OF_MEMORY: SegmentFault = SegmentFault::Run(RunFault::OutOfMemory);

// Both ports load the word; then one stores it, and loads it.
const ONE_BY_ONE: [Expected; 3] = [
    Expected {
        lists: [&[Told::Accepted, VALUE], &[Told::Accepted, VALUE]],
        is_flat_alone: true,
    },
    Expected {
        lists: [&[Told::Accepted], &[]],
        is_flat_alone: true,
    },
    Expected {
        lists: [&LOADED, &[]],
        is_flat_alone: false,
    },
];

static CUTS: [Cut; 5] = [
    Cut {
        name: "one ask a piece",
        scripts: [&[LOAD_5, STORE_5, LOAD_5], &[LOAD_5]],
        asks: 1,
        gives: &ONE_BY_ONE,
    },
    Cut {
        name: "none counts as one",
        scripts: [&[LOAD_5, STORE_5, LOAD_5], &[LOAD_5]],
        asks: 0,
        gives: &ONE_BY_ONE,
    },
    Cut {
        name: "two asks a piece, the last of which has one",
        scripts: [&[], &[STORE_5, LOAD_5, LOAD_5]],
        asks: 2,
        gives: &[
            Expected {
                lists: [&[], &[Told::Accepted, Told::Accepted, STORED_VALUE]],
                is_flat_alone: true,
            },
            Expected {
                lists: [&[], &LOADED],
                is_flat_alone: false,
            },
        ],
    },
    Cut {
        name: "just as many asks as a piece has",
        scripts: [&[STORE_5, LOAD_5], &[]],
        asks: 2,
        gives: &[Expected {
            lists: [&[Told::Accepted, Told::Accepted, STORED_VALUE], &[]],
            is_flat_alone: true,
        }],
    },
    Cut {
        name: "no asks",
        scripts: [&[], &[]],
        asks: 2,
        gives: &[Expected {
            lists: [&[], &[]],
            is_flat_alone: true,
        }],
    },
];

fn run_turn<R: Abort + Clock + Threads + Sync>(
    rt: &R,
    alloc: Global,
    all: &mut Station,
    turn: &Turn,
) -> Result<Segment, Fail>
    requires { AreOneStation all.old.cache all.old.ports.items all.old.banks.items }
    ensures { AreOneStation all.new.cache all.new.ports.items all.new.banks.items }
{
    let scripts = scripts_of(alloc, &turn.scripts)?;
    assert_eq!(rt; scripts.len(), all.ports.len());
    let gate = RuledGate::new(Rule::Open);
    Ok(run_and_renew(rt, alloc, all, &scripts, TURNS, Crew::one_each(), &gate)?)
}

// Each port has ended in the journal, too.
fn is_as_said(alloc: Global, segment: &Segment, gives: &Expected) -> Result<bool, AllocError> {
    let is_flat_alone = is_flat(alloc, &segment.journal, SHAPE.words)?;
    Ok(
        is_flat_alone == gives.is_flat_alone
            && are_lists(&segment.lists, &gives.lists)
            && ended_in(&segment.journal) == gives.lists.len(),
    )
}

fn ended_in(journal: &[Entry]) -> usize {
    journal
        .iter()
        .filter(|entry| matches!(entry, Entry::Ended { .. }))
        .count()
}

fn run_turns<R: Abort + Clock + Threads + Sync>(
    rt: &R,
    alloc: Global,
    all: &mut Station,
    whole: &mut Vec<Entry>,
) -> Result<(), Fail>
    requires { AreOneStation all.old.cache all.old.ports.items all.old.banks.items }
{
    for turn in &TURNS_OF_RUNS {
        let segment = run_turn(rt, alloc, all, turn)?;
        assert!(rt; is_as_said(alloc, &segment, &turn.gives)?);
        whole.extend_from_slice(&segment.journal)?;
    }
    Ok(())
}

#[test]
fn renewed_behind_each_run(rt: HostRuntime) -> Result<(), Fail> {
    let alloc = rt.alloc();
    let mut whole: Vec<Entry> = Vec::new(alloc);
    let mut all = station::<1, 4, 2, 2>(alloc, SHAPE, 2, 1_000)?;
    run_turns(&rt, alloc, &mut all, &mut whole)?;
    assert_eq!(rt; all.cache.entries(), 0);
    assert!(rt; is_flat(alloc, &whole, SHAPE.words)?);
    Ok(())
}

fn run_cut<R: Abort + Clock + Threads + Sync, K: Keeper>(
    rt: &R,
    alloc: Global,
    cut: &Cut,
    keeper: &mut K,
) -> Result<Option<SegmentFault>, Fail> {
    let scripts = scripts_of(alloc, &cut.scripts)?;
    let mut all = station::<1, 4, 2, 2>(alloc, SHAPE, 2, 1_000)?;
    assert_eq!(rt; scripts.len(), all.ports.len());
    let gate = RuledGate::new(Rule::Open);
    let crew = Crew::one_each();
    let run = run_in_segments(
        rt, alloc, &mut all, &scripts, cut.asks, TURNS, crew, &gate, keeper,
    );
    Ok(run.err())
}

// And their journals are one of flat memory.
fn are_as_said(alloc: Global, kept: &[Segment], gives: &[Expected]) -> Result<bool, AllocError> {
    let mut whole: Vec<Entry> = Vec::new(alloc);
    for (segment, expected) in kept.iter().zip(gives) {
        if !is_as_said(alloc, segment, expected)? {
            return Ok(false);
        }
        whole.extend_from_slice(&segment.journal)?;
    }
    Ok(kept.len() == gives.len() && is_flat(alloc, &whole, SHAPE.words)?)
}

#[test]
fn renewed_behind_each_piece(rt: HostRuntime) -> Result<(), Fail> {
    let alloc = rt.alloc();
    for cut in &CUTS {
        let mut kept: Vec<Segment> = Vec::new(alloc);
        assert_eq!(rt; run_cut(&rt, alloc, cut, &mut kept)?, None, "{}", cut.name);
        assert!(rt; are_as_said(alloc, &kept, cut.gives)?, "{}", cut.name);
    }
    Ok(())
}

/// Counts segments and lets them go; it has no memory for more than `room`.
#[derive(Clone, Copy)]
struct Counter {
    segments: usize,
    room: usize,
}

impl Keeper for Counter {
    ghost use Rattle.std.specs.Prelude.{◌≡◌, ◌+◌, length};
    ghost use Rattle.std.proofs.Common.{sym, ap, ◌∙◌, add_assoc, add-zero, length-append};

    ghost kept = { λ old segments new. new.segments ≡ old.segments + length segments };

    ghost kept_none = { λ a. sym (add-zero a.segments) };

    ghost kept_more = { λ a b c xs ys p q.
        q ∙ ap (λ n. n + length ys) p ∙ add_assoc a.segments (length xs) (length ys)
        ∙ ap (λ n. a.segments + n) (sym (length-append xs ys)) };

    fn keep(&mut self, _segment: Segment) -> Result<(), AllocError> {
        if self.segments >= self.room {
            return Err(AllocError);
        }
        self.segments += 1;
        Ok(())
    }
}

#[test]
fn stops_at_a_segment_without_memory(rt: HostRuntime) -> Result<(), Fail> {
    for room in 0..4 {
        let mut counter = Counter { segments: 0, room };
        let fault = run_cut(&rt, rt.alloc(), &CUTS[0], &mut counter)?;
        assert_eq!(rt; fault.is_none(), room == 3);
        assert_eq!(rt; fault.unwrap_or(WANT_OF_MEMORY), WANT_OF_MEMORY);
        assert_eq!(rt; counter.segments, room);
    }
    Ok(())
}
