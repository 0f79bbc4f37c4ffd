//! Runs of rounds.

ghost use Rattle.std.specs.Prelude.{◌≤◌, length};
ghost use Rattle.round_driver.specs.declared.driving.TheConstants.{MOST_LATENCY};
ghost use Rattle.round_driver.specs.Rounds.{most_requests};

use super::fixture::{ZERO, same};
use cache_unit::{Sizes, sizes_of};
use machine_core::{Event, Shape, ShapedMachine};
use round_driver::{
    LostRounds, MOST_LATENCY, Table, Timing, drive, drive_with, summarize, summarize_with,
};
use std::alloc::Global;
use std::test::Fail;
use trace_text::{CheckEnd, check_text, read_requests};

// A new machine over zeros.
fn machine(alloc: Global, regs: u32, shape: Shape) -> Result<ShapedMachine, Fail> {
    let image = vec![in alloc; ZERO; shape.words as usize]?;
    let sizes = Sizes {
        regs,
        ..sizes_of::<2, 4, 1, 4>(&shape)
    };
    Ok(ShapedMachine::new(alloc, &sizes, &image)?)
}

// The program's shape with shorter queues.
const NARROW_SHAPE: Shape = Shape {
    words: 64,
    sets: 4,
    banks: 4,
    bank_queue: 4,
    write_queue: 4,
    replies: 4,
};

const WIDE_SHAPE: Shape = Shape {
    words: 65_536,
    sets: 64,
    banks: 16,
    bank_queue: 8,
    write_queue: 8,
    replies: 64,
};

fn rounds_of(alloc: Global, regs: u32, requests: &[Event; 400]) -> Result<u64, Fail> {
    let mut machine = machine(alloc, regs, WIDE_SHAPE)?;
    let table = summarize(alloc, &mut machine, 20, requests)?;
    Ok(table.rounds)
}

// 400 loads of the words 0, 4, 8, ..
#[test]
fn one_stream_of_misses(rt: HostRuntime) -> Result<(), Fail> {
    let mut requests = [Event::Drain; 400];
    for (request, tag) in requests.iter_mut().zip(0u16..) {
        let at = 4 * u32::from(tag);
        *request = Event::Load { tag, at };
    }
    for (registers, wanted) in [(1, 9602), (2, 4806), (4, 2414), (8, 2117)] {
        let rounds = rounds_of(rt.alloc(), registers, &requests)?;
        same(&rt, "rounds", rounds, wanted);
    }
    Ok(())
}

/// Requests to a machine with one register, and the table of their rounds.
struct Rounds {
    name: &'static str,
    latency: u64,
    requests: &'static [Event],
    table: Table,
    shown: &'static str,
}

const NO_LOST: LostRounds = LostRounds {
    tag_in_use: 0,
    replies_full: 0,
    targets_full: 0,
    block_queued: 0,
    no_register: 0,
    set_pending: 0,
    queue_full: 0,
    bank_full: 0,
};

const EMPTY_TABLE: Table = Table {
    rounds: 0,
    accepted: 0,
    denied: 0,
    hits: 0,
    joins: 0,
    misses: 0,
    stalled: 0,
    lost: NO_LOST,
    values: 0,
    waited: 0,
    longest: 0,
    registers: 0,
    written: 0,
};

const TABLES: &[Rounds] = &[
    // Latency 0: the load is accepted in round 1, the four banks serve in round 2, and words come
    // in rounds 2 to 5. Nothing moves in round 6.
    Rounds {
        name: "a_load_without_latency",
        latency: 0,
        requests: &[Event::Load { tag: 1, at: 0 }],
        table: Table {
            rounds: 6,
            accepted: 1,
            misses: 1,
            values: 1,
            waited: 1,
            longest: 1,
            registers: 1,
            ..EMPTY_TABLE
        },
        shown: "rounds 6 accepted 1 denied 0 hits 0 joins 0 misses 1 stalled 0 lost 3:0 4:0 5:0 7:0 8:0 9:0 10:0 values 1 mean 1.00 longest 1 registers 1 written 0",
    },
    // Latency 2, one register: word 0 is asked in round 1, begun in 2, served in 4. Its words come
    // in rounds 4 to 7, so it waits 3 rounds. Word 1 joins in round 2 and waits for round 5. Word 4
    // is asked from round 3, finds the register free in round 7, and comes in round 10. An address
    // outside is denied in round 8. The last word comes in round 13, and nothing moves in round 14.
    Rounds {
        name: "a_table_of_four_requests",
        latency: 2,
        requests: &[
            Event::Load { tag: 1, at: 0 },
            Event::Load { tag: 2, at: 1 },
            Event::Load { tag: 3, at: 4 },
            Event::Load { tag: 4, at: 64 },
        ],
        table: Table {
            rounds: 14,
            accepted: 3,
            denied: 1,
            joins: 1,
            misses: 2,
            stalled: 1,
            lost: LostRounds {
                no_register: 4,
                ..NO_LOST
            },
            values: 3,
            waited: 9,
            longest: 3,
            registers: 1,
            ..EMPTY_TABLE
        },
        shown: "rounds 14 accepted 3 denied 1 hits 0 joins 1 misses 2 stalled 1 lost 3:0 4:0 5:0 7:4 8:0 9:0 10:0 values 3 mean 3.00 longest 3 registers 1 written 0",
    },
    // A drain is no request, and never ends: it is asked in (1 + 1) * (44 + 1) rounds, and the
    // count adds the one in which nothing moves. A register of four words weighs 16 at most, four
    // replies 4, four queued words 8, four banks of four commands 16.
    Rounds {
        name: "a_drain_is_asked_to_the_last_round",
        latency: 0,
        requests: &[Event::Drain],
        table: Table {
            rounds: 91,
            ..EMPTY_TABLE
        },
        shown: "rounds 91 accepted 0 denied 0 hits 0 joins 0 misses 0 stalled 0 lost 3:0 4:0 5:0 7:0 8:0 9:0 10:0 values 0 mean 0.00 longest 0 registers 0 written 0",
    },
];

// The table of these requests.
fn table_of(alloc: Global, latency: u64, requests: &[Event]) -> Result<Table, Fail>
    requires latency { latency ≤ MOST_LATENCY }
    requires requests { length requests.now ≤ most_requests }
{
    let mut machine = machine(alloc, 1, NARROW_SHAPE)?;
    Ok(summarize(alloc, &mut machine, latency, requests)?)
}

#[test]
fn tables_of_rounds(rt: HostRuntime) -> Result<(), Fail> {
    for rounds in TABLES {
        let name = rounds.name;
        assert!(rt; rounds.requests.len() <= 4);
        let table = table_of(rt.alloc(), rounds.latency, rounds.requests)?;
        same(&rt, name, table, rounds.table);
        let shown = format!(in rt.alloc(); "{table}")?;
        same(&rt, name, shown.as_str(), rounds.shown);
    }
    Ok(())
}

// The rounds of a load of word 0 with latency 0.
fn rounds_of_a_load(alloc: Global, written: &mut Vec<u8>) -> Result<u64, Fail> {
    let mut machine = machine(alloc, 1, NARROW_SHAPE)?;
    let requests = [Event::Load { tag: 1, at: 0 }];
    Ok(drive(alloc, &mut machine, 0, &requests, written)?)
}

#[test]
fn a_load_without_latency(rt: HostRuntime) -> Result<(), Fail> {
    let mut written = Vec::new(rt.alloc());
    let rounds = rounds_of_a_load(rt.alloc(), &mut written)?;
    same(&rt, "rounds", rounds, 6);
    let wanted = "load 1 0 -> accepted
serve 0 -> moved
serve 1 -> moved
serve 2 -> moved
serve 3 -> moved
arrive 0 0 -> moved
process 0 -> moved
take 0 -> value 1 00000000
arrive 1 0 -> moved
process 0 -> moved
arrive 2 0 -> moved
process 0 -> moved
arrive 3 0 -> moved
process 0 -> moved
";
    same(
        &rt,
        "the run",
        std::str::from_utf8(written.as_slice())?,
        wanted,
    );
    Ok(())
}

// Forty loads, 7 words apart, each with an eviction behind.
const LOADS_AND_EVICTIONS: &str = "load 0 0
evict 0
load 1 7
evict 1
load 2 14
evict 3
load 3 21
evict 5
load 4 28
evict 7
load 5 35
evict 8
load 6 42
evict 10
load 7 49
evict 12
load 8 56
evict 14
load 9 63
evict 15
load 10 6
evict 1
load 11 13
evict 3
load 12 20
evict 5
load 13 27
evict 6
load 14 34
evict 8
load 15 41
evict 10
load 16 48
evict 12
load 17 55
evict 13
load 18 62
evict 15
load 19 5
evict 1
load 20 12
evict 3
load 21 19
evict 4
load 22 26
evict 6
load 23 33
evict 8
load 24 40
evict 10
load 25 47
evict 11
load 26 54
evict 13
load 27 61
evict 15
load 28 4
evict 1
load 29 11
evict 2
load 30 18
evict 4
load 31 25
evict 6
load 32 32
evict 8
load 33 39
evict 9
load 34 46
evict 11
load 35 53
evict 13
load 36 60
evict 15
load 37 3
evict 0
load 38 10
evict 2
load 39 17
evict 4
";

// The load is accepted in round 1, and its first read begun in round 2. A pipelined bank begins
// another each `busy` rounds, so the last word comes in round 2 + 3 * busy + latency; nothing moves
// in the next one. Another bank begins a read every latency + 1 rounds.
#[test]
fn one_load_through_one_bank(rt: HostRuntime) -> Result<(), Fail> {
    let shape = Shape {
        banks: 1,
        ..NARROW_SHAPE
    };
    let requests = [Event::Load { tag: 1, at: 0 }];
    for (latency, busy, wanted) in [
        (5, 1, 11),
        (5, 2, 14),
        (5, 3, 17),
        (5, 4, 20),
        (5, 5, 26),
        (9, 2, 18),
        (9, 9, 42),
        (1, 1, 10),
    ] {
        let mut machine = machine(rt.alloc(), 1, shape)?;
        let timing = Timing { latency, busy };
        assert!(rt; timing.latency <= MOST_LATENCY);
        let table = summarize_with(rt.alloc(), &mut machine, timing, &requests)?;
        same(&rt, "rounds", table.rounds, wanted);
    }
    Ok(())
}

#[test]
fn runs_are_flat(rt: HostRuntime) -> Result<(), Fail> {
    let requests = read_requests(rt.alloc(), &mut LOADS_AND_EVICTIONS.as_bytes())?;
    assert!(rt; requests.len() == 80);
    for (latency, busy) in [(3, 3), (3, 1), (9, 2), (1_000, 1)] {
        let timing = Timing { latency, busy };
        assert!(rt; timing.latency <= MOST_LATENCY);
        let mut written = Vec::new(rt.alloc());
        let weight = weight_behind(rt.alloc(), timing, &requests, &mut written)?;
        same(&rt, "the weight", weight, 0);
        let verdict = check_text(rt.alloc(), &mut written.as_slice(), 64)?;
        assert!(rt; matches!(verdict, CheckEnd::Flat { .. }));
    }
    Ok(())
}

fn weight_behind(
    alloc: Global,
    timing: Timing,
    requests: &[Event],
    written: &mut Vec<u8>,
) -> Result<u64, Fail>
    requires latency { timing.latency ≤ MOST_LATENCY }
    requires requests { length requests.now ≤ most_requests }
{
    let mut machine = machine(alloc, 2, NARROW_SHAPE)?;
    drive_with(alloc, &mut machine, timing, requests, written)?;
    Ok(machine.weight())
}
