//! Sweeps on threads, in a gate's order, at their limits and largest sizes.

use flat_model::Event;
use kroft_command::Timing;
use register_sweeps::{
    OpenGate, Row, SweepFault, SweepGate, sweep, sweep_machines, sweep_rounds, sweep_row,
};
use shape_files::{ToolShape, read_shape};
use std::alloc::Global;
use std::fmt::Display;
use std::hint::spin_loop;
use std::process::Abort;
use std::sync::atomic::{AtomicBool, AtomicU64, Ordering};
use std::test::Fail;
use std::thread::Threads;

/// Pauses behind a gate's no: the thread that asks has a limit of turns, and the other may have no processor.
const PAUSES: u32 = 64;

#[derive(Clone, Copy)]
enum Opens {
    AtOnce,
    /// Row 0 goes on when row 1 has ended.
    SecondFirst,
    /// When both rows have asked.
    BothThere,
    /// At this ask, counted from 1.
    AtAsk(u64),
}

#[derive(Drop)]
struct Gate {
    opens: Opens,
    asks: AtomicU64,
    came: [AtomicBool; 2],
    there: AtomicU64,
    both_seen: AtomicU64,
    second_ended: AtomicBool,
}

impl Gate {
    fn new(opens: Opens) -> Gate {
        Gate {
            opens,
            asks: AtomicU64::new(0),
            came: [AtomicBool::new(false), AtomicBool::new(false)],
            there: AtomicU64::new(0),
            both_seen: AtomicU64::new(0),
            second_ended: AtomicBool::new(false),
        }
    }

    /// At a place's first ask, waits for the other's.
    fn meet(&self, place: usize) {
        if place >= 2 || self.came[place].swap(true, Ordering::SeqCst) {
            return;
        }
        self.there.fetch_add(1, Ordering::SeqCst);
        for _ in 0..200_000_000u64 {
            if self.there.load(Ordering::SeqCst) == 2 {
                self.both_seen.fetch_add(1, Ordering::SeqCst);
                break;
            }
        }
    }

    /// Whether the row at place 1 has ended. If not, the thread that asks takes its time.
    fn has_second_ended(&self) -> bool {
        let has_ended = self.second_ended.load(Ordering::SeqCst);
        if !has_ended {
            for _ in 0..PAUSES {
                spin_loop();
            }
        }
        has_ended
    }

    /// Asks so far, if one opens the gate; else rows that saw the other begin.
    fn seen(&self) -> u64 {
        match self.opens {
            Opens::AtAsk(_) => self.asks.load(Ordering::SeqCst),
            Opens::BothThere => self.both_seen.load(Ordering::SeqCst),
            Opens::AtOnce | Opens::SecondFirst => 0,
        }
    }
}

impl SweepGate for Gate {
    fn may(&self, place: usize) -> bool {
        let before = self.asks.fetch_add(1, Ordering::SeqCst);
        match self.opens {
            Opens::AtOnce => true,
            Opens::SecondFirst => place != 0 || self.has_second_ended(),
            Opens::BothThere => {
                self.meet(place);
                true
            }
            Opens::AtAsk(ask) => before.saturating_add(1) == ask,
        }
    }

    fn ended(&self, place: usize) {
        if place == 1 {
            self.second_ended.store(true, Ordering::SeqCst);
        }
    }
}

pub const REQUESTS: [Event; 3] = [
    Event::Load { tag: 1, at: 0 },
    Event::Load { tag: 2, at: 4 },
    Event::Load { tag: 3, at: 8 },
];

/// The default shape with so many registers.
pub fn with_registers(regs: u32) -> ToolShape {
    let default = ToolShape::default();
    ToolShape {
        shape: default.shape,
        ways: default.ways,
        regs,
    }
}

/// Three loads, each with 13 pumps. With one register the second and third wait for a free one,
/// with two the third.
pub fn row_of_three_loads(regs: u32) -> Row {
    let (stalled, waited) = match regs {
        1 => (2, 26),
        2 => (1, 23),
        _ => (0, 0),
    };
    Row {
        regs,
        accepted: 3,
        denied: 0,
        stalled,
        waited,
        pumps: 39,
        values: 3,
    }
}

const ROWS: &str = "regs 1 accepted 3 denied 0 stalled 2 waited 26 pumps 39 values 3
regs 2 accepted 3 denied 0 stalled 1 waited 23 pumps 39 values 3
";

const SECOND_ROW: &str = "regs 2 accepted 3 denied 0 stalled 1 waited 23 pumps 39 values 3\n";

// The first block's words come in rounds 12 to 15. With one register a load follows 14 rounds
// behind the last, so each waits 11. With two, the second's reads are begun in round 13, and the
// third's, accepted in 15, in round 24.
const ROUNDS: &str = "regs 1 rounds 44 accepted 3 denied 0 hits 0 joins 0 misses 3 stalled 2 \
lost 3:0 4:0 5:0 7:26 8:0 9:0 10:0 values 3 mean 11.00 longest 11 registers 1 written 0
regs 2 rounds 38 accepted 3 denied 0 hits 0 joins 0 misses 3 stalled 1 \
lost 3:0 4:0 5:0 7:12 8:0 9:0 10:0 values 3 mean 17.00 longest 21 registers 2 written 0
";

fn text_of<D: Display + Drop>(
    alloc: Global,
    rows: Result<Vec<D>, SweepFault>,
) -> Result<String, Fail> {
    let mut text = String::new(alloc);
    match rows {
        Ok(rows) => {
            for row in rows.iter() {
                let line = format!(in alloc; "{row}\n")?;
                text.push_str(line.as_str())?;
            }
        }
        Err(fault) => text.push_str(format!(in alloc; "{fault}")?.as_str())?,
    }
    Ok(text)
}

fn swept<R: Abort + AllocGlobal + Threads + Sync>(
    rt: &R,
    in_rounds: bool,
    gate: &Gate,
    shapes: &[ToolShape],
    turns: u64,
) -> Result<String, Fail> {
    let alloc = rt.alloc();
    if in_rounds {
        let timing = Timing::unpipelined(10);
        let mut machines = Vec::new(alloc);
        for shape in shapes {
            machines.push(shape.sizes())?;
        }
        let machines = machines.as_slice();
        let rows = sweep_rounds(rt, alloc, timing, &REQUESTS, machines, turns, gate);
        return text_of(alloc, rows);
    }
    text_of(alloc, sweep(rt, alloc, &REQUESTS, shapes, turns, gate))
}

/// A waiting row doesn't come to so many turns, unless the other one never begins.
const LONG: u64 = 5_000_000;

// A thread has exactly as many turns as given.
#[test]
fn sweep_on_threads(rt: HostRuntime) -> Result<(), Fail> {
    let mut three_ways = with_registers(2);
    three_ways.ways = 3;
    let (one, second) = ([with_registers(1)], [with_registers(2)]);
    let both = [with_registers(1), with_registers(2)];
    let bad = [with_registers(1), three_ways];
    // (a machine may have three ways, but not none)
    let mut no_ways = with_registers(2);
    no_ways.ways = 0;
    let no_machine = [with_registers(1), no_ways];
    let none: [ToolShape; 0] = [];
    let (ways, limit) = ("shape 1: Ways is out of range", "turn limit");
    let sweeps: [(bool, Opens, &[ToolShape], u64, u64, &str); 13] = [
        (false, Opens::SecondFirst, &both, LONG, 0, ROWS),
        (false, Opens::BothThere, &both, LONG, 2, ROWS),
        (true, Opens::SecondFirst, &both, LONG, 0, ROUNDS),
        (true, Opens::BothThere, &both, LONG, 2, ROUNDS),
        (false, Opens::AtAsk(1), &second, 1, 1, SECOND_ROW),
        (false, Opens::AtAsk(10), &second, 10, 10, SECOND_ROW),
        (false, Opens::AtAsk(10), &second, 9, 9, limit),
        (false, Opens::SecondFirst, &one, 1_000, 0, limit),
        (true, Opens::SecondFirst, &one, 1_000, 0, limit),
        (false, Opens::AtOnce, &bad, 1_000, 0, ways),
        (false, Opens::AtOnce, &bad, 5_000_000, 0, ways),
        (true, Opens::AtOnce, &no_machine, 1_000, 0, ways),
        (false, Opens::AtOnce, &none, 5_000_000, 0, ""),
    ];
    for (in_rounds, opens, shapes, turns, seen, told) in sweeps {
        let gate = Gate::new(opens);
        let text = swept(&rt, in_rounds, &gate, shapes, turns)?;
        assert_eq!(rt; (text.as_str(), gate.seen()), (told, seen), "{turns} turns");
    }
    let fault = format!(in rt.alloc(); "{}", SweepFault::OutOfMemory)?;
    assert_eq!(rt; fault.as_str(), "out of memory");
    Ok(())
}

const LARGEST: &str = "words = 1048576
sets = 1024
ways = 2
regs = 8
banks = 16
bank_queue = 64
write_queue = 256
replies = 64
";

/// One load of the last word, on the largest machine.
const LAST_LOAD: Row = Row {
    regs: 8,
    accepted: 1,
    denied: 0,
    stalled: 0,
    waited: 0,
    pumps: 13,
    values: 1,
};

/// All calls give this row: alone, on threads, and by the machine's numbers.
#[test]
fn rows_of_three_loads(rt: HostRuntime) -> Result<(), Fail> {
    for regs in [1, 2] {
        let (shape, row) = (with_registers(regs), row_of_three_loads(regs));
        assert_eq!(rt; sweep_row(rt.alloc(), &shape, &REQUESTS), Ok(row));
        let rows = sweep(&rt, rt.alloc(), &REQUESTS, &[shape, shape], 1, &OpenGate)?;
        assert_eq!(rt; rows.as_slice(), &[row, row][..]);
        let machine = shape.sizes();
        let rows = sweep_machines(&rt, rt.alloc(), &REQUESTS, &[machine], 1, &OpenGate)?;
        assert_eq!(rt; rows.as_slice(), &[row][..]);
    }
    Ok(())
}

#[test]
fn rows_of_the_largest_shape(rt: HostRuntime) -> Result<(), Fail> {
    let shape = read_shape(rt.alloc(), LARGEST)?;
    let requests = [Event::Load {
        tag: 1,
        at: 1_048_575,
    }];
    assert_eq!(rt; sweep_row(rt.alloc(), &shape, &requests), Ok(LAST_LOAD));
    let rows = sweep(&rt, rt.alloc(), &requests, &[shape], 1, &OpenGate)?;
    assert_eq!(rt; rows.as_slice(), &[LAST_LOAD][..]);
    Ok(())
}

#[test]
fn a_row_of_many_requests(rt: HostRuntime) -> Result<(), Fail> {
    let requests = vec![in rt.alloc(); Event::Evict { block: 0 }; 200_000]?;
    let row = sweep_row(rt.alloc(), &with_registers(4), &requests)?;
    assert_eq!(rt; row.denied, 200_000);
    assert_eq!(rt; row.accepted, 0);
    Ok(())
}

#[test]
fn a_sweep_of_many_requests(rt: HostRuntime) -> Result<(), Fail> {
    let shape = with_registers(4);
    let requests = vec![in rt.alloc(); Event::Evict { block: 0 }; 200_000]?;
    let rows = sweep(&rt, rt.alloc(), &requests, &[shape, shape], 1, &OpenGate)?;
    assert_eq!(rt; rows.len(), 2);
    for row in &rows {
        assert_eq!(rt; row.denied, 200_000);
    }
    Ok(())
}
