//! Want of memory, at whichever allocation. A call answers it or comes to its end, and of several calls one
//! comes to its end.
use super::on_threads::{HELD_BANK, OFTEN_REFUSED, Run, make_run};
use super::{SHAPE, TURNS};
use flat_model::{MakeFault, ShapeField};
use ring_station::{RunFault, station};
use std::alloc::Global;
use std::process::Abort;
use std::rt::Clock;
use std::thread::Threads;

fn fault_of(alloc: Global, ports: u32, journal: u32) -> Option<MakeFault> {
    station::<1, 4, 2, 2>(alloc, SHAPE, ports, journal).err()
}

// Ports, entries, and the number named first.
const BAD_NUMBERS: [(u32, u32, ShapeField); 5] = [
    (17, 100, ShapeField::Ports),
    (17, 0, ShapeField::Ports),
    (0, 0, ShapeField::Ports),
    (1, 0, ShapeField::Journal),
    (1, 1_048_577, ShapeField::Journal),
];

// A number is named before any memory is asked for.
#[test]
fn station_may_find_no_memory(rt: HostRuntime) {
    for (ports, journal, field) in BAD_NUMBERS {
        let fault = MakeFault::BadShape(field);
        assert_eq!(rt; fault_of(rt.alloc(), ports, journal), Some(fault));
    }
    let mut made = false;
    for _attempt in 0..2 {
        match fault_of(rt.alloc(), 1, 100) {
            None => made = true,
            Some(fault) => assert_eq!(rt; fault, MakeFault::OutOfMemory),
        }
    }
    assert!(rt; made);
}

// If it ends, all is as its row says.
fn attempt<R: Abort + Clock + Threads + Sync>(
    rt: &R,
    alloc: Global,
    run: &Run,
) -> Result<(), RunFault> {
    let outcome = match make_run(rt, alloc, run) {
        Ok(outcome) => outcome,
        Err(fault) => {
            assert_eq!(rt; fault, MakeFault::OutOfMemory);
            return Err(RunFault::OutOfMemory);
        }
    };
    if let Some(fault) = outcome.fault {
        return Err(fault);
    }
    assert!(rt; outcome.has_ended);
    assert_eq!(rt; outcome.wrong, None);
    Ok(())
}

// If a thread can't be made, each part uses up its turns: few at first, more on a busy machine.
const TURNS_OF_ATTEMPTS: [u64; 4] = [20_000, 200_000, TURNS, TURNS];

// A thread that can't be made may end in either fault.
#[test]
fn refused_memory(rt: HostRuntime) {
    let mut ended = false;
    for turns in TURNS_OF_ATTEMPTS {
        if !ended {
            ended = attempt(&rt, rt.alloc(), &HELD_BANK.with_turns(turns)).is_ok();
        }
    }
    assert!(rt; ended);
}

// The cache side and the banks then use up their turns. Want of memory goes before that.
#[test]
fn refused_memory_in_a_thread(rt: HostRuntime) {
    let mut ended = false;
    for _attempt in 0..2 {
        match attempt(&rt, rt.alloc(), &OFTEN_REFUSED) {
            Ok(()) => ended = true,
            Err(fault) => assert_eq!(rt; fault, RunFault::OutOfMemory),
        }
    }
    assert!(rt; ended);
}
