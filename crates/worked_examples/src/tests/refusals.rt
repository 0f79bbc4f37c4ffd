//! Each call that allocates, where an allocation is refused: nothing changes, and a second call
//! gives the example's answer. With memory the first call does.

use super::fixture::{
    PROGRAM_SHAPE, SMALL_SHAPE, STORED_COUNTS, STORED_INPUT, STORED_OUTPUT, ZERO, numbered, same,
};
use cache_directory::Directory;
use cache_unit::CacheUnit;
use flat_model::{Answer, Event, FlatMemory, Image, Lanes, MakeFault, ReplayFault, ShapeField};
use machine_core::Machine;
use memory_banks::Banks;
use miss_registers::RegisterFile;
use run_reasons::{Explanation, explain_text};
use std::io::Cursor;
use std::process::Abort;
use std::test::Fail;
use trace_text::{CheckEnd, TraceFault, check_text, read_requests, serve_text};
use write_queue::WriteQueue;

/// Asserts that one of two calls made something, and that the other did or found no memory.
fn makes<R: Abort, T: Drop>(rt: &R, first: Result<T, MakeFault>, second: Result<T, MakeFault>) {
    assert!(rt; first.is_ok() || second.is_ok());
    if let Err(fault) = first {
        same(rt, "the first", fault, MakeFault::OutOfMemory);
    }
    if let Err(fault) = second {
        same(rt, "the second", fault, MakeFault::OutOfMemory);
    }
}

#[test]
fn makers_may_find_no_memory(rt: HostRuntime) -> Result<(), Fail> {
    let alloc = rt.alloc();
    let shape = SMALL_SHAPE;
    let image = [ZERO; 32];
    let first = Directory::<1, 4>::new(alloc, 2);
    makes(&rt, first, Directory::new(alloc, 2));
    let first = RegisterFile::<4, 2>::new(alloc);
    makes(&rt, first, RegisterFile::new(alloc));
    makes(&rt, WriteQueue::new(alloc, 4), WriteQueue::new(alloc, 4));
    let first = Banks::new(alloc, &image, &shape);
    makes(&rt, first, Banks::new(alloc, &image, &shape));
    let first = CacheUnit::<1, 4, 2, 2>::new(alloc, &shape);
    makes(&rt, first, CacheUnit::new(alloc, &shape));
    let first = Machine::<1, 4, 2, 2>::new(alloc, shape, &image);
    makes(&rt, first, Machine::new(alloc, shape, &image));
    if FlatMemory::new(alloc, &image).is_err() {
        assert!(rt; FlatMemory::new(alloc, &image).is_ok());
    }
    Ok(())
}

#[test]
fn replay_may_find_no_memory(rt: HostRuntime) -> Result<(), Fail> {
    let alloc = rt.alloc();
    let image = [numbered(0), numbered(1)];
    let Ok(mut memory) = FlatMemory::new(alloc, &image) else {
        return Ok(());
    };
    let store = Event::Store {
        at: 1,
        word: numbered(9),
        lanes: Lanes::LANE_0,
    };
    let load = Event::Load { tag: 1, at: 1 };
    let events = [load, Event::Take { place: 0 }, store];
    let value = Answer::Value {
        tag: 1,
        word: numbered(1),
    };
    let answers = [Answer::Accepted, value, Answer::Accepted];
    let mut replayed = memory.replay(alloc, &events, &answers);
    if replayed == Err(ReplayFault::OutOfMemory) {
        same(&rt, "word 1, as it was", memory.word(1), Some(numbered(1)));
        replayed = memory.replay(alloc, &events, &answers);
    }
    same(&rt, "the replay", replayed, Ok(()));
    same(&rt, "word 1", memory.word(1), Some(numbered(9)));
    Ok(())
}

#[test]
fn some_refusals_come_before_memory(rt: HostRuntime) -> Result<(), Fail> {
    let alloc = rt.alloc();
    if let Ok(mut memory) = FlatMemory::new(alloc, &[ZERO; 32]) {
        let uneven = memory.replay(alloc, &[Event::Drain], &[]);
        same(&rt, "the lengths", uneven, Err(ReplayFault::Lengths));
    }
    let mut short_banks = SMALL_SHAPE;
    short_banks.bank_queue = 1;
    let refused = Machine::<1, 4, 2, 2>::new(alloc, short_banks, &[ZERO; 32]);
    let fault = MakeFault::BadShape(ShapeField::BankQueue);
    assert!(rt; matches!(refused, Err(found) if found == fault));
    Ok(())
}

#[test]
fn run_may_find_no_memory(rt: HostRuntime) -> Result<(), Fail> {
    let alloc = rt.alloc();
    let mut image = [ZERO; 32];
    image[5] = numbered(5);
    let Ok(mut machine) = Machine::<1, 4, 2, 2>::new(alloc, SMALL_SHAPE, &image) else {
        return Ok(());
    };
    let events = [
        Event::Load { tag: 1, at: 5 },
        Event::Serve { bank: 1 },
        Event::Arrive { bank: 1, place: 0 },
        Event::Process { place: 0 },
        Event::Take { place: 0 },
    ];
    let value = Answer::Value {
        tag: 1,
        word: numbered(5),
    };
    let moved = Answer::Moved;
    let wanted = [Answer::Accepted, moved, moved, moved, value];
    let mut answers = machine.run(alloc, &events);
    if answers.is_err() {
        assert!(rt; machine.settled());
        same(&rt, "the weight", machine.weight(), 0);
        answers = machine.run(alloc, &events);
    }
    same(&rt, "the answers", answers?.as_slice(), &wanted[..]);
    Ok(())
}

#[test]
fn serving_may_find_no_memory(rt: HostRuntime) -> Result<(), Fail> {
    let alloc = rt.alloc();
    let image = [ZERO; 64];
    let Ok(mut machine) = Machine::<2, 4, 4, 4>::new(alloc, PROGRAM_SHAPE, &image) else {
        return Ok(());
    };
    let mut reader = STORED_INPUT.as_bytes();
    // Written without an allocation.
    let mut writer = Cursor::new([0u8; 1024]);
    let mut ended = serve_text(alloc, &mut reader, &mut writer, &mut machine);
    if ended == Err(TraceFault::OutOfMemory) {
        same(&rt, "the reader", reader, STORED_INPUT.as_bytes());
        same(&rt, "the writer", writer.position(), 0);
        assert!(rt; machine.settled());
        ended = serve_text(alloc, &mut reader, &mut writer, &mut machine);
    }
    same(&rt, "the counts", ended, Ok(STORED_COUNTS));
    let end = writer.position().min(1024) as usize;
    same(
        &rt,
        "what was written",
        &writer.get_ref()[..end],
        STORED_OUTPUT.as_bytes(),
    );
    Ok(())
}

#[test]
fn checking_may_find_no_memory(rt: HostRuntime) -> Result<(), Fail> {
    let alloc = rt.alloc();
    let mut ended = check_text(alloc, &mut STORED_OUTPUT.as_bytes(), 64);
    if ended == Err(TraceFault::OutOfMemory) {
        ended = check_text(alloc, &mut STORED_OUTPUT.as_bytes(), 64);
    }
    same(&rt, "the check", ended, Ok(CheckEnd::Flat { steps: 8 }));
    Ok(())
}

#[test]
fn reading_requests_may_find_no_memory(rt: HostRuntime) -> Result<(), Fail> {
    let alloc = rt.alloc();
    let trace = b"load 1 0\nload 2 4\nload 3 8\n";
    let mut requests = read_requests(alloc, &mut trace.as_slice());
    if requests.is_err() {
        requests = read_requests(alloc, &mut trace.as_slice());
    }
    let wanted = [(1, 0), (2, 4), (3, 8)].map(|(tag, at)| Event::Load { tag, at });
    same(&rt, "the requests", requests?.as_slice(), &wanted[..]);
    Ok(())
}

#[test]
fn a_reading_may_find_no_memory(rt: HostRuntime) -> Result<(), Fail> {
    let run = "load 1 4 -> accepted\ntake 0 -> value 1 00000000\n";
    let mut told = explain_text(rt.alloc(), &mut run.as_bytes(), &Image::Zeros, 64);
    if told == Err(TraceFault::OutOfMemory) {
        told = explain_text(rt.alloc(), &mut run.as_bytes(), &Image::Zeros, 64);
    }
    same(
        &rt,
        "the explanation",
        told,
        Ok(Explanation::Flat { steps: 2 }),
    );
    Ok(())
}
