//! Each call that allocates, at its largest size or over 200,000 items.

use super::fixture::{default_machine, image, same};
use cache_directory::Directory;
use flat_model::{Answer, Event, FlatMemory, Shape, Word};
use machine_core::Machine;
use memory_banks::{Banks, Lines};
use std::alloc::{AllocError, Global};
use std::process::Abort;
use std::test::Fail;
use trace_text::{CheckEnd, check_text, read_requests};
use write_queue::WriteQueue;

const LARGEST: Shape = Shape {
    words: 1_048_576,
    sets: 1_024,
    banks: 16,
    bank_queue: 64,
    write_queue: 256,
    replies: 64,
};

const MANY: usize = 200_000;

#[test]
fn memory_of_the_largest_shape(rt: HostRuntime) -> Result<(), Fail> {
    let alloc = rt.alloc();
    let image = vec![in alloc; Word::default(); 1_048_576]?;
    let memory = FlatMemory::new(alloc, &image)?;
    same(
        &rt,
        "flat memory",
        memory.word(1_048_575),
        Some(Word::default()),
    );
    let banks = Banks::new(alloc, &image, &LARGEST)?;
    same(&rt, "room", banks.room(15), 64);
    same(
        &rt,
        "the banks",
        banks.word(1_048_575),
        Some(Word::default()),
    );
    Ok(())
}

#[test]
fn parts_of_the_largest_shape(rt: HostRuntime) -> Result<(), Fail> {
    let queue = WriteQueue::new(rt.alloc(), 256)?;
    same(&rt, "room", queue.room(), 256);
    largest_directory(&rt, rt.alloc())?;
    largest_machine(&rt, rt.alloc())
}

fn largest_directory<R: Abort>(rt: &R, alloc: Global) -> Result<(), Fail> {
    let directory = Directory::<2, 4>::new(alloc, 1_024)?;
    same(rt, "a look", directory.look(1_023), None);
    Ok(())
}

fn largest_machine<R: Abort>(rt: &R, alloc: Global) -> Result<(), Fail> {
    let image = vec![in alloc; Word::default(); 1_048_576]?;
    let mut machine = Machine::<2, 4, 8, 4>::new(alloc, LARGEST, &image)?;
    let load = Event::Load {
        tag: 1,
        at: 1_048_575,
    };
    same(rt, "the load", machine.apply(load), Answer::Accepted);
    Ok(())
}

#[test]
fn words_that_the_banks_do_not_share_evenly(rt: HostRuntime) -> Result<(), Fail> {
    let shape = Shape {
        words: 64,
        sets: 4,
        banks: 5,
        bank_queue: 8,
        write_queue: 8,
        replies: 8,
    };
    let image = image(rt.alloc(), 64)?;
    let banks = Banks::new(rt.alloc(), &image, &shape)?;
    for at in 0..64u32 {
        let wanted = image.get(at as usize).copied();
        same(&rt, "a word", banks.word(at), wanted);
    }
    same(&rt, "word 64", banks.word(64), None);
    Ok(())
}

fn answers_of_default(alloc: Global, events: &[Event]) -> Result<Vec<Answer>, Fail> {
    let mut machine = default_machine(alloc)?;
    Ok(machine.run(alloc, events)?)
}

#[test]
fn a_long_run(rt: HostRuntime) -> Result<(), Fail> {
    let events = vec![in rt.alloc(); Event::Drain; MANY]?;
    let answers = answers_of_default(rt.alloc(), &events)?;
    same(&rt, "answers", answers.len(), MANY);
    let mut memory = FlatMemory::new(rt.alloc(), &[Word::default(); 4])?;
    same(
        &rt,
        "the replay",
        memory.replay(rt.alloc(), &events, &answers),
        Ok(()),
    );
    Ok(())
}

fn loads_of_many_tags(alloc: Global) -> Result<Vec<Event>, AllocError> {
    let mut loads = Vec::with_capacity(alloc, 60_000)?;
    for tag in 0..60_000u16 {
        loads.push(Event::Load { tag, at: 3 })?;
    }
    Ok(loads)
}

#[test]
fn replay_of_many_loads(rt: HostRuntime) -> Result<(), Fail> {
    let loads = loads_of_many_tags(rt.alloc())?;
    let accepted = vec![in rt.alloc(); Answer::Accepted; 60_000]?;
    let mut memory = FlatMemory::new(rt.alloc(), &[Word::default(); 4])?;
    same(
        &rt,
        "the replay",
        memory.replay(rt.alloc(), &loads, &accepted),
        Ok(()),
    );
    same(
        &rt,
        "the last tag",
        memory.due_word(59_999),
        Some(Word::default()),
    );
    Ok(())
}

#[test]
fn long_texts(rt: HostRuntime) -> Result<(), Fail> {
    let mut trace = Vec::with_capacity(rt.alloc(), 14 * MANY)?;
    let mut run = Vec::with_capacity(rt.alloc(), 28 * MANY)?;
    for _ in 0..MANY {
        trace.extend_from_slice(b"prefetch 1\n")?;
        run.extend_from_slice(b"prefetch 1 -> accepted\n")?;
    }
    let requests = read_requests(rt.alloc(), &mut trace.as_slice())?;
    same(&rt, "requests", requests.len(), MANY);
    let end = check_text(rt.alloc(), &mut run.as_slice(), 1_048_576);
    same(&rt, "the check", end, Ok(CheckEnd::Flat { steps: 200_000 }));
    Ok(())
}

// The last block's last word lies in the last of 16 banks.
#[test]
fn machine_of_the_largest_numbers(rt: HostRuntime) -> Result<(), Fail> {
    let alloc = rt.alloc();
    let image = vec![in alloc; Word::default(); 1_048_576]?;
    let mut machine = Machine::<8, 16, 16, 16>::new(alloc, LARGEST, &image)?;
    let load = Event::Load {
        tag: 65_535,
        at: 1_048_575,
    };
    let value = Answer::Value {
        tag: 65_535,
        word: Word::default(),
    };
    same(&rt, "load", machine.apply(load), Answer::Accepted);
    same(
        &rt,
        "serve",
        machine.apply(Event::Serve { bank: 15 }),
        Answer::Moved,
    );
    let arrival = Event::Arrive { bank: 15, place: 0 };
    same(&rt, "arrive", machine.apply(arrival), Answer::Moved);
    same(
        &rt,
        "process",
        machine.apply(Event::Process { place: 0 }),
        Answer::Moved,
    );
    same(&rt, "take", machine.apply(Event::Take { place: 0 }), value);
    Ok(())
}

// Each tag is owed its word at once; once all are taken, none is.
#[test]
fn check_of_every_tag(rt: HostRuntime) -> Result<(), Fail> {
    let alloc = rt.alloc();
    let mut run = String::new(alloc);
    for tag in 0..=u16::MAX {
        run.push_str(format!(in alloc; "load {tag} 3 -> accepted\n")?.as_str())?;
    }
    for tag in 0..=u16::MAX {
        run.push_str(format!(in alloc; "take 0 -> value {tag} 00000000\n")?.as_str())?;
    }
    let end = check_text(alloc, &mut run.as_bytes(), 4);
    same(&rt, "all taken", end, Ok(CheckEnd::Flat { steps: 131_072 }));
    run.push_str("take 0 -> value 0 00000000\n")?;
    let end = check_text(alloc, &mut run.as_bytes(), 4);
    same(
        &rt,
        "one too many",
        end,
        Ok(CheckEnd::Mismatch { line: 131_073 }),
    );
    Ok(())
}
