//! The callers in `uses`, run, and what faults say of themselves.

use super::fixture::{PROGRAM_SHAPE, image, numbered, same};
use flat_model::{FlatMemory, MakeFault, ReplayFault, ShapeField, StepFault};
use machine_core::Machine;
use std::test::Fail;
use trace_text::LineFault;
use uses::{Lookups, Verdict, count_lookups, first_load, judge_line};

#[test]
fn a_first_load_gets_the_word_of_the_image(rt: HostRuntime) -> Result<(), Fail> {
    let image = image(rt.alloc(), 64)?;
    for (at, word) in [(5, Some(numbered(5))), (64, None)] {
        same(
            &rt,
            "the first load",
            first_load(rt.alloc(), &image, at)?,
            word,
        );
    }
    Ok(())
}

// Words 3, 2, 1 come in this order. So at the second request word 1 is on its way, and at the third
// and fourth words 3 and 1 are there.
#[test]
fn lookups_are_hits_joins_and_misses(rt: HostRuntime) -> Result<(), Fail> {
    let image = image(rt.alloc(), 64)?;
    let mut machine = Machine::new(rt.alloc(), PROGRAM_SHAPE, &image)?;
    let counted = count_lookups(&mut machine, &[0, 1, 3, 1, 64]);
    let expected = Lookups {
        hits: 2,
        joins: 1,
        misses: 1,
    };
    same(&rt, "lookups", counted, expected);
    Ok(())
}

#[test]
fn a_run_is_judged_line_by_line(rt: HostRuntime) -> Result<(), Fail> {
    let image = image(rt.alloc(), 64)?;
    let mut memory = FlatMemory::new(rt.alloc(), &image)?;
    let lines = [
        ("load 1 5 -> accepted\n", Verdict::Explained),
        ("load 1 6 -> accepted\n", Verdict::Wrong),
        ("reg 0 -> none\n", Verdict::Passed),
        ("take 0\n", Verdict::Faulty(LineFault::Field)),
        ("take 0 -> value 1 06000000\n", Verdict::Wrong),
        ("take 0 -> value 1 05000000\n", Verdict::Explained),
    ];
    for (line, verdict) in lines {
        same(
            &rt,
            line,
            judge_line(&mut memory, line.as_bytes())?,
            verdict,
        );
    }
    same(&rt, "what tag 1 is owed", memory.due_word(1), None);
    Ok(())
}

/// A fault of a part.
#[derive(Clone, Copy)]
enum Fault {
    Make(MakeFault),
    Replay(ReplayFault),
    Step(StepFault),
}

const TEXTS: &[(Fault, &str)] = &[
    (
        Fault::Make(MakeFault::BadShape(ShapeField::Words)),
        "Words is out of range",
    ),
    (Fault::Make(MakeFault::OutOfMemory), "out of memory"),
    (
        Fault::Replay(ReplayFault::Lengths),
        "as many answers as events are needed",
    ),
    (
        Fault::Replay(ReplayFault::Mismatch { place: 2 }),
        "the answer at place 2 is not one of flat memory",
    ),
    (Fault::Replay(ReplayFault::OutOfMemory), "out of memory"),
    (
        Fault::Step(StepFault::Mismatch),
        "the answer is not one of flat memory",
    ),
    (Fault::Step(StepFault::OutOfMemory), "out of memory"),
];

#[test]
fn makers_and_replays_say_what_they_lack(rt: HostRuntime) -> Result<(), Fail> {
    let alloc = rt.alloc();
    for (fault, text) in TEXTS {
        let said = match fault {
            Fault::Make(fault) => format!(in alloc; "{fault}"),
            Fault::Replay(fault) => format!(in alloc; "{fault}"),
            Fault::Step(fault) => format!(in alloc; "{fault}"),
        }?;
        same(&rt, text, said.as_str(), *text);
    }
    Ok(())
}
