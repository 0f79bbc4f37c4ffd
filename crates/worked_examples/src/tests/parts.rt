//! The parts: what waits in them, flat memory, makers, and the unit over its banks.

use super::fixture::{SMALL_SHAPE, ZERO, image, numbered, same, small_machine};
use super::stories::{ARRIVED, joined, serve_line};
use cache_directory::{Choice, Directory};
use cache_unit::{CacheUnit, Request};
use flat_model::{
    Answer, Cause, Event, FlatMemory, Lanes, MakeFault, ReplayFault, Shape, ShapeField, Word, merge,
};
use input_stack::InputStack;
use machine_core::{BankAnswer, Command, Machine};
use memory_banks::Banks;
use miss_registers::{Owed, RegisterFile, RegisterView};
use std::alloc::Global;
use std::process::Abort;
use std::test::Fail;
use write_queue::{Queued, WriteQueue};

#[derive(Clone, Copy, PartialEq, Eq, Debug)]
enum Look {
    Command(u32, u32, Option<Command>),
    Answer(u32, u32, Option<BankAnswer>),
    Target(u32, u32, u32, Option<Owed>),
}

// The reads of words 4 to 7: banks 0, 1, 0, 1, at places 2 and 3.
const READ_4: Option<Command> = Some(Command::Read {
    slot: 0,
    i: 0,
    place: 2,
});

const READ_5: Option<Command> = Some(Command::Read {
    slot: 0,
    i: 1,
    place: 2,
});

const READ_6: Option<Command> = Some(Command::Read {
    slot: 0,
    i: 2,
    place: 3,
});

const READ_7: Option<Command> = Some(Command::Read {
    slot: 0,
    i: 3,
    place: 3,
});

// Words 9 and 11 lie in bank 1.
const READ_9: Option<Command> = Some(Command::Read {
    slot: 0,
    i: 1,
    place: 4,
});

const READ_11: Option<Command> = Some(Command::Read {
    slot: 0,
    i: 3,
    place: 5,
});

/// A byte of word 5, written back.
const WRITE_5: Option<Command> = Some(Command::Write {
    place: 2,
    word: Word { b1: 0xaa, ..ZERO },
    lanes: Lanes::LANE_1,
});

const ANSWER_5: Option<BankAnswer> = Some(BankAnswer {
    slot: 0,
    i: 1,
    word: Word { b0: 5, ..ZERO },
});

const ANSWER_7: Option<BankAnswer> = Some(BankAnswer {
    slot: 0,
    i: 3,
    word: Word { b0: 7, ..ZERO },
});

/// Tag 3's word: one byte was stored before.
const OWED_TO_TAG_3: Option<Owed> = Some(Owed {
    tag: 3,
    held: Word { b0: 255, ..ZERO },
    lanes: Lanes::LANE_0,
});

/// A command without the bytes of a write in no lane.
fn counted(command: Command) -> Command {
    match command {
        Command::Write { place, word, lanes } => Command::Write {
            place,
            word: merge(Word::default(), word, lanes),
            lanes,
        },
        read => read,
    }
}

impl Look {
    /// What stands there in this machine.
    fn seen(self, machine: &Machine<1, 4, 2, 2>) -> Look {
        match self {
            Look::Command(bank, place, _) => {
                Look::Command(bank, place, machine.command_at(bank, place).map(counted))
            }
            Look::Answer(bank, place, _) => {
                Look::Answer(bank, place, machine.answer_at(bank, place))
            }
            Look::Target(slot, i, place, _) => {
                Look::Target(slot, i, place, machine.target(slot, i, place))
            }
        }
    }
}

const MISSED: &str = "load 1 5 -> accepted\n";

const SERVED: &str = "serve 1 -> moved\n";

/// Asserts what stands in a machine that answered these lines.
fn stands<R: Abort>(
    rt: &R,
    alloc: Global,
    name: &str,
    lines: &[&str],
    looks: &[Look],
) -> Result<(), Fail> {
    let mut machine = small_machine(alloc)?;
    let lines = joined(alloc, lines)?;
    answers(rt, alloc, name, &mut machine, lines.as_str())?;
    for look in looks {
        same(rt, name, look.seen(&machine), *look);
    }
    Ok(())
}

fn answers<R: Abort>(
    rt: &R,
    alloc: Global,
    name: &str,
    machine: &mut Machine<1, 4, 2, 2>,
    lines: &str,
) -> Result<(), Fail> {
    let mut told = Vec::new(alloc);
    for line in lines.lines() {
        let (asked, _) = line.split_once(" -> ").ok_or("an answer")?;
        serve_line(alloc, machine, asked, &mut told)?;
    }
    same(rt, name, std::str::from_utf8(told.as_slice())?, lines);
    Ok(())
}

const STANDING: &[(&str, &[&str], &[Look])] = &[
    (
        "nothing_waits_at_first",
        &[],
        &[
            Look::Command(0, 0, None),
            Look::Command(1, 0, None),
            Look::Command(2, 0, None),
            Look::Answer(0, 0, None),
            Look::Answer(1, 0, None),
            Look::Answer(2, 0, None),
        ],
    ),
    (
        // Behind the last one nothing waits, and a third bank isn't there.
        "reads_of_a_miss_wait_in_order",
        &[MISSED],
        &[
            Look::Command(0, 0, READ_4),
            Look::Command(0, 1, READ_6),
            Look::Command(0, 2, None),
            Look::Command(1, 0, READ_5),
            Look::Command(1, 1, READ_7),
            Look::Command(1, u32::MAX, None),
            Look::Command(2, 0, None),
            Look::Command(u32::MAX, 0, None),
        ],
    ),
    (
        "served_reads_stand_as_answers: one",
        &[MISSED, SERVED],
        &[
            Look::Command(1, 0, READ_7),
            Look::Command(1, 1, None),
            Look::Answer(1, 0, ANSWER_5),
            Look::Answer(1, 1, None),
            Look::Answer(0, 0, None),
        ],
    ),
    (
        "served_reads_stand_as_answers: both",
        &[MISSED, SERVED, SERVED],
        &[
            Look::Command(1, 0, None),
            Look::Answer(1, 0, ANSWER_5),
            Look::Answer(1, 1, ANSWER_7),
            Look::Answer(1, 2, None),
            Look::Answer(2, 0, None),
            Look::Answer(u32::MAX, u32::MAX, None),
        ],
    ),
    (
        "the_next_answer_stands_first_where_the_first_arrived",
        &[MISSED, SERVED, SERVED, "arrive 1 0 -> moved\n"],
        &[Look::Answer(1, 0, ANSWER_7), Look::Answer(1, 1, None)],
    ),
    (
        "the_next_answer_stands_first_where_the_first_arrived: and where the second did",
        &[MISSED, SERVED, SERVED, "arrive 1 1 -> moved\n"],
        &[Look::Answer(1, 0, ANSWER_5), Look::Answer(1, 1, None)],
    ),
    (
        // A dirty word is drained while reads wait.
        "a_write_waits_behind_reads",
        &[
            "prefetch 4 -> accepted\n",
            ARRIVED,
            "store 5 0100 00aa0000 -> accepted
evict 1 -> accepted
prefetch 8 -> accepted
drain -> moved
",
        ],
        &[
            Look::Command(1, 0, READ_9),
            Look::Command(1, 1, READ_11),
            Look::Command(1, 2, WRITE_5),
            Look::Command(1, 3, None),
            Look::Command(0, 2, None),
        ],
    ),
    (
        "two_targets_shown",
        &[
            MISSED,
            "store 5 1000 ff000000 -> accepted\nload 3 5 -> accepted\n",
        ],
        &[Look::Target(0, 1, 1, OWED_TO_TAG_3)],
    ),
];

#[test]
fn what_stands_in_a_machine(rt: HostRuntime) -> Result<(), Fail> {
    for (name, lines, looks) in STANDING {
        stands(&rt, rt.alloc(), name, lines, looks)?;
    }
    Ok(())
}

const LOAD_0: Event = Event::Load { tag: 1, at: 0 };

const LOAD_1: Event = Event::Load { tag: 1, at: 1 };

const LOAD_2: Event = Event::Load { tag: 1, at: 2 };

const STORE_0: Event = Event::Store {
    at: 0,
    word: Word { b0: 255, ..ZERO },
    lanes: Lanes::LANE_0,
};

const TAKE: Event = Event::Take { place: 0 };

const VALUE_1: Answer = Answer::Value {
    tag: 1,
    word: Word { b0: 1, ..ZERO },
};

const VALUE_255: Answer = Answer::Value {
    tag: 1,
    word: Word { b0: 255, ..ZERO },
};

/// Events and answers over words 0 and 1, and their replay's end.
const REPLAYS: &[(&str, &[Event], &[Answer], Result<(), ReplayFault>)] = &[
    (
        "a first load",
        &[LOAD_1, TAKE],
        &[Answer::Accepted, VALUE_1],
        Ok(()),
    ),
    (
        "nothing is owed",
        &[TAKE],
        &[VALUE_1],
        Err(ReplayFault::Mismatch { place: 0 }),
    ),
    (
        "fewer answers than events",
        &[LOAD_0],
        &[],
        Err(ReplayFault::Lengths),
    ),
    (
        "outside, and accepted",
        &[LOAD_2],
        &[Answer::Accepted],
        Err(ReplayFault::Mismatch { place: 0 }),
    ),
    (
        "outside, and refused",
        &[LOAD_2],
        &[Answer::Refused(Cause::OutOfRange)],
        Ok(()),
    ),
    // The load isn't owed a value stored behind it.
    (
        "a later value",
        &[LOAD_0, STORE_0, TAKE],
        &[Answer::Accepted, Answer::Accepted, VALUE_255],
        Err(ReplayFault::Mismatch { place: 2 }),
    ),
];

#[test]
fn replay(rt: HostRuntime) -> Result<(), Fail> {
    for (name, events, answers, wanted) in REPLAYS {
        let mut memory = FlatMemory::new(rt.alloc(), &[numbered(0), numbered(1)])?;
        same(
            &rt,
            name,
            memory.replay(rt.alloc(), events, answers),
            *wanted,
        );
        same(&rt, name, memory.word(0), Some(numbered(0)));
        same(&rt, name, memory.due_word(1), None);
    }
    Ok(())
}

fn banks_of(alloc: Global, shape: &Shape) -> Result<Banks, MakeFault> {
    let image = image(alloc, 32)?;
    Banks::new(alloc, &image, shape)
}

fn refusal<const WAYS: usize, const REGS: usize, const DEPTH: usize>(
    alloc: Global,
    shape: Shape,
    words: u8,
) -> Result<Option<ShapeField>, Fail> {
    let image = image(alloc, words)?;
    match Machine::<WAYS, 4, REGS, DEPTH>::new(alloc, shape, &image) {
        Err(MakeFault::BadShape(field)) => Ok(Some(field)),
        _ => Ok(None),
    }
}

#[test]
fn makers_refuse_shapes(rt: HostRuntime) -> Result<(), Fail> {
    let small = SMALL_SHAPE;
    let short_banks = Shape {
        bank_queue: 1,
        ..small
    };
    let broken_block = Shape { words: 30, ..small };
    let refused = [
        (short_banks, 32, ShapeField::BankQueue),
        (broken_block, 32, ShapeField::Words),
        (small, 31, ShapeField::Image),
    ];
    for (shape, words, field) in refused {
        let found = refusal::<1, 2, 2>(rt.alloc(), shape, words)?;
        same(&rt, "the field", found, Some(field));
    }
    Ok(())
}

/// A type's numbers are judged before the shape's, which are wrong too.
#[test]
fn makers_refuse_types(rt: HostRuntime) -> Result<(), Fail> {
    let alloc = rt.alloc();
    let broken_block = Shape {
        words: 30,
        ..SMALL_SHAPE
    };
    let most = refusal::<8, 16, 16>(alloc, broken_block, 32)?;
    same(&rt, "the most of each", most, Some(ShapeField::Words));
    let ways = refusal::<9, 17, 17>(alloc, broken_block, 32)?;
    same(&rt, "ways", ways, Some(ShapeField::Ways));
    let registers = refusal::<8, 17, 17>(alloc, broken_block, 32)?;
    same(&rt, "registers", registers, Some(ShapeField::Regs));
    let none = refusal::<1, 0, 2>(alloc, broken_block, 32)?;
    same(&rt, "no register", none, Some(ShapeField::Regs));
    let places = refusal::<8, 16, 17>(alloc, broken_block, 32)?;
    same(&rt, "places", places, Some(ShapeField::Depth));
    Ok(())
}

#[test]
fn makers(rt: HostRuntime) -> Result<(), Fail> {
    new_directory(&rt, rt.alloc())?;
    let registers: RegisterFile<4, 2> = RegisterFile::new(rt.alloc())?;
    same(&rt, "a free slot", registers.free_slot(), Some(0));
    new_stack(&rt)?;
    new_banks(&rt, rt.alloc())?;
    new_unit(&rt, rt.alloc())
}

// Each part has a function of its own: a proof's price grows with what has to be let go at each of
// its ends.
fn new_directory<R: Abort>(rt: &R, alloc: Global) -> Result<(), Fail> {
    let directory: Directory<1, 4> = Directory::new(alloc, 2)?;
    same(rt, "a look", directory.look(1), None);
    same(rt, "a choice", directory.choose(1), Choice::Free(1));
    Ok(())
}

fn new_stack<R: Abort>(rt: &R) -> Result<(), Fail> {
    let stack: InputStack<2> = InputStack::new()?;
    same(rt, "the stack", stack.len(), 0);
    Ok(())
}

fn new_banks<R: Abort>(rt: &R, alloc: Global) -> Result<(), Fail> {
    let banks = banks_of(alloc, &SMALL_SHAPE)?;
    same(rt, "word 5", banks.word(5), Some(numbered(5)));
    assert!(rt; banks.idle());
    Ok(())
}

fn new_unit<R: Abort>(rt: &R, alloc: Global) -> Result<(), Fail> {
    let unit: Unit = CacheUnit::new(alloc, &SMALL_SHAPE)?;
    assert!(rt; unit.clean());
    Ok(())
}

#[test]
fn block_that_waits_in_the_write_queue(rt: HostRuntime) -> Result<(), Fail> {
    let mut queue = WriteQueue::new(rt.alloc(), 4)?;
    same(&rt, "room", queue.room(), 4);
    queue.push(Queued {
        block: 1,
        at: 5,
        word: numbered(5),
        lanes: Lanes::LANE_0,
    });
    for (block, waits) in [(1, true), (0, false)] {
        same(&rt, "holds_block", queue.holds_block(block), waits);
    }
    queue.pop();
    assert!(rt; !queue.holds_block(1));
    Ok(())
}

type Unit = CacheUnit<1, 4, 2, 2>;

#[derive(Clone, Copy, PartialEq, Eq, Debug)]
enum Call {
    Request(Request, Answer),
    Arrive(u32, u32, Word, Answer),
    Process(u32, Answer),
    Take(u32, Answer),
    /// What the register in a slot shows.
    Register(u32, Option<RegisterView>),
    /// Whether a load waits for a word, the first one's tag, and how many do.
    Waits(u32, u32, Option<(bool, u16, u32)>),
}

impl Call {
    /// The call as this unit answers it.
    fn made(self, unit: &mut Unit, banks: &mut Banks) -> Call {
        match self {
            Call::Request(request, _) => Call::Request(request, unit.request(request, banks)),
            Call::Arrive(slot, i, word, _) => {
                Call::Arrive(slot, i, word, unit.arrive(slot, i, word))
            }
            Call::Process(place, _) => Call::Process(place, unit.process(place)),
            Call::Take(place, _) => Call::Take(place, unit.take(place)),
            Call::Register(slot, _) => Call::Register(slot, unit.register(slot)),
            Call::Waits(slot, i, _) => {
                let field = unit.field(slot, i);
                Call::Waits(slot, i, field.map(|it| (it.send, it.tag, it.targets)))
            }
        }
    }
}

const STRAY: Answer = Answer::Refused(Cause::StrayWord);

const WORD_5: Word = Word { b0: 5, ..ZERO };

const BYTE_AA: Word = Word { b0: 0xaa, ..ZERO };

const DEADBEEF: Word = Word {
    b0: 0xde,
    b1: 0xad,
    b2: 0xbe,
    b3: 0xef,
};

const AAADBEEF: Word = Word {
    b0: 0xaa,
    b1: 0xad,
    b2: 0xbe,
    b3: 0xef,
};

const CALLS: &[(&str, &[Call])] = &[
    (
        "unit_uses_the_arrived_word",
        &[
            Call::Request(
                Request::Store {
                    at: 5,
                    word: BYTE_AA,
                    lanes: Lanes::LANE_0,
                },
                Answer::Accepted,
            ),
            Call::Request(Request::Load { tag: 1, at: 5 }, Answer::Accepted),
            Call::Arrive(0, 1, DEADBEEF, Answer::Moved),
            Call::Arrive(0, 1, DEADBEEF, STRAY),
            Call::Process(0, Answer::Moved),
            Call::Arrive(0, 1, DEADBEEF, STRAY),
            Call::Take(
                0,
                Answer::Value {
                    tag: 1,
                    word: AAADBEEF,
                },
            ),
        ],
    ),
    (
        "register_views",
        &[
            Call::Request(Request::Load { tag: 1, at: 5 }, Answer::Accepted),
            Call::Register(
                0,
                Some(RegisterView {
                    valid: true,
                    obsolete: false,
                    block: 1,
                    frame: 1,
                    processed: 0,
                }),
            ),
            Call::Waits(0, 1, Some((true, 1, 1))),
            Call::Register(2, None),
            Call::Arrive(0, 1, WORD_5, Answer::Moved),
            Call::Arrive(0, 1, WORD_5, STRAY),
            Call::Arrive(1, 0, WORD_5, STRAY),
            Call::Arrive(0, 4, WORD_5, STRAY),
        ],
    ),
];

#[test]
fn cache_units(rt: HostRuntime) -> Result<(), Fail> {
    for (name, calls) in CALLS {
        let mut unit: Unit = CacheUnit::new(rt.alloc(), &SMALL_SHAPE)?;
        let mut banks = banks_of(rt.alloc(), &SMALL_SHAPE)?;
        for call in *calls {
            same(&rt, name, call.made(&mut unit, &mut banks), *call);
        }
    }
    Ok(())
}
