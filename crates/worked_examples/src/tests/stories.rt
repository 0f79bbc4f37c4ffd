//! Stories of a machine, as lines that it is asked and answers.
//!
//! Beside a trace's lines, `weight` tells what is on its way, and `pump` makes the driver's event.

use super::fixture::{SMALL_SHAPE, image, same};
use cache_unit::{Sizes, sizes_of};
use flat_model::{Answer, Event, Shape};
use machine_core::{AnyMachine, Machine, ShapedMachine};
use std::alloc::Global;
use std::io::Write;
use std::process::Abort;
use std::test::Fail;
use trace_text::{Line, Pair, read_pair, serve_text};

/// All but the last have 4 words a block and a stack of 2.
#[derive(Clone, Copy)]
enum Kind {
    /// One way, two registers.
    Small,
    /// Two ways.
    TwoWays,
    /// One register.
    OneRegister,
    /// Four registers.
    FourRegisters,
    /// Room for eight replies.
    EightReplies,
    /// One of each, 8 words, and room for two replies.
    Smallest,
}

const EIGHT_REPLIES: Shape = Shape {
    replies: 8,
    ..SMALL_SHAPE
};

const SMALLEST_SHAPE: Shape = Shape {
    words: 8,
    sets: 1,
    banks: 1,
    bank_queue: 1,
    write_queue: 1,
    replies: 2,
};

struct Story {
    name: &'static str,
    kind: Kind,
    lines: &'static [&'static str],
}

/// The lines that make a block resident.
pub const ARRIVED: &str = "serve 0 -> moved
serve 0 -> moved
serve 1 -> moved
serve 1 -> moved
arrive 0 0 -> moved
process 0 -> moved
arrive 0 0 -> moved
process 0 -> moved
arrive 1 0 -> moved
process 0 -> moved
arrive 1 0 -> moved
process 0 -> moved
";

/// A load misses; a store of the word and the block's eviction follow; the dirty word is written
/// back, and a second load misses.
const EVICTED_WHILE_MISSING: &str = "load 1 5 -> accepted
store 5 1111 ffffffff -> accepted
evict 1 -> accepted
drain -> moved
load 2 5 -> refused 10
serve 1 -> moved
load 2 5 -> accepted
";

const FOUR_LOADS: &str = "load 1 5 -> accepted
load 2 5 -> accepted
store 5 1000 ff000000 -> accepted
load 3 5 -> accepted
load 4 5 -> accepted
";

const BELOW_WORD_5: &str = "bank 0 -> 00000000
bank 1 -> 01000000
bank 2 -> 02000000
bank 3 -> 03000000
bank 4 -> 04000000
";

/// The words from 6 on, and the first beyond memory.
const FROM_WORD_6: &str = "bank 6 -> 06000000
bank 7 -> 07000000
bank 8 -> 08000000
bank 9 -> 09000000
bank 10 -> 0a000000
bank 11 -> 0b000000
bank 12 -> 0c000000
bank 13 -> 0d000000
bank 14 -> 0e000000
bank 15 -> 0f000000
bank 16 -> 10000000
bank 17 -> 11000000
bank 18 -> 12000000
bank 19 -> 13000000
bank 20 -> 14000000
bank 21 -> 15000000
bank 22 -> 16000000
bank 23 -> 17000000
bank 24 -> 18000000
bank 25 -> 19000000
bank 26 -> 1a000000
bank 27 -> 1b000000
bank 28 -> 1c000000
bank 29 -> 1d000000
bank 30 -> 1e000000
bank 31 -> 1f000000
bank 32 -> none
";

const STORIES: &[Story] = &[
    Story {
        name: "empty_list",
        kind: Kind::Small,
        lines: &[
            "settled -> yes\n",
            BELOW_WORD_5,
            "bank 5 -> 05000000\n",
            FROM_WORD_6,
        ],
    },
    Story {
        name: "one_load",
        kind: Kind::Small,
        lines: &[
            "load 1 5 -> accepted
serve 1 -> moved
arrive 1 0 -> moved
process 0 -> moved
take 0 -> value 1 05000000
",
        ],
    },
    Story {
        name: "loads_answered_as_words_arrive",
        kind: Kind::Small,
        lines: &[
            "load 1 4 -> accepted
load 2 5 -> accepted
serve 1 -> moved
arrive 1 0 -> moved
process 0 -> moved
take 0 -> value 2 05000000
serve 0 -> moved
arrive 0 0 -> moved
process 0 -> moved
take 0 -> value 1 04000000
",
        ],
    },
    Story {
        name: "store_behind_a_waiting_load",
        kind: Kind::Small,
        lines: &[
            "load 1 5 -> accepted
store 5 1000 ff000000 -> accepted
serve 1 -> moved
arrive 1 0 -> moved
process 0 -> moved
take 0 -> value 1 05000000
load 2 5 -> accepted
take 0 -> value 2 ff000000
",
        ],
    },
    Story {
        name: "load_over_a_partial_store",
        kind: Kind::Small,
        lines: &[
            "store 5 0100 00aa0000 -> accepted
load 1 5 -> accepted
reg 0 -> V- 0000001 0001 00 [--- 0000 00000 0000 00000000] [1-- 0100 00001 0100 00aa0000] [--- 0000 00000 0000 00000000] [--- 0000 00000 0000 00000000]
serve 1 -> moved
arrive 1 0 -> moved
process 0 -> moved
take 0 -> value 1 05aa0000
",
        ],
    },
    Story {
        name: "load_of_a_full_store",
        kind: Kind::Small,
        lines: &[
            "store 5 1111 deadbeef -> accepted
load 1 5 -> accepted
take 0 -> value 1 deadbeef
",
        ],
    },
    Story {
        name: "two_loads_of_one_word: both wait",
        kind: Kind::Small,
        lines: &[
            "load 1 5 -> accepted
load 2 5 -> accepted
",
        ],
    },
    Story {
        name: "two_loads_of_one_word: one waits",
        kind: Kind::Small,
        lines: &[
            "load 1 5 -> accepted
serve 1 -> moved
arrive 1 0 -> moved
load 2 5 -> accepted
take 0 -> value 2 05000000
process 0 -> moved
take 0 -> value 1 05000000
",
        ],
    },
    Story {
        name: "no_register_no_way: no register",
        kind: Kind::Small,
        lines: &[
            "load 1 0 -> accepted
load 2 4 -> accepted
load 3 8 -> refused 7
",
        ],
    },
    Story {
        name: "no_register_no_way: no way",
        kind: Kind::FourRegisters,
        lines: &[
            "load 1 0 -> accepted
load 2 4 -> accepted
load 3 8 -> refused 8
",
        ],
    },
    Story {
        name: "hit_under_a_miss",
        kind: Kind::Small,
        lines: &[
            "prefetch 0 -> accepted\n",
            ARRIVED,
            "load 2 4 -> accepted
load 3 1 -> accepted
take 0 -> value 3 01000000
",
        ],
    },
    Story {
        name: "evicted_while_missing",
        kind: Kind::Small,
        lines: &[
            EVICTED_WHILE_MISSING,
            "arrive 1 0 -> moved
process 0 -> moved
take 0 -> value 1 05000000
serve 1 -> moved
serve 1 -> moved
serve 1 -> moved
arrive 1 1 -> moved
process 0 -> moved
take 0 -> value 2 ffffffff
",
        ],
    },
    Story {
        name: "obsolete_register_leaves_the_buffer",
        kind: Kind::Small,
        lines: &[
            EVICTED_WHILE_MISSING,
            "serve 1 -> moved
serve 1 -> moved
serve 1 -> moved
arrive 1 2 -> moved
process 0 -> moved
arrive 1 0 -> moved
process 0 -> moved
take 0 -> value 2 ffffffff
take 0 -> value 1 05000000
load 3 5 -> accepted
take 0 -> value 3 ffffffff
",
        ],
    },
    Story {
        name: "tag_in_use_until_taken",
        kind: Kind::Small,
        lines: &[
            "load 1 5 -> accepted
serve 1 -> moved
arrive 1 0 -> moved
process 0 -> moved
load 1 6 -> refused 3
take 0 -> value 1 05000000
load 1 6 -> accepted
",
        ],
    },
    Story {
        name: "replies_full",
        kind: Kind::Small,
        lines: &[
            "prefetch 0 -> accepted\n",
            ARRIVED,
            "load 1 0 -> accepted
load 2 1 -> accepted
load 3 2 -> accepted
load 4 3 -> accepted
load 5 0 -> refused 4
take 3 -> value 4 03000000
load 5 0 -> accepted
",
        ],
    },
    Story {
        name: "refused_miss_keeps_its_victim",
        kind: Kind::Small,
        lines: &[
            "prefetch 0 -> accepted\n",
            ARRIVED,
            "store 0 1000 aa000000 -> accepted
prefetch 4 -> accepted
",
            ARRIVED,
            "store 4 1111 01020304 -> accepted
evict 1 -> accepted
drain -> moved
prefetch 4 -> accepted
load 1 8 -> refused 10
load 2 0 -> accepted
take 0 -> value 2 aa000000
serve 0 -> moved
load 1 8 -> accepted
evict 0 -> refused 11
load 3 0 -> refused 7
",
        ],
    },
    Story {
        name: "write_queue_full",
        kind: Kind::Small,
        lines: &[
            "prefetch 0 -> accepted\n",
            ARRIVED,
            "store 0 1000 01000000 -> accepted
store 1 1000 02000000 -> accepted
store 2 1000 03000000 -> accepted
store 3 1000 04000000 -> accepted
prefetch 4 -> accepted
",
            ARRIVED,
            "store 4 0001 00000009 -> accepted
evict 0 -> accepted
evict 1 -> refused 9
load 1 12 -> refused 9
drain -> moved
evict 1 -> accepted
",
        ],
    },
    Story {
        name: "drain_waits_for_room",
        kind: Kind::Small,
        lines: &[
            "prefetch 0 -> accepted\n",
            ARRIVED,
            "store 0 1111 0a0b0c0d -> accepted
evict 0 -> accepted
prefetch 4 -> accepted
prefetch 8 -> accepted
drain -> refused 10
serve 0 -> moved
drain -> moved
",
        ],
    },
    Story {
        name: "stack_full",
        kind: Kind::Small,
        lines: &[
            "prefetch 0 -> accepted
serve 0 -> moved
serve 0 -> moved
serve 1 -> moved
arrive 0 0 -> moved
arrive 0 0 -> moved
arrive 1 0 -> refused 12
process 0 -> moved
arrive 1 0 -> moved
",
        ],
    },
    Story {
        name: "nothing_to_do",
        kind: Kind::Small,
        lines: &[
            "drain -> nothing
serve 0 -> nothing
serve 2 -> nothing
arrive 0 0 -> nothing
process 0 -> nothing
take 0 -> nothing
",
        ],
    },
    Story {
        name: "out_of_range_and_no_lanes",
        kind: Kind::Small,
        lines: &[
            "load 1 31 -> accepted
load 1 32 -> refused 1
load 1 30 -> refused 3
store 0 0000 00000000 -> refused 2
store 32 0000 00000000 -> refused 1
evict 8 -> refused 1
evict 6 -> refused 11
evict 7 -> accepted
",
        ],
    },
    Story {
        name: "settled_after_write_back",
        kind: Kind::Small,
        lines: &[
            "prefetch 4 -> accepted\n",
            ARRIVED,
            "store 5 1111 11223344 -> accepted
evict 1 -> accepted
drain -> moved
settled -> no
serve 1 -> moved
settled -> yes
",
            BELOW_WORD_5,
            "bank 5 -> 11223344\n",
            FROM_WORD_6,
        ],
    },
    Story {
        name: "oldest_way_is_given_up",
        kind: Kind::TwoWays,
        lines: &[
            "prefetch 0 -> accepted\n",
            ARRIVED,
            "prefetch 8 -> accepted\n",
            ARRIVED,
            "load 1 0 -> accepted
take 0 -> value 1 00000000
prefetch 16 -> accepted
evict 0 -> refused 11
load 2 9 -> accepted
take 0 -> value 2 09000000
",
        ],
    },
    // The lowest bank serves first, and words are processed as they come.
    Story {
        name: "thirteen_pumps",
        kind: Kind::Small,
        lines: &[
            "load 1 5 -> accepted
weight -> 16
pump -> serve 0 -> moved
weight -> 15
pump -> arrive 0 0 -> moved
weight -> 14
pump -> process 0 -> moved
weight -> 12
pump -> serve 0 -> moved
weight -> 11
pump -> arrive 0 0 -> moved
weight -> 10
pump -> process 0 -> moved
weight -> 8
pump -> serve 1 -> moved
weight -> 7
pump -> arrive 1 0 -> moved
weight -> 6
pump -> process 0 -> moved
weight -> 5
pump -> take 0 -> value 1 05000000
weight -> 4
pump -> serve 1 -> moved
weight -> 3
pump -> arrive 1 0 -> moved
weight -> 2
pump -> process 0 -> moved
weight -> 0
pump -> none
",
        ],
    },
    Story {
        name: "smallest_machine",
        kind: Kind::Smallest,
        lines: &[
            "load 1 4 -> accepted
load 2 5 -> refused 7
load 1 5 -> refused 3
serve 0 -> moved
arrive 0 0 -> moved
process 0 -> moved
load 2 4 -> accepted
load 3 4 -> refused 4
take 1 -> value 2 04000000
take 0 -> value 1 04000000
load 1 8 -> refused 1
",
        ],
    },
    Story {
        name: "interleaved_block",
        kind: Kind::OneRegister,
        lines: &[
            "load 1 5 -> accepted
load 2 0 -> refused 7
serve 1 -> moved
serve 1 -> moved
arrive 1 1 -> moved
process 0 -> moved
take 0 -> nothing
arrive 1 0 -> moved
process 0 -> moved
take 0 -> value 1 05000000
load 2 7 -> accepted
take 0 -> value 2 07000000
serve 0 -> moved
serve 0 -> moved
arrive 0 0 -> moved
process 0 -> moved
arrive 0 0 -> moved
process 0 -> moved
load 3 13 -> accepted
load 4 7 -> refused 7
",
        ],
    },
    Story {
        name: "dirty_victim",
        kind: Kind::Small,
        lines: &[
            "prefetch 0 -> accepted\n",
            ARRIVED,
            "store 0 1000 aa000000 -> accepted
load 1 8 -> accepted
",
        ],
    },
    // With 8 replies the fifth load waits for the word, and each step lowers the weight.
    Story {
        name: "four_loads_of_one_word: the fifth waits for the word",
        kind: Kind::EightReplies,
        lines: &[
            FOUR_LOADS,
            "weight -> 19
load 5 5 -> refused 5
weight -> 19
serve 1 -> moved
arrive 1 0 -> moved
load 5 5 -> accepted
weight -> 18
process 0 -> moved
weight -> 17
take 0 -> value 5 ff000000
take 0 -> value 1 05000000
take 0 -> value 2 05000000
take 0 -> value 3 ff000000
take 0 -> value 4 ff000000
",
        ],
    },
    Story {
        name: "four_loads_of_one_word: no reply is left for the fifth",
        kind: Kind::Small,
        lines: &[FOUR_LOADS, "load 5 5 -> refused 4\n"],
    },
    Story {
        name: "two_targets_shown",
        kind: Kind::Small,
        lines: &[
            "load 1 5 -> accepted
store 5 1000 ff000000 -> accepted
load 3 5 -> accepted
reg 0 -> V- 0000001 0001 00 [--- 0000 00000 0000 00000000] [2-- 1000 00001 0000 00000000] [--- 0000 00000 0000 00000000] [--- 0000 00000 0000 00000000]
",
        ],
    },
    Story {
        name: "miss_on_a_queued_block",
        kind: Kind::Small,
        lines: &[
            "prefetch 4 -> accepted\n",
            ARRIVED,
            "store 5 1100 aabb0000 -> accepted
evict 1 -> accepted
load 1 5 -> accepted
store 5 0100 00cc0000 -> accepted
evict 1 -> accepted
load 2 5 -> accepted
serve 1 -> moved
serve 1 -> moved
serve 1 -> moved
serve 1 -> moved
arrive 1 2 -> moved
process 0 -> moved
take 0 -> value 2 aacc0000
load 3 5 -> accepted
take 0 -> value 3 aacc0000
arrive 1 0 -> moved
process 0 -> moved
take 0 -> value 1 aabb0000
drain -> moved
drain -> moved
serve 1 -> moved
serve 1 -> moved
bank 5 -> aacc0000
evict 1 -> accepted
drain -> nothing
",
        ],
    },
    Story {
        name: "load_of_queued_bytes",
        kind: Kind::Small,
        lines: &[
            "prefetch 4 -> accepted\n",
            ARRIVED,
            "store 5 1111 11223344 -> accepted
evict 1 -> accepted
load 1 5 -> accepted
take 0 -> value 1 11223344
",
        ],
    },
];

/// Asks a line of a trace, and writes it with its answer.
pub fn serve_line<M: AnyMachine>(
    alloc: Global,
    machine: &mut M,
    line: &str,
    told: &mut Vec<u8>,
) -> Result<(), Fail> {
    let line = format!(in alloc; "{line}\n")?;
    serve_text(alloc, &mut line.as_bytes(), told, machine)?;
    Ok(())
}

/// As `serve_line`, and `weight` and `pump` too.
fn tell_line(
    alloc: Global,
    machine: &mut ShapedMachine,
    line: &str,
    told: &mut Vec<u8>,
) -> Result<(), Fail> {
    match line {
        "weight" => writeln!(told, "weight -> {}", machine.weight())?,
        "pump" => match machine.pump() {
            Some((event, answer)) => writeln!(told, "pump -> {event} -> {answer}")?,
            None => writeln!(told, "pump -> none")?,
        },
        _ => serve_line(alloc, machine, line, told)?,
    }
    Ok(())
}

fn told(alloc: Global, machine: &mut ShapedMachine, lines: &str) -> Result<Vec<u8>, Fail> {
    let mut told = Vec::new(alloc);
    for line in lines.lines() {
        let (asked, _) = line.split_once(" -> ").ok_or("an answer")?;
        tell_line(alloc, machine, asked, &mut told)?;
    }
    Ok(told)
}

/// The text of these pieces.
pub fn joined(alloc: Global, pieces: &[&str]) -> Result<String, Fail> {
    let mut text = String::new(alloc);
    for piece in pieces {
        text.push_str(piece)?;
    }
    Ok(text)
}

fn recorded(alloc: Global, lines: &str) -> Result<(Vec<Event>, Vec<Answer>), Fail> {
    let mut events = Vec::new(alloc);
    let mut answers = Vec::new(alloc);
    for line in lines.lines() {
        let line = format!(in alloc; "{line}\n")?;
        if let Ok(
            Pair {
                line: Line::Event(event),
                answer: Some(answer),
            },
        ) = read_pair(line.as_bytes())
        {
            events.push(event)?;
            answers.push(answer)?;
        }
    }
    Ok((events, answers))
}

/// Asserts that a new machine answers the story's lines, and another one its events in one call.
fn plays<R: Abort, const WAYS: usize, const WORDS: usize, const REGS: usize, const DEPTH: usize>(
    rt: &R,
    alloc: Global,
    story: &Story,
    machine: &mut ShapedMachine,
    other: &mut Machine<WAYS, WORDS, REGS, DEPTH>,
) -> Result<(), Fail> {
    let lines = joined(alloc, story.lines)?;
    let told = told(alloc, machine, lines.as_str())?;
    same(
        rt,
        story.name,
        std::str::from_utf8(told.as_slice())?,
        lines.as_str(),
    );
    let (events, answers) = recorded(alloc, lines.as_str())?;
    let answered = other.run(alloc, &events)?;
    same(rt, story.name, answered.as_slice(), answers.as_slice());
    Ok(())
}

fn plays_of<R: Abort, const WAYS: usize, const REGS: usize>(
    rt: &R,
    alloc: Global,
    story: &Story,
    shape: Shape,
) -> Result<(), Fail> {
    let image = image(alloc, 32)?;
    let sizes = Sizes {
        ways: u32::try_from(WAYS).unwrap_or(u32::MAX),
        regs: u32::try_from(REGS).unwrap_or(u32::MAX),
        ..sizes_of::<1, 4, 1, 2>(&shape)
    };
    let mut machine = ShapedMachine::new(alloc, &sizes, &image)?;
    let mut other = Machine::<WAYS, 4, REGS, 2>::new(alloc, shape, &image)?;
    plays(rt, alloc, story, &mut machine, &mut other)
}

/// Asserts the story of the smallest machines.
fn plays_of_smallest<R: Abort>(rt: &R, alloc: Global, story: &Story) -> Result<(), Fail> {
    let image = image(alloc, 8)?;
    let sizes = sizes_of::<1, 1, 1, 1>(&SMALLEST_SHAPE);
    let mut machine = ShapedMachine::new(alloc, &sizes, &image)?;
    let mut other = Machine::<1, 1, 1, 1>::new(alloc, SMALLEST_SHAPE, &image)?;
    plays(rt, alloc, story, &mut machine, &mut other)
}

#[test]
fn stories(rt: HostRuntime) -> Result<(), Fail> {
    let alloc = rt.alloc();
    for story in STORIES {
        match story.kind {
            Kind::Small => plays_of::<_, 1, 2>(&rt, alloc, story, SMALL_SHAPE),
            Kind::TwoWays => plays_of::<_, 2, 2>(&rt, alloc, story, SMALL_SHAPE),
            Kind::OneRegister => plays_of::<_, 1, 1>(&rt, alloc, story, SMALL_SHAPE),
            Kind::FourRegisters => plays_of::<_, 1, 4>(&rt, alloc, story, SMALL_SHAPE),
            Kind::EightReplies => plays_of::<_, 1, 2>(&rt, alloc, story, EIGHT_REPLIES),
            Kind::Smallest => plays_of_smallest(&rt, alloc, story),
        }?;
    }
    Ok(())
}
