//! Runs with each kind of mismatch, their texts, and readers that fail.

use super::fixture::{Behind, Script, ZERO, same};
use flat_model::{Answer, Event, Image, Lanes, Word};
use run_reasons::{Explainer, Mismatch, ReadFault, Reason, explain_text};
use std::alloc::Global;
use std::process::Abort;
use std::test::Fail;
use trace_text::{LineFault, TraceFault};

/// A run whose last line is a mismatch.
struct Told {
    name: &'static str,
    before: &'static str,
    line: &'static str,
    number: u64,
    why: &'static str,
}

const SHOWN: &str = "bank 0 -> 00000000\n";

const OTHER: &str = "load 4 0 -> accepted\n";

const LOADED: &str = "load 4 0 -> accepted
load 5 8 -> accepted
";

const PAID: &str = "load 4 0 -> accepted
load 5 8 -> accepted
take 1 -> value 5 00000000
";

const OUTSIDE: &str = "word 64 is outside memory, which has 64 words: it is refused 1";

const INSIDE: &str = "word 63 is in memory, which has 64 words";

const NEVER_LOADED: &str = "tag 5 is owed nothing: it was never loaded";

const IN_USE: &str = "tag 5 is in use since line 2: it is refused 3 until its value is taken";

const TAKEN: &str = "tag 5 is owed nothing: its value was taken in line 3";

const EVER: &str = "an_answer_or_a_cause_that_an_event_never_gets";

const THERE: &str = "a_word_or_a_lane_that_is_there_or_not";

const TAG: &str = "a_tag_that_is_in_use_or_not";

const TOLD: &[Told] = &[
    Told {
        name: EVER,
        before: SHOWN,
        line: "load 1 4 -> moved",
        number: 2,
        why: "a load never gets this answer: it gets accepted, or refused 1 or 3 to 10",
    },
    Told {
        name: EVER,
        before: SHOWN,
        line: "load 1 4 -> refused 11",
        number: 2,
        why: "a load never gets refused 11: it gets accepted, or refused 1 or 3 to 10",
    },
    Told {
        name: EVER,
        before: SHOWN,
        line: "store 4 1000 07000000 -> refused 3",
        number: 2,
        why: "a store never gets refused 3: it gets accepted, or refused 1, 2 or 6 to 10",
    },
    Told {
        name: EVER,
        before: SHOWN,
        line: "prefetch 4 -> refused 2",
        number: 2,
        why: "a prefetch never gets refused 2: it gets accepted, or refused 1 or 6 to 10",
    },
    Told {
        name: EVER,
        before: SHOWN,
        line: "evict 4 -> nothing",
        number: 2,
        why: "an evict never gets this answer: it gets accepted, or refused 1, 9 or 11",
    },
    Told {
        name: EVER,
        before: SHOWN,
        line: "drain -> accepted",
        number: 2,
        why: "a drain never gets this answer: it gets moved, nothing or refused 10",
    },
    Told {
        name: EVER,
        before: SHOWN,
        line: "serve 0 -> refused 10",
        number: 2,
        why: "a serve never gets refused 10: it gets moved or nothing",
    },
    Told {
        name: EVER,
        before: SHOWN,
        line: "arrive 0 0 -> refused 13",
        number: 2,
        why: "an arrive never gets refused 13: it gets moved, nothing or refused 12",
    },
    Told {
        name: EVER,
        before: SHOWN,
        line: "process 0 -> value 1 00000000",
        number: 2,
        why: "a process never gets this answer: it gets moved or nothing",
    },
    Told {
        name: EVER,
        before: SHOWN,
        line: "take 0 -> moved",
        number: 2,
        why: "a take never gets this answer: it gets a value or nothing",
    },
    Told {
        name: THERE,
        before: "",
        line: "load 1 64 -> accepted",
        number: 1,
        why: OUTSIDE,
    },
    Told {
        name: THERE,
        before: "",
        line: "load 1 64 -> refused 7",
        number: 1,
        why: OUTSIDE,
    },
    Told {
        name: THERE,
        before: "",
        line: "store 64 1000 07000000 -> accepted",
        number: 1,
        why: OUTSIDE,
    },
    Told {
        name: THERE,
        before: "",
        line: "store 64 0000 07000000 -> refused 2",
        number: 1,
        why: OUTSIDE,
    },
    Told {
        name: THERE,
        before: "",
        line: "prefetch 64 -> accepted",
        number: 1,
        why: OUTSIDE,
    },
    Told {
        name: THERE,
        before: "",
        line: "load 1 63 -> refused 1",
        number: 1,
        why: INSIDE,
    },
    Told {
        name: THERE,
        before: "",
        line: "store 63 1000 07000000 -> refused 1",
        number: 1,
        why: INSIDE,
    },
    Told {
        name: THERE,
        before: "",
        line: "prefetch 63 -> refused 1",
        number: 1,
        why: INSIDE,
    },
    Told {
        name: THERE,
        before: "",
        line: "store 3 0000 07000000 -> accepted",
        number: 1,
        why: "the store has no lanes: it is refused 2",
    },
    Told {
        name: THERE,
        before: "",
        line: "store 3 0100 07000000 -> refused 2",
        number: 1,
        why: "the store has lanes",
    },
    Told {
        name: TAG,
        before: OTHER,
        line: "take 0 -> value 5 00000000",
        number: 2,
        why: NEVER_LOADED,
    },
    Told {
        name: TAG,
        before: OTHER,
        line: "load 5 8 -> refused 3",
        number: 2,
        why: NEVER_LOADED,
    },
    Told {
        name: TAG,
        before: LOADED,
        line: "load 5 12 -> accepted",
        number: 3,
        why: IN_USE,
    },
    Told {
        name: TAG,
        before: LOADED,
        line: "load 5 12 -> refused 7",
        number: 3,
        why: IN_USE,
    },
    Told {
        name: TAG,
        before: PAID,
        line: "take 0 -> value 5 00000000",
        number: 4,
        why: TAKEN,
    },
    Told {
        name: TAG,
        before: PAID,
        line: "load 5 8 -> refused 3",
        number: 4,
        why: TAKEN,
    },
    // Byte 0 was stored twice before the load and once after, byte 1 once after it, byte 2 never;
    // byte 3 is right.
    Told {
        name: "a_wrong_word_is_explained_byte_by_byte",
        before: "store 9 1001 0a00000d -> accepted
store 9 1000 0b000000 -> accepted
load 7 9 -> accepted
store 9 1100 0c0e0000 -> accepted
store 8 1111 01020304 -> accepted
",
        line: "take 0 -> value 7 0c01020d",
        number: 6,
        why: "the load of line 3 (tag 7, word 9) is owed 0b00000d
byte 0: owed 0b, stored in line 2; got 0c, stored in line 4, after the load
byte 1: owed 00, of the initial zeros; got 01, which no last store put there: no store ever did
byte 2: owed 00, of the initial zeros; got 02, which no last store put there: no store ever did",
    },
    // A stale byte: the one that the load's store had replaced.
    Told {
        name: "a_byte_from_before_the_last_store",
        before: "store 9 1000 0a000000 -> accepted
store 9 1000 0b000000 -> accepted
load 7 9 -> accepted
",
        line: "take 0 -> value 7 0a000000",
        number: 4,
        why: "the load of line 3 (tag 7, word 9) is owed 0b000000
byte 0: owed 0b, stored in line 2; got 0a, which no last store put there: line 1 did, and line 2 overwrote it",
    },
    // Each byte has its own past: the first zero, a value from before, one that came twice, one
    // that stood elsewhere.
    Told {
        name: "each_stale_byte_has_its_own_past",
        before: "store 9 1111 0a0b0c0d -> accepted
store 9 0100 00010000 -> accepted
store 9 0110 000b0e00 -> accepted
load 7 9 -> accepted
store 9 0110 00020c00 -> accepted
store 9 0010 00000f00 -> accepted
store 8 0001 0000000a -> accepted
",
        line: "take 0 -> value 7 00010c0a",
        number: 8,
        why: "the load of line 4 (tag 7, word 9) is owed 0a0b0e0d
byte 0: owed 0a, stored in line 1; got 00, which no last store put there: memory began with it, and line 1 overwrote it
byte 1: owed 0b, stored in line 3; got 01, which no last store put there: line 2 did, and line 3 overwrote it
byte 2: owed 0e, stored in line 3; got 0c, which no last store put there: line 5 did, and line 6 overwrote it
byte 3: owed 0d, stored in line 1; got 0a, which no last store put there: no store ever did",
    },
    // Two partial stores make the word behind the load.
    Told {
        name: "a_late_word_is_told_as_one_of_an_atomic_history",
        before: "store 9 1111 01010101 -> accepted
load 7 9 -> accepted
store 9 0011 00000202 -> accepted
store 9 1000 03000000 -> accepted
store 9 1111 04040404 -> accepted
",
        line: "take 0 -> value 7 03010202",
        number: 6,
        why: "the load of line 2 (tag 7, word 9) is owed 01010101
byte 0: owed 01, stored in line 1; got 03, which no last store put there: line 4 did, and line 5 overwrote it
byte 2: owed 01, stored in line 1; got 02, which no last store put there: line 3 did, and line 5 overwrote it
byte 3: owed 01, stored in line 1; got 02, which no last store put there: line 3 did, and line 5 overwrote it
the whole word stood there after the load: no run of flat memory from acceptance on; as a history it is atomic",
    },
    // The bytes stood there after the load, never together.
    Told {
        name: "a_torn_word_is_told_as_nothing_more",
        before: "load 7 9 -> accepted
store 9 1111 01010101 -> accepted
store 9 1111 02020202 -> accepted
",
        line: "take 0 -> value 7 00000102",
        number: 4,
        why: "the load of line 1 (tag 7, word 9) is owed 00000000
byte 2: owed 00, of the initial zeros; got 01, which no last store put there: line 2 did, and line 3 overwrote it
byte 3: owed 00, of the initial zeros; got 02, stored in line 3, after the load",
    },
    // The word stood there until a store, and for a load no longer open.
    Told {
        name: "a_word_from_before_the_load_is_told_as_nothing_more",
        before: "load 6 9 -> accepted
store 9 1000 01000000 -> accepted
store 9 1000 02000000 -> accepted
load 7 9 -> accepted
take 0 -> value 6 00000000
store 9 1000 03000000 -> accepted
",
        line: "take 0 -> value 7 01000000",
        number: 7,
        why: "the load of line 4 (tag 7, word 9) is owed 02000000
byte 0: owed 02, stored in line 3; got 01, which no last store put there: line 2 did, and line 3 overwrote it",
    },
    // A word is kept for an open load while another is answered.
    Told {
        name: "a_late_word_beside_other_loads",
        before: "load 6 9 -> accepted
store 9 1000 01000000 -> accepted
load 7 9 -> accepted
load 8 8 -> accepted
store 8 1000 05000000 -> accepted
take 0 -> value 7 01000000
store 9 1000 02000000 -> accepted
take 0 -> value 8 00000000
",
        line: "take 0 -> value 6 01000000",
        number: 9,
        why: "the load of line 1 (tag 6, word 9) is owed 00000000
byte 0: owed 00, of the initial zeros; got 01, which no last store put there: line 2 did, and line 7 overwrote it
the whole word stood there after the load: no run of flat memory from acceptance on; as a history it is atomic",
    },
];

/// The most bytes at once.
const PIECES: [usize; 5] = [1, 5, 7, 100, 4096];

/// Asserts what is told of a run over 64 words, in pieces of each size.
fn ends<R: Abort>(
    rt: &R,
    alloc: Global,
    name: &str,
    run: &str,
    behind: Behind,
    told: Result<&str, TraceFault>,
    status: u8,
) -> Result<(), Fail> {
    for most in PIECES {
        let mut input = Script::new(run, most, [behind, behind]);
        match explain_text(alloc, &mut input, &Image::Zeros, 64) {
            Ok(explanation) => {
                let text = format!(in alloc; "{explanation}")?;
                same(rt, name, Ok(text.as_str()), told);
                same(rt, name, explanation.status(), status);
            }
            Err(fault) => same(rt, name, Err(fault), told),
        }
    }
    Ok(())
}

#[test]
fn mismatches(rt: HostRuntime) -> Result<(), Fail> {
    for Told {
        name,
        before,
        line,
        number,
        why,
    } in TOLD {
        let run = format!(in rt.alloc(); "{before}{line}\n")?;
        let told = format!(in rt.alloc(); "mismatch at line {number}: {line}\n{why}")?;
        ends(
            &rt,
            rt.alloc(),
            name,
            run.as_str(),
            Behind::End,
            Ok(told.as_str()),
            1,
        )?;
    }
    Ok(())
}

const ENDS: &[(&str, &str, Behind, Result<&str, TraceFault>, u8)] = &[
    (
        "a_flat_run_is_counted",
        "load 1 4 -> accepted
settled -> no
store 4 1000 07000000 -> accepted
take 0 -> value 1 00000000
",
        Behind::End,
        Ok("flat run, 3 steps"),
        0,
    ),
    (
        "a_flat_run_is_counted: no line",
        "",
        Behind::End,
        Ok("flat run, 0 steps"),
        0,
    ),
    (
        "the_first_mismatch_is_told_at_once: before the reader fails",
        "load 1 4 -> accepted
take 0 -> value 1 01000000
",
        Behind::Failure,
        Ok(
            "mismatch at line 2: take 0 -> value 1 01000000
the load of line 1 (tag 1, word 4) is owed 00000000
byte 0: owed 00, of the initial zeros; got 01, which no last store put there: no store ever did",
        ),
        1,
    ),
    (
        "the_first_mismatch_is_told_at_once: before a later one and a faulty line",
        "take 0 -> moved
take 0 -> accepted
nonsense
",
        Behind::End,
        Ok(
            "mismatch at line 1: take 0 -> moved
a take never gets this answer: it gets a value or nothing",
        ),
        1,
    ),
    (
        "a_faulty_line_ends_a_reading: no answer",
        "drain -> moved\nnonsense\n",
        Behind::End,
        Err(TraceFault::Line {
            number: 2,
            fault: LineFault::Field,
        }),
        0,
    ),
    (
        "a_faulty_line_ends_a_reading: no command",
        "nonsense -> moved\ntake 0 -> moved\n",
        Behind::End,
        Err(TraceFault::Line {
            number: 1,
            fault: LineFault::Unknown,
        }),
        0,
    ),
    (
        "a_faulty_line_ends_a_reading: no line feed",
        "drain -> moved\ndrain -> moved",
        Behind::End,
        Err(TraceFault::Line {
            number: 2,
            fault: LineFault::NotEnded,
        }),
        0,
    ),
    (
        "a_faulty_line_ends_a_reading: an empty line",
        "drain -> moved\n\n",
        Behind::End,
        Err(TraceFault::Line {
            number: 2,
            fault: LineFault::Field,
        }),
        0,
    ),
    (
        "a_failed_read_is_told: at once",
        "",
        Behind::Failure,
        Err(TraceFault::Read),
        0,
    ),
    (
        "a_failed_read_is_told: behind a line",
        "drain -> moved\n",
        Behind::Failure,
        Err(TraceFault::Read),
        0,
    ),
    (
        "a_failed_read_is_told: in a line",
        "drain -> moved\ndra",
        Behind::Failure,
        Err(TraceFault::Read),
        0,
    ),
];

#[test]
fn ends_of_readings(rt: HostRuntime) -> Result<(), Fail> {
    for (name, run, behind, told, status) in ENDS {
        ends(&rt, rt.alloc(), name, run, *behind, *told, *status)?;
    }
    Ok(())
}

// 768 bytes are read; 769 aren't.
#[test]
fn a_faulty_line_ends_a_reading(rt: HostRuntime) -> Result<(), Fail> {
    let too_long = Err(TraceFault::Line {
        number: 1,
        fault: LineFault::TooLong,
    });
    let lines = [
        (768, "\n", Ok("flat run, 0 steps")),
        (769, "\n", too_long),
        (769, "", too_long),
    ];
    for (length, end, told) in lines {
        let mut line = String::from_str(rt.alloc(), "settled -> ")?;
        for _ in line.len()..length {
            line.push('x')?;
        }
        line.push_str(end)?;
        ends(
            &rt,
            rt.alloc(),
            "a long line",
            line.as_str(),
            Behind::End,
            told,
            0,
        )?;
    }
    Ok(())
}

#[test]
fn a_load_is_told_by_its_line(rt: HostRuntime) -> Result<(), Fail> {
    let mut run = String::new(rt.alloc());
    for line in 1..=6248 {
        run.push_str(match line {
            4062 => "store 38 1111 7d61caed -> accepted\n",
            6239 => "load 137 38 -> accepted\n",
            6240 => "store 38 1000 a6000000 -> accepted\n",
            6248 => "take 0 -> value 137 a661caed\n",
            _ => "drain -> nothing\n",
        })?;
    }
    let told = "mismatch at line 6248: take 0 -> value 137 a661caed
the load of line 6239 (tag 137, word 38) is owed 7d61caed
byte 0: owed 7d, stored in line 4062; got a6, stored in line 6240, after the load
the whole word stood there after the load: no run of flat memory from acceptance on; as a history it is atomic";
    ends(
        &rt,
        rt.alloc(),
        "a long run",
        run.as_str(),
        Behind::End,
        Ok(told),
        1,
    )
}

const LOAD: Event = Event::Load { tag: 1, at: 2 };

const TAKE: Event = Event::Take { place: 0 };

const VALUE: Answer = Answer::Value { tag: 1, word: ZERO };

/// Lines that an explainer reads, and what it finds. One that it refuses changes nothing.
const READ: &[(&str, u64, Event, Answer, Option<Reason>)] = &[
    ("a load", 1, LOAD, Answer::Accepted, None),
    (
        "a store",
        2,
        Event::Store {
            at: 2,
            word: Word { b0: 9, ..ZERO },
            lanes: Lanes::LANE_0,
        },
        Answer::Accepted,
        None,
    ),
    (
        "a load of a tag in use",
        3,
        LOAD,
        Answer::Accepted,
        Some(Reason::TagInUse { tag: 1, line: 1 }),
    ),
    ("its value", 4, TAKE, VALUE, None),
    (
        "its value again",
        5,
        TAKE,
        VALUE,
        Some(Reason::Taken { tag: 1, line: 4 }),
    ),
];

#[test]
fn a_line_that_is_refused_changes_nothing(rt: HostRuntime) -> Result<(), Fail> {
    let mut explainer = Explainer::new(rt.alloc(), &Image::Zeros, 8)?;
    for (name, line, event, answer, reason) in READ {
        let (line, event, answer) = (*line, *event, *answer);
        let wanted = match reason {
            None => Ok(()),
            Some(reason) => Err(ReadFault::Mismatch(Mismatch {
                line,
                event,
                answer,
                reason: *reason,
            })),
        };
        same(&rt, name, explainer.read(line, event, answer), wanted);
    }
    Ok(())
}
