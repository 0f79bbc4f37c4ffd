//! Traces as text: single lines and pairs, and streams that come in pieces, end or fail.

use super::fixture::{
    Behind, STORED_COUNTS, STORED_INPUT, STORED_OUTPUT, Script, ZERO, default_machine, same,
};
use flat_model::{Answer, Cause, Event, Lanes, Word};
use machine_core::ShapedMachine;
use std::alloc::Global;
use std::io;
use std::io::Write;
use std::process::Abort;
use std::test::Fail;
use trace_text::{
    CheckEnd, Counts, Line, LineFault, Pair, TraceFault, answer_text, check_text, read_line,
    read_pair, read_requests, serve_text, written_line, written_pair,
};

const LINES: &[(&str, Result<Line, LineFault>)] = &[
    ("drain\n", Ok(Line::Event(Event::Drain))),
    ("reg 3\n", Ok(Line::Register(3))),
    ("bank 7\n", Ok(Line::Bank(7))),
    ("drain", Err(LineFault::NotEnded)),
    ("drain \n", Err(LineFault::Field)),
    (" drain\n", Err(LineFault::Unknown)),
];

#[test]
fn single_lines(rt: HostRuntime) -> Result<(), Fail> {
    for (text, said) in LINES {
        same(&rt, text, read_line(text.as_bytes()), *said);
        if let Ok(line) = said {
            same(&rt, text, written_line(rt.alloc(), *line)?.as_str(), *text);
        }
    }
    Ok(())
}

const PAIRS: &[(&str, Result<Pair, LineFault>)] = &[
    ("load 1 5\n", Err(LineFault::Field)),
    ("lod 1 5\n", Err(LineFault::Field)),
    ("lod 1 5 -> accepted\n", Err(LineFault::Unknown)),
    ("load 1 5 -> value 1\n", Err(LineFault::Field)),
    ("drain -> refused 14\n", Err(LineFault::Field)),
    (
        "settled -> maybe\n",
        Ok(Pair {
            line: Line::Settled,
            answer: None,
        }),
    ),
];

#[test]
fn single_pairs(rt: HostRuntime) {
    for (text, said) in PAIRS {
        same(&rt, text, read_pair(text.as_bytes()), *said);
    }
}

/// Events and answers, and how each shows.
const SHOWN: &[(Event, &str, Answer, &str)] = &[
    (
        Event::Load { tag: 1, at: 5 },
        "load 1 5",
        Answer::Accepted,
        "accepted",
    ),
    (
        Event::Store {
            at: 5,
            word: Word {
                b0: 7,
                b1: 0xab,
                b2: 0,
                b3: 0xff,
            },
            lanes: Lanes::LANE_0,
        },
        "store 5 1000 07ab00ff",
        Answer::Value {
            tag: 1,
            word: Word { b0: 5, ..ZERO },
        },
        "value 1 05000000",
    ),
    (
        Event::Arrive { bank: 1, place: 0 },
        "arrive 1 0",
        Answer::Refused(Cause::TagInUse),
        "refused 3",
    ),
    (
        Event::Drain,
        "drain",
        Answer::Refused(Cause::QueueFull),
        "refused 9",
    ),
    (
        Event::Take { place: 0 },
        "take 0",
        Answer::Value {
            tag: 7,
            word: Word { b0: 5, ..ZERO },
        },
        "value 7 05000000",
    ),
];

/// Asserts how an event and its answer show, and that they are read back.
fn shows<R: Abort>(
    rt: &R,
    alloc: Global,
    event: Event,
    event_shown: &str,
    answer: Answer,
    answer_shown: &str,
) -> Result<(), Fail> {
    let text = format!(in alloc; "{event_shown} -> {answer_shown}\n")?;
    let shown = format!(in alloc; "{event} -> {answer}\n")?;
    same(rt, event_shown, shown.as_str(), text.as_str());
    same(
        rt,
        event_shown,
        written_pair(alloc, event, answer)?.as_str(),
        text.as_str(),
    );
    same(
        rt,
        event_shown,
        answer_text(answer).as_bytes(),
        answer_shown.as_bytes(),
    );
    let pair = Pair {
        line: Line::Event(event),
        answer: Some(answer),
    };
    same(rt, event_shown, read_pair(text.as_bytes()), Ok(pair));
    Ok(())
}

#[test]
fn recorded_pairs(rt: HostRuntime) -> Result<(), Fail> {
    for (event, event_shown, answer, answer_shown) in SHOWN {
        shows(&rt, rt.alloc(), *event, event_shown, *answer, answer_shown)?;
    }
    Ok(())
}

/// A text served by a default machine, and what its reader does behind it.
struct Served {
    name: &'static str,
    text: &'static str,
    first: Behind,
    later: Behind,
    ended: Result<Counts, TraceFault>,
    written: &'static str,
}

const ONE_NOTHING: Counts = Counts {
    lines: 1,
    accepted: 0,
    moved: 0,
    values: 0,
    nothing: 1,
    refused: 0,
};

/// Each is read twice: for its text, and for the end behind it.
const SERVED: &[Served] = &[
    Served {
        name: "failing_reader: it fails",
        text: "drain\nserve 0\nta",
        first: Behind::Failure,
        later: Behind::Failure,
        ended: Err(TraceFault::Read),
        written: "drain -> nothing\nserve 0 -> nothing\n",
    },
    Served {
        name: "failing_reader: it ends",
        text: "drain\nserve 0\nta",
        first: Behind::End,
        later: Behind::End,
        ended: Err(TraceFault::Line {
            number: 3,
            fault: LineFault::NotEnded,
        }),
        written: "drain -> nothing\nserve 0 -> nothing\n",
    },
    Served {
        name: "served_up_to_the_first_end: more behind it",
        text: "drain\n",
        first: Behind::End,
        later: Behind::Text("drain\n"),
        ended: Ok(ONE_NOTHING),
        written: "drain -> nothing\n",
    },
    Served {
        name: "served_up_to_the_first_end: a failure behind it",
        text: "drain\n",
        first: Behind::End,
        later: Behind::Failure,
        ended: Ok(ONE_NOTHING),
        written: "drain -> nothing\n",
    },
    Served {
        name: "a_failed_read_is_not_tried_again: more behind it",
        text: "drain\n",
        first: Behind::Failure,
        later: Behind::Text("drain\n"),
        ended: Err(TraceFault::Read),
        written: "drain -> nothing\n",
    },
    Served {
        name: "a_failed_read_is_not_tried_again: the end behind it",
        text: "drain\n",
        first: Behind::Failure,
        later: Behind::End,
        ended: Err(TraceFault::Read),
        written: "drain -> nothing\n",
    },
];

#[test]
fn served_texts(rt: HostRuntime) -> Result<(), Fail> {
    for served in SERVED {
        let name = served.name;
        let mut machine = default_machine(rt.alloc())?;
        let mut output = Vec::new(rt.alloc());
        let mut reader = Script::new(served.text, 64, [served.first, served.later]);
        let ended = serve_text(rt.alloc(), &mut reader, &mut output, &mut machine);
        same(&rt, name, ended, served.ended);
        same(&rt, name, output.as_slice(), served.written.as_bytes());
        same(&rt, name, reader.reads, 2);
    }
    Ok(())
}

#[test]
fn checked_up_to_the_first_end(rt: HostRuntime) {
    for behind in [Behind::Text("drain -> nothing\n"), Behind::Failure] {
        let mut reader = Script::new("drain -> nothing\n", 64, [Behind::End, behind]);
        let end = check_text(rt.alloc(), &mut reader, 64);
        same(&rt, "the check", end, Ok(CheckEnd::Flat { steps: 1 }));
        same(&rt, "reads", reader.reads, 2);
    }
}

/// Texts, what their readers do behind them, and the requests collected.
const COLLECTED: &[(&str, &str, Behind, &[Event])] = &[
    (
        "requests_and_pairs",
        STORED_INPUT,
        Behind::End,
        &[
            Event::Load { tag: 1, at: 5 },
            Event::Store {
                at: 5,
                word: Word { b0: 255, ..ZERO },
                lanes: Lanes::LANE_0,
            },
            Event::Load { tag: 2, at: 5 },
        ],
    ),
    (
        "collected_up_to_the_first_end: more behind it",
        "load 1 5\n",
        Behind::Text("load 2 5\n"),
        &[Event::Load { tag: 1, at: 5 }],
    ),
    (
        "collected_up_to_the_first_end: a failure behind it",
        "load 1 5\n",
        Behind::Failure,
        &[Event::Load { tag: 1, at: 5 }],
    ),
];

#[test]
fn collected_requests(rt: HostRuntime) -> Result<(), Fail> {
    for (name, text, behind, wanted) in COLLECTED {
        let mut reader = Script::new(text, 4096, [Behind::End, *behind]);
        let requests = read_requests(rt.alloc(), &mut reader)?;
        same(&rt, name, requests.as_slice(), *wanted);
        same(&rt, name, reader.reads, 2);
    }
    Ok(())
}

/// Takes so many bytes in pieces, then fails or takes none.
#[derive(Drop)]
struct Limited {
    taken: Vec<u8>,
    room: usize,
    most: usize,
    fails: bool,
}

impl Write for Limited {
    fn write(&mut self, buf: &[u8]) -> io::Result<usize> {
        let n = buf.len().min(self.room).min(self.most);
        if n == 0 && self.fails {
            return Err(io::Error::from(io::ErrorKind::Other));
        }
        self.taken.extend_from_slice(&buf[..n])?;
        self.room -= n;
        Ok(n)
    }

    fn flush(&mut self) -> io::Result<()> {
        Ok(())
    }
}

#[test]
fn stored_run_in_pieces(rt: HostRuntime) -> Result<(), Fail> {
    for most in [1usize, 2, 3, 7, 64, 4096] {
        let mut machine = default_machine(rt.alloc())?;
        let mut reader = Script::new(STORED_INPUT, most, [Behind::End, Behind::End]);
        let mut writer = Limited {
            taken: Vec::new(rt.alloc()),
            room: 4096,
            most,
            fails: true,
        };
        let ended = serve_text(rt.alloc(), &mut reader, &mut writer, &mut machine);
        same(&rt, "the counts", ended, Ok(STORED_COUNTS));
        same(
            &rt,
            "what was written",
            writer.taken.as_slice(),
            STORED_OUTPUT.as_bytes(),
        );
    }
    Ok(())
}

/// The stored run's whole lines in so many bytes, and their answers.
fn answers_to(alloc: Global, input: &[u8]) -> Result<(u64, String), Fail> {
    let whole = input.iter().filter(|byte| **byte == b'\n').count();
    let mut lines = 0u64;
    let mut answers = String::new(alloc);
    for line in STORED_OUTPUT.lines().take(whole) {
        lines = lines.saturating_add(1);
        answers.push_str(line)?;
        answers.push('\n')?;
    }
    Ok((lines, answers))
}

#[test]
fn cut_input_and_failing_writer(rt: HostRuntime) -> Result<(), Fail> {
    cut_input(&rt, rt.alloc())?;
    failing_writer(&rt, rt.alloc())
}

fn cut_input<R: Abort>(rt: &R, alloc: Global) -> Result<(), Fail> {
    for cut in 0..=STORED_INPUT.len() {
        let input = STORED_INPUT.as_bytes().get(..cut).ok_or("the first bytes")?;
        let mut output = Vec::new(alloc);
        let ended = served_until_its_end(alloc, input, &mut output)?;
        let (lines, answers) = answers_to(alloc, input)?;
        same(
            rt,
            "what was written",
            output.as_slice(),
            answers.as_str().as_bytes(),
        );
        let wanted = match input.last() {
            None | Some(b'\n') => Ok(lines),
            Some(_) => Err(TraceFault::Line {
                number: lines.saturating_add(1),
                fault: LineFault::NotEnded,
            }),
        };
        same(rt, "the lines", ended, wanted);
    }
    Ok(())
}

// Serves an input, and says how many lines, or why not to its end.
fn served_until_its_end(
    alloc: Global,
    input: &[u8],
    output: &mut Vec<u8>,
) -> Result<Result<u64, TraceFault>, Fail> {
    let mut machine = default_machine(alloc)?;
    let mut reader = input;
    let ended = serve_text(alloc, &mut reader, output, &mut machine);
    Ok(ended.map(|counts| counts.lines))
}

/// Asserts what the stored run gives if the writer has so much room.
fn serves_until<R: Abort>(
    rt: &R,
    alloc: Global,
    room: usize,
    fails: bool,
) -> Result<ShapedMachine, Fail> {
    let mut machine = default_machine(alloc)?;
    let mut writer = Limited {
        taken: Vec::new(alloc),
        room,
        most: 64,
        fails,
    };
    let mut reader = STORED_INPUT.as_bytes();
    let ended = serve_text(alloc, &mut reader, &mut writer, &mut machine);
    same(rt, "the fault", ended, Err(TraceFault::Write));
    let front = STORED_OUTPUT.as_bytes().get(..room);
    same(rt, "what was written", Some(writer.taken.as_slice()), front);
    Ok(machine)
}

// The line whose text was refused has been applied, and none behind it.
fn failing_writer<R: Abort>(rt: &R, alloc: Global) -> Result<(), Fail> {
    for room in 0..STORED_OUTPUT.len() {
        let code = code_behind(rt, alloc, room)?;
        match room {
            20 => same(rt, "room for 20", code, Lanes::none()),
            21 => same(rt, "room for 21", code, Lanes::LANE_0),
            _ => {}
        }
    }
    serves_until(rt, alloc, 0, false)?;
    Ok(())
}

// Word 1's stored lanes behind a failing writer.
fn code_behind<R: Abort>(rt: &R, alloc: Global, room: usize) -> Result<Lanes, Fail> {
    let machine = serves_until(rt, alloc, room, true)?;
    let field = machine.field(0, 1).ok_or("a word's field")?;
    Ok(field.code)
}

// 768 letters with LF, and 769 without.
#[test]
fn long_pairs_are_refused(rt: HostRuntime) -> Result<(), Fail> {
    for (last, fault) in [(b'\n', LineFault::Field), (b'a', LineFault::TooLong)] {
        let mut text = vec![in rt.alloc(); b'a'; 768]?;
        text.push(last)?;
        let number = 1;
        let refused = check_text(rt.alloc(), &mut text.as_slice(), 64);
        same(
            &rt,
            "the check",
            refused,
            Err(TraceFault::Line { number, fault }),
        );
    }
    Ok(())
}
