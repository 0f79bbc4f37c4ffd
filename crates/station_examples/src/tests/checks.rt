//! Findings and texts of runs.
use super::{ZEROS, scripts_of};
use flat_model::{Answer, Cause, Event, Lanes, Word};
use ring_station::{Ask, Audit, Entry, RenewFault, Ring, RunFault, SegmentFault, Source, Told};
use station_checks::{
    Findings, FindingsText, Plan, Tally, are_told, is_flat, tell_findings, tell_journal,
    tell_progress, tell_run, tell_story,
};
use std::alloc::{AllocError, Global};
use std::io;
use std::test::Fail;
use std::time::Duration;

const STORED: Word = Word {
    b0: 0xaa,
    b1: 0xbb,
    b2: 0xcc,
    b3: 0xdd,
};

fn asked(port: u32, event: Event, answer: Answer) -> Entry {
    Entry::Step {
        source: Source::Ask(port),
        event,
        answer,
    }
}

// Port 1 stores a word; port 0 loads it, and is told this one.
fn journal(value: Word) -> [Entry; 4] {
    let store = Event::Store {
        at: 6,
        word: STORED,
        lanes: Lanes(15),
    };
    let take = Entry::Step {
        source: Source::Reply(0),
        event: Event::Take { place: 0 },
        answer: Answer::Value {
            tag: 3,
            word: value,
        },
    };
    [
        asked(1, store, Answer::Accepted),
        asked(0, Event::Load { tag: 3, at: 6 }, Answer::Accepted),
        Entry::Ended { port: 1 },
        take,
    ]
}

fn lists(alloc: Global, value: Word) -> Result<Vec<Vec<Told>>, AllocError> {
    let value = Told::Value {
        tag: 3,
        word: value,
    };
    let mut lists = Vec::new(alloc);
    lists.push([Told::Accepted, value].to_vec(alloc)?)?;
    lists.push([Told::Accepted].to_vec(alloc)?)?;
    Ok(lists)
}

// The load's value, words of memory, and whether it is flat and told. The port was told the stored word.
const FOUND: [(Word, u32, bool, bool); 3] = [
    (STORED, 8, true, true),
    (ZEROS, 8, false, false),
    (STORED, 6, false, true),
];

// With lists, and without.
fn findings(
    alloc: Global,
    journal: &[Entry],
    words: u32,
    told: &[Vec<Told>],
) -> Result<[Findings; 2], AllocError> {
    let whole = Findings::of_run(alloc, Audit::Clean, journal, words, Some(told))?;
    let without_lists = Findings::of_run(alloc, Audit::Clean, journal, words, None)?;
    Ok([whole, without_lists])
}

#[test]
fn a_load_behind_a_store(rt: HostRuntime) -> Result<(), Fail> {
    let alloc = rt.alloc();
    let told = lists(alloc, STORED)?;
    for (value, words, flat, tells) in FOUND {
        let journal = journal(value);
        assert_eq!(rt; is_flat(alloc, &journal, words)?, flat);
        assert_eq!(rt; are_told(alloc, &journal, &told)?, tells);
        let found = Findings {
            audit: Audit::Clean,
            is_flat: flat,
            are_told: Some(tells),
        };
        let without_lists = Findings {
            are_told: None,
            ..found
        };
        assert_eq!(rt;
            findings(alloc, &journal, words, &told)?,
            [found, without_lists]
        );
    }
    Ok(())
}

fn script() -> [Ask; 4] {
    [
        Ask::Load { tag: 1, at: 5 },
        Ask::Store {
            at: 6,
            word: STORED,
            lanes: Lanes(3),
        },
        Ask::Evict { block: 9 },
        Ask::Load { tag: 2, at: 5 },
    ]
}

// Up to the third ask.
fn list() -> [Told; 5] {
    [
        Told::Accepted,
        Told::Refused(Cause::BankFull),
        Told::Value {
            tag: 1,
            word: STORED,
        },
        Told::Accepted,
        Told::Refused(Cause::NotPresent),
    ]
}

#[derive(Clone, Copy)]
enum Text {
    Story,
    Run,
    Progress,
    /// A port's end is no line.
    Journal,
}

const TEXTS: [(Text, &str); 4] = [
    (
        Text::Story,
        "1 ports, 4 asks each, seed 7

port 0
  load 1 5 -> aabbccdd
  store 6 1100 aabbccdd -> accepted
  evict 9 -> done
  load 2 5 -> no verdict

audit: Left { ring: Asks(0) }
journal: not flat
",
    ),
    (
        Text::Run,
        "the journal has 4 entries, and ends with
  store 6 1111 aabbccdd -> accepted
  load 3 6 -> accepted
  port 1 has ended
  take 0 -> value 3 aabbccdd
1 asks were offered again
8 asks per second
",
    ),
    (
        Text::Progress,
        "\r4 asks, 8 asks per second, 1 segments, 1 audits clean",
    ),
    (
        Text::Journal,
        "store 6 1111 aabbccdd -> accepted
load 3 6 -> accepted
take 0 -> value 3 aabbccdd
",
    ),
];

const FINDINGS: Findings = Findings {
    audit: Audit::Left {
        ring: Ring::Asks(0),
    },
    is_flat: false,
    are_told: Some(false),
};

fn told(alloc: Global, text: Text) -> Result<Vec<u8>, Fail> {
    let scripts = scripts_of(alloc, &[&script()])?;
    let lists = [list().to_vec(alloc)?];
    let mut out = Vec::new(alloc);
    tell(&mut out, text, &scripts, &lists)?;
    Ok(out)
}

fn tell(
    out: &mut Vec<u8>,
    text: Text,
    scripts: &[Vec<Ask>],
    lists: &[Vec<Told>],
) -> io::Result<()> {
    let plan = Plan::new(1, 4, 7);
    let journal = journal(STORED);
    let mut tally = Tally::new();
    tally.note(4, lists, &journal);
    match text {
        Text::Story => tell_story(out, &plan, scripts, lists, &FINDINGS),
        Text::Run => tell_run(out, &tally, &journal, Duration::from_millis(500)),
        Text::Progress => tell_progress(out, &tally, Duration::from_millis(500)),
        Text::Journal => tell_journal(out, &journal),
    }
}

const FAULTS: [(SegmentFault, &str); 5] = [
    (SegmentFault::Run(RunFault::TurnLimit), "turn limit"),
    (SegmentFault::Run(RunFault::OutOfMemory), "out of memory"),
    (SegmentFault::Renewal(RenewFault::WornOut), "worn out"),
    (
        SegmentFault::Renewal(RenewFault::OutOfMemory),
        "out of memory",
    ),
    (
        SegmentFault::Renewal(RenewFault::NotClean(Audit::Owed { count: 2 })),
        "not clean, owed: 2",
    ),
];

#[test]
fn texts_of_a_run(rt: HostRuntime) -> Result<(), Fail> {
    for (text, wanted) in TEXTS {
        let out = told(rt.alloc(), text)?;
        assert_eq!(rt; out.as_slice(), wanted.as_bytes());
    }
    for (fault, wanted) in FAULTS {
        assert_eq!(rt; format!(in rt.alloc(); "{fault}")?.as_str(), wanted);
    }
    Ok(())
}

const UNCLEAN: [Audit; 6] = [
    Audit::Faulted,
    Audit::Left {
        ring: Ring::Asks(0),
    },
    Audit::Left {
        ring: Ring::Told(15),
    },
    Audit::Left {
        ring: Ring::Commands(31),
    },
    Audit::Left {
        ring: Ring::Answers(2),
    },
    Audit::Owed { count: 64 },
];

#[test]
fn findings_are_told_as_they_are_written(rt: HostRuntime) -> Result<(), Fail> {
    let alloc = rt.alloc();
    for audit in UNCLEAN {
        let found = Findings { audit, ..FINDINGS };
        let mut out = Vec::new(alloc);
        tell_findings(&mut out, &found)?;
        let wanted = format!(in alloc; "audit: {audit:?}\njournal: not flat\n")?;
        assert_eq!(rt; out.as_slice(), wanted.as_bytes());
    }
    for are_told in [None, Some(false), Some(true)] {
        for audit in [Audit::Clean, Audit::Owed { count: 2 }] {
            let found = Findings {
                audit,
                is_flat: audit == Audit::Clean,
                are_told,
            };
            let told = format!(in alloc; "{}", FindingsText(found))?;
            let wanted = format!(in alloc; "{found:?}")?;
            assert_eq!(rt; told.as_str(), wanted.as_str());
        }
    }
    Ok(())
}
