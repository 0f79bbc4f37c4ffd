//! Runs on threads. A row has scripts, the gate's rule, and what is found behind the run.
ghost use Rattle.std.specs.Prelude.{◌≡◌, length, vec_len};
ghost use Rattle.station_parts.specs.Ids.{cache_id};
ghost use Rattle.station_parts.specs.Station.{AreOneStation};

use super::gates::{Rule, RuledGate};
use super::{LOAD_5, SHAPE, TURNS, VALUE, scripts_of};
use flat_model::{Answer, Cause, Event, Lanes, MakeFault, Word};
use ring_station::{
    Actor, Ask, Audit, BankSide, CacheSide, Entry, RunFault, Source, Station, Told, audit,
    run_threads, station,
};
use std::alloc::Global;
use std::process::Abort;
use std::rt::Clock;
use std::test::Fail;
use std::thread::Threads;

#[derive(Clone, Copy)]
enum Tellings {
    InOrder(&'static [Told]),
    InAnyOrder(&'static [Told]),
    /// The first and the last of these at the ends, and at least so many refusals of a tag in use.
    WithRefusals {
        least: usize,
        others: &'static [Told],
    },
}

#[derive(Clone, Copy)]
enum Fact {
    Audit(Audit),
    Left,
    Entries(u32),
    First(Entry),
    Settled,
    Word { bank: usize, place: u32, word: Word },
    /// Actors that saw what they waited for.
    Met(u64),
    /// Of the cache side, the ports and the banks.
    Turns([u64; 5]),
}

/// A run of a new station with a port for each script.
#[derive(Clone, Copy)]
pub(crate) struct Run {
    name: &'static str,
    rule: Rule,
    /// Entries that it takes.
    journal: u32,
    /// Of each thread.
    turns: u64,
    scripts: &'static [&'static [Ask]],
    /// By port; `None` for a run to its limit.
    lists: Option<&'static [Tellings]>,
    /// Steps by hand behind the run.
    then: &'static [Source],
    facts: &'static [Fact],
}

impl Run {
    pub(crate) fn with_turns(&self, turns: u64) -> Run {
        Run { turns, ..*self }
    }

    // Too many to count are too many for a station.
    fn ports(&self) -> u32 {
        u32::try_from(self.scripts.len()).unwrap_or(u32::MAX)
    }
}

const RUN: Run = Run {
    name: "",
    rule: Rule::Open,
    journal: 100,
    turns: TURNS,
    scripts: &[],
    lists: None,
    then: &[],
    facts: &[],
};

const STORED: Word = Word {
    b0: 0xee,
    b1: 0xdd,
    b2: 0xcc,
    b3: 0xbb,
};

const STORE: Ask = Ask::Store {
    at: 5,
    word: STORED,
    lanes: Lanes(15),
};

const NO_LANE: Ask = Ask::Store {
    at: 0,
    word: STORED,
    lanes: Lanes(0),
};

const ONE_LOAD: [Told; 2] = [Told::Accepted, VALUE];

// The second waits for the value of the first.
const SAME_TAG: [Ask; 2] = [LOAD_5, Ask::Load { tag: 1, at: 9 }];

const TWO_LOADS: [Told; 4] = [Told::Accepted, VALUE, Told::Accepted, VALUE];

/// Port 1 is served while the bank with port 0's word is held.
pub(crate) const HELD_BANK: Run = Run {
    name: "station_on_threads: a held bank",
    rule: Rule::HeldBank,
    journal: 1_000,
    scripts: &[
        &[
            LOAD_5,
            STORE,
            Ask::Load { tag: 2, at: 5 },
            Ask::Evict { block: 1 },
        ],
        &[Ask::Load { tag: 1, at: 8 }],
    ],
    lists: Some(&[
        Tellings::InAnyOrder(&[
            Told::Accepted,
            Told::Accepted,
            Told::Accepted,
            Told::Accepted,
            VALUE,
            Told::Value {
                tag: 2,
                word: STORED,
            },
        ]),
        Tellings::InOrder(&ONE_LOAD),
    ]),
    facts: &[
        Fact::Audit(Audit::Clean),
        Fact::Settled,
        Fact::Word {
            bank: 1,
            place: 2,
            word: STORED,
        },
    ],
    ..RUN
};

/// The tag is in use until the gate lets the first value go.
pub(crate) const OFTEN_REFUSED: Run = Run {
    name: "more refusals than memory is reserved for",
    rule: Rule::HeldUntilRefused,
    journal: 1_000,
    scripts: &[&SAME_TAG, &[]],
    lists: Some(&[
        Tellings::WithRefusals {
            least: 20,
            others: &TWO_LOADS,
        },
        Tellings::InOrder(&[]),
    ]),
    facts: &[Fact::Audit(Audit::Clean)],
    ..RUN
};

const ENDED: Entry = Entry::Ended { port: 0 };

const PREFETCHED: Entry = Entry::Step {
    source: Source::Ask(0),
    event: Event::Prefetch { at: 0 },
    answer: Answer::Accepted,
};

static RUNS: [Run; 12] = [
    Run {
        name: "empty_scripts_on_threads: an empty script",
        scripts: &[&[]],
        lists: Some(&[Tellings::InOrder(&[])]),
        facts: &[
            Fact::Entries(1),
            Fact::First(ENDED),
            Fact::Audit(Audit::Clean),
        ],
        ..RUN
    },
    Run {
        name: "empty_scripts_on_threads: all five threads run at the same time",
        rule: Rule::Meeting,
        scripts: &[&[], &[]],
        lists: Some(&[Tellings::InOrder(&[]), Tellings::InOrder(&[])]),
        facts: &[Fact::Met(5)],
        ..RUN
    },
    Run {
        name: "a part that dwells on its step holds no other one up",
        rule: Rule::Dwelling,
        scripts: &[&[LOAD_5], &[Ask::Load { tag: 1, at: 8 }]],
        lists: Some(&[Tellings::InOrder(&ONE_LOAD), Tellings::InOrder(&ONE_LOAD)]),
        facts: &[Fact::Met(1), Fact::Audit(Audit::Clean)],
        ..RUN
    },
    HELD_BANK,
    OFTEN_REFUSED,
    // The journal has room for the refusals while a bank's thread waits for a processor.
    Run {
        name: "a refused ask is offered again",
        journal: 1_048_576,
        scripts: &[&SAME_TAG],
        lists: Some(&[Tellings::WithRefusals {
            least: 0,
            others: &TWO_LOADS,
        }]),
        ..RUN
    },
    // They are told once, and the script goes on.
    Run {
        name: "refusals that stay",
        scripts: &[&[
            Ask::Load { tag: 1, at: 32 },
            NO_LANE,
            Ask::Evict { block: 3 },
        ]],
        lists: Some(&[Tellings::InOrder(&[
            Told::Refused(Cause::OutOfRange),
            Told::Refused(Cause::NoLanes),
            Told::Refused(Cause::NotPresent),
        ])]),
        ..RUN
    },
    Run {
        name: "turn_limit: a silent bank",
        rule: Rule::Holds(Actor::Bank(0)),
        turns: 100_000,
        scripts: &[&[Ask::Load { tag: 1, at: 0 }]],
        facts: &[Fact::Left],
        ..RUN
    },
    Run {
        name: "turn_limit: no turns",
        turns: 0,
        scripts: &[&[]],
        facts: &[Fact::Entries(0), Fact::Audit(Audit::Clean)],
        ..RUN
    },
    // The prefetch takes the one entry, and Done finds none.
    Run {
        name: "turn_limit: a full journal",
        journal: 1,
        turns: 100_000,
        scripts: &[&[Ask::Prefetch { at: 0 }]],
        then: &[Source::Ask(0)],
        facts: &[Fact::Entries(1), Fact::First(PREFETCHED)],
        ..RUN
    },
    // The port waits for a verdict on its Done.
    Run {
        name: "a script with Done in it comes to no end",
        turns: 1_000,
        scripts: &[&[Ask::Done, Ask::Load { tag: 1, at: 0 }]],
        then: &[Source::Ask(0)],
        facts: &[
            Fact::Entries(1),
            Fact::First(ENDED),
            Fact::Audit(Audit::Clean),
        ],
        ..RUN
    },
    Run {
        name: "each turn asks the gate",
        rule: Rule::Closed,
        turns: 1_001,
        scripts: &[&[Ask::Load { tag: 1, at: 0 }]],
        facts: &[
            Fact::Turns([1_001, 1_001, 0, 1_001, 1_001]),
            Fact::Entries(0),
            Fact::Audit(Audit::Clean),
        ],
        ..RUN
    },
];

fn count_of(list: &[Told], wanted: Told) -> usize {
    list.iter().filter(|told| **told == wanted).count()
}

fn has_each(list: &[Told], wanted: &[Told]) -> bool {
    for told in wanted {
        if count_of(list, *told) != count_of(wanted, *told) {
            return false;
        }
    }
    true
}

fn has_refusals(list: &[Told], least: usize, others: &[Told]) -> bool {
    let refusals = count_of(list, Told::Refused(Cause::TagInUse));
    refusals >= least
        && refusals.checked_add(others.len()) == Some(list.len())
        && list.first() == others.first()
        && list.last() == others.last()
}

fn is_told(list: &[Told], wanted: &Tellings) -> bool {
    match wanted {
        Tellings::InOrder(wanted) => list == *wanted,
        Tellings::InAnyOrder(wanted) => list.len() == wanted.len() && has_each(list, wanted),
        Tellings::WithRefusals { least, others } => {
            has_refusals(list, *least, others) && has_each(list, others)
        }
    }
}

fn are_told(lists: &[Vec<Told>], wanted: &[Tellings]) -> bool {
    for (list, tellings) in lists.iter().zip(wanted) {
        if !is_told(list.as_slice(), tellings) {
            return false;
        }
    }
    lists.len() == wanted.len()
}

fn has_ended(ended: &Result<Vec<Vec<Told>>, RunFault>, run: &Run) -> bool {
    match (ended, run.lists) {
        (Ok(lists), Some(wanted)) => are_told(lists, wanted),
        (Err(fault), None) => *fault == RunFault::TurnLimit,
        _ => false,
    }
}

fn step_on(cache: &mut CacheSide, sources: &[Source])
    ensures { cache_id cache.new ≡ cache_id cache.old }
{
    for source in sources {
        cache.step(*source);
    }
}

#[derive(Clone, Copy)]
struct Behind<'a> {
    cache: &'a CacheSide,
    banks: &'a [BankSide],
    gate: &'a RuledGate,
    found: Audit,
}

impl Behind<'_> {
    fn first_wrong(&self, facts: &[Fact]) -> Option<usize> {
        facts.iter().position(|fact| !self.shows(fact))
    }

    fn shows(&self, fact: &Fact) -> bool {
        match *fact {
            Fact::Audit(wanted) => self.found == wanted,
            Fact::Left => matches!(self.found, Audit::Left { .. }),
            Fact::Entries(count) => self.cache.entries() == count,
            Fact::First(entry) => self.cache.entry(0) == Some(entry),
            Fact::Settled => self.cache.settled(),
            Fact::Word { bank, place, word } => self.word_at(bank, place) == Some(word),
            Fact::Met(actors) => self.gate.met() == actors,
            Fact::Turns(turns) => self.gate.turns() == turns,
        }
    }

    fn word_at(&self, bank: usize, place: u32) -> Option<Word> {
        self.banks.get(bank)?.word(place)
    }
}

/// How a run ended, and what isn't as its row says.
#[derive(Clone, Copy)]
pub(crate) struct Outcome {
    /// Why it came to no end.
    pub(crate) fault: Option<RunFault>,
    /// As the row says.
    pub(crate) has_ended: bool,
    /// The place of the first fact that doesn't hold.
    pub(crate) wrong: Option<usize>,
}

pub(crate) fn make_run<R: Abort + Clock + Threads + Sync>(
    rt: &R,
    alloc: Global,
    run: &Run,
) -> Result<Outcome, MakeFault> {
    let scripts = scripts_of(alloc, run.scripts)?;
    let mut all = station::<1, 4, 2, 2>(alloc, SHAPE, run.ports(), run.journal)?;
    assert_eq!(rt; scripts.len(), all.ports.len());
    Ok(run_row(rt, alloc, &mut all, &scripts, run))
}

fn run_row<R: Clock + Threads + Sync>(
    rt: &R,
    alloc: Global,
    all: &mut Station,
    scripts: &[Vec<Ask>],
    run: &Run,
) -> Outcome
    requires one { AreOneStation all.old.cache all.old.ports.items all.old.banks.items }
    requires scripts { length scripts.now ≡ vec_len all.old.ports }
{
    let gate = RuledGate::new(run.rule);
    let ended = run_threads(rt, alloc, all, scripts, run.turns, &gate);
    step_on(&mut all.cache, run.then);
    let found = audit(&mut all.cache, &mut all.ports, &mut all.banks);
    let behind = Behind {
        cache: &all.cache,
        banks: &all.banks,
        gate: &gate,
        found,
    };
    Outcome {
        fault: ended.as_ref().err().copied(),
        has_ended: has_ended(&ended, run),
        wrong: behind.first_wrong(run.facts),
    }
}

#[test]
fn runs_on_threads(rt: HostRuntime) -> Result<(), Fail> {
    for run in &RUNS {
        let outcome = make_run(&rt, rt.alloc(), run)?;
        assert!(rt; outcome.has_ended, "{}: {:?}", run.name, outcome.fault);
        assert_eq!(rt; outcome.wrong, None, "{}", run.name);
    }
    Ok(())
}
