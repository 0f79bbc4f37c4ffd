//! Stations stepped by hand. A story is a row: moves, and what comes of each.
ghost use Rattle.std.specs.Prelude.{◌≡◌, vec_len, map};
ghost use Rattle.station_parts.specs.Ids.{port_id, bank_id, cache_id};
ghost use Rattle.station_parts.specs.Station.{AreOneStation};

use super::{LOAD_5, SHAPE, VALUE, ZEROS};
use flat_model::{Cause, Lanes, MakeFault, Word};
use memory_banks::{BankAnswer, Command};
use ring_station::{
    Ask, Audit, BankSide, CacheSide, Port, RawBank, RenewFault, Ring, SideFault, Source, Station,
    Stepped, Told, audit, renew, station,
};
use std::alloc::Global;
use std::process::Abort;
use std::test::Fail;

/// A move, and what has to come of it.
#[derive(Clone, Copy)]
enum Move {
    /// It goes.
    Offer(Ask),
    /// It comes back.
    Back(Ask),
    Take(Option<Told>),
    Did(Source),
    /// No step is made, for this reason.
    DidNot(Source, Stepped),
    /// By its number.
    Serve(usize),
    /// Of the journal.
    Entries(u32),
    Raw(RawMove),
}

/// What is done with a bank served by hand.
#[derive(Clone, Copy)]
enum RawMove {
    /// If there is one.
    Pop(Option<Command>),
    Push(BankAnswer),
    /// It comes back.
    Back(BankAnswer),
}

/// Moves, made `times` times, and what an audit and a renewal find behind them.
#[derive(Clone, Copy)]
struct Stage {
    times: u32,
    moves: &'static [Move],
    audit: Option<Audit>,
    /// Entries handed out, or why none.
    renewal: Option<Result<usize, RenewFault>>,
}

/// What is done with a station of one port.
#[derive(Clone, Copy)]
struct Story {
    name: &'static str,
    /// Entries that it takes.
    journal: u32,
    /// The bank served by hand. Then there are no audits.
    raw: Option<usize>,
    stages: &'static [Stage],
    /// In the end.
    fault: Option<SideFault>,
    /// Whether it has to be, in the end. It may be if this is `false`.
    settled: bool,
}

const ONCE: Stage = Stage {
    times: 1,
    moves: &[],
    audit: None,
    renewal: None,
};

const ACCEPTED: Move = Move::Take(Some(Told::Accepted));

const WORDS_COME: [Move; 8] = [
    Move::Did(Source::Word(0)),
    Move::Did(Source::Stack(0)),
    Move::Did(Source::Word(0)),
    Move::Did(Source::Stack(0)),
    Move::Did(Source::Word(1)),
    Move::Did(Source::Stack(0)),
    Move::Did(Source::Word(1)),
    Move::Did(Source::Stack(0)),
];

const BANKS_SERVE: [Move; 4] = [
    Move::Serve(0),
    Move::Serve(0),
    Move::Serve(1),
    Move::Serve(1),
];

const LOAD: [Stage; 6] = [
    Stage {
        moves: &[Move::Offer(LOAD_5)],
        audit: Some(Audit::Left {
            ring: Ring::Asks(0),
        }),
        ..ONCE
    },
    Stage {
        moves: &[Move::Did(Source::Ask(0))],
        audit: Some(Audit::Left {
            ring: Ring::Told(0),
        }),
        ..ONCE
    },
    Stage {
        moves: &[ACCEPTED],
        audit: Some(Audit::Left {
            ring: Ring::Commands(0),
        }),
        ..ONCE
    },
    Stage {
        moves: &BANKS_SERVE,
        audit: Some(Audit::Left {
            ring: Ring::Answers(0),
        }),
        ..ONCE
    },
    Stage {
        moves: &WORDS_COME,
        audit: Some(Audit::Owed { count: 1 }),
        ..ONCE
    },
    Stage {
        moves: &[Move::Did(Source::Reply(0)), Move::Take(Some(VALUE))],
        audit: Some(Audit::Clean),
        ..ONCE
    },
];

// The first journal has just room for a miss. While something is left or owed it stays. A renewed one is empty,
// the block is still there, and a port that has ended may offer again.
const RENEWED_TWICE: [Stage; 6] = [
    Stage {
        moves: &[Move::Offer(LOAD_5), Move::Did(Source::Ask(0)), ACCEPTED],
        renewal: Some(Err(RenewFault::NotClean(Audit::Left {
            ring: Ring::Commands(0),
        }))),
        ..ONCE
    },
    Stage {
        moves: &BANKS_SERVE,
        ..ONCE
    },
    Stage {
        moves: &WORDS_COME,
        audit: Some(Audit::Owed { count: 1 }),
        renewal: Some(Err(RenewFault::NotClean(Audit::Owed { count: 1 }))),
        ..ONCE
    },
    Stage {
        moves: &[
            Move::Entries(9),
            Move::Did(Source::Reply(0)),
            Move::Take(Some(VALUE)),
            Move::Entries(10),
            Move::DidNot(Source::Drain, Stepped::JournalFull),
        ],
        audit: Some(Audit::Clean),
        renewal: Some(Ok(10)),
        ..ONCE
    },
    Stage {
        moves: &[
            Move::Entries(0),
            Move::Offer(LOAD_5),
            Move::Did(Source::Ask(0)),
            ACCEPTED,
            Move::Did(Source::Reply(0)),
            Move::Take(Some(VALUE)),
            Move::Offer(Ask::Done),
            Move::Did(Source::Ask(0)),
            Move::Back(LOAD_5),
            Move::Entries(3),
        ],
        audit: Some(Audit::Clean),
        renewal: Some(Ok(3)),
        ..ONCE
    },
    Stage {
        moves: &[
            Move::Entries(0),
            Move::Offer(LOAD_5),
            Move::Did(Source::Ask(0)),
            ACCEPTED,
            Move::Did(Source::Reply(0)),
            Move::Take(Some(VALUE)),
            Move::Entries(2),
        ],
        audit: Some(Audit::Clean),
        ..ONCE
    },
];

macro_rules! block_comes {
    ($at:literal) => {
        Stage {
            moves: &[
                Move::Offer(Ask::Prefetch { at: $at }),
                Move::Did(Source::Ask(0)),
                ACCEPTED,
                Move::Serve(0),
                Move::Serve(0),
                Move::Serve(1),
                Move::Serve(1),
                Move::Did(Source::Word(0)),
                Move::Did(Source::Stack(0)),
                Move::Did(Source::Word(0)),
                Move::Did(Source::Stack(0)),
                Move::Did(Source::Word(1)),
                Move::Did(Source::Stack(0)),
                Move::Did(Source::Word(1)),
                Move::Did(Source::Stack(0)),
            ],
            ..ONCE
        }
    };
}

// A ring takes four commands, and a miss sends two: the third miss goes when the cache side looks again.
const THREE_BLOCKS: [Stage; 3] = [block_comes!(0), block_comes!(4), block_comes!(8)];

const FULL_JOURNAL: [Stage; 1] = [Stage {
    moves: &[
        Move::Offer(Ask::Prefetch { at: 0 }),
        Move::Offer(Ask::Prefetch { at: 4 }),
        Move::Did(Source::Ask(0)),
        Move::DidNot(Source::Ask(0), Stepped::JournalFull),
        Move::Take(Some(Told::Accepted)),
        Move::Take(None),
    ],
    ..ONCE
}];

// Its word lies outside of memory.
const OUTSIDE: Ask = Ask::Prefetch { at: 32 };

// 16 places; one that is served makes room.
const FULL_ASKS: [Stage; 2] = [
    Stage {
        times: 16,
        moves: &[Move::Offer(OUTSIDE)],
        ..ONCE
    },
    Stage {
        moves: &[
            Move::Back(OUTSIDE),
            Move::Did(Source::Ask(0)),
            Move::Offer(OUTSIDE),
            Move::Back(OUTSIDE),
        ],
        ..ONCE
    },
];

// 64 places.
const FULL_VERDICTS: [Stage; 2] = [
    Stage {
        times: 64,
        moves: &[Move::Offer(OUTSIDE), Move::Did(Source::Ask(0))],
        ..ONCE
    },
    Stage {
        moves: &[
            Move::Offer(OUTSIDE),
            Move::DidNot(Source::Ask(0), Stepped::Idle),
            Move::Entries(64),
            Move::Take(Some(Told::Refused(Cause::OutOfRange))),
            Move::Did(Source::Ask(0)),
            Move::Offer(Ask::Done),
            Move::Back(Ask::Done),
        ],
        ..ONCE
    },
];

// A stored word is queued to go back. The ring is full of reads: it goes when the cache side looks again.
const FULL_COMMANDS: [Stage; 4] = [
    Stage {
        moves: &[
            Move::Offer(Ask::Store {
                at: 0,
                word: WRONG,
                lanes: Lanes(15),
            }),
            Move::Did(Source::Ask(0)),
            ACCEPTED,
            Move::Serve(0),
            Move::Serve(0),
            Move::Serve(1),
            Move::Serve(1),
        ],
        ..ONCE
    },
    Stage {
        moves: &WORDS_COME,
        ..ONCE
    },
    Stage {
        moves: &[
            Move::Offer(Ask::Evict { block: 0 }),
            Move::Offer(Ask::Prefetch { at: 4 }),
            Move::Offer(Ask::Prefetch { at: 8 }),
            Move::Did(Source::Ask(0)),
            Move::Did(Source::Ask(0)),
            Move::Did(Source::Ask(0)),
            ACCEPTED,
            ACCEPTED,
            ACCEPTED,
        ],
        ..ONCE
    },
    Stage {
        moves: &[
            Move::DidNot(Source::Drain, Stepped::Idle),
            Move::Serve(0),
            Move::Did(Source::Drain),
        ],
        ..ONCE
    },
];

// A ready value goes when the cache side looks again.
const FULL_TELLINGS: [Stage; 5] = [
    Stage {
        moves: &[Move::Offer(LOAD_5), Move::Did(Source::Ask(0)), ACCEPTED],
        ..ONCE
    },
    Stage {
        moves: &BANKS_SERVE,
        ..ONCE
    },
    Stage {
        moves: &WORDS_COME,
        ..ONCE
    },
    Stage {
        times: 64,
        moves: &[Move::Offer(OUTSIDE), Move::Did(Source::Ask(0))],
        ..ONCE
    },
    Stage {
        moves: &[
            Move::DidNot(Source::Reply(0), Stepped::Idle),
            Move::Take(Some(Told::Refused(Cause::OutOfRange))),
            Move::Did(Source::Reply(0)),
        ],
        ..ONCE
    },
];

const UNCALLED: BankAnswer = BankAnswer {
    slot: 0,
    i: 0,
    word: ZEROS,
};

const UNCALLED_WORD: [Stage; 1] = [Stage {
    moves: &[
        Move::Raw(RawMove::Push(UNCALLED)),
        Move::DidNot(Source::Word(0), Stepped::Faulted),
        Move::DidNot(Source::Drain, Stepped::Faulted),
        Move::Entries(0),
    ],
    ..ONCE
}];

// Four places.
const TOO_MANY_ANSWERS: [Stage; 2] = [
    Stage {
        times: 4,
        moves: &[Move::Raw(RawMove::Push(UNCALLED))],
        ..ONCE
    },
    Stage {
        moves: &[
            Move::Raw(RawMove::Back(UNCALLED)),
            Move::DidNot(Source::Word(0), Stepped::Faulted),
        ],
        ..ONCE
    },
];

const WRONG: Word = Word {
    b0: 0xde,
    b1: 0xad,
    b2: 0xbe,
    b3: 0xef,
};

// In the place of word 5.
const WRONG_WORD: BankAnswer = BankAnswer {
    slot: 0,
    i: 1,
    word: WRONG,
};

const FIRST_READ: Command = Command::Read {
    slot: 0,
    i: 1,
    place: 2,
};

const SECOND_READ: Command = Command::Read {
    slot: 0,
    i: 3,
    place: 3,
};

// The wrong word goes to the load. A second one, which nobody waits for, faults the side for good.
const WRONG_ANSWER: [Stage; 3] = [
    Stage {
        moves: &[
            Move::Offer(LOAD_5),
            Move::Did(Source::Ask(0)),
            Move::Take(Some(Told::Accepted)),
            Move::Raw(RawMove::Pop(Some(FIRST_READ))),
            Move::Raw(RawMove::Pop(Some(SECOND_READ))),
            Move::Raw(RawMove::Pop(None)),
            Move::Raw(RawMove::Push(WRONG_WORD)),
        ],
        ..ONCE
    },
    Stage {
        moves: &[
            Move::Did(Source::Word(1)),
            Move::Did(Source::Stack(0)),
            Move::Did(Source::Reply(0)),
            Move::Take(Some(Told::Value {
                tag: 1,
                word: WRONG,
            })),
            Move::Raw(RawMove::Push(WRONG_WORD)),
            Move::DidNot(Source::Word(1), Stepped::Faulted),
            Move::Entries(4),
        ],
        ..ONCE
    },
    Stage {
        moves: &[
            Move::DidNot(Source::Drain, Stepped::Faulted),
            Move::Offer(Ask::Prefetch { at: 0 }),
            Move::Take(None),
        ],
        ..ONCE
    },
];

const STORY: Story = Story {
    name: "",
    journal: 100,
    raw: None,
    stages: &[],
    fault: None,
    settled: false,
};

static STORIES: [Story; 11] = [
    Story {
        name: "station_by_hand: a load, audited at each step",
        stages: &LOAD,
        settled: true,
        ..STORY
    },
    Story {
        name: "a journal, renewed twice",
        journal: 10,
        stages: &RENEWED_TWICE,
        settled: true,
        ..STORY
    },
    Story {
        name: "served commands make room",
        stages: &THREE_BLOCKS,
        settled: true,
        ..STORY
    },
    Story {
        name: "journal_full: a full journal",
        journal: 1,
        stages: &FULL_JOURNAL,
        ..STORY
    },
    Story {
        name: "full_rings: a full ring of asks",
        stages: &FULL_ASKS,
        ..STORY
    },
    Story {
        name: "full_rings: a full ring of verdicts",
        stages: &FULL_VERDICTS,
        ..STORY
    },
    Story {
        name: "full_rings: a full ring of commands",
        stages: &FULL_COMMANDS,
        ..STORY
    },
    Story {
        name: "full_rings: a full ring of tellings",
        stages: &FULL_TELLINGS,
        ..STORY
    },
    Story {
        name: "uncalled_word: an uncalled word",
        raw: Some(0),
        journal: 8,
        stages: &UNCALLED_WORD,
        fault: Some(SideFault::Uncalled { bank: 0 }),
        ..STORY
    },
    Story {
        name: "too_many_answers: an answer too many",
        raw: Some(0),
        journal: 8,
        stages: &TOO_MANY_ANSWERS,
        fault: Some(SideFault::Uncalled { bank: 0 }),
        ..STORY
    },
    Story {
        name: "raw_bank: a wrong answer, and a stray one",
        raw: Some(1),
        stages: &WRONG_ANSWER,
        fault: Some(SideFault::Stray {
            bank: 1,
            slot: 0,
            i: 1,
        }),
        ..STORY
    },
];

// Whether it comes out as it has to.
fn move_raw(raw: &mut Option<RawBank>, it: RawMove) -> bool {
    let Some(bank) = raw else {
        return false;
    };
    match it {
        RawMove::Pop(command) => bank.pop() == command,
        RawMove::Push(answer) => bank.push(answer) == Ok(()),
        RawMove::Back(answer) => bank.push(answer) == Err(answer),
    }
}

fn serve(banks: &mut [BankSide], bank: usize) -> bool
    ensures { map bank_id banks.new ≡ map bank_id banks.old }
{
    if bank >= banks.len() {
        return false;
    }
    banks[bank].step() == Stepped::Did
}

// Whether it comes out as it has to.
fn make_move(
    cache: &mut CacheSide,
    port: &mut Port,
    banks: &mut [BankSide],
    raw: &mut Option<RawBank>,
    it: Move,
) -> bool
    ensures cache { cache_id cache.new ≡ cache_id cache.old }
    ensures port { port_id port.new ≡ port_id port.old }
    ensures banks { map bank_id banks.new ≡ map bank_id banks.old }
{
    match it {
        Move::Offer(ask) => port.offer(ask) == Ok(()),
        Move::Back(ask) => port.offer(ask) == Err(ask),
        Move::Take(told) => port.take() == told,
        Move::Did(source) => cache.step(source) == Stepped::Did,
        Move::DidNot(source, why) => cache.step(source) == why,
        Move::Serve(bank) => serve(banks, bank),
        Move::Entries(count) => cache.entries() == count,
        Move::Raw(raw_move) => move_raw(raw, raw_move),
    }
}

// Up to the first that comes out otherwise.
fn make_moves(
    cache: &mut CacheSide,
    port: &mut Port,
    banks: &mut [BankSide],
    raw: &mut Option<RawBank>,
    moves: &[Move],
) -> bool
    ensures cache { cache_id cache.new ≡ cache_id cache.old }
    ensures port { port_id port.new ≡ port_id port.old }
    ensures banks { map bank_id banks.new ≡ map bank_id banks.old }
{
    for it in moves {
        if !make_move(cache, port, banks, raw, *it) {
            return false;
        }
    }
    true
}

fn make_stage(
    cache: &mut CacheSide,
    port: &mut Port,
    banks: &mut [BankSide],
    raw: &mut Option<RawBank>,
    stage: &Stage,
) -> bool
    ensures cache { cache_id cache.new ≡ cache_id cache.old }
    ensures port { port_id port.new ≡ port_id port.old }
    ensures banks { map bank_id banks.new ≡ map bank_id banks.old }
{
    for _time in 0..stage.times {
        if !make_moves(cache, port, banks, raw, stage.moves) {
            return false;
        }
    }
    true
}

fn is_audited(
    cache: &mut CacheSide,
    ports: &mut [Port],
    banks: &mut [BankSide],
    wanted: Option<Audit>,
) -> bool
    requires { AreOneStation cache.old ports.old banks.old }
    ensures cache { cache_id cache.new ≡ cache_id cache.old }
    ensures ports { map port_id ports.new ≡ map port_id ports.old }
    ensures banks { map bank_id banks.new ≡ map bank_id banks.old }
{
    match wanted {
        Some(found) => audit(cache, ports, banks) == found,
        None => true,
    }
}

fn is_renewed(
    alloc: Global,
    cache: &mut CacheSide,
    ports: &mut [Port],
    banks: &mut [BankSide],
    wanted: Option<Result<usize, RenewFault>>,
) -> bool
    requires { AreOneStation cache.old ports.old banks.old }
    ensures cache { cache_id cache.new ≡ cache_id cache.old }
    ensures ports { map port_id ports.new ≡ map port_id ports.old }
    ensures banks { map bank_id banks.new ≡ map bank_id banks.old }
{
    let Some(wanted) = wanted else {
        return true;
    };
    match renew(alloc, cache, ports, banks) {
        Ok(segment) => wanted == Ok(segment.len()),
        Err(fault) => wanted == Err(fault),
    }
}

fn make_audited(alloc: Global, station: &mut Station, stage: &Stage) -> bool
    requires one { AreOneStation station.old.cache station.old.ports.items station.old.banks.items }
    requires ports { vec_len station.old.ports ≡ 1 }
    ensures one { AreOneStation station.new.cache station.new.ports.items station.new.banks.items }
    ensures ports { vec_len station.new.ports ≡ 1 }
{
    let Station {
        cache,
        ports,
        banks,
    } = station;
    let did = make_stage(cache, &mut ports[0], banks, &mut None, stage);
    did && is_audited(cache, ports, banks, stage.audit)
        && is_renewed(alloc, cache, ports, banks, stage.renewal)
}

fn walk(rt: &impl Abort, alloc: Global, station: &mut Station, story: &Story)
    requires one { AreOneStation station.old.cache station.old.ports.items station.old.banks.items }
    requires ports { vec_len station.old.ports ≡ 1 }
{
    for stage in story.stages {
        assert!(rt; make_audited(alloc, station, stage), "{}", story.name);
    }
}

fn walk_raw(rt: &impl Abort, station: &mut Station, bank: usize, story: &Story)
    requires { vec_len station.old.ports ≡ 1 }
{
    let Station {
        cache,
        ports,
        banks,
    } = station;
    let port = &mut ports[0];
    assert!(rt; bank < banks.len(), "{}", story.name);
    let mut raw = Some(banks.remove(bank).into_raw());
    for stage in story.stages {
        let did = make_stage(cache, port, banks, &mut raw, stage);
        assert!(rt; did, "{}", story.name);
    }
}

// The cache side's fault, and whether it is settled.
fn end_of(
    rt: &impl Abort,
    alloc: Global,
    story: &Story,
) -> Result<(Option<SideFault>, bool), MakeFault> {
    let mut all = station::<1, 4, 2, 2>(alloc, SHAPE, 1, story.journal)?;
    match story.raw {
        None => walk(rt, alloc, &mut all, story),
        Some(bank) => walk_raw(rt, &mut all, bank, story),
    }
    Ok((all.cache.fault(), all.cache.settled()))
}

#[test]
fn stations_by_hand(rt: HostRuntime) -> Result<(), Fail> {
    for story in &STORIES {
        let (fault, settled) = end_of(&rt, rt.alloc(), story)?;
        assert_eq!(rt; fault, story.fault, "{}", story.name);
        assert!(rt; settled || !story.settled, "{}", story.name);
    }
    Ok(())
}
