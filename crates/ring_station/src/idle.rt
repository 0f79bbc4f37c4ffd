//! How a thread spends a turn without a step.
ghost use Rattle.std.specs.Prelude.{◌≡◌};
ghost use Rattle.ring_station.specs.Idle.{turn_of, joint_turn, turn_of_both, turn_beside, idling_from, idling_behind};
ghost use Rattle.ring_station.specs.Idle.{rest_behind, held_rest, idle_rest, nap_of};

use station_parts::Stepped;
use std::hint::spin_loop;
use std::rt::Clock;
use std::thread;
use std::time::Duration;

// A thread that finds nothing yields its processor, but the cache side, for which all others wait, not at once.
const CACHE_TURNS_AT_ONCE: u64 = 1;

// Linux 6.18 takes a slice of time for each yield: seconds, beside a program that never yields.
const TURNS_WITH_A_YIELD: u64 = 16;

// Fewer looks take fewer cache lines from their writers.
const PAUSES: u32 = 4;

const TURNS_A_NAP: u64 = 256;

const CACHE_TURNS_AWAKE: u64 = 256;

// A held thread waits for no other, so it yields and sleeps less.
const HELD_TURNS_A_YIELD: u64 = 128;

const HELD_TURNS_A_NAP: u64 = 1_024;

// In nanoseconds. The system adds some 50,000. On a busy machine the longest sleep makes the turns last.
const FIRST_NAP: u64 = 20_000;

const LONGEST_NAP: u64 = 1_000_000;

#[derive(Clone, Copy)]
pub(crate) enum Turn {
    Moved,
    /// The gate allowed none.
    Held,
    Idle,
}

pub(crate) fn turn_of(stepped: Option<Stepped>) -> Turn
    ensures { result ≡ turn_of stepped }
{
    match stepped {
        None => Turn::Held,
        Some(Stepped::Did) => Turn::Moved,
        Some(_) => Turn::Idle,
    }
}

impl Turn {
    fn with(self, other: Turn) -> Turn
        ensures { result ≡ joint_turn self other }
    {
        match (self, other) {
            (Turn::Moved, _) | (_, Turn::Moved) => Turn::Moved,
            (Turn::Idle, _) | (_, Turn::Idle) => Turn::Idle,
            (Turn::Held, Turn::Held) => Turn::Held,
        }
    }
}

/// Of two parts on one thread; `None` for one whose run is over.
pub(crate) fn turn_of_both(one: Option<Turn>, other: Option<Turn>) -> Option<Turn>
    ensures { result ≡ turn_of_both one other }
{
    match (one, other) {
        (None, turn) | (turn, None) => turn,
        (Some(one), Some(other)) => Some(one.with(other)),
    }
}

pub(crate) fn turn_beside(one: Turn, other: Option<Turn>) -> Turn
    ensures { result ≡ turn_beside one other }
{
    match other {
        Some(other) => one.with(other),
        None => one,
    }
}

#[derive(Clone, Copy)]
enum Rest {
    GoOn,
    Pause,
    Yield,
    // Nanoseconds.
    Sleep(u64),
}

/// Turns in a row without a step.
#[derive(Drop)]
pub(crate) struct Idling {
    held: u64,
    idle: u64,
    // The first, without a pause.
    at_once: u64,
    // Before the first sleep.
    awake: u64,
}

impl Idling {
    pub(crate) fn of_cache() -> Idling
        ensures { result ≡ idling_from CACHE_TURNS_AT_ONCE CACHE_TURNS_AWAKE }
    {
        Idling {
            held: 0,
            idle: 0,
            at_once: CACHE_TURNS_AT_ONCE,
            awake: CACHE_TURNS_AWAKE,
        }
    }

    /// A port's or a bank's.
    pub(crate) fn of_side() -> Idling
        ensures { result ≡ idling_from 0 0 }
    {
        Idling {
            held: 0,
            idle: 0,
            at_once: 0,
            awake: 0,
        }
    }

    pub(crate) fn end_turn<R: Clock>(&mut self, rt: &R, turn: Turn)
        ensures { self.new ≡ idling_behind turn self.old }
    {
        self.note(turn);
        take_rest(rt, self.rest_behind(turn));
    }

    fn note(&mut self, turn: Turn)
        ensures { self.new ≡ idling_behind turn self.old }
    {
        match turn {
            Turn::Moved => {
                self.held = 0;
                self.idle = 0;
            }
            Turn::Held => self.held = self.held.saturating_add(1),
            Turn::Idle => self.idle = self.idle.saturating_add(1),
        }
    }

    fn rest_behind(&self, turn: Turn) -> Rest
        ensures { result ≡ rest_behind turn self.now }
    {
        match turn {
            Turn::Moved => Rest::GoOn,
            Turn::Held => held_rest(self.held),
            Turn::Idle => idle_rest(self.idle, self.at_once, self.awake),
        }
    }
}

fn held_rest(held: u64) -> Rest
    ensures { result ≡ held_rest held }
{
    if held % HELD_TURNS_A_NAP == 0 {
        Rest::Sleep(nap(held / HELD_TURNS_A_NAP))
    } else if held % HELD_TURNS_A_YIELD == 0 {
        Rest::Yield
    } else {
        Rest::GoOn
    }
}

fn idle_rest(idle: u64, at_once: u64, awake: u64) -> Rest
    ensures { result ≡ idle_rest idle at_once awake }
{
    if idle <= at_once {
        Rest::GoOn
    } else if idle > awake && idle % TURNS_A_NAP == 0 {
        Rest::Sleep(nap((idle - awake) / TURNS_A_NAP))
    } else if idle - at_once <= TURNS_WITH_A_YIELD {
        Rest::Yield
    } else {
        Rest::Pause
    }
}

// Nanoseconds.
fn nap(time: u64) -> u64
    ensures { result ≡ nap_of time }
{
    time.saturating_mul(FIRST_NAP).min(LONGEST_NAP)
}

fn take_rest<R: Clock>(rt: &R, rest: Rest) {
    match rest {
        Rest::GoOn => {}
        Rest::Pause => pause(),
        Rest::Yield => thread::yield_now(),
        Rest::Sleep(nanoseconds) => thread::sleep(rt, Duration::from_nanos(nanoseconds)),
    }
}

fn pause() {
    for _pause in 0..PAUSES {
        spin_loop();
    }
}
