//! One row: a machine serves all requests, and is counted.

ghost use Rattle.std.specs.Prelude.{◌≡◌, ◌+◌, ◌*◌, ◌^◌, ◌<◌, ◌≤◌, length, true, false, IsTrue, Some};
ghost use Rattle.std.specs.Fmt.{WritesOnOk};
ghost use Rattle.machine_core.specs.Law.{most_weight};
ghost use Rattle.machine_core.specs.Whole.{IsWholeState};
ghost use Rattle.machine_core.specs.AnyMachine.{answered, weight_of, pump_tells};
ghost use Rattle.round_driver.specs.Rounds.{is_end, most_requests};
ghost use Rattle.round_driver.specs.Walks.{is_request};
ghost use Rattle.register_sweeps.specs.Sweep as sweep;
ghost use Rattle.register_sweeps.specs.Sweep.{course, total};
ghost use Rattle.register_sweeps.specs.Lacking.{has_ended, has_no_room, lacks_room, may_make_room};

use crate::room::{is_refused_room, may_make_room};
use flat_model::{Answer, Event};
use machine_core::ShapedMachine;
use round_driver::keeps_whole;
use std::fmt;

// A row's machine weighs less than 2^32.
const MOST_TURNS: u64 = u32::MAX as u64;

/// What was counted with one number of registers.
#[derive(Clone, Copy, PartialEq, Eq, Debug, Default)]
pub struct Row {
    /// Registers of the machine.
    pub regs: u32,
    /// Requests that were accepted.
    pub accepted: u64,
    /// Refused for what no pump changes: no such word, lane or block.
    pub denied: u64,
    /// Not accepted or denied at once.
    pub stalled: u64,
    /// Pumps that stalled requests waited for.
    pub waited: u64,
    /// All pumps that found something to do.
    pub pumps: u64,
    /// Replies that were taken.
    pub values: u64,
}

impl fmt::Display for Row {
    ghost output = { λ row. Some (sweep.row_text row) };

    fn fmt<W: fmt::Write>(&self, f: &mut fmt::Formatter<W>) -> fmt::Result {
        write!(f, "regs {}", self.regs)?;
        self.write_requests(f)?;
        self.write_work(f)
    }
}

fn write_count<W: fmt::Write>(f: &mut fmt::Formatter<W>, name: &str, count: u64) -> fmt::Result
    ensures { WritesOnOk W.write_str_gives f.old result (sweep.count_text name.now count) f.new }
{
    write!(f, " {name} {count}")
}

impl Row {
    fn write_requests<W: fmt::Write>(&self, f: &mut fmt::Formatter<W>) -> fmt::Result
        ensures { WritesOnOk W.write_str_gives f.old result (sweep.requests_text self.now) f.new }
    {
        write_count(f, "accepted", self.accepted)?;
        write_count(f, "denied", self.denied)?;
        write_count(f, "stalled", self.stalled)
    }

    fn write_work<W: fmt::Write>(&self, f: &mut fmt::Formatter<W>) -> fmt::Result
        ensures { WritesOnOk W.write_str_gives f.old result (sweep.work_text self.now) f.new }
    {
        write_count(f, "waited", self.waited)?;
        write_count(f, "pumps", self.pumps)?;
        write_count(f, "values", self.values)
    }

    #[inline(always)]
    fn count_pump(&mut self, told: Option<(Event, Answer)>)
        requires { total self.old < 2 ^ 63 }
        ensures row { self.new ≡ sweep.with_pumped self.old told }
        ensures total { total self.new ≤ total self.old + 2 }
    {
        if let Some((_, answer)) = told {
            self.pumps += 1;
            if let Answer::Value { .. } = answer {
                self.values += 1;
            }
        }
    }

    #[inline(always)]
    fn count_end(&mut self, answer: Answer) -> bool
        requires { total self.old < 2 ^ 63 }
        ensures ends { result ≡ is_end answer }
        ensures row { self.new ≡ sweep.with_end self.old answer }
        ensures total { total self.new ≤ total self.old + 1 }
    {
        match answer {
            Answer::Accepted => {
                self.accepted += 1;
                true
            }
            Answer::Refused(cause) if cause.ends_request() => {
                self.denied += 1;
                true
            }
            _ => false,
        }
    }
}

#[derive(Clone, Copy)]
pub(crate) enum Asked {
    Ended,
    LacksRoom,
    Waits,
}

impl Asked {
    #[inline(always)]
    fn is_ended(self) -> bool
        ensures { result ≡ has_ended self }
    {
        matches!(self, Asked::Ended)
    }

    #[inline(always)]
    fn lacks_room(self) -> bool
        ensures { result ≡ has_no_room self }
    {
        matches!(self, Asked::LacksRoom)
    }
}

#[inline(always)]
#[tactic(auto, unfolding(machine_core::specs::AnyMachine::answered, machine_core::specs::AnyMachine::after_event))]
fn ask(machine: &mut ShapedMachine, row: &mut Row, event: Event) -> Asked
    requires { total row.old < 2 ^ 63 }
    ensures ends { has_ended result ≡ sweep.ends event (course machine.old row.old) }
    ensures course { course machine.new row.new ≡ sweep.ask event (course machine.old row.old) }
    ensures lacks { has_no_room result ≡ true → lacks_room machine.new event ≡ true }
    ensures sizes { machine.new.sizes ≡ machine.old.sizes }
    ensures total { total row.new ≤ total row.old + 1 }
{
    let answer = machine.apply(event);
    if row.count_end(answer) {
        Asked::Ended
    } else if is_refused_room(event, answer) {
        Asked::LacksRoom
    } else {
        Asked::Waits
    }
}

// Pumps, and says whether that may have made room. Called in each turn, it pays for no frame, as
// `ask`.
#[inline(always)]
#[tactic(auto, unfolding(machine_core::specs::AnyMachine::answered, machine_core::specs::AnyMachine::after_event, machine_core::specs::AnyMachine::pump_tells, machine_core::specs::AnyMachine::pump_leaves))]
fn pump_once(machine: &mut ShapedMachine, row: &mut Row) -> bool
    requires { total row.old < 2 ^ 63 }
    ensures room { result ≡ may_make_room (pump_tells machine.old) }
    ensures course { course machine.new row.new ≡ sweep.pump_once (course machine.old row.old) }
    ensures total { total row.new ≤ total row.old + 2 }
{
    let told = machine.pump();
    row.count_pump(told);
    may_make_room(told)
}

// A pump, and then the request is asked, unless it still lacks room: most pumps make none.
#[inline(always)]
fn turn(machine: &mut ShapedMachine, row: &mut Row, event: Event, asked: Asked) -> Asked
    requires room { total row.old + 4 < 2 ^ 63 }
    requires lacks { has_no_room asked ≡ true → lacks_room machine.old event ≡ true }
    ensures ends { has_ended result
        ≡ sweep.ends event (sweep.pump_and_wait (course machine.old row.old)) }
    ensures course { course machine.new row.new
        ≡ sweep.ask event (sweep.pump_and_wait (course machine.old row.old)) }
    ensures lacks { has_no_room result ≡ true → lacks_room machine.new event ≡ true }
    ensures total { total row.new ≤ total row.old + 4 }
{
    let made_room = pump_once(machine, row);
    row.waited += 1;
    if asked.lacks_room() && !made_room {
        return Asked::LacksRoom;
    }
    ask(machine, row, event)
}

fn is_request(event: Event) -> bool
    ensures { result ≡ is_request event }
{
    matches!(
        event,
        Event::Load { .. } | Event::Store { .. } | Event::Prefetch { .. } | Event::Evict { .. }
    )
}

// The most times that a waiting request is asked again: what is on its way, weighed. A whole
// machine needs no weighing: any higher number does the same.
#[tactic(auto, unfolding(machine_core::specs::AnyMachine::weight_of))]
fn most_turns(machine: &ShapedMachine, event: Event) -> u64
    requires few { most_weight machine.now.sizes < 2 ^ 32 }
    requires whole { IsWholeState machine.now }
    requires waits { IsTrue (is_request event) → is_end (answered machine.now event) ≡ false }
    ensures few { result < 2 ^ 32 }
    ensures same { (c : sweep.Course) → c.state ≡ machine.now
        → sweep.ask_again result event c ≡ sweep.ask_again (weight_of c.state) event c }
{
    if is_request(event) {
        MOST_TURNS
    } else {
        machine.weight()
    }
}

fn ask_again(machine: &mut ShapedMachine, row: &mut Row, event: Event, asked: Asked)
    requires few { most_weight machine.old.sizes < 2 ^ 32 }
    requires room { total row.old < 2 ^ 62 }
    requires whole { IsWholeState machine.old }
    requires waits { IsTrue (is_request event) → is_end (answered machine.old event) ≡ false }
    requires lacks { has_no_room asked ≡ true → lacks_room machine.old event ≡ true }
    ensures course { course machine.new row.new
        ≡ sweep.ask_again (weight_of machine.old) event (course machine.old row.old) }
    ensures total { total row.new ≤ total row.old + 2 ^ 34 }
{
    let mut asked = asked;
    for _turn in 0..most_turns(machine, event) {
        asked = turn(machine, row, event, asked);
        if asked.is_ended() {
            return;
        }
    }
}

fn serve(machine: &mut ShapedMachine, row: &mut Row, event: Event)
    requires few { most_weight machine.old.sizes < 2 ^ 32 }
    requires room { total row.old < 2 ^ 61 }
    requires whole { IsWholeState machine.old }
    ensures course { course machine.new row.new ≡ sweep.serve event (course machine.old row.old) }
    ensures total { total row.new ≤ total row.old + 2 ^ 35 }
    ensures whole { IsWholeState machine.new }
    ensures sizes { machine.new.sizes ≡ machine.old.sizes }
{
    let asked = ask(machine, row, event);
    if !asked.is_ended() {
        row.stalled += 1;
        ask_again(machine, row, event, asked);
    }
}

#[tactic(auto, unfolding(machine_core::specs::AnyMachine::weight_of))]
fn run_dry(machine: &mut ShapedMachine, row: &mut Row)
    requires few { most_weight machine.old.sizes < 2 ^ 32 }
    requires room { total row.old < 2 ^ 61 }
    ensures { course machine.new row.new ≡ sweep.run_dry (course machine.old row.old) }
{
    for _turn in 0..machine.weight() {
        let _made_room = pump_once(machine, row);
    }
}

fn count_all(machine: &mut ShapedMachine, regs: u32, events: &[Event]) -> Row
    requires few { most_weight machine.old.sizes < 2 ^ 32 }
    requires events { length events.now ≤ most_requests }
    requires whole { IsWholeState machine.old }
    ensures { result ≡ sweep.row_from machine.old regs events.now }
{
    let mut row = Row::default();
    row.regs = regs;
    for event in events {
        serve(machine, &mut row, *event);
    }
    run_dry(machine, &mut row);
    row
}

pub(crate) fn row_from(machine: &mut ShapedMachine, regs: u32, events: &[Event]) -> Row
    requires few { most_weight machine.old.sizes < 2 ^ 32 }
    requires events { length events.now ≤ most_requests }
    ensures { result ≡ sweep.row_from machine.old regs events.now }
{
    keeps_whole(machine);
    count_all(machine, regs, events)
}
