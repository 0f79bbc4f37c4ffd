//! A tour: a plan's ports on threads over one cache, and their story. A long one is cut
//! into segments; behind each the station is renewed.

ghost use Rattle.std.specs.Prelude.{◌≡◌, ◌≤◌, ◌-◌, ◌/◌, max, min, true, length, vec_len, is_some, Some, IfOk, OnOk, IfNone};
ghost use Rattle.std.specs.Io.KnownBytes.{Appends};
ghost use Rattle.flat_model.specs.Memory.{shown};
ghost use Rattle.station_parts.specs.declared.parts.Audit.TheVariants.{Clean};
ghost use Rattle.station_parts.specs.Station.{AreOneStation};
ghost use Rattle.station_checks.specs.Checks.{flat_after, FindsTold};
ghost use Rattle.station_checks.specs.Drawn.{ports_of, left_of};
ghost use Rattle.station_checks.specs.Stories.{findings_text};
ghost use Rattle.station_tour.specs.Asked.{asks_in};
ghost use Rattle.station_tour.specs.Shown.{EndsIn, GoesOn, IsNoted, begin_text, journal_text, course_text, end_text};

use crate::crew::crew_of;
use crate::fault::StationFault;
use crate::patience::PatientGate;
use flat_model::FlatMemory;
use ring_station::{Ask, Audit, Crew, Entry, Segment, Station, run_and_renew, station};
use station_checks::{
    BLOCK_WORDS, DEPTH, ENTRIES, Findings, Outcome, Plan, REGS, ScriptParts, Tally, WAYS, WORDS,
    shape, tell_findings, tell_journal, tell_ports, tell_progress, tell_run,
};
use std::alloc::{AllocError, Global};
use std::io;
use std::io::Write;
use std::rt::Clock;
use std::thread::Threads;
use std::time::{Duration, Instant};

// A run uses them up only if its journal is full, and then in some minutes.
const TURNS: u64 = 100_000_000;

// Turns before a refused ask is offered again: each offer too early fills the journal.
const PATIENCE: u32 = 200;

// Asks of all ports between two renewals. The journal takes 64 entries for each; an ask makes four
// to six. So there is room for many offered again on a busy machine.
const ASKS_OF_A_SEGMENT: u32 = 16_384;

const NOTHING_WRONG: Findings = Findings {
    audit: Audit::Clean,
    is_flat: true,
    are_told: Some(true),
};

/// What is written beside what changes from run to run.
#[derive(Clone, Copy)]
pub(crate) struct Pages {
    /// What ports were told, and what the audit found.
    pub(crate) story: bool,
    /// The journal, as a recorded run.
    pub(crate) journal: bool,
    pub(crate) progress: bool,
}

#[derive(Drop)]
struct Setting {
    plan: Plan,
    pages: Pages,
    crew: Crew,
    gate: PatientGate,
}

// How far a tour is.
#[derive(Drop)]
struct Course {
    // What is still to be asked.
    parts: ScriptParts,
    // Memory behind the journals so far.
    memory: FlatMemory,
    tally: Tally,
    // How long the threads ran.
    took: Duration,
}

impl Course {
    // Before the first segment.
    fn new(alloc: Global, plan: &Plan) -> Result<Course, AllocError>
        ensures ports { IfOk result (λ course. ports_of course.parts ≡ plan.now.ports) }
        ensures left { IfOk result (λ course. left_of course.parts ≡ plan.now.asks) }
    {
        Ok(Course {
            parts: ScriptParts::new(alloc, plan)?,
            memory: FlatMemory::zeros(alloc, WORDS)?,
            tally: Tally::new(),
            took: Duration::ZERO,
        })
    }
}

/// Runs the ports, and tells of it. The findings are the last segment's. It is the first where an
/// audit isn't clean, the journal isn't flat, or a port's list isn't the journal's part of it; else
/// the one that leaves no ask. A plan without an ask has none.
pub(crate) fn tour<R: AllocGlobal + Clock + Threads + Sync, S: Write, J: Write, E: Write>(
    rt: &R,
    story: &mut S,
    journal: &mut J,
    errors: &mut E,
    plan: &Plan,
    threads: u32,
    pages: Pages,
) -> Result<Findings, StationFault>
    ensures { IfOk result (λ found. pages.story ≡ true → 1 ≤ plan.now.asks
        → EndsIn (S.contents story.old) (S.contents story.new) (findings_text found)) }
{
    let alloc = rt.alloc();
    let setting = Setting {
        plan: *plan,
        pages,
        crew: crew_of(threads, plan.ports, shape().banks),
        gate: PatientGate::new(alloc, PATIENCE)?,
    };
    let mut course = Course::new(alloc, plan)?;
    let mut station = station::<WAYS, BLOCK_WORDS, REGS, DEPTH>(
        alloc,
        shape(),
        plan.ports,
        ENTRIES,
    )?;
    tour_segments(
        rt,
        story,
        journal,
        errors,
        &setting,
        &mut station,
        &mut course,
    )
}

#[tactic(auto, using(crate::proofs::Showing::grown_by_none))]
fn tour_segments<R: AllocGlobal + Clock + Threads + Sync, S: Write, J: Write, E: Write>(
    rt: &R,
    story: &mut S,
    journal: &mut J,
    errors: &mut E,
    setting: &Setting,
    station: &mut Station,
    course: &mut Course,
) -> Result<Findings, StationFault>
    requires one { AreOneStation station.old.cache station.old.ports.items station.old.banks.items }
    requires ports { vec_len station.old.ports ≡ setting.now.plan.ports }
    requires parts { ports_of course.old.parts ≡ setting.now.plan.ports }
    requires left { left_of course.old.parts ≡ setting.now.plan.asks }
    ensures { IfOk result (λ found. setting.now.pages.story ≡ true → 1 ≤ setting.now.plan.asks
        → EndsIn (S.contents story.old) (S.contents story.new) (findings_text found)) }
{
    for _segment in 0..setting.plan.asks {
        let end = tour_segment(rt, story, journal, errors, setting, station, course)?;
        if let Some(findings) = end {
            return Ok(findings);
        }
    }
    Ok(NOTHING_WRONG)
}

// Runs the next asks, and tells of them; findings if they are the last.
fn tour_segment<R: AllocGlobal + Clock + Threads + Sync, S: Write, J: Write, E: Write>(
    rt: &R,
    story: &mut S,
    journal: &mut J,
    errors: &mut E,
    setting: &Setting,
    station: &mut Station,
    course: &mut Course,
) -> Result<Option<Findings>, StationFault>
    requires one { AreOneStation station.old.cache station.old.ports.items station.old.banks.items }
    requires ports { vec_len station.old.ports ≡ setting.now.plan.ports }
    requires parts { ports_of course.old.parts ≡ setting.now.plan.ports }
    ensures one { AreOneStation station.new.cache station.new.ports.items station.new.banks.items }
    ensures ports { vec_len station.new.ports ≡ vec_len station.old.ports }
    ensures parts { ports_of course.new.parts ≡ ports_of course.old.parts }
    ensures fewer { left_of course.new.parts ≤ left_of course.old.parts - 1 }
    ensures more { IfOk result (λ end. IfNone end (1 ≤ left_of course.new.parts)) }
    ensures told { IfOk result (λ end.
        GoesOn setting.now.pages.story (S.contents story.old) (S.contents story.new) end) }
{
    let scripts = course
        .parts
        .next(rt.alloc(), asks_of_a_port(&setting.plan))?;
    let segment = run_segment(rt, station, &scripts, setting, course)?;
    look_and_tell(
        rt.alloc(),
        story,
        journal,
        errors,
        setting,
        &scripts,
        &segment,
        course,
    )
}

// Looks at a segment and tells; findings if it is the last.
#[tactic(auto, using(crate::proofs::Showing::goes_on))]
fn look_and_tell<S: Write, J: Write, E: Write>(
    alloc: Global,
    story: &mut S,
    journal: &mut J,
    errors: &mut E,
    setting: &Setting,
    scripts: &[Vec<Ask>],
    segment: &Segment,
    course: &mut Course,
) -> Result<Option<Findings>, StationFault>
    ensures parts { course.new.parts ≡ course.old.parts }
    ensures more { IfOk result (λ end. IfNone end (1 ≤ left_of course.new.parts)) }
    ensures told { IfOk result (λ end.
        GoesOn setting.now.pages.story (S.contents story.old) (S.contents story.new) end) }
{
    tell_begin(
        story,
        setting.pages,
        &setting.plan,
        scripts,
        segment,
        course,
    )?;
    let findings = look_at(alloc, scripts, segment, course)?;
    tell_behind(
        story,
        journal,
        errors,
        setting.pages,
        segment,
        course,
        findings,
    )
}

#[tactic(auto, using(crate::proofs::Showing::grown_by_none, crate::proofs::Showing::ends_in))]
fn tell_behind<S: Write, J: Write, E: Write>(
    story: &mut S,
    journal: &mut J,
    errors: &mut E,
    pages: Pages,
    segment: &Segment,
    course: &Course,
    findings: Findings,
) -> Result<Option<Findings>, StationFault>
    ensures more { IfOk result (λ end. IfNone end (1 ≤ left_of course.now.parts)) }
    ensures told { IfOk result (λ end. GoesOn pages.story (S.contents story.old) (S.contents story.new) end) }
{
    tell_segment(journal, errors, pages, segment, course)?;
    if course.parts.left() > 0 && findings.outcome() == Outcome::Good {
        return Ok(None);
    }
    tell_end(story, errors, pages, segment, course, &findings)?;
    Ok(Some(findings))
}

// Tells what came of the first asks, in the first segment.
fn tell_begin<S: Write>(
    story: &mut S,
    pages: Pages,
    plan: &Plan,
    scripts: &[Vec<Ask>],
    segment: &Segment,
    course: &Course,
) -> io::Result<()>
    ensures { OnOk result (Appends (S.contents story.old) (S.contents story.new)
        (begin_text pages.story course.now.tally.segments plan.now scripts.now segment.now.lists.items)) }
{
    if pages.story && course.tally.segments == 0 {
        tell_ports(story, plan, scripts, &segment.lists)?;
    }
    Ok(())
}

// A port's asks between two renewals.
fn asks_of_a_port(plan: &Plan) -> u32
    ensures { result ≡ max (ASKS_OF_A_SEGMENT / plan.now.ports) 1 }
{
    (ASKS_OF_A_SEGMENT / plan.ports).max(1)
}

#[tactic(auto, using(crate::proofs::Counting::as_many))]
fn run_segment<R: AllocGlobal + Clock + Threads + Sync>(
    rt: &R,
    station: &mut Station,
    scripts: &[Vec<Ask>],
    setting: &Setting,
    course: &mut Course,
) -> Result<Segment, StationFault>
    requires one { AreOneStation station.old.cache station.old.ports.items station.old.banks.items }
    requires ports { length scripts.now ≡ vec_len station.old.ports }
    ensures one { AreOneStation station.new.cache station.new.ports.items station.new.banks.items }
    ensures ports { vec_len station.new.ports ≡ vec_len station.old.ports }
    ensures parts { course.new.parts ≡ course.old.parts }
{
    let Setting { crew, gate, .. } = setting;
    let begun = Instant::now(rt)?;
    let segment = run_and_renew(rt, rt.alloc(), station, scripts, TURNS, *crew, gate)?;
    course.took = course.took.saturating_add(begun.elapsed(rt)?);
    Ok(segment)
}

// Looks at a segment, and counts it. Its audit was clean if it was handed out.
fn look_at(
    alloc: Global,
    scripts: &[Vec<Ask>],
    segment: &Segment,
    course: &mut Course,
) -> Result<Findings, AllocError>
    ensures audit { IfOk result (λ found. found.audit ≡ Clean) }
    ensures flat { IfOk result (λ found. found.is_flat
        ≡ is_some (flat_after (shown course.old.memory) segment.now.journal.items)) }
    ensures moved { IfOk result (λ found. found.is_flat ≡ true
        → flat_after (shown course.old.memory) segment.now.journal.items ≡ Some (shown course.new.memory)) }
    ensures told { IfOk result (λ found. FindsTold segment.now.journal.items (Some segment.now.lists.items) found.are_told) }
    ensures tally { IsNoted course.old.tally scripts.now segment.now course.new.tally }
    ensures took { course.new.took ≡ course.old.took }
    ensures parts { course.new.parts ≡ course.old.parts }
{
    course
        .tally
        .note(asks_in(scripts), &segment.lists, &segment.journal);
    Findings::of_segment(
        alloc,
        Audit::Clean,
        &segment.journal,
        &mut course.memory,
        &segment.lists,
    )
}

fn asks_in(scripts: &[Vec<Ask>]) -> u64
    ensures { result ≡ min (asks_in scripts.now) u64.MAX }
{
    let mut asks: u64 = 0;
    for script in scripts {
        asks = asks.saturating_add(script.len() as u64);
    }
    asks
}

fn tell_segment<J: Write, E: Write>(
    journal: &mut J,
    errors: &mut E,
    pages: Pages,
    segment: &Segment,
    course: &Course,
) -> Result<(), StationFault>
    ensures { OnOk result (Appends (J.contents journal.old) (J.contents journal.new)
        (journal_text pages.journal segment.now.journal.items)) }
{
    match tell_entries(journal, pages, &segment.journal) {
        Ok(()) => Ok(tell_course(errors, pages, course)?),
        Err(fault) => Err(StationFault::Journal(fault)),
    }
}

fn tell_entries<J: Write>(journal: &mut J, pages: Pages, entries: &[Entry]) -> io::Result<()>
    ensures { OnOk result (Appends (J.contents journal.old) (J.contents journal.new)
        (journal_text pages.journal entries.now)) }
{
    if pages.journal {
        tell_journal(journal, entries)?;
    }
    Ok(())
}

fn tell_course<E: Write>(errors: &mut E, pages: Pages, course: &Course) -> io::Result<()>
    ensures { OnOk result (Appends (E.contents errors.old) (E.contents errors.new)
        (course_text pages.progress course.now.tally course.now.took)) }
{
    if pages.progress {
        tell_progress(errors, &course.tally, course.took)?;
    }
    Ok(())
}

fn tell_end<S: Write, E: Write>(
    story: &mut S,
    errors: &mut E,
    pages: Pages,
    segment: &Segment,
    course: &Course,
    findings: &Findings,
) -> io::Result<()>
    ensures { OnOk result (Appends (S.contents story.old) (S.contents story.new)
        (end_text pages.story findings.now)) }
{
    tell_story_end(story, pages, findings)?;
    tell_line_end(errors, pages)?;
    tell_run(errors, &course.tally, &segment.journal, course.took)
}

// Ends the story with what was found.
fn tell_story_end<S: Write>(story: &mut S, pages: Pages, findings: &Findings) -> io::Result<()>
    ensures { OnOk result (Appends (S.contents story.old) (S.contents story.new)
        (end_text pages.story findings.now)) }
{
    if pages.story {
        tell_findings(story, findings)?;
    }
    story.flush()
}

fn tell_line_end<E: Write>(errors: &mut E, pages: Pages) -> io::Result<()> {
    if pages.progress {
        writeln!(errors)?;
    }
    Ok(())
}
