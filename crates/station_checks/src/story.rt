//! The texts of a run.
ghost use Rattle.std.specs.Prelude.{◌≡◌, ◌+◌, length, min, take, drop, flat_map, OnOk};
ghost use Rattle.std.specs.List.{slice_get};
ghost use Rattle.std.specs.Io.KnownBytes.{Appends};
ghost use Rattle.station_parts.specs.Runs.{list_in};
ghost use Rattle.station_checks.specs.Counts.{again_in, is_asked_again};
ghost use Rattle.station_checks.specs.PortTexts.{ends_ask, final_verdicts, is_value_under, value_under, load_text, ask_line, asks_text};
ghost use Rattle.station_checks.specs.PortTexts.{plan_text, port_line, more_text, port_text, each_port_text, ports_text};
ghost use Rattle.station_checks.specs.Stories.{story_text, findings_text, audit_line, flat_text, recorded_text};
ghost use Rattle.station_checks.specs.Stories.{rate_of, progress_text, length_text, last_of, shown_text, again_text, rate_text, run_text};

use crate::findings::Findings;
use crate::lines::{AskText, AuditText, EntryText, ToldText};
use crate::plan::Plan;
use station_journal::{Ask, Entry, Told};
use station_parts::Audit;
use std::io::{self, Write};
use std::time::Duration;

// Asks of a port, and entries, that are shown.
const SHOWN: usize = 12;

/// What no schedule changes: what came of each ask, what the audit found, and whether the journal is flat.
pub fn tell_story<W: Write>(
    out: &mut W,
    plan: &Plan,
    scripts: &[Vec<Ask>],
    lists: &[Vec<Told>],
    findings: &Findings,
) -> io::Result<()>
    ensures { OnOk result (Appends (W.contents out.old) (W.contents out.new)
        (story_text plan.now scripts.now lists.now findings.now)) }
{
    tell_ports(out, plan, scripts, lists)?;
    tell_findings(out, findings)
}

/// What came of each port's first asks, and how many more the plan has.
pub fn tell_ports<W: Write>(
    out: &mut W,
    plan: &Plan,
    scripts: &[Vec<Ask>],
    lists: &[Vec<Told>],
) -> io::Result<()>
    ensures { OnOk result (Appends (W.contents out.old) (W.contents out.new)
        (ports_text plan.now scripts.now lists.now)) }
{
    tell_plan(out, plan)?;
    tell_each_port(out, plan.asks, scripts, lists)?;
    writeln!(out)
}

fn tell_plan<W: Write>(out: &mut W, plan: &Plan) -> io::Result<()>
    ensures { OnOk result (Appends (W.contents out.old) (W.contents out.new) (plan_text plan.now)) }
{
    let Plan { ports, asks, seed } = *plan;
    writeln!(out, "{ports} ports, {asks} asks each, seed {seed}")
}

fn tell_each_port<W: Write>(
    out: &mut W,
    asks: u32,
    scripts: &[Vec<Ask>],
    lists: &[Vec<Told>],
) -> io::Result<()>
    ensures { OnOk result (Appends (W.contents out.old) (W.contents out.new)
        (each_port_text asks scripts.now lists.now)) }
{
    for (port, script) in scripts.iter().enumerate() {
        tell_port(out, port, asks, script, list_of(lists, port))?;
    }
    Ok(())
}

fn list_of(lists: &[Vec<Told>], port: usize) -> &[Told]
    ensures { result.now ≡ list_in lists.now port }
{
    match lists.get(port) {
        Some(list) => list,
        None => &[],
    }
}

fn tell_port<W: Write>(
    out: &mut W,
    port: usize,
    asks: u32,
    script: &[Ask],
    list: &[Told],
) -> io::Result<()>
    ensures { OnOk result (Appends (W.contents out.old) (W.contents out.new)
        (port_text port asks script.now list.now)) }
{
    tell_port_line(out, port)?;
    tell_asks(out, script, list)?;
    tell_more(out, asks)
}

fn tell_port_line<W: Write>(out: &mut W, port: usize) -> io::Result<()>
    ensures { OnOk result (Appends (W.contents out.old) (W.contents out.new) (port_line port)) }
{
    writeln!(out, "\nport {port}")
}

fn tell_more<W: Write>(out: &mut W, asks: u32) -> io::Result<()>
    ensures { OnOk result (Appends (W.contents out.old) (W.contents out.new) (more_text asks)) }
{
    if asks as usize > SHOWN {
        writeln!(out, "  and {} more", asks as usize - SHOWN)?;
    }
    Ok(())
}

/// What the audit found, and whether the journal is flat.
pub fn tell_findings<W: Write>(out: &mut W, findings: &Findings) -> io::Result<()>
    ensures { OnOk result (Appends (W.contents out.old) (W.contents out.new) (findings_text findings.now)) }
{
    tell_audit(out, findings.audit)?;
    tell_judged(out, findings.is_flat)
}

fn tell_audit<W: Write>(out: &mut W, audit: Audit) -> io::Result<()>
    ensures { OnOk result (Appends (W.contents out.old) (W.contents out.new) (audit_line audit)) }
{
    match audit {
        Audit::Clean => writeln!(
            out,
            "audit: clean, nothing is left in a ring and nothing is owed"
        ),
        found => writeln!(out, "audit: {}", AuditText(found)),
    }
}

fn tell_judged<W: Write>(out: &mut W, is_flat: bool) -> io::Result<()>
    ensures { OnOk result (Appends (W.contents out.old) (W.contents out.new) (flat_text is_flat)) }
{
    if is_flat {
        writeln!(out, "journal: flat")
    } else {
        writeln!(out, "journal: not flat")
    }
}

fn tell_asks<W: Write>(out: &mut W, script: &[Ask], list: &[Told]) -> io::Result<()>
    ensures { OnOk result (Appends (W.contents out.old) (W.contents out.new) (asks_text script.now list.now)) }
{
    let asks = first_asks(script);
    let mut rest = list;
    for ask in asks {
        let (verdict, behind) = next_verdict(rest);
        tell_ask(out, list, *ask, verdict)?;
        rest = behind;
    }
    Ok(())
}

fn first_asks(script: &[Ask]) -> &[Ask]
    ensures { result.now ≡ take SHOWN script.now }
{
    &script[..script.len().min(SHOWN)]
}

// The first verdict behind which the port goes on, and the rest.
fn next_verdict(list: &[Told]) -> (Option<Told>, &[Told])
    ensures first { result.0 ≡ slice_get (final_verdicts list.now) 0 }
    ensures rest { final_verdicts result.1.now ≡ drop 1 (final_verdicts list.now) }
{
    for (place, told) in list.iter().enumerate() {
        if ends_ask(*told) {
            return (Some(*told), &list[place + 1..]);
        }
    }
    (None, &[])
}

fn tell_ask<W: Write>(out: &mut W, list: &[Told], ask: Ask, verdict: Option<Told>) -> io::Result<()>
    ensures { OnOk result (Appends (W.contents out.old) (W.contents out.new) (ask_line list.now ask verdict)) }
{
    match (ask, verdict) {
        (Ask::Load { tag, .. }, Some(Told::Accepted)) => {
            tell_load(out, ask, value_under(list, tag))
        }
        // Whether the block is there depends on the other ports.
        (Ask::Evict { .. }, Some(_)) => writeln!(out, "  {} -> done", AskText(ask)),
        (_, Some(told)) => writeln!(out, "  {} -> {}", AskText(ask), ToldText(told)),
        (_, None) => writeln!(out, "  {} -> no verdict", AskText(ask)),
    }
}

fn tell_load<W: Write>(out: &mut W, ask: Ask, value: Option<Told>) -> io::Result<()>
    ensures { OnOk result (Appends (W.contents out.old) (W.contents out.new) (load_text ask value)) }
{
    match value {
        Some(Told::Value { word, .. }) => writeln!(out, "  {} -> {word}", AskText(ask)),
        _ => writeln!(out, "  {} -> no value", AskText(ask)),
    }
}

fn ends_ask(told: Told) -> bool
    ensures { result ≡ ends_ask told }
{
    match told {
        Told::Accepted => true,
        Told::Refused(cause) => !cause.passes(),
        Told::Value { .. } => false,
    }
}

fn value_under(list: &[Told], tag: u8) -> Option<Told>
    ensures { result ≡ value_under tag list.now }
{
    list.iter().copied().find(|told| is_value_under(*told, tag))
}

fn is_value_under(told: Told, tag: u8) -> bool
    ensures { result ≡ is_value_under tag told }
{
    match told {
        Told::Value { tag: under, .. } => under == tag,
        Told::Accepted | Told::Refused(_) => false,
    }
}

/// What a run in segments came to so far.
#[derive(Clone, Copy, PartialEq, Eq, Debug)]
pub struct Tally {
    /// Handed out, each behind a clean audit.
    pub segments: u64,
    /// Answered for good, of all ports.
    pub asks: u64,
    /// Of all segments.
    pub entries: u64,
    /// Offers made again.
    pub again: u64,
}

impl Tally {
    /// Before the first segment.
    pub fn new() -> Tally
        ensures { result ≡ record { segments = 0; asks = 0; entries = 0; again = 0 } }
    {
        Tally {
            segments: 0,
            asks: 0,
            entries: 0,
            again: 0,
        }
    }

    /// Counts one segment more, of `asks` asks. No count goes beyond the largest number.
    pub fn note(&mut self, asks: u64, lists: &[Vec<Told>], journal: &[Entry])
        ensures segments { self.new.segments ≡ min (self.old.segments + 1) u64.MAX }
        ensures asks { self.new.asks ≡ min (self.old.asks + asks) u64.MAX }
        ensures entries { self.new.entries ≡ min (self.old.entries + length journal.now) u64.MAX }
        ensures again { self.new.again ≡ min (self.old.again + again_in lists.now) u64.MAX }
    {
        self.segments = self.segments.saturating_add(1);
        self.asks = self.asks.saturating_add(asks);
        self.entries = self.entries.saturating_add(journal.len() as u64);
        self.again = self.again.saturating_add(offered_again(lists));
    }
}

/// How far a run is, in place of the line before.
pub fn tell_progress<W: Write>(out: &mut W, tally: &Tally, took: Duration) -> io::Result<()>
    ensures { OnOk result (Appends (W.contents out.old) (W.contents out.new) (progress_text tally.now took)) }
{
    let Tally { segments, asks, .. } = *tally;
    let rate = per_second(asks, took);
    write!(
        out,
        "\r{asks} asks, {rate} asks per second, {segments} segments, {segments} audits clean"
    )?;
    out.flush()
}

/// What differs from run to run: the journal's end, repeated offers, and asks a second.
pub fn tell_run<W: Write>(
    out: &mut W,
    tally: &Tally,
    journal: &[Entry],
    took: Duration,
) -> io::Result<()>
    ensures { OnOk result (Appends (W.contents out.old) (W.contents out.new) (run_text tally.now journal.now took)) }
{
    tell_length(out, tally.entries)?;
    tell_entries(out, last_entries(journal))?;
    tell_again(out, tally.again)?;
    tell_rate(out, per_second(tally.asks, took))
}

fn tell_length<W: Write>(out: &mut W, entries: u64) -> io::Result<()>
    ensures { OnOk result (Appends (W.contents out.old) (W.contents out.new) (length_text entries)) }
{
    writeln!(out, "the journal has {entries} entries, and ends with")
}

fn last_entries(journal: &[Entry]) -> &[Entry]
    ensures { result.now ≡ last_of journal.now }
{
    &journal[journal.len().saturating_sub(SHOWN)..]
}

fn tell_entries<W: Write>(out: &mut W, entries: &[Entry]) -> io::Result<()>
    ensures { OnOk result
        (Appends (W.contents out.old) (W.contents out.new) (flat_map shown_text entries.now)) }
{
    for entry in entries {
        writeln!(out, "  {}", EntryText(*entry))?;
    }
    Ok(())
}

fn tell_again<W: Write>(out: &mut W, again: u64) -> io::Result<()>
    ensures { OnOk result (Appends (W.contents out.old) (W.contents out.new) (again_text again)) }
{
    writeln!(out, "{again} asks were offered again")
}

fn tell_rate<W: Write>(out: &mut W, rate: u128) -> io::Result<()>
    ensures { OnOk result (Appends (W.contents out.old) (W.contents out.new) (rate_text rate)) }
{
    writeln!(out, "{rate} asks per second")
}

fn offered_again(lists: &[Vec<Told>]) -> u64
    ensures { result ≡ min (again_in lists.now) u64.MAX }
{
    let mut again: u64 = 0;
    for list in lists {
        let refused = list.iter().filter(|told| asks_again(**told)).count();
        again = again.saturating_add(refused as u64);
    }
    again
}

fn asks_again(told: Told) -> bool
    ensures { result ≡ is_asked_again told }
{
    match told {
        Told::Refused(cause) => cause.passes(),
        Told::Accepted | Told::Value { .. } => false,
    }
}

/// How many a second, rounded down; 0 if no time passed.
pub fn per_second(count: u64, took: Duration) -> u128
    ensures { result ≡ rate_of count took }
{
    let nanos = took.as_nanos();
    if nanos == 0 {
        return 0;
    }
    u128::from(count) * 1_000_000_000 / nanos
}

/// The journal as a recorded run: a line for each event with its answer.
pub fn tell_journal<W: Write>(out: &mut W, journal: &[Entry]) -> io::Result<()>
    ensures { OnOk result (Appends (W.contents out.old) (W.contents out.new) (recorded_text journal.now)) }
{
    for entry in journal {
        if let Entry::Step { .. } = *entry {
            writeln!(out, "{}", EntryText(*entry))?;
        }
    }
    Ok(())
}
