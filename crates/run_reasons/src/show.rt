//! The text of a mismatch.

ghost use Rattle.std.specs.Prelude.{◌≡◌, ◌<◌, Some};
ghost use Rattle.std.specs.Fmt.{WritesOnOk};
ghost use Rattle.run_reasons.specs.Texts.{kind_text, answers_text, initial_text, owed_from_text, overwritten_text, past_text};
ghost use Rattle.run_reasons.specs.Texts.{got_from_text, byte_line, since_line, wrong_word_text, reason_text, mismatch_text};

use crate::origins::AcceptedLoad;
use crate::pasts::{Overwritten, Pasts};
use crate::reason::{Mismatch, Reason, WrongWord};
use flat_model::{Answer, Event, TwoDigits};
use std::fmt;

/// At most seven lines, with no line feed at the end.
impl fmt::Display for Mismatch {
    ghost output = { λ mismatch. Some (mismatch_text mismatch) };

    #[tactic(auto, unfolding(crate::specs::Texts::mismatch_text))]
    fn fmt<W: fmt::Write>(&self, f: &mut fmt::Formatter<W>) -> fmt::Result {
        let line = self.line;
        let event = self.event;
        let answer = self.answer;
        writeln!(f, "mismatch at line {line}: {event} -> {answer}")?;
        write_reason(f, event, answer, self.reason)
    }
}

fn write_reason<W: fmt::Write>(
    f: &mut fmt::Formatter<W>,
    event: Event,
    answer: Answer,
    reason: Reason,
) -> fmt::Result
    ensures { WritesOnOk W.write_str_gives f.old result (reason_text event answer reason) f.new }
{
    match reason {
        Reason::NeverAnswered => write_never_answered(f, event),
        Reason::NeverRefused => write_never_refused(f, event, answer),
        Reason::Outside { at, words } => write!(
            f,
            "word {at} is outside memory, which has {words} words: it is refused 1"
        ),
        Reason::Inside { at, words } => {
            write!(f, "word {at} is in memory, which has {words} words")
        }
        Reason::TagInUse { tag, line } => write!(
            f,
            "tag {tag} is in use since line {line}: it is refused 3 until its value is taken"
        ),
        Reason::NeverLoaded { tag } => {
            write!(f, "tag {tag} is owed nothing: it was never loaded")
        }
        Reason::Taken { tag, line } => {
            write!(
                f,
                "tag {tag} is owed nothing: its value was taken in line {line}"
            )
        }
        Reason::NoLanes => f.write_str("the store has no lanes: it is refused 2"),
        Reason::HasLanes => f.write_str("the store has lanes"),
        Reason::WrongWord(wrong) => write!(f, "{wrong}"),
    }
}

fn write_never_answered<W: fmt::Write>(f: &mut fmt::Formatter<W>, event: Event) -> fmt::Result
    ensures { WritesOnOk W.write_str_gives f.old result (reason_text event Answer.Moved Reason.NeverAnswered) f.new }
{
    let name = name_of(event);
    let answers = answers_of(event);
    write!(f, "{name} never gets this answer: it gets {answers}")
}

fn write_never_refused<W: fmt::Write>(
    f: &mut fmt::Formatter<W>,
    event: Event,
    answer: Answer,
) -> fmt::Result
    ensures { WritesOnOk W.write_str_gives f.old result (reason_text event answer Reason.NeverRefused) f.new }
{
    let name = name_of(event);
    let answers = answers_of(event);
    write!(f, "{name} never gets {answer}: it gets {answers}")
}

fn name_of(event: Event) -> &'static str
    ensures { result.now ≡ kind_text event }
{
    match event {
        Event::Load { .. } => "a load",
        Event::Store { .. } => "a store",
        Event::Prefetch { .. } => "a prefetch",
        Event::Evict { .. } => "an evict",
        Event::Drain => "a drain",
        Event::Serve { .. } => "a serve",
        Event::Arrive { .. } => "an arrive",
        Event::Process { .. } => "a process",
        Event::Take { .. } => "a take",
    }
}

fn answers_of(event: Event) -> &'static str
    ensures { result.now ≡ answers_text event }
{
    match event {
        Event::Load { .. } => "accepted, or refused 1 or 3 to 10",
        Event::Store { .. } => "accepted, or refused 1, 2 or 6 to 10",
        Event::Prefetch { .. } => "accepted, or refused 1 or 6 to 10",
        Event::Evict { .. } => "accepted, or refused 1, 9 or 11",
        Event::Drain => "moved, nothing or refused 10",
        Event::Serve { .. } | Event::Process { .. } => "moved or nothing",
        Event::Arrive { .. } => "moved, nothing or refused 12",
        Event::Take { .. } => "a value or nothing",
    }
}

/// What the load is owed, each differing byte, and whether the word stood there since.
impl fmt::Display for WrongWord {
    ghost output = { λ wrong. Some (wrong_word_text wrong) };

    #[tactic(auto, unfolding(crate::specs::Texts::wrong_word_text))]
    fn fmt<W: fmt::Write>(&self, f: &mut fmt::Formatter<W>) -> fmt::Result {
        let tag = self.tag;
        let AcceptedLoad {
            line,
            at,
            word: owed,
            stores,
        } = self.load;
        let got = self.got;
        let later = self.later;
        let Pasts { b0, b1, b2, b3 } = self.past;
        write!(
            f,
            "the load of line {line} (tag {tag}, word {at}) is owed {owed}"
        )?;
        write_byte(f, 0, owed.b0, stores.b0, got.b0, later.b0, b0)?;
        write_byte(f, 1, owed.b1, stores.b1, got.b1, later.b1, b1)?;
        write_byte(f, 2, owed.b2, stores.b2, got.b2, later.b2, b2)?;
        write_byte(f, 3, owed.b3, stores.b3, got.b3, later.b3, b3)?;
        write_since(f, self.stood_since)
    }
}

#[tactic(auto, unfolding(crate::specs::Texts::since_line))]
fn write_since<W: fmt::Write>(f: &mut fmt::Formatter<W>, stood_since: bool) -> fmt::Result
    ensures { WritesOnOk W.write_str_gives f.old result (since_line stood_since) f.new }
{
    if stood_since {
        f.write_str(
            "\nthe whole word stood there after the load: no run of flat memory from acceptance on; as a history it is atomic",
        )
    } else {
        Ok(())
    }
}

#[tactic(auto, unfolding(crate::specs::Texts::byte_line))]
fn write_byte<W: fmt::Write>(
    f: &mut fmt::Formatter<W>,
    place: u8,
    owed: u8,
    store: u64,
    got: u8,
    later: u64,
    past: Option<Overwritten>,
) -> fmt::Result
    ensures { WritesOnOk W.write_str_gives f.old result (byte_line place owed store got later past) f.new }
{
    if owed == got {
        return Ok(());
    }
    let (owed, got) = (TwoDigits(owed), TwoDigits(got));
    write!(f, "\nbyte {place}: owed {owed}, ")?;
    write_owed_from(f, owed.0, store)?;
    write!(f, "; got {got}, ")?;
    write_got_from(f, later, past)
}

fn write_owed_from<W: fmt::Write>(f: &mut fmt::Formatter<W>, owed: u8, store: u64) -> fmt::Result
    ensures { WritesOnOk W.write_str_gives f.old result (owed_from_text owed store) f.new }
{
    if store == 0 {
        f.write_str(initial(owed))
    } else {
        write!(f, "stored in line {store}")
    }
}

fn initial(owed: u8) -> &'static str
    ensures { result.now ≡ initial_text owed }
{
    if owed == 0 {
        "of the initial zeros"
    } else {
        "of the initial image"
    }
}

fn write_got_from<W: fmt::Write>(
    f: &mut fmt::Formatter<W>,
    later: u64,
    past: Option<Overwritten>,
) -> fmt::Result
    ensures { WritesOnOk W.write_str_gives f.old result (got_from_text later past) f.new }
{
    if later == 0 {
        f.write_str("which no last store put there: ")?;
        write_past(f, past)
    } else {
        write!(f, "stored in line {later}, after the load")
    }
}

fn write_past<W: fmt::Write>(f: &mut fmt::Formatter<W>, past: Option<Overwritten>) -> fmt::Result
    ensures { WritesOnOk W.write_str_gives f.old result (past_text past) f.new }
{
    match past {
        None => f.write_str("no store ever did"),
        Some(overwritten) => write_overwritten(f, overwritten.put, overwritten.by),
    }
}

fn write_overwritten<W: fmt::Write>(f: &mut fmt::Formatter<W>, put: u64, by: u64) -> fmt::Result
    ensures { WritesOnOk W.write_str_gives f.old result (overwritten_text put by) f.new }
{
    if put == 0 {
        write!(f, "memory began with it, and line {by} overwrote it")
    } else {
        write!(f, "line {put} did, and line {by} overwrote it")
    }
}
