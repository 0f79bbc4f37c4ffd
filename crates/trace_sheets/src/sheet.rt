//! The lines of a sheet.

ghost use Rattle.std.specs.Prelude.{◌≡◌, ◌+◌, ◌-◌, ◌≤◌, ℕ, Ok, Err, Some, None, true, false, [], length, take, drop, ◌||◌, is_ok};
ghost use Rattle.std.specs.Prelude.{IfOk, IfErr, IfSome};
ghost use Rattle.std.specs.List.{list_all};
ghost use Rattle.std.specs.Option.{is_some};
ghost use Rattle.machine_core.specs.Words.{Event as EventValue};
ghost use Rattle.trace_text.specs.Lines.{IsSaid};
ghost use Rattle.trace_text.specs.Pairs.{answer_of, arrow_in, pair_of};
ghost use Rattle.named_fields.specs.Texts.{is_printable};
ghost use Rattle.trace_sheets.specs.Sheets as sheets;
ghost use Rattle.trace_sheets.specs.Sheets.{IsSaidBy, ends_in_arrow, front_of, is_prediction};

use trace_text::{Line, LineFault, MAX_LINE, line_said, pair_said};

// What a line of a sheet says. It isn't exported, but `pub`, since definitions name it.
#[derive(Clone, Copy)]
pub enum Said<'b> {
    // It is a comment, or blank.
    Nothing,
    // A line of a trace, of which nothing is asked.
    Command(Line),
    // A line of a trace, what is predicted of it, and whether that can be read.
    Prediction {
        line: Line,
        said: &'b [u8],
        is_readable: bool,
    },
}

// A line without the blanks at its end.
pub(crate) fn without_blanks(text: &[u8]) -> &[u8]
    ensures { result.now ≡ sheets.without_blanks text.now }
{
    text.trim_ascii_end()
}

// What a line says, without LF and blanks at its end.
#[tactic(auto, unfolding(crate::specs::Sheets::sheet_said))]
pub(crate) fn sheet_said(text: &[u8]) -> Result<Said<'_>, LineFault>
    ensures ok { IfOk result (IsSaidBy text.now) }
    ensures fault { IfErr result (λ fault. (sheets.sheet_said text.now ≡ Err fault) × IsSaid fault) }
{
    if says_nothing(text) {
        return Ok(Said::Nothing);
    }
    match arrow(text) {
        None => unanswered(text),
        Some(at) => predicted(text, at),
    }
}

// What a line with no arrow within it says.
fn unanswered(text: &[u8]) -> Result<Said<'_>, LineFault>
    requires some { sheets.says_nothing text.now ≡ false }
    requires arrow { arrow_in text.now ≡ None }
    ensures ok { IfOk result (IsSaidBy text.now) }
    ensures fault { IfErr result (λ fault. (sheets.sheet_said text.now ≡ Err fault) × IsSaid fault) }
{
    match text.strip_suffix(b" ->".as_slice()) {
        Some(begun) => left_out(text, begun),
        None => command(text),
    }
}

// What a line says that ends in an arrow: its answer is left out.
fn left_out(text: &[u8], begun: &[u8]) -> Result<Said<'static>, LineFault>
    requires some { sheets.says_nothing text.now ≡ false }
    requires arrow { arrow_in text.now ≡ None }
    requires ends { ends_in_arrow text.now ≡ true }
    requires begun { begun.now ≡ take (length text.now - 3) text.now }
    ensures ok { IfOk result (IsSaidBy text.now) }
    ensures fault { IfErr result (λ fault. (sheets.sheet_said text.now ≡ Err fault) × IsSaid fault) }
{
    match front(begun) {
        Ok(line) => Ok(Said::Prediction {
            line,
            said: b"".as_slice(),
            is_readable: reads_nothing(line),
        }),
        Err(fault) => Err(fault),
    }
}

// Whether no text is a prediction of this line that can be read.
pub(crate) fn reads_nothing(line: Line) -> bool
    ensures { result ≡ is_prediction line [] }
{
    match line {
        Line::Event(_) => false,
        Line::Register(_) | Line::Bank(_) | Line::Settled => true,
    }
}

fn command(text: &[u8]) -> Result<Said<'_>, LineFault>
    requires some { sheets.says_nothing text.now ≡ false }
    requires arrow { arrow_in text.now ≡ None }
    requires whole { ends_in_arrow text.now ≡ false }
    ensures ok { IfOk result (IsSaidBy text.now) }
    ensures fault { IfErr result (λ fault. (sheets.sheet_said text.now ≡ Err fault) × IsSaid fault) }
{
    match front(text) {
        Ok(line) => Ok(Said::Command(line)),
        Err(fault) => Err(fault),
    }
}

fn predicted(text: &[u8], at: usize) -> Result<Said<'_>, LineFault>
    requires some { sheets.says_nothing text.now ≡ false }
    requires arrow { arrow_in text.now ≡ Some at }
    requires bound { at + 4 ≤ length text.now }
    ensures ok { IfOk result (IsSaidBy text.now) }
    ensures fault { IfErr result (λ fault. (sheets.sheet_said text.now ≡ Err fault) × IsSaid fault) }
{
    let line = match front(&text[..at]) {
        Ok(line) => line,
        Err(fault) => return Err(fault),
    };
    let said = &text[at + 4..];
    Ok(Said::Prediction {
        line,
        said,
        is_readable: is_readable(line, text, said),
    })
}

// Whether a line is a comment, or empty.
fn says_nothing(text: &[u8]) -> bool
    ensures { result ≡ sheets.says_nothing text.now }
{
    match text {
        [] => true,
        [first, ..] => *first == b'#',
    }
}

fn arrow(text: &[u8]) -> Option<usize>
    ensures value { result ≡ arrow_in text.now }
    ensures bound { IfSome result (λ at. at + 4 ≤ length text.now) }
{
    for at in 0..text.len() {
        if text[at..].starts_with(b" -> ".as_slice()) {
            return Some(at);
        }
    }
    None
}

fn front(text: &[u8]) -> Result<Line, LineFault>
    ensures line { result ≡ front_of text.now }
    ensures fault { IfErr result IsSaid }
{
    if text.len() > MAX_LINE {
        return Err(LineFault::Field);
    }
    line_said(text)
}

// Whether this prediction of a line can be read.
fn is_readable(line: Line, text: &[u8], said: &[u8]) -> bool
    requires stands { (at : ℕ) × (arrow_in text.now ≡ Some at) × (front_of (take at text.now) ≡ Ok line)
        × (said.now ≡ drop (at + 4) text.now) }
    ensures { result ≡ is_prediction line said.now }
{
    match line {
        Line::Event(_) => is_open(said) || is_answer(text, said),
        Line::Register(_) | Line::Bank(_) | Line::Settled => has_printable(said),
    }
}

// Whether this is an answer to the event, with or without a finding.
fn is_answer(text: &[u8], said: &[u8]) -> bool
    requires stands { (at : ℕ) × (event : EventValue) × (arrow_in text.now ≡ Some at)
        × (front_of (take at text.now) ≡ Ok (Line.Event event)) × (said.now ≡ drop (at + 4) text.now) }
    ensures { result ≡ sheets.is_finding said.now || is_some (answer_of said.now) }
{
    is_finding(said) || is_recorded(text)
}

// Whether all bytes are printable.
fn has_printable(said: &[u8]) -> bool
    ensures { result ≡ list_all is_printable said.now }
{
    said.iter().all(|byte| 32 <= *byte && *byte <= 126)
}

// Whether a byte is printable.
pub(crate) fn is_printable(byte: u8) -> bool
    ensures { result ≡ is_printable byte }
{
    32 <= byte && byte <= 126
}

// Whether nothing is predicted yet.
pub(crate) fn is_open(said: &[u8]) -> bool
    ensures { result ≡ sheets.is_open said.now }
{
    said == b"?".as_slice()
}

fn is_finding(said: &[u8]) -> bool
    ensures { result ≡ sheets.is_finding said.now }
{
    said == b"accepted hit".as_slice()
        || said == b"accepted join".as_slice()
        || said == b"accepted miss".as_slice()
}

fn is_recorded(text: &[u8]) -> bool
    ensures { result ≡ is_ok (pair_of text.now) }
{
    pair_said(text).is_ok()
}
