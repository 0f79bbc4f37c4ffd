//! A sheet is graded.

ghost use Rattle.std.specs.Prelude.{◌≡◌, ◌<◌, ◌≤◌, ◌+◌, ◌++◌, ◌∷◌, [], if◌then◌else◌, Some, length, map, OnOk, IfErr};
ghost use Rattle.std.specs.Option.{option_map};
ghost use Rattle.named_fields.specs.Formats.{said as what_is_said};
ghost use Rattle.trace_text.specs.declared.fault.TheConstants.{BUFFER_LEN, MAX_LINES, MAX_PAIR};
ghost use Rattle.trace_sheets.specs.Sheets.{sheet_fault, sheet_line};
ghost use Rattle.trace_text.specs.Codes.{line_feed};
ghost use Rattle.trace_sheets.specs.Forms as forms;
ghost use Rattle.trace_sheets.specs.Forms.{correction_text, correction_named, full_text, told, total, why_named, why_text};
ghost use Rattle.trace_sheets.specs.Grades as grades;
ghost use Rattle.trace_sheets.specs.Grades.{Graded, LeavesBehind, SheetEnds, after_said, mark_of, no_score, told_if, with_mark};

use crate::came::{Came, full_answer};
use crate::ended::read_ended;
use crate::score::{Mark, Marking, Score};
use crate::sheet::{Said, is_printable, sheet_said, without_blanks};
use machine_core::ShapedMachine;
use named_fields::{Field, Format, Object};
use run_pictures::words_by;
use std::alloc::{AllocError, Global};
use trace_text::{
    BUFFER_LEN, Collector, Failed, LineText, MAX_PAIR, Source, TraceFault, Uncollected,
};

/// What becomes of a sheet.
#[derive(Drop)]
pub struct Grade {
    /// A wrong prediction as two lines, `line N: ` with its line, and `  is ` with what came, and
    /// why, by [`words_by`]; what is shown has no reason. An object is a line, and a table has none.
    pub report: Vec<u8>,
    /// How many predictions are right, wrong and open.
    pub score: Score,
}

/// A grade's fields.
pub const CORRECTION_FIELDS: usize = 9;

// A machine in a sheet, and the grade so far.
#[derive(Drop)]
pub(crate) struct Grading<'a> {
    pub(crate) alloc: Global,
    pub(crate) format: Format,
    pub(crate) marking: Marking,
    pub(crate) machine: &'a mut ShapedMachine,
    pub(crate) report: &'a mut Vec<u8>,
    pub(crate) score: Score,
}

fn push_correction(
    report: &mut Vec<u8>,
    number: u64,
    text: &[u8],
    is: &[u8],
    why: Option<&[u8]>,
) -> Result<(), AllocError>
    requires { number ≤ MAX_LINES + 1 }
    ensures { OnOk result (report.new.items ≡ report.old.items
        ++ (correction_text number text.now is.now (option_map (λ words. words.now) why.entry) ++ line_feed ∷ [])) }
{
    let mut head = LineText::new();
    head.push_bytes(b"line ");
    head.push_decimal(number as u32);
    head.push_bytes(b": ");
    report.extend_from_slice(head.as_bytes())?;
    push_shown(report, text)?;
    report.extend_from_slice(b"\n  is ")?;
    report.extend_from_slice(is)?;
    push_why(report, why)?;
    report.push(b'\n')?;
    Ok(())
}

// A terminal is given no byte that isn't printable.
fn shown_byte(byte: u8) -> u8
    ensures { result ≡ forms.shown_byte byte }
{
    if is_printable(byte) { byte } else { b'.' }
}

fn push_shown(report: &mut Vec<u8>, text: &[u8]) -> Result<(), AllocError>
    ensures { OnOk result (report.new.items ≡ report.old.items ++ map forms.shown_byte text.now) }
{
    for byte in text {
        report.push(shown_byte(*byte))?;
    }
    Ok(())
}

fn push_why(report: &mut Vec<u8>, why: Option<&[u8]>) -> Result<(), AllocError>
    ensures { OnOk result
        (report.new.items ≡ report.old.items ++ why_text (option_map (λ words. words.now) why.entry)) }
{
    match why {
        Some(words) => {
            report.extend_from_slice(b": ")?;
            report.extend_from_slice(words)
        }
        None => Ok(()),
    }
}

// Why, by its name.
fn why_field<'b>(why: Option<&'b [u8]>) -> Field<'b>
    ensures { what_is_said result ≡ why_named (option_map (λ words. words.now) why.entry) }
{
    match why {
        Some(words) => Field::quoted("why", words),
        None => Field::missing("why"),
    }
}

#[tactic(auto, unfolding(crate::specs::Forms::correction_named))]
fn correction_fields<'b>(
    number: u64,
    text: &'b [u8],
    said: &'b [u8],
    is: &'b [u8],
    why: Option<&'b [u8]>,
) -> [Field<'b>; CORRECTION_FIELDS]
    ensures { map what_is_said result
        ≡ correction_named number text.now said.now is.now (option_map (λ words. words.now) why.entry) }
{
    [
        Field::called("kind", "wrong"),
        Field::count("line", number),
        Field::quoted("text", text),
        Field::quoted("predicted", said),
        Field::quoted("is", is),
        why_field(why),
        Field::missing("right"),
        Field::missing("wrong"),
        Field::missing("open"),
    ]
}

// Tells a wrong prediction in a format, in a line or two. A table has the score alone.
#[tactic(auto, unfolding(crate::specs::Forms::told))]
pub(crate) fn push_form<'b>(
    alloc: Global,
    format: Format,
    report: &mut Vec<u8>,
    number: u64,
    text: &'b [u8],
    said: &'b [u8],
    is: &'b [u8],
    why: Option<&'b [u8]>,
) -> Result<(), AllocError>
    requires { number ≤ MAX_LINES + 1 }
    ensures { OnOk result (report.new.items ≡ report.old.items
        ++ told format number text.now said.now is.now (option_map (λ words. words.now) why.entry)) }
{
    match format {
        Format::Text => push_correction(report, number, text, is, why),
        Format::Csv => Ok(()),
        Format::Json => {
            let fields = correction_fields(number, text, said, is, why);
            let object = format!(in alloc; "{}\n", Object(&fields))?;
            report.extend_from_slice(object.as_bytes())
        }
    }
}

// What may be predicted, where a prediction can't be read.
fn answers_text(came: &Came) -> &'static [u8]
    ensures { result.now ≡ forms.answers_text came.now }
{
    match came {
        Came::Answered { .. } =>
            b"an answer is accepted, accepted hit, accepted join, accepted miss, moved, nothing, refused N, value TAG WORD or ?",
        Came::Shown(_) => b"an answer is printable text",
    }
}

// What a wrong prediction is marked with: why its answer came, if it can be read.
fn why_told<'b>(came: &Came, is_readable: bool, why: Option<&'b [u8]>) -> Option<&'b [u8]>
    ensures { option_map (λ words. words.now) result
        ≡ (if is_readable then option_map (λ words. words.now) why.entry else Some (forms.answers_text came.now)) }
{
    if is_readable {
        why
    } else {
        Some(answers_text(came))
    }
}

// The same; the machine has had its line.
pub(crate) fn push_told(
    alloc: Global,
    format: Format,
    report: &mut Vec<u8>,
    machine: &ShapedMachine,
    number: u64,
    text: &[u8],
    said: &[u8],
    is_readable: bool,
    came: &Came,
) -> Result<(), AllocError>
    requires { number ≤ MAX_LINES + 1 }
    ensures { OnOk result (report.new.items ≡ report.old.items
        ++ told format number text.now said.now (full_text came.now) (grades.why_told machine.now came.now is_readable)) }
{
    match came {
        Came::Answered {
            event,
            answer,
            before,
        } => {
            let is = full_answer(*answer, before.found);
            let phrase = words_by(machine, *before, *event, *answer);
            let words = format!(in alloc; "{phrase}")?;
            let why = why_told(came, is_readable, Some(words.as_bytes()));
            push_form(
                alloc,
                format,
                report,
                number,
                text,
                said,
                is.as_bytes(),
                why,
            )
        }
        Came::Shown(is) => {
            let why = why_told(came, is_readable, None);
            push_form(
                alloc,
                format,
                report,
                number,
                text,
                said,
                is.as_bytes(),
                why,
            )
        }
    }
}

// Tells a prediction of this mark. The machine stands behind its line.
pub(crate) fn push_mark(
    alloc: Global,
    format: Format,
    report: &mut Vec<u8>,
    machine: &ShapedMachine,
    mark: Mark,
    number: u64,
    text: &[u8],
    said: &[u8],
    is_readable: bool,
    came: &Came,
) -> Result<(), AllocError>
    requires { number ≤ MAX_LINES + 1 }
    ensures { OnOk result (report.new.items ≡ report.old.items ++ told_if mark
        (told format number text.now said.now (full_text came.now) (grades.why_told machine.now came.now is_readable))) }
{
    match mark {
        Mark::Wrong => push_told(
            alloc,
            format,
            report,
            machine,
            number,
            text,
            said,
            is_readable,
            came,
        ),
        Mark::Right | Mark::Open => Ok(()),
    }
}

impl<'a> Grading<'a> {
    // The grade; its report is taken out.
    fn finished(&mut self) -> Grade
        ensures report { result.report.items ≡ self.old.report.now.items }
        ensures score { result.score ≡ self.old.score }
        ensures machine { self.new.machine ≡ self.old.machine }
        ensures same { self.new.report.ghost_name ≡ self.old.report.ghost_name }
    {
        Grade {
            report: std::mem::replace(self.report, Vec::new(self.alloc)),
            score: self.score,
        }
    }

    // Marks a line's prediction by what came. The machine has had the line.
    fn mark(
        &mut self,
        number: u64,
        text: &[u8],
        said: &[u8],
        is_readable: bool,
        came: &Came,
    ) -> Result<(), AllocError>
        requires number { number ≤ MAX_LINES }
        requires few { total self.old.score < MAX_LINES }
        ensures report { OnOk result (self.new.report.now.items ≡ self.old.report.now.items
            ++ told_if (mark_of self.old.marking came.now said.now) (told self.old.format number text.now said.now
            (full_text came.now) (grades.why_told self.old.machine.now came.now is_readable))) }
        ensures format { self.new.format ≡ self.old.format }
        ensures marking { self.new.marking ≡ self.old.marking }
        ensures score { self.new.score ≡ with_mark self.old.score (mark_of self.old.marking came.now said.now) }
        ensures machine { self.new.machine ≡ self.old.machine }
        ensures same { self.new.report.ghost_name ≡ self.old.report.ghost_name }
    {
        let mark = came.mark(self.marking, said);
        self.score.count(mark);
        push_mark(
            self.alloc,
            self.format,
            self.report,
            self.machine,
            mark,
            number,
            text,
            said,
            is_readable,
            came,
        )
    }
}

impl<'a> Collector for Grading<'a> {
    ghost fault_in = { sheet_fault };

    ghost longest = { MAX_PAIR };

    ghost most_lines = { MAX_LINES };

    ghost went = { λ s texts t. (t.format ≡ s.format) × (t.marking ≡ s.marking)
        × Graded s.format s.marking s.machine.now texts t.machine.now t.report.now.items t.score };

    ghost stopped = { λ s text t. t.machine.now ≡ after_said s.machine.now (sheet_line text) };

    ghost paused = { λ s t. t ≡ s };

    ghost unpaused = { λ s t. ⊥ };

    ghost holds_same = { λ s t. (t.machine.ghost_name ≡ s.machine.ghost_name) × (t.report.ghost_name ≡ s.report.ghost_name) };

    fn collect(&mut self, number: u64, text: &[u8]) -> Result<(), Uncollected> {
        let text = without_blanks(text);
        let read = match sheet_said(text) {
            Ok(read) => read,
            Err(fault) => return Err(Uncollected::Fault(fault)),
        };
        match read {
            Said::Nothing => Ok(()),
            Said::Command(line) => {
                let _came = Came::new(self.machine, line);
                Ok(())
            }
            Said::Prediction {
                line,
                said,
                is_readable,
            } => {
                let came = Came::new(self.machine, line);
                match self.mark(number, text, said, is_readable, &came) {
                    Ok(()) => Ok(()),
                    Err(_) => Err(Uncollected::Halted),
                }
            }
        }
    }

    fn pause(&mut self) -> Result<(), Failed> {
        Ok(())
    }
}

/// Grades a sheet: a machine runs through its lines by its own answers, and each prediction is
/// compared.
///
/// A line is one of a trace, to 64 bytes, and may have ` -> ` and a prediction behind it, 768 bytes
/// in all. Of an event that is an answer, `accepted hit`, `accepted join`, `accepted miss`, or `?`;
/// of `reg`, `bank` and `settled` any printable text. An answer without its finding is right too,
/// if the marking is lenient. Another prediction is wrong, and the report says what may stand there. Blanks at a line's end
/// say nothing, CR among them, nor do empty lines and those that begin with `#`. The last line may
/// lack its LF.
///
/// A fault gives no grade, and leaves the machine behind the lines before it: the first is
/// answered, as by [`read_requests`](trace_text::read_requests). [`TraceFault::OutOfMemory`] may
/// replace any answer: before the first read the machine is as it was, else a wrong prediction's
/// line is made already. [`TraceFault::Write`] never comes.
///
/// 4,096 bytes are allocated before the first read, and more only for the report and for wrong
/// predictions.
pub fn grade_sheet<R: Source>(
    alloc: Global,
    format: Format,
    marking: Marking,
    reader: &mut R,
    machine: &mut ShapedMachine,
) -> Result<Grade, TraceFault>
    ensures ends { SheetEnds R.gave R.failed format marking reader.old reader.new machine.old machine.new
        result }
    ensures fault { IfErr result
        (LeavesBehind R.gave R.failed reader.old reader.new machine.old machine.new) }
{
    let mut buffer = vec![in alloc; 0u8; BUFFER_LEN]?;
    let mut report = Vec::new(alloc);
    let mut grading = Grading {
        alloc,
        format,
        marking,
        machine,
        report: &mut report,
        score: Score {
            right: 0,
            wrong: 0,
            left_open: 0,
        },
    };
    grade_through(reader, &mut grading, &mut buffer)
}

fn grade_through<R: Source>(
    reader: &mut R,
    grading: &mut Grading,
    buffer: &mut [u8],
) -> Result<Grade, TraceFault>
    requires room { length buffer.old ≡ BUFFER_LEN }
    requires report { grading.old.report.now.items ≡ [] }
    requires score { grading.old.score ≡ no_score }
    ensures ends { SheetEnds R.gave R.failed grading.old.format grading.old.marking reader.old reader.new grading.old.machine.now
        grading.new.machine.now result }
    ensures fault { IfErr result
        (LeavesBehind R.gave R.failed reader.old reader.new grading.old.machine.now grading.new.machine.now) }
    ensures same_machine { grading.new.machine.ghost_name ≡ grading.old.machine.ghost_name }
    ensures same_report { grading.new.report.ghost_name ≡ grading.old.report.ghost_name }
{
    match read_ended(reader, grading, buffer) {
        Ok(()) => Ok(grading.finished()),
        Err(stop) => Err(stop.fault_or(TraceFault::OutOfMemory)),
    }
}
