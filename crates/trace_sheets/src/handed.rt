//! What is handed in is graded by the sheet that was given out.

ghost use Rattle.std.specs.Prelude.{◌≡◌, ◌<◌, ◌≤◌, ◌+◌, ◌++◌, [], ◌∷◌, length, OnOk, IfOk, IfErr, IfSome};
ghost use Rattle.std.specs.List.{position};
ghost use Rattle.trace_text.specs.declared.fault.TheConstants.{BUFFER_LEN, MAX_LINES, MAX_PAIR};
ghost use Rattle.trace_sheets.specs.Forms.{total};
ghost use Rattle.trace_sheets.specs.Handed as handed;
ghost use Rattle.trace_sheets.specs.Handed.{HandedEnds, HandsIn, SheetAsks, all_left_out, begun, has_line, marks};
ghost use Rattle.trace_sheets.specs.Handed.{questions_from, walk};
ghost use Rattle.trace_sheets.specs.Sheets.{is_prediction, sheet_fault};

use crate::came::Came;
use crate::ended::read_ended;
use crate::grade::{Grade, push_form, push_mark, push_told};
use crate::score::{Mark, Marking, Score};
use crate::sheet::{Said, is_open, reads_nothing, sheet_said, without_blanks};
use machine_core::ShapedMachine;
use named_fields::Format;
use std::alloc::{AllocError, Global};
use trace_text::{BUFFER_LEN, Collector, Failed, Line, Source, TraceFault, Uncollected};

/// A line of a sheet that has a command.
#[derive(Clone, Copy)]
pub struct Question {
    /// The line's number, counted from 1.
    pub number: u64,
    /// Its command.
    pub line: Line,
    /// Whether its answer is open, and so asked.
    pub is_asked: bool,
}

// The questions of a sheet so far.
#[derive(Drop)]
pub(crate) struct Asking {
    pub(crate) questions: Vec<Question>,
}

impl Asking {
    // Adds a question.
    fn ask(&mut self, number: u64, line: Line, is_asked: bool) -> Result<(), Uncollected>
        ensures ok { OnOk result (self.new.questions.items ≡ self.old.questions.items
            ++ record { number = number; line = line; is_asked = is_asked } ∷ []) }
        ensures err { IfErr result (λ miss. miss ≡ Uncollected.Halted) }
    {
        self.questions.push(Question {
            number,
            line,
            is_asked,
        })?;
        Ok(())
    }
}

impl Collector for Asking {
    ghost fault_in = { sheet_fault };

    ghost longest = { MAX_PAIR };

    ghost most_lines = { MAX_LINES };

    ghost went = { λ s texts t. t.questions.items ≡ questions_from 1 texts };

    ghost stopped = { λ s text t. Unit {0} };

    ghost paused = { λ s t. t ≡ s };

    ghost unpaused = { λ s t. ⊥ };

    ghost holds_same = { λ s t. Unit {0} };

    fn collect(&mut self, number: u64, text: &[u8]) -> Result<(), Uncollected> {
        let text = without_blanks(text);
        let read = match sheet_said(text) {
            Ok(read) => read,
            Err(fault) => return Err(Uncollected::Fault(fault)),
        };
        match read {
            Said::Nothing => Ok(()),
            Said::Command(line) => self.ask(number, line, false),
            Said::Prediction { line, said, .. } => self.ask(number, line, is_open(said)),
        }
    }

    fn pause(&mut self) -> Result<(), Failed> {
        Ok(())
    }
}

/// Reads a sheet that is given out: its commands, in order, and whether an answer is asked. It has
/// the faults of [`grade_sheet`](crate::grade_sheet).
pub fn read_questions<R: Source>(alloc: Global, reader: &mut R) -> Result<Vec<Question>, TraceFault>
    ensures asks { SheetAsks R.gave R.failed reader.old reader.new result }
    ensures few { IfOk result (λ questions. length questions.items ≤ MAX_LINES) }
{
    let mut asking = Asking {
        questions: Vec::new(alloc),
    };
    let mut buffer = vec![in alloc; 0u8; BUFFER_LEN]?;
    match read_ended(reader, &mut asking, &mut buffer) {
        Ok(()) => Ok(asking.questions),
        Err(stop) => Err(stop.fault_or(TraceFault::OutOfMemory)),
    }
}

// A grade by a sheet so far.
#[derive(Drop)]
pub(crate) struct Handing<'a> {
    pub(crate) alloc: Global,
    pub(crate) format: Format,
    pub(crate) machine: &'a mut ShapedMachine,
    pub(crate) report: &'a mut Vec<u8>,
    pub(crate) score: Score,
    pub(crate) questions: &'a [Question],
    pub(crate) behind: u64,
    pub(crate) lines: u64,
}

// The first of these questions that has this command.
fn place_of(questions: &[Question], line: Line) -> Option<usize>
    ensures place { result ≡ position (has_line line) questions.now }
    ensures bound { IfSome result (λ k. k < length questions.now) }
{
    questions.iter().position(|question| question.line == line)
}

impl<'a> Handing<'a> {
    // The sheet's next line is left out, in front of the line of this number.
    fn leave_out(&mut self, number: u64, question: &Question) -> Result<(), AllocError>
        requires number { number ≤ MAX_LINES + 1 }
        requires few { total self.old.score < MAX_LINES + MAX_LINES }
        ensures marked { OnOk result (marks self.new.machine.now self.new.behind self.new.report.now.items self.new.score
            ≡ handed.left_out self.old.format number
            (marks self.old.machine.now self.old.behind self.old.report.now.items self.old.score) question.now) }
        ensures total { total self.new.score ≤ total self.old.score + 1 }
        ensures questions { self.new.questions.now ≡ self.old.questions.now }
        ensures same { (self.new.format ≡ self.old.format)
            × (self.new.lines ≡ self.old.lines) × (self.new.machine.ghost_name ≡ self.old.machine.ghost_name)
            × (self.new.report.ghost_name ≡ self.old.report.ghost_name) }
    {
        let came = Came::new(self.machine, question.line);
        self.behind = question.number;
        if !question.is_asked {
            return Ok(());
        }
        self.score.count(Mark::Wrong);
        let alloc = self.alloc;
        let text = format!(in alloc; "line {} of the sheet is left out", question.number)?;
        push_told(
            alloc,
            self.format,
            self.report,
            self.machine,
            number,
            text.as_bytes(),
            b"",
            true,
            &came,
        )
    }

    // So are these.
    fn leave_all_out(&mut self, number: u64, questions: &[Question]) -> Result<(), AllocError>
        requires number { number ≤ MAX_LINES + 1 }
        requires few { total self.old.score + length questions.now ≤ MAX_LINES + MAX_LINES }
        ensures marked { OnOk result (marks self.new.machine.now self.new.behind self.new.report.now.items self.new.score
            ≡ all_left_out self.old.format number
            (marks self.old.machine.now self.old.behind self.old.report.now.items self.old.score) questions.now) }
        ensures total { OnOk result (total self.new.score ≤ total self.old.score + length questions.now) }
        ensures questions { self.new.questions.now ≡ self.old.questions.now }
        ensures same { (self.new.format ≡ self.old.format)
            × (self.new.lines ≡ self.old.lines) × (self.new.machine.ghost_name ≡ self.old.machine.ghost_name)
            × (self.new.report.ghost_name ≡ self.old.report.ghost_name) }
    {
        for question in questions {
            self.leave_out(number, question)?;
        }
        Ok(())
    }

    // A line that the rest of the sheet doesn't have.
    fn push_foreign(&mut self, number: u64, text: &[u8], said: &[u8]) -> Result<(), AllocError>
        requires number { number ≤ MAX_LINES + 1 }
        requires few { total self.old.score < MAX_LINES + MAX_LINES }
        ensures marked { OnOk result (marks self.new.machine.now self.new.behind self.new.report.now.items self.new.score
            ≡ handed.foreign self.old.format number text.now said.now
            (marks self.old.machine.now self.old.behind self.old.report.now.items self.old.score)) }
        ensures total { total self.new.score ≤ total self.old.score + 1 }
        ensures questions { self.new.questions.now ≡ self.old.questions.now }
        ensures same { (self.new.format ≡ self.old.format)
            × (self.new.lines ≡ self.old.lines) × (self.new.machine.ghost_name ≡ self.old.machine.ghost_name)
            × (self.new.report.ghost_name ≡ self.old.report.ghost_name) }
    {
        self.score.wrong += 1;
        let alloc = self.alloc;
        let why = format!(in alloc; "it has no such line behind its line {}", self.behind)?;
        push_form(
            alloc,
            self.format,
            self.report,
            number,
            text,
            said,
            b"not the sheet's",
            Some(why.as_bytes()),
        )
    }

    // Marks the first of these questions by what is said of it.
    fn answer(
        &mut self,
        number: u64,
        text: &[u8],
        line: Line,
        said: &[u8],
        is_readable: bool,
        questions: &[Question],
    ) -> Result<(), AllocError>
        requires number { number ≤ MAX_LINES + 1 }
        requires few { total self.old.score < MAX_LINES + MAX_LINES }
        requires readable { is_readable ≡ is_prediction line said.now }
        ensures marked { OnOk result (marks self.new.machine.now self.new.behind self.new.report.now.items self.new.score
            ≡ handed.answered_first self.old.format number text.now line said.now
            (marks self.old.machine.now self.old.behind self.old.report.now.items self.old.score) questions.now) }
        ensures total { total self.new.score ≤ total self.old.score + 1 }
        ensures questions { self.new.questions.now ≡ self.old.questions.now }
        ensures same { (self.new.format ≡ self.old.format)
            × (self.new.lines ≡ self.old.lines) × (self.new.machine.ghost_name ≡ self.old.machine.ghost_name)
            × (self.new.report.ghost_name ≡ self.old.report.ghost_name) }
    {
        let [question, ..] = questions else {
            return Ok(());
        };
        let came = Came::new(self.machine, line);
        self.behind = question.number;
        if !question.is_asked {
            return Ok(());
        }
        let mark = came.mark(Marking::Strict, said);
        self.score.count(mark);
        push_mark(
            self.alloc,
            self.format,
            self.report,
            self.machine,
            mark,
            number,
            text,
            said,
            is_readable,
            &came,
        )
    }

    // Takes a command and what is said of it.
    fn take(
        &mut self,
        number: u64,
        text: &[u8],
        line: Line,
        said: &[u8],
        is_readable: bool,
    ) -> Result<(), AllocError>
        requires number { number ≤ MAX_LINES }
        requires few { total self.old.score + length self.old.questions.now < MAX_LINES + MAX_LINES }
        requires readable { is_readable ≡ is_prediction line said.now }
        ensures marked { OnOk result (marks self.new.machine.now self.new.behind self.new.report.now.items self.new.score
            ≡ handed.marked_at self.old.format number text.now line said.now
            (marks self.old.machine.now self.old.behind self.old.report.now.items self.old.score) self.old.questions.now
            (position (has_line line) self.old.questions.now)) }
        ensures rest { OnOk result (self.new.questions.now
            ≡ handed.rest_at self.old.questions.now (position (has_line line) self.old.questions.now)) }
        ensures total { OnOk result (total self.new.score + length self.new.questions.now
            ≤ total self.old.score + length self.old.questions.now + 1) }
        ensures same { (self.new.format ≡ self.old.format)
            × (self.new.lines ≡ self.old.lines) × (self.new.machine.ghost_name ≡ self.old.machine.ghost_name)
            × (self.new.report.ghost_name ≡ self.old.report.ghost_name) }
    {
        let questions = self.questions;
        match place_of(questions, line) {
            None => self.push_foreign(number, text, said),
            Some(at) => {
                self.questions = &questions[at + 1..];
                self.leave_all_out(number, &questions[..at])?;
                self.answer(number, text, line, said, is_readable, &questions[at..])
            }
        }
    }

    // The grade, behind what is still left out.
    fn finished(&mut self) -> Result<Grade, AllocError>
        requires lines { self.old.lines ≤ MAX_LINES }
        requires few { total self.old.score + length self.old.questions.now ≤ MAX_LINES + MAX_LINES }
        ensures report { IfOk result (λ grade. grade.report.items ≡ (all_left_out self.old.format (self.old.lines + 1)
            (marks self.old.machine.now self.old.behind self.old.report.now.items self.old.score) self.old.questions.now).report) }
        ensures score { IfOk result (λ grade. grade.score ≡ (all_left_out self.old.format (self.old.lines + 1)
            (marks self.old.machine.now self.old.behind self.old.report.now.items self.old.score) self.old.questions.now).score) }
        ensures same { (self.new.machine.ghost_name ≡ self.old.machine.ghost_name)
            × (self.new.report.ghost_name ≡ self.old.report.ghost_name) }
    {
        let questions = self.questions;
        self.leave_all_out(self.lines + 1, questions)?;
        Ok(Grade {
            report: std::mem::replace(self.report, Vec::new(self.alloc)),
            score: self.score,
        })
    }
}

impl<'a> Collector for Handing<'a> {
    ghost fault_in = { sheet_fault };

    ghost longest = { MAX_PAIR };

    ghost most_lines = { MAX_LINES };

    ghost went = { λ s texts t. HandsIn s.format
        (walk s.lines s.questions.now (marks s.machine.now s.behind s.report.now.items s.score)) texts
        (walk t.lines t.questions.now (marks t.machine.now t.behind t.report.now.items t.score))
        × (t.format ≡ s.format) };

    ghost stopped = { λ s text t. Unit {0} };

    ghost paused = { λ s t. t ≡ s };

    ghost unpaused = { λ s t. ⊥ };

    ghost holds_same = { λ s t. (t.machine.ghost_name ≡ s.machine.ghost_name)
        × (t.report.ghost_name ≡ s.report.ghost_name) };

    fn collect(&mut self, number: u64, text: &[u8]) -> Result<(), Uncollected> {
        let text = without_blanks(text);
        let read = match sheet_said(text) {
            Ok(read) => read,
            Err(fault) => return Err(Uncollected::Fault(fault)),
        };
        self.lines = number;
        match read {
            Said::Nothing => Ok(()),
            Said::Command(line) => {
                match self.take(number, text, line, b"", reads_nothing(line)) {
                    Ok(()) => Ok(()),
                    Err(_) => Err(Uncollected::Halted),
                }
            }
            Said::Prediction {
                line,
                said,
                is_readable,
            } => match self.take(number, text, line, said, is_readable) {
                Ok(()) => Ok(()),
                Err(_) => Err(Uncollected::Halted),
            },
        }
    }

    fn pause(&mut self) -> Result<(), Failed> {
        Ok(())
    }
}

/// Grades what was handed in by the sheet that was given out, as [`read_questions`] read it. Each
/// `?` of the sheet is a point; a machine runs through the sheet by its answers.
///
/// A line is the sheet's next one with its command, and those before that are left out. A left-out
/// answer is wrong, as is one that can't be read; an accepted request is right with its class
/// alone. A line that the rest of the sheet doesn't have is wrong too.
///
/// Lines and faults are those of [`grade_sheet`](crate::grade_sheet). A fault gives no grade, and
/// leaves the machine behind some of the sheet's lines.
pub fn grade_handed_in<R: Source>(
    alloc: Global,
    format: Format,
    questions: &[Question],
    reader: &mut R,
    machine: &mut ShapedMachine,
) -> Result<Grade, TraceFault>
    requires few { length questions.now ≤ MAX_LINES }
    ensures { HandedEnds R.gave R.failed format questions.now reader.old reader.new machine.old result }
{
    let mut buffer = vec![in alloc; 0u8; BUFFER_LEN]?;
    let mut report = Vec::new(alloc);
    let mut handing = Handing {
        alloc,
        format,
        machine,
        report: &mut report,
        score: Score {
            right: 0,
            wrong: 0,
            left_open: 0,
        },
        questions,
        behind: 0,
        lines: 0,
    };
    hand_through(reader, &mut handing, &mut buffer)
}

fn hand_through<R: Source>(
    reader: &mut R,
    handing: &mut Handing,
    buffer: &mut [u8],
) -> Result<Grade, TraceFault>
    requires room { length buffer.old ≡ BUFFER_LEN }
    requires begun { walk handing.old.lines handing.old.questions.now (marks handing.old.machine.now handing.old.behind
        handing.old.report.now.items handing.old.score)
        ≡ begun handing.old.machine.now handing.old.questions.now }
    requires few { length handing.old.questions.now ≤ MAX_LINES }
    ensures ends { HandedEnds R.gave R.failed handing.old.format handing.old.questions.now reader.old reader.new
        handing.old.machine.now result }
    ensures same_machine { handing.new.machine.ghost_name ≡ handing.old.machine.ghost_name }
    ensures same_report { handing.new.report.ghost_name ≡ handing.old.report.ghost_name }
{
    match read_ended(reader, handing, buffer) {
        Ok(()) => Ok(handing.finished()?),
        Err(stop) => Err(stop.fault_or(TraceFault::OutOfMemory)),
    }
}
