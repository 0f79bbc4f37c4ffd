//! How many predictions are right, wrong and open.

ghost use Rattle.std.specs.Prelude.{◌≡◌, ◌<◌, ◌+◌, Some, map};
ghost use Rattle.named_fields.specs.Formats.{said};
ghost use Rattle.trace_text.specs.declared.fault.TheConstants.{MAX_LINES};
ghost use Rattle.trace_sheets.specs.Forms as forms;
ghost use Rattle.trace_sheets.specs.Forms.{score_named, score_text, total};
ghost use Rattle.trace_sheets.specs.Grades.{with_mark, score_status};

use crate::grade::CORRECTION_FIELDS;
use named_fields::{Field, Format, Header, Object, Values};
use std::fmt;

/// How the prediction of an accepted request is marked.
#[derive(Clone, Copy, PartialEq, Eq, Debug)]
pub enum Marking {
    /// `accepted` fits whatever it found.
    Lenient,
    /// What it found is asked: a hit, a join or a miss.
    Strict,
}

/// What a prediction is.
#[derive(Clone, Copy, PartialEq, Eq, Debug)]
pub enum Mark {
    /// The machine's answer, with its finding if that is asked.
    Right,
    /// It isn't.
    Wrong,
    /// Nothing is predicted yet.
    Open,
}

/// Right, wrong and open predictions of a sheet.
#[derive(Clone, Copy, PartialEq, Eq, Debug, Default)]
pub struct Score {
    /// Right ones.
    pub right: u64,
    /// Wrong ones.
    pub wrong: u64,
    /// Lines whose prediction is `?`.
    pub left_open: u64,
}

impl Score {
    // Counts a mark.
    pub(crate) fn count(&mut self, mark: Mark)
        requires { total self.old < MAX_LINES + MAX_LINES }
        ensures { self.new ≡ with_mark self.old mark }
    {
        match mark {
            Mark::Right => self.right += 1,
            Mark::Wrong => self.wrong += 1,
            Mark::Open => self.left_open += 1,
        }
    }

    /// 0 if none is wrong, else 1.
    pub fn status(&self) -> u8
        ensures { result ≡ score_status self.now }
    {
        if self.wrong == 0 { 0 } else { 1 }
    }
}

/// `6 of 9 right, 1 open`: of all predictions.
impl fmt::Display for Score {
    ghost output = { λ score. Some (score_text score) };

    fn fmt<W: fmt::Write>(&self, f: &mut fmt::Formatter<W>) -> fmt::Result {
        let right = self.right;
        let open = self.left_open;
        let asked = u128::from(self.right) + u128::from(self.wrong) + u128::from(self.left_open);
        write!(f, "{right} of {asked} right, {open} open")
    }
}

// A score by names, as a row.
fn mark_fields(score: Score) -> [Field<'static>; 3]
    ensures { map said result ≡ forms.marks_named score }
{
    [
        Field::count("right", score.right),
        Field::count("wrong", score.wrong),
        Field::count("open", score.left_open),
    ]
}

// The same as an object has it.
#[tactic(auto, unfolding(crate::specs::Forms::score_named))]
fn score_fields(score: Score) -> [Field<'static>; CORRECTION_FIELDS]
    ensures { map said result ≡ score_named score }
{
    let [right, wrong, left_open] = mark_fields(score);
    [
        Field::called("kind", "score"),
        Field::missing("line"),
        Field::missing("text"),
        Field::missing("predicted"),
        Field::missing("is"),
        Field::missing("why"),
        right,
        wrong,
        left_open,
    ]
}

/// A grade's last line.
#[derive(Clone, Copy)]
pub struct ScoreIn(pub Format, pub Score);

impl fmt::Display for ScoreIn {
    ghost output = { λ it. Some (forms.score_in it.0 it.1) };

    #[tactic(auto, unfolding(crate::specs::Forms::score_in))]
    fn fmt<W: fmt::Write>(&self, f: &mut fmt::Formatter<W>) -> fmt::Result {
        let score = self.1;
        match self.0 {
            Format::Text => write!(f, "{score}"),
            Format::Csv => write!(f, "{}", Values(&mark_fields(score))),
            Format::Json => write!(f, "{}", Object(&score_fields(score))),
        }
    }
}

/// The fields' names, before a grade's first line, if the format has them.
#[derive(Clone, Copy)]
pub struct GradeHead(pub Format);

impl fmt::Display for GradeHead {
    ghost output = { λ head. Some (forms.grade_head head.0) };

    #[tactic(auto, unfolding(crate::specs::Forms::grade_head, named_fields::specs::Formats::head_in_format))]
    fn fmt<W: fmt::Write>(&self, f: &mut fmt::Formatter<W>) -> fmt::Result {
        let fields = mark_fields(Score {
            right: 0,
            wrong: 0,
            left_open: 0,
        });
        match self.0 {
            Format::Csv => write!(f, "{}\n", Header(&fields)),
            Format::Text | Format::Json => Ok(()),
        }
    }
}
