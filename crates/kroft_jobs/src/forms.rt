//! What a check found, in a format.

ghost use Rattle.std.specs.Prelude.{◌≡◌, Some, map};
ghost use Rattle.named_fields.specs.Formats.{said};
ghost use Rattle.kroft_jobs.specs.Forms as forms;

use crate::answered::AnsweredVerdict;
use crate::jobs::Verdict;
use named_fields::{Field, Object, VerdictFormat};
use std::fmt;
use trace_text::CheckEnd;

// The verdict.
#[tactic(auto, unfolding(crate::specs::Forms::check_named))]
fn check_fields(end: CheckEnd) -> [Field<'static>; 3]
    ensures { map said result ≡ forms.check_named end }
{
    match end {
        CheckEnd::Flat { steps } => [
            Field::called("verdict", "flat"),
            Field::count("steps", steps),
            Field::missing("line"),
        ],
        CheckEnd::Mismatch { line } => [
            Field::called("verdict", "mismatch"),
            Field::missing("steps"),
            Field::count("line", line),
        ],
    }
}

fn open_field(end: CheckEnd, tags: &[u16]) -> Field<'_>
    ensures { said result ≡ forms.open_named end tags.now }
{
    match end {
        CheckEnd::Flat { .. } => Field::numbers("open", tags),
        CheckEnd::Mismatch { .. } => Field::missing("open"),
    }
}

#[tactic(auto, unfolding(crate::specs::Forms::answered_named))]
fn answered_fields(end: CheckEnd, tags: &[u16]) -> [Field<'_>; 4]
    ensures { map said result ≡ forms.answered_named end tags.now }
{
    let [verdict, steps, line] = check_fields(end);
    [verdict, steps, line, open_field(end, tags)]
}

/// A verdict in a format, with its steps or its line.
#[derive(Clone, Copy)]
pub struct CheckIn(pub VerdictFormat, pub CheckEnd);

impl fmt::Display for CheckIn {
    ghost output = { λ it. Some (forms.check_in it.0 it.1) };

    #[tactic(auto, unfolding(crate::specs::Forms::check_in, named_fields::specs::Formats::verdict_in))]
    fn fmt<W: fmt::Write>(&self, f: &mut fmt::Formatter<W>) -> fmt::Result {
        let verdict = Verdict(self.1);
        let fields = check_fields(self.1);
        match self.0 {
            VerdictFormat::Text => write!(f, "{verdict}"),
            VerdictFormat::Json => write!(f, "{}", Object(&fields)),
        }
    }
}

/// The same, and behind a flat run the tags of its open loads.
#[derive(Clone, Copy)]
pub struct AnsweredIn<'a>(pub VerdictFormat, pub &'a AnsweredVerdict);

impl<'a> fmt::Display for AnsweredIn<'a> {
    ghost output = { λ it. Some (forms.answered_in it.0 it.1.now.end it.1.now.tags.items) };

    #[tactic(auto, unfolding(crate::specs::Forms::answered_in, named_fields::specs::Formats::verdict_in))]
    fn fmt<W: fmt::Write>(&self, f: &mut fmt::Formatter<W>) -> fmt::Result {
        let answered = self.1;
        let named = answered_fields(answered.end, answered.tags.as_slice());
        match self.0 {
            VerdictFormat::Text => write!(f, "{answered}"),
            VerdictFormat::Json => write!(f, "{}", Object(&named)),
        }
    }
}
