//! Sheets: traces with predicted answers, and their grades.
//!
//! - First call: [`grade_sheet`]; its caller has a machine. [`solve_sheet`] fills the open answers
//!   of a sheet; [`grade_handed_in`] grades what was handed in by the sheet that was given out.
//! - Caller: `kroft_jobs`.
//!
//! A line of a sheet is a line of a trace, and may have ` -> ` and a prediction behind it. A
//! [`Grade`] has each wrong prediction with why, in the words of a drawn step
//! ([`words_by`](run_pictures::words_by)), and how many are right, wrong and open. In a
//! [`Format`](named_fields::Format) a grade is [`GradeHead`], the report, and [`ScoreIn`] with its
//! line's end.
#![tactic(auto)]

mod came;
mod ended;
mod grade;
mod handed;
mod score;
mod sheet;
mod solve;

pub use grade::{CORRECTION_FIELDS, Grade, grade_sheet};
pub use handed::{Question, grade_handed_in, read_questions};
pub use score::{GradeHead, Mark, Marking, Score, ScoreIn};
pub use solve::solve_sheet;
