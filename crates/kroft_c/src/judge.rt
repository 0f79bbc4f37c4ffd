//! The judge: one step of flat memory at a time, over words and a table that the caller keeps.
ghost use Rattle.std.specs.Prelude.{◌≡◌, ◌≢◌, None, Some, length};
ghost use Rattle.flat_judge.specs.Rows.{event_of, answer_of};
ghost use Rattle.flat_judge.specs.Table.{owed_or, tags_owed, nth_tag};
ghost use Rattle.flat_judge.specs.Judge.{flat, judged, table_after};
ghost use Rattle.flat_judge.specs.Reasons.{why, number_of, owed_instead};

use flat_judge::{AnswerRow, Due, EventRow, TAGS};
use flat_model::Word;

/// One step of a run, over the words of memory and the table of what each tag is owed; or why it isn't accepted.
#[unsafe(no_mangle)]
pub extern "C" fn kroft_flat_judge(
    words: &mut [Word],
    due: &mut [Due; TAGS],
    event: &EventRow,
    answer: &AnswerRow,
    owed: &mut Word,
) -> u32
    ensures reason { result
        ≡ number_of (why words.old due.old (event_of event.now) (answer_of answer.now)) }
    ensures step { result ≡ 0
        → judged words.old due.old (event_of event.now) (answer_of answer.now)
        ≡ Some (flat words.new due.new) }
    ensures refused { result ≢ 0
        → judged words.old due.old (event_of event.now) (answer_of answer.now) ≡ None }
    ensures table { result ≡ 0
        → due.new ≡ table_after words.old due.old (event_of event.now) (answer_of answer.now) }
    ensures words { result ≢ 0 → words.new ≡ words.old }
    ensures due { result ≢ 0 → due.new ≡ due.old }
    ensures owed { owed.new
        ≡ owed_or owed.old
        (owed_instead (why words.old due.old (event_of event.now) (answer_of answer.now))) }
{
    flat_judge::flat_step(words, due, event, answer, owed)
}

/// How many tags are owed a word, and the tag at place `n` among them, by number.
#[unsafe(no_mangle)]
pub extern "C" fn kroft_flat_unanswered(due: &[Due; TAGS], n: u32, tag: &mut u16) -> u32
    ensures count { result ≡ length (tags_owed due.now) }
    ensures tag { tag.new ≡ nth_tag tag.old (tags_owed due.now) n }
{
    flat_judge::flat_open(due, n, tag)
}
