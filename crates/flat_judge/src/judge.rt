//! One step of flat memory.
ghost use Rattle.std.specs.Prelude.{◌≡◌, ◌≢◌, true, None, Some, length, IfErr, OnOk, OnErr};
ghost use Rattle.flat_model.specs.Flat.{may_answer, flat_after};
ghost use Rattle.flat_model.specs.Memory.{Finds};
ghost use Rattle.flat_judge.specs.Rows.{event_of, answer_of};
ghost use Rattle.flat_judge.specs.Judge.{flat, judged, table_after, table_with};
ghost use Rattle.flat_judge.specs.Reasons.{why, number_of, owed_instead};
ghost use Rattle.flat_judge.specs.Table.{owed_or};

use crate::reasons::{Reason, against, number};
use crate::rows::{AnswerRow, EventRow};
use crate::table::{Due, TAGS, due_word, set_due};
use flat_model::{Answer, Event, Word, may_answer, merge};

const MADE: u32 = 0;

#[derive(Clone, Copy)]
pub(crate) struct Found {
    pub(crate) inside: bool,
    pub(crate) owed: Option<Word>,
}

/// One step over memory's words and what tags are owed. 0: made; of `due` only the tag's entry is
/// written. Else the number of a [`Reason`], and nothing is written, but for a
/// [`Reason::WrongWord`] `owed`.
pub fn flat_step(
    words: &mut [Word],
    due: &mut [Due; TAGS],
    event: &EventRow,
    answer: &AnswerRow,
    owed: &mut Word,
) -> u32
    ensures reason { result
        ≡ number_of (why words.old due.old (event_of event.now) (answer_of answer.now)) }
    ensures step { result ≡ 0
        → judged words.old due.old (event_of event.now) (answer_of answer.now)
        ≡ Some (flat words.new due.new) }
    ensures refused { result ≢ 0
        → judged words.old due.old (event_of event.now) (answer_of answer.now) ≡ None }
    ensures table { result ≡ 0
        → due.new ≡ table_after words.old due.old (event_of event.now) (answer_of answer.now) }
    ensures words { result ≢ 0 → words.new ≡ words.old }
    ensures due { result ≢ 0 → due.new ≡ due.old }
    ensures owed { owed.new
        ≡ owed_or owed.old
        (owed_instead (why words.old due.old (event_of event.now) (answer_of answer.now))) }
{
    match make(words, due, event, answer) {
        Ok(()) => MADE,
        Err(reason) => {
            if let Reason::WrongWord(word) = reason {
                *owed = word;
            }
            number(reason)
        }
    }
}

fn make(
    words: &mut [Word],
    due: &mut [Due; TAGS],
    event: &EventRow,
    answer: &AnswerRow,
) -> Result<(), Reason>
    ensures none { OnOk result
        (why words.old due.old (event_of event.now) (answer_of answer.now) ≡ None) }
    ensures reason { IfErr result
        (λ e. why words.old due.old (event_of event.now) (answer_of answer.now) ≡ Some e) }
    ensures step { OnOk result
        (judged words.old due.old (event_of event.now) (answer_of answer.now)
        ≡ Some (flat words.new due.new)) }
    ensures refused { OnErr result
        (judged words.old due.old (event_of event.now) (answer_of answer.now) ≡ None) }
    ensures table { OnOk result
        (due.new ≡ table_after words.old due.old (event_of event.now) (answer_of answer.now)) }
    ensures words { OnErr result (words.new ≡ words.old) }
    ensures due { OnErr result (due.new ≡ due.old) }
{
    let Some(event) = event.event() else {
        return Err(Reason::NoEvent);
    };
    let Some(answer) = answer.answer() else {
        return Err(Reason::NoAnswer);
    };
    let found = find(words, due, event, answer);
    if !may_answer(event, answer, found.inside, found.owed) {
        return Err(against(event, answer, found));
    }
    step(words, due, event, answer);
    Ok(())
}

pub(crate) fn find(words: &[Word], due: &[Due], event: Event, answer: Answer) -> Found
    ensures { Finds (flat words.now due.now) event answer result.inside result.owed }
{
    let inside = match event {
        Event::Load { at, .. } | Event::Store { at, .. } | Event::Prefetch { at } => {
            (at as usize) < words.len()
        }
        _ => false,
    };
    let owed = match (event, answer) {
        (Event::Load { tag, .. }, _) | (Event::Take { .. }, Answer::Value { tag, .. }) => {
            due_word(due, tag)
        }
        _ => None,
    };
    Found { inside, owed }
}

fn step(words: &mut [Word], due: &mut [Due], event: Event, answer: Answer)
    requires table { length due.old ≡ TAGS }
    requires may { may_answer (flat words.old due.old) event answer ≡ true }
    ensures step { flat words.new due.new ≡ flat_after (flat words.old due.old) event answer }
    ensures table { due.new ≡ table_with words.old due.old event answer }
{
    match (event, answer) {
        (Event::Load { tag, at }, Answer::Accepted) => {
            let word = words[at as usize];
            set_due(due, tag, Due { owed: 1, word });
        }
        (Event::Store { at, word, lanes }, Answer::Accepted) => {
            let old = words[at as usize];
            words[at as usize] = merge(old, word, lanes);
        }
        (Event::Take { .. }, Answer::Value { tag, word }) => {
            set_due(due, tag, Due { owed: 0, word });
        }
        _ => {}
    }
}
