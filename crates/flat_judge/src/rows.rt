//! Events and answers as plain numbers.
ghost use Rattle.std.specs.Prelude.{◌≡◌};
ghost use Rattle.flat_judge.specs.Rows.{event_of, lanes_of, answer_of, event_row, answer_row, plain_event};

use flat_model::{Answer, Cause, Event, Lanes, Word};

const ZERO_WORD: Word = Word {
    b0: 0,
    b1: 0,
    b2: 0,
    b3: 0,
};

/// Kinds: 0 load, 1 store, 2 prefetch, 3 evict, 4 drain, 5 serve, 6 arrive, 7 process, 8 take.
/// Other kinds' numbers aren't read.
#[repr(C)]
#[derive(Clone, Copy)]
pub struct EventRow {
    /// 0 to 8.
    pub kind: u32,
    /// A load's tag.
    pub tag: u16,
    /// A store's, bit `k` for byte `k`; bits 4 to 7 are dropped.
    pub lanes: u8,
    /// The word, the evicted block, or the bank.
    pub at: u32,
    /// The place.
    pub place: u32,
    /// A store's word.
    pub word: Word,
}

/// Kinds: 0 accepted, 1 moved, 2 value, 3 nothing, 4 refused.
#[repr(C)]
#[derive(Clone, Copy)]
pub struct AnswerRow {
    /// 0 to 4.
    pub kind: u32,
    /// Of a refusal: 1 to 13.
    pub cause: u32,
    /// A value's tag.
    pub tag: u16,
    /// A value's word.
    pub word: Word,
}

impl EventRow {
    /// `None` for other kinds.
    pub fn event(&self) -> Option<Event>
        ensures { result ≡ event_of self.now }
    {
        match self.kind {
            0 => Some(Event::Load {
                tag: self.tag,
                at: self.at,
            }),
            1 => Some(Event::Store {
                at: self.at,
                word: self.word,
                lanes: lanes_of(self.lanes),
            }),
            2 => Some(Event::Prefetch { at: self.at }),
            3 => Some(Event::Evict { block: self.at }),
            4 => Some(Event::Drain),
            5 => Some(Event::Serve { bank: self.at }),
            6 => Some(Event::Arrive {
                bank: self.at,
                place: self.place,
            }),
            7 => Some(Event::Process { place: self.place }),
            8 => Some(Event::Take { place: self.place }),
            _ => None,
        }
    }
}

fn lanes_of(byte: u8) -> Lanes
    ensures { result ≡ lanes_of byte }
{
    Lanes(byte & 15)
}

impl AnswerRow {
    /// `None` for other kinds or causes.
    pub fn answer(&self) -> Option<Answer>
        ensures { result ≡ answer_of self.now }
    {
        match self.kind {
            0 => Some(Answer::Accepted),
            1 => Some(Answer::Moved),
            2 => Some(Answer::Value {
                tag: self.tag,
                word: self.word,
            }),
            3 => Some(Answer::Nothing),
            4 => Some(Answer::Refused(Cause::from_number(self.cause)?)),
            _ => None,
        }
    }
}

/// An event as a row.
pub fn event_row(event: Event) -> EventRow
    ensures { result ≡ event_row event }
{
    match event {
        Event::Load { tag, at } => EventRow {
            tag,
            ..plain_event(0, at, 0)
        },
        Event::Store { at, word, lanes } => EventRow {
            word,
            lanes: lanes.0,
            ..plain_event(1, at, 0)
        },
        Event::Prefetch { at } => plain_event(2, at, 0),
        Event::Evict { block } => plain_event(3, block, 0),
        Event::Drain => plain_event(4, 0, 0),
        Event::Serve { bank } => plain_event(5, bank, 0),
        Event::Arrive { bank, place } => plain_event(6, bank, place),
        Event::Process { place } => plain_event(7, 0, place),
        Event::Take { place } => plain_event(8, 0, place),
    }
}

/// An answer as a row.
pub fn answer_row(answer: Answer) -> AnswerRow
    ensures { result ≡ answer_row answer }
{
    let word = ZERO_WORD;
    let blank = AnswerRow {
        kind: 0,
        cause: 0,
        tag: 0,
        word,
    };
    match answer {
        Answer::Accepted => blank,
        Answer::Moved => AnswerRow { kind: 1, ..blank },
        Answer::Value { tag, word } => AnswerRow {
            kind: 2,
            cause: 0,
            tag,
            word,
        },
        Answer::Nothing => AnswerRow { kind: 3, ..blank },
        Answer::Refused(cause) => AnswerRow {
            kind: 4,
            cause: u32::from(cause.number()),
            ..blank
        },
    }
}

fn plain_event(kind: u32, at: u32, place: u32) -> EventRow
    ensures { result ≡ plain_event kind at place }
{
    EventRow {
        kind,
        tag: 0,
        lanes: 0,
        at,
        place,
        word: ZERO_WORD,
    }
}
