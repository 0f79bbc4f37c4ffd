//! Why a recorded run is none of flat memory, in a format.

ghost use Rattle.std.specs.Prelude.{◌≡◌, Some, map};
ghost use Rattle.named_fields.specs.Formats.{said};
ghost use Rattle.result_formats.specs.Explanations as explanations;

use crate::origins::{ByteOrigins, BytePlace, origins_in};
use flat_model::Answer;
use named_fields::{Field, Figure, Object, VerdictFormat};
use run_reasons::{Explanation, Mismatch, Reason, WrongWord};
use std::fmt;

// ---- the verdict, and the line

// The verdict with its steps or its line.
fn ending_fields(explanation: &Explanation) -> [Field<'static>; 3]
    ensures { map said result ≡ explanations.ending_named explanation.now }
{
    match explanation {
        Explanation::Flat { steps } => [
            Field::called("verdict", "flat"),
            Field::count("steps", *steps),
            Field::missing("line"),
        ],
        Explanation::Mismatch(mismatch) => [
            Field::called("verdict", "mismatch"),
            Field::missing("steps"),
            Field::count("line", mismatch.line),
        ],
    }
}

// The cause of a refusal.
fn cause_fields(answer: Answer) -> [Field<'static>; 2]
    ensures { map said result ≡ explanations.cause_named answer }
{
    match answer {
        Answer::Refused(cause) => [
            Field::count("cause", u64::from(cause.number())),
            Field::called("cause_name", cause.name()),
        ],
        _ => [Field::missing("cause"), Field::missing("cause_name")],
    }
}

// The event with its answer.
fn pair_fields(mismatch: Option<Mismatch>) -> [Field<'static>; 4]
    ensures { map said result ≡ explanations.pair_named mismatch }
{
    match mismatch {
        None => [
            Field::missing("event"),
            Field::missing("answer"),
            Field::missing("cause"),
            Field::missing("cause_name"),
        ],
        Some(mismatch) => {
            let [cause, cause_name] = cause_fields(mismatch.answer);
            let event = Field {
                name: "event",
                figure: Figure::OfEvent(mismatch.event),
            };
            let answer = Field {
                name: "answer",
                figure: Figure::OfAnswer(mismatch.answer),
            };
            [event, answer, cause, cause_name]
        }
    }
}

// ---- why

fn reason_name(reason: Reason) -> &'static str
    ensures { result.now ≡ explanations.reason_name reason }
{
    match reason {
        Reason::NeverAnswered => "never_answered",
        Reason::NeverRefused => "never_refused",
        Reason::Outside { .. } => "outside_memory",
        Reason::Inside { .. } => "inside_memory",
        Reason::TagInUse { .. } => "tag_in_use",
        Reason::NeverLoaded { .. } => "never_loaded",
        Reason::Taken { .. } => "taken",
        Reason::NoLanes => "no_lanes",
        Reason::HasLanes => "has_lanes",
        Reason::WrongWord(_) => "wrong_word",
    }
}

fn reason_field(reason: Option<Reason>) -> Field<'static>
    ensures { said result ≡ explanations.reason_named reason }
{
    match reason {
        None => Field::missing("reason"),
        Some(reason) => Field::called("reason", reason_name(reason)),
    }
}

// The tag that it is about.
fn tag_in(reason: Option<Reason>) -> Option<u64>
    ensures { result ≡ explanations.tag_in reason }
{
    match reason {
        Some(
            Reason::TagInUse { tag, .. } | Reason::NeverLoaded { tag } | Reason::Taken { tag, .. },
        ) => Some(u64::from(tag)),
        Some(Reason::WrongWord(wrong)) => Some(u64::from(wrong.tag)),
        _ => None,
    }
}

// The word's address.
fn address_in(reason: Option<Reason>) -> Option<u64>
    ensures { result ≡ explanations.address_in reason }
{
    match reason {
        Some(Reason::Outside { at, .. } | Reason::Inside { at, .. }) => Some(u64::from(at)),
        Some(Reason::WrongWord(wrong)) => Some(u64::from(wrong.load.at)),
        _ => None,
    }
}

// How many words memory has.
fn words_in(reason: Option<Reason>) -> Option<u64>
    ensures { result ≡ explanations.words_in reason }
{
    match reason {
        Some(Reason::Outside { words, .. } | Reason::Inside { words, .. }) => {
            Some(u64::from(words))
        }
        _ => None,
    }
}

// The line of the load that has the tag.
fn load_line_in(reason: Option<Reason>) -> Option<u64>
    ensures { result ≡ explanations.load_line_in reason }
{
    match reason {
        Some(Reason::TagInUse { line, .. }) => Some(line),
        Some(Reason::WrongWord(wrong)) => Some(wrong.load.line),
        _ => None,
    }
}

// The line in which the tag's value was taken.
fn taken_line_in(reason: Option<Reason>) -> Option<u64>
    ensures { result ≡ explanations.taken_line_in reason }
{
    match reason {
        Some(Reason::Taken { line, .. }) => Some(line),
        _ => None,
    }
}

// The reason, and the numbers that it is about.
fn about_fields(reason: Option<Reason>) -> [Field<'static>; 6]
    ensures { map said result ≡ explanations.about_named reason }
{
    [
        reason_field(reason),
        Field::count_if("tag", tag_in(reason)),
        Field::count_if("address", address_in(reason)),
        Field::count_if("words", words_in(reason)),
        Field::count_if("load_line", load_line_in(reason)),
        Field::count_if("taken_line", taken_line_in(reason)),
    ]
}

// ---- a wrong word

fn wrong_in(reason: Option<Reason>) -> Option<WrongWord>
    ensures { result ≡ explanations.wrong_in reason }
{
    match reason {
        Some(Reason::WrongWord(wrong)) => Some(wrong),
        _ => None,
    }
}

// The word that is owed, and the one that came.
fn words_fields(wrong: Option<WrongWord>) -> [Field<'static>; 2]
    ensures { map said result ≡ explanations.words_named wrong }
{
    match wrong {
        None => [Field::missing("owed"), Field::missing("got")],
        Some(wrong) => {
            let owed = Field {
                name: "owed",
                figure: Figure::OfWord(wrong.load.word),
            };
            let got = Field {
                name: "got",
                figure: Figure::OfWord(wrong.got),
            };
            [owed, got]
        }
    }
}

// Whether the word that came stood there since the load was accepted.
fn atomic_field(wrong: Option<WrongWord>) -> Field<'static>
    ensures { said result ≡ explanations.atomic_named wrong }
{
    match wrong {
        None => Field::missing("atomic"),
        Some(wrong) => Field {
            name: "atomic",
            figure: Figure::Truth(wrong.stood_since),
        },
    }
}

// Where a byte comes from.
fn origins_fields(place: BytePlace, origins: ByteOrigins) -> [Field<'static>; 4]
    ensures { map said result ≡ explanations.origins_named place origins }
{
    match place {
        BytePlace::First => [
            Field::count_if("byte0_owed_from", origins.owed_from),
            Field::count_if("byte0_got_from", origins.got_from),
            Field::count_if("byte0_put_by", origins.put_by),
            Field::count_if("byte0_overwritten_by", origins.overwritten_by),
        ],
        BytePlace::Second => [
            Field::count_if("byte1_owed_from", origins.owed_from),
            Field::count_if("byte1_got_from", origins.got_from),
            Field::count_if("byte1_put_by", origins.put_by),
            Field::count_if("byte1_overwritten_by", origins.overwritten_by),
        ],
        BytePlace::Third => [
            Field::count_if("byte2_owed_from", origins.owed_from),
            Field::count_if("byte2_got_from", origins.got_from),
            Field::count_if("byte2_put_by", origins.put_by),
            Field::count_if("byte2_overwritten_by", origins.overwritten_by),
        ],
        BytePlace::Fourth => [
            Field::count_if("byte3_owed_from", origins.owed_from),
            Field::count_if("byte3_got_from", origins.got_from),
            Field::count_if("byte3_put_by", origins.put_by),
            Field::count_if("byte3_overwritten_by", origins.overwritten_by),
        ],
    }
}

// Where a byte of it comes from.
fn byte_fields(place: BytePlace, wrong: Option<WrongWord>) -> [Field<'static>; 4]
    ensures { map said result ≡ explanations.byte_named place wrong }
{
    origins_fields(place, origins_in(place, wrong))
}

// Where each of its bytes comes from.
fn bytes_fields(wrong: Option<WrongWord>) -> [Field<'static>; 16]
    ensures { map said result ≡ explanations.bytes_named wrong }
{
    let [a0, a1, a2, a3] = byte_fields(BytePlace::First, wrong);
    let [b0, b1, b2, b3] = byte_fields(BytePlace::Second, wrong);
    let [c0, c1, c2, c3] = byte_fields(BytePlace::Third, wrong);
    let [d0, d1, d2, d3] = byte_fields(BytePlace::Fourth, wrong);
    [
        a0, a1, a2, a3, b0, b1, b2, b3, c0, c1, c2, c3, d0, d1, d2, d3,
    ]
}

// ---- the whole

fn mismatch_in(explanation: &Explanation) -> Option<Mismatch>
    ensures { result ≡ explanations.mismatch_in explanation.now }
{
    match explanation {
        Explanation::Flat { .. } => None,
        Explanation::Mismatch(mismatch) => Some(*mismatch),
    }
}

fn reason_in(explanation: &Explanation) -> Option<Reason>
    ensures { result ≡ explanations.reason_in explanation.now }
{
    match explanation {
        Explanation::Flat { .. } => None,
        Explanation::Mismatch(mismatch) => Some(mismatch.reason),
    }
}

// Behind the line's number: the event with its answer, the reason, and the words.
const FRONT_FIELDS: usize = 12;

// Which answer it is that flat memory doesn't give, and why.
fn front_fields(
    mismatch: Option<Mismatch>,
    reason: Option<Reason>,
) -> [Field<'static>; FRONT_FIELDS]
    ensures { map said result ≡ explanations.front_named mismatch reason }
{
    let [event, answer, cause, cause_name] = pair_fields(mismatch);
    let [why, tag, address, words, load_line, taken_line] = about_fields(reason);
    let [owed, got] = words_fields(wrong_in(reason));
    [
        event, answer, cause, cause_name, why, tag, address, words, load_line, taken_line, owed,
        got,
    ]
}

// How many fields an explanation has.
const EXPLANATION_FIELDS: usize = 32;

// The fields of an explanation: the verdict with its steps or its line, the event with its answer, the reason, and the
// words with the lines that their bytes come from, and whether the run is an atomic history.
#[tactic(auto, unfolding(crate::specs::Explanations::explanation_named))]
fn explanation_fields(explanation: &Explanation) -> [Field<'static>; EXPLANATION_FIELDS]
    ensures { map said result ≡ explanations.explanation_named explanation.now }
{
    let reason = reason_in(explanation);
    let wrong = wrong_in(reason);
    let [verdict, steps, line] = ending_fields(explanation);
    let [f0, f1, f2, f3, f4, f5, f6, f7, f8, f9, f10, f11] = front_fields(
        mismatch_in(explanation),
        reason,
    );
    let [
        b0,
        b1,
        b2,
        b3,
        b4,
        b5,
        b6,
        b7,
        b8,
        b9,
        b10,
        b11,
        b12,
        b13,
        b14,
        b15,
    ] = bytes_fields(wrong);
    let atomic = atomic_field(wrong);
    [
        verdict, steps, line, f0, f1, f2, f3, f4, f5, f6, f7, f8, f9, f10, f11, b0, b1, b2, b3, b4,
        b5, b6, b7, b8, b9, b10, b11, b12, b13, b14, b15, atomic,
    ]
}

/// What became of a recorded run, in a format.
#[derive(Clone, Copy)]
pub struct ExplanationIn(pub VerdictFormat, pub Explanation);

impl fmt::Display for ExplanationIn {
    ghost output = { λ it. Some (explanations.explanation_in it.0 it.1) };

    #[tactic(auto, unfolding(crate::specs::Explanations::explanation_in, named_fields::specs::Formats::verdict_in))]
    fn fmt<W: fmt::Write>(&self, f: &mut fmt::Formatter<W>) -> fmt::Result {
        let explanation = self.1;
        let fields = explanation_fields(&explanation);
        match self.0 {
            VerdictFormat::Text => write!(f, "{explanation}"),
            VerdictFormat::Json => write!(f, "{}", Object(&fields)),
        }
    }
}
