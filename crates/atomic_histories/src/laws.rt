//! Laws over the definitions. The functions do nothing.

ghost use Rattle.std.specs.Prelude.{ℕ, List, Option};
ghost use Rattle.memory_histories.specs.declared.events.HistoryEvent.{HistoryEvent};
ghost use Rattle.memory_histories.specs.declared.events.Rest.{Rest};
ghost use Rattle.atomic_histories.specs.declared.memory.AtomicFault.{AtomicFault};
ghost use Rattle.atomic_histories.specs.Held.{Held};
ghost use Rattle.atomic_histories.specs.MayLaws.{SetIsOfAnswers, SetsAreOfAnswers, UnitsChooseAlone};
ghost use Rattle.atomic_histories.specs.Told.{AreToldAlike};
ghost use Rattle.atomic_histories.specs.Wide.{NoSetsAreMuch, UndecidedIsMuch};

/// A byte is in a set of [`may_return`](crate::AtomicMemory::may_return) exactly if
/// [`step`](crate::AtomicMemory::step) would take an answer that has it there. In a forgotten unit
/// each byte is.
pub fn sets_are_of_answers()
    ensures { (lost : List ℕ) (image : List ℕ) (rest : Rest) (size : ℕ) (history : List HistoryEvent)
        (number : ℕ)
        → SetsAreOfAnswers lost image rest size history number }
{}

/// The same of [`byte_may_return`](crate::AtomicMemory::byte_may_return). Without a set no answer
/// has a byte there.
pub fn set_is_of_answers()
    ensures { (lost : List ℕ) (image : List ℕ) (rest : Rest) (size : ℕ) (history : List HistoryEvent)
        (number : ℕ)
        → SetIsOfAnswers lost image rest size history number }
{}

/// Units choose alone: an answer of the load's length is taken exactly if each unit has a taken
/// answer with the same bytes there.
pub fn units_choose_alone()
    ensures { (lost : List ℕ) (image : List ℕ) (rest : Rest) (size : ℕ) (history : List HistoryEvent)
        (number : ℕ)
        → UnitsChooseAlone lost image rest size history number }
{}

/// If [`step`](crate::AtomicMemory::step) is [`Undecided`](crate::AtomicFault::Undecided), the unit
/// may be in more states than the limit, each with another word or other stores in effect, whoever
/// judges; or more than [`MOST_WORDS`](crate::MOST_WORDS) are kept.
pub fn undecided_is_much()
    ensures { (limit : ℕ) (h : Held) (lost : List ℕ) (history : List HistoryEvent)
        (event : HistoryEvent) (address : ℕ)
        → UndecidedIsMuch limit h lost history event address }
{}

/// The same of [`may_return`](crate::AtomicMemory::may_return), at a unit of the load's. There kept
/// words don't count.
pub fn no_sets_are_much()
    ensures { (limit : ℕ) (h : Held) (lost : List ℕ) (history : List HistoryEvent) (a n address : ℕ)
        → NoSetsAreMuch limit h lost history a n address }
{}

/// [`step`](crate::AtomicMemory::step) and [`fault`](crate::AtomicMemory::fault) say the same,
/// unless memory is short or a touched unit keeps more than [`MOST_WORDS`](crate::MOST_WORDS).
pub fn events_are_told_alike()
    ensures { (limit : ℕ) (h : Held) (event : HistoryEvent) (one other : Option AtomicFault)
        → AreToldAlike limit h event one other }
{}
