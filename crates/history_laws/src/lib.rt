//! How the three laws of histories stand to one another, and the machine to them.
//!
//! - First call: [`atomic_is_regular`] or any other. The functions do nothing at run time: calling
//!   one brings its law into a proof.
//! - Caller: who proves something of histories. docs/PROVED.md names these laws as promises.
//!
//! A flat history is atomic, and an atomic one is regular. What the machine answers is a history of
//! each law.
#![tactic(auto)]

ghost use Rattle.std.specs.Prelude.{ℕ, List};
ghost use Rattle.memory_histories.specs.declared.events.HistoryEvent.{HistoryEvent};
ghost use Rattle.memory_histories.specs.declared.events.Rest.{Rest};
ghost use Rattle.machine_core.specs.Words.{Word, Event, Answer, Sizes};
ghost use Rattle.history_laws.specs.Laws.{AtomicIsRegular, FlatIsAtomic, FlatIsRegular};
ghost use Rattle.history_laws.specs.Told.{RunIsLawful, MachineIsLawful};
ghost use Rattle.history_laws.specs.Late.{LateIsAtomic};
ghost use Rattle.history_laws.specs.Since.{ToldLateIsAtomic};
ghost use Rattle.history_laws.specs.Cuts.{Cut, CutIsAtomicAt, CutRefutes, CutIsRegular};
ghost use Rattle.atomic_histories.specs.declared.unit.UnitPlace.{UnitPlace};
ghost use Rattle.run_reasons.specs.declared.reason.Mismatch.{Mismatch};

/// An atomic history, in units of any size, is a regular one.
pub fn atomic_is_regular()
    ensures { (image : List ℕ) (rest : Rest) (size : ℕ) (history : List HistoryEvent) → AtomicIsRegular image rest size history }
{}

/// A flat history is an atomic one: an operation may take effect right behind its request.
pub fn flat_is_atomic()
    ensures { (image : List ℕ) (rest : Rest) (size : ℕ) (history : List HistoryEvent) → FlatIsAtomic image rest size history }
{}

/// So a flat history is a regular one.
pub fn flat_is_regular()
    ensures { (image : List ℕ) (rest : Rest) (history : List HistoryEvent) → FlatIsRegular image rest history }
{}

/// A run of flat memory is a history of all three laws, if a load is open from acceptance to value,
/// and a store is answered at once.
pub fn run_is_lawful()
    ensures { (image : List Word) (size : ℕ) (events : List Event) (answers : List Answer) → RunIsLawful image size events answers }
{}

/// Whatever events come, no judge of the three laws blames the machine's answers.
pub fn machine_is_lawful()
    ensures { (z : Sizes) (image : List Word) (size : ℕ) (events : List Event) → MachineIsLawful z image size events }
{}

/// A wrong value is atomic all the same, if that word stood there at some moment since the load's
/// acceptance.
pub fn late_is_atomic()
    ensures { (image : List Word) (size : ℕ) (events : List Event) (answers : List Answer) (tag : ℕ) (place : ℕ) (word : Word)
        → LateIsAtomic image size events answers tag place word }
{}

/// So a run up to a wrong word that is explained as once there is atomic, in units of any size.
pub fn told_late_is_atomic()
    ensures { (words : List Word) (size : ℕ) (texts : List (List ℕ)) (steps : ℕ) (found : List ℕ) (m : Mismatch)
        → ToldLateIsAtomic words size texts steps found m }
{}

/// What stays of a history that is atomic at a unit is so too, if the cut is closed there: no load
/// that stays may have got a byte from a store that is left out.
pub fn cut_is_atomic()
    ensures { (image : List ℕ) (rest : Rest) (unit : UnitPlace) (stays : Cut) (history : List HistoryEvent)
        → CutIsAtomicAt image rest unit stays history }
{}

/// So a history is not atomic if what stays is not.
pub fn cut_refutes()
    ensures { (image : List ℕ) (rest : Rest) (size : ℕ) (k : ℕ) (stays : Cut) (history : List HistoryEvent)
        → CutRefutes image rest size k stays history }
{}

/// The same of the regular law, if the cut is closed at each unit.
pub fn cut_is_regular()
    ensures { (image : List ℕ) (rest : Rest) (stays : Cut) (history : List HistoryEvent) → CutIsRegular image rest stays history }
{}
