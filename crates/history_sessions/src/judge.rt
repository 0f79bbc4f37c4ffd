//! The judges of all laws as one.
ghost use Rattle.std.specs.Prelude.{◌≡◌, true, Some, IfOk, IfErr, OnOk, OnErr};
ghost use Rattle.history_sessions.specs.History.{History, name_of, law_text, opening, Passes, history_after, history_forgetting, has_units};
ghost use Rattle.history_sessions.specs.Kept.{IsOf, JudgeFaultIs, IsFound, IsSetFound, IsAllowed, ForgetFaultIs};

use crate::faults::{ForgetFault, JudgeFault};
use crate::steps::{
    forget_atomic, found, found_atomic, set_atomic, step_atomic, step_flat, step_regular,
};
use atomic_histories::{AtomicMemory, UnitSize};
use memory_histories::{ByteSet, FlatHistory, HistoryEvent, RegularMemory, Rest};
use std::alloc::{AllocError, Global};
use std::fmt;

/// A law's name.
#[derive(Clone, Copy, PartialEq, Eq, Debug)]
pub enum LawName {
    /// An operation takes effect at its request.
    Flat,
    /// At a moment between request and response, in each unit at once.
    Atomic,
    /// So does each byte, and each load for itself.
    Regular,
}

impl fmt::Display for LawName {
    ghost output = { λ law. Some (law_text law) };

    fn fmt<W: fmt::Write>(&self, f: &mut fmt::Formatter<W>) -> fmt::Result {
        f.write_str(match self {
            LawName::Flat => "flat",
            LawName::Atomic => "atomic",
            LawName::Regular => "regular",
        })
    }
}

/// A law, and what its judge is told.
#[derive(Clone, Copy, PartialEq, Eq, Debug)]
pub enum HistoryLaw {
    /// An operation takes effect at its request.
    Flat,
    /// At a moment between request and response, in each unit at once.
    Atomic {
        /// A unit's size.
        unit: UnitSize,
        /// Most pairs of a word and the stores in effect that are followed at a unit.
        limit: usize,
    },
    /// So does each byte, and each load for itself.
    Regular,
}

impl HistoryLaw {
    /// Its name.
    pub fn name(self) -> LawName
        ensures { result ≡ name_of self }
    {
        match self {
            HistoryLaw::Flat => LawName::Flat,
            HistoryLaw::Atomic { .. } => LawName::Atomic,
            HistoryLaw::Regular => LawName::Regular,
        }
    }
}

/// A history judged by one law.
#[derive(Drop)]
pub enum Judge {
    /// By the regular law.
    Regular(RegularMemory),
    /// By the flat law.
    Flat(FlatHistory),
    /// By the atomic law.
    Atomic(AtomicMemory),
}

impl Judge {
    #[tactic(auto, using(crate::proofs::AtomicJudge::opened))]
    pub(crate) fn new(
        alloc: Global,
        law: HistoryLaw,
        image: &[u8],
        rest: Rest,
    ) -> Result<Judge, AllocError>
        ensures { IfOk result (λ m. IsOf m (opening law image.now rest)) }
    {
        match law {
            HistoryLaw::Regular => Ok(Judge::Regular(RegularMemory::new(alloc, image, rest)?)),
            HistoryLaw::Flat => Ok(Judge::Flat(FlatHistory::new(alloc, image, rest)?)),
            HistoryLaw::Atomic { unit, limit } => {
                let memory = AtomicMemory::new(alloc, unit, limit, image, rest)?;
                Ok(Judge::Atomic(memory))
            }
        }
    }

    // `None` if a step would take it, were there room.
    pub(crate) fn fault(&self, event: HistoryEvent) -> Option<JudgeFault>
        ensures { (h : History) → IsOf self.now h → IsFound self.now h event.entry result }
    {
        match self {
            Judge::Regular(memory) => found(memory.fault(event)),
            Judge::Flat(memory) => found(memory.fault(event)),
            Judge::Atomic(memory) => found_atomic(memory, event),
        }
    }

    pub(crate) fn may_return(
        &self,
        number: u64,
        address: u64,
    ) -> Result<Option<ByteSet>, JudgeFault>
        ensures { (h : History) → IsOf self.now h → IsSetFound self.now h number address result }
    {
        match self {
            Judge::Regular(memory) => Ok(memory.may_return(number, address)),
            Judge::Flat(memory) => Ok(memory.may_return(number, address)),
            Judge::Atomic(memory) => set_atomic(memory, number, address),
        }
    }

    pub(crate) fn allowed(&self, number: u64, address: u64) -> Option<ByteSet>
        ensures { (h : History) → IsOf self.now h → IsAllowed h number address result }
    {
        match self {
            Judge::Regular(memory) => memory.may_return(number, address),
            Judge::Flat(memory) => memory.may_return(number, address),
            Judge::Atomic(_memory) => None,
        }
    }

    #[inline(always)]
    pub(crate) fn step(&mut self, event: HistoryEvent) -> Result<(), JudgeFault>
        ensures ok { (h : History)
            → IsOf self.old h
            → OnOk result (Passes h event.entry × IsOf self.new (history_after h event.entry)) }
        ensures fault { (h : History)
            → IsOf self.old h
            → IfErr result (JudgeFaultIs self.old h event.entry) }
        ensures unchanged { (h : History) → IsOf self.old h → OnErr result (IsOf self.new h) }
    {
        match self {
            Judge::Regular(memory) => step_regular(memory, event),
            Judge::Flat(memory) => step_flat(memory, event),
            Judge::Atomic(memory) => step_atomic(memory, event),
        }
    }

    pub(crate) fn forget(&mut self, address: u64) -> Result<(), ForgetFault>
        ensures ok { (h : History)
            → IsOf self.old h
            → OnOk result ((has_units h ≡ true) × IsOf self.new (history_forgetting address h)) }
        ensures fault { (h : History) → IsOf self.old h → IfErr result (ForgetFaultIs h) }
        ensures unchanged { (h : History) → IsOf self.old h → OnErr result (IsOf self.new h) }
    {
        match self {
            Judge::Regular(_memory) => Err(ForgetFault::NoUnits),
            Judge::Flat(_memory) => Err(ForgetFault::NoUnits),
            Judge::Atomic(memory) => {
                forget_atomic(memory, address)?;
                Ok(())
            }
        }
    }
}
