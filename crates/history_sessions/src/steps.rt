//! Each law's answers in the words that all share.
ghost use Rattle.std.specs.Prelude.{◌≡◌, None, IfErr, OnOk, OnErr};
ghost use Rattle.memory_histories.specs.Windows.{Windows, windows_after};
ghost use Rattle.memory_histories.specs.Regular.{fault};
ghost use Rattle.memory_histories.specs.Flat.{Flat, flat_fault, flat_after};
ghost use Rattle.memory_histories.specs.Kept.{StandsFor};
ghost use Rattle.memory_histories.specs.Shown.{kept};
ghost use Rattle.memory_histories.specs.FlatShown.{shown};
ghost use Rattle.history_sessions.specs.Atomic.{Atomic, with_event, forgetting, IsLawful, IsJudgeOf};
ghost use Rattle.history_sessions.specs.declared.judge.Judge.TheVariants as judge;
ghost use Rattle.history_sessions.specs.Kept.{ExactFaultIs, AtomicFaultIs, IsExactlyFound, IsAtomicallyFound, IsAtomicSet};

use crate::faults::JudgeFault;
use atomic_histories::AtomicMemory;
use memory_histories::{ByteSet, FlatHistory, HistoryEvent, HistoryFault, RegularMemory};
use std::alloc::AllocError;

pub(crate) fn found(fault: Option<HistoryFault>) -> Option<JudgeFault>
    ensures { IsExactlyFound fault result }
{
    match fault {
        Some(cause) => Some(JudgeFault::Refused(cause)),
        None => None,
    }
}

#[inline(always)]
pub(crate) fn step_regular(
    memory: &mut RegularMemory,
    event: HistoryEvent,
) -> Result<(), JudgeFault>
    ensures ok { (w : Windows)
        → StandsFor (kept memory.old) w
        → OnOk result ((fault w event.entry ≡ None) × StandsFor (kept memory.new) (windows_after w event.entry)) }
    ensures fault { (w : Windows)
        → StandsFor (kept memory.old) w
        → IfErr result (ExactFaultIs (fault w event.entry) w.moment) }
    ensures unchanged { OnErr result (kept memory.new ≡ kept memory.old) }
{
    memory.step(event)?;
    Ok(())
}

#[inline(always)]
pub(crate) fn step_flat(memory: &mut FlatHistory, event: HistoryEvent) -> Result<(), JudgeFault>
    ensures ok { (f : Flat)
        → shown memory.old ≡ f
        → OnOk result ((flat_fault f event.entry ≡ None) × (shown memory.new ≡ flat_after f event.entry)) }
    ensures fault { (f : Flat)
        → shown memory.old ≡ f
        → IfErr result (ExactFaultIs (flat_fault f event.entry) f.moment) }
    ensures unchanged { OnErr result (shown memory.new ≡ shown memory.old) }
{
    memory.step(event)?;
    Ok(())
}

#[inline(always)]
#[tactic(auto, using(crate::proofs::AtomicJudge::still))]
pub(crate) fn step_atomic(memory: &mut AtomicMemory, event: HistoryEvent) -> Result<(), JudgeFault>
    ensures ok { (a : Atomic)
        → IsJudgeOf memory.old a
        → OnOk result (IsLawful a event.entry × IsJudgeOf memory.new (with_event a event.entry)) }
    ensures fault { (a : Atomic)
        → IsJudgeOf memory.old a
        → IfErr result (AtomicFaultIs (judge.Atomic memory.old) a event.entry) }
    ensures unchanged { (a : Atomic)
        → IsJudgeOf memory.old a
        → OnErr result (IsJudgeOf memory.new a) }
{
    memory.step(event)?;
    Ok(())
}

#[tactic(auto, using(crate::proofs::AtomicJudge::lawful))]
pub(crate) fn found_atomic(memory: &AtomicMemory, event: HistoryEvent) -> Option<JudgeFault>
    ensures { (a : Atomic)
        → IsJudgeOf memory.now a
        → IsAtomicallyFound (judge.Atomic memory.now) a event.entry result }
{
    match memory.fault(event) {
        None => None,
        Some(fault) => Some(JudgeFault::from(fault)),
    }
}

pub(crate) fn set_atomic(
    memory: &AtomicMemory,
    number: u64,
    address: u64,
) -> Result<Option<ByteSet>, JudgeFault>
    ensures { (a : Atomic)
        → IsJudgeOf memory.now a
        → IsAtomicSet (judge.Atomic memory.now) a number address result }
{
    let set = memory.byte_may_return(number, address)?;
    Ok(set)
}

#[tactic(auto, using(crate::proofs::AtomicJudge::forgot, crate::proofs::AtomicJudge::still))]
pub(crate) fn forget_atomic(memory: &mut AtomicMemory, address: u64) -> Result<(), AllocError>
    ensures ok { (a : Atomic)
        → IsJudgeOf memory.old a
        → OnOk result (IsJudgeOf memory.new (forgetting address a)) }
    ensures unchanged { (a : Atomic)
        → IsJudgeOf memory.old a
        → OnErr result (IsJudgeOf memory.new a) }
{
    memory.forget(address)?;
    Ok(())
}
