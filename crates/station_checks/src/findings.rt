//! What is found behind a run.
ghost use Rattle.std.specs.Prelude.{◌≡◌, ◌≢◌, ◌↔◌, true, false, is_some, Some, None, IfOk, OnErr};
ghost use Rattle.flat_model.specs.Memory.{shown};
ghost use Rattle.std.specs.Option.{option_map};
ghost use Rattle.station_checks.specs.Checks.{flat_after, is_flat, FindsTold};
ghost use Rattle.station_checks.specs.Outcomes.{outcome_of};

use crate::checks::{are_told, goes_on, is_flat};
use flat_model::FlatMemory;
use station_journal::{Entry, Told};
use station_parts::Audit;
use std::alloc::{AllocError, Global};

/// What a run came to.
#[derive(Clone, Copy, PartialEq, Eq, Debug)]
pub enum Outcome {
    /// Each thread ended, and all that was looked for was found.
    Good,
    /// A thread came to its limit, and nothing wrong was found.
    TurnLimit,
    /// Something wrong was found.
    Failed,
}

/// What was found behind a run.
#[derive(Clone, Copy, PartialEq, Eq, Debug)]
pub struct Findings {
    /// What the audit found.
    pub audit: Audit,
    /// Whether the journal is a run of flat memory.
    pub is_flat: bool,
    /// Whether each port's list is its part of the journal; `None` after a limit.
    pub are_told: Option<bool>,
}

impl Findings {
    /// Judges a journal from zeros, and the ports' lists. `AllocError`: too little memory.
    pub fn of_run(
        alloc: Global,
        audit: Audit,
        journal: &[Entry],
        words: u32,
        lists: Option<&[Vec<Told>]>,
    ) -> Result<Findings, AllocError>
        ensures audit { IfOk result (λ found. found.audit ≡ audit) }
        ensures flat { IfOk result (λ found. found.is_flat ≡ is_flat words journal.now) }
        ensures told { IfOk result (λ found. FindsTold journal.now (option_map (λ l. l.now) lists.entry) found.are_told) }
    {
        let are_told = match lists {
            Some(lists) => Some(are_told(alloc, journal, lists)?),
            None => None,
        };
        Ok(Findings {
            audit,
            is_flat: is_flat(alloc, journal, words)?,
            are_told,
        })
    }

    /// Judges a journal that goes on from this memory, which then is as a flat journal leaves it. Else, and
    /// after `AllocError`, it is as it was.
    pub fn of_segment(
        alloc: Global,
        audit: Audit,
        journal: &[Entry],
        memory: &mut FlatMemory,
        lists: &[Vec<Told>],
    ) -> Result<Findings, AllocError>
        ensures audit { IfOk result (λ found. found.audit ≡ audit) }
        ensures flat { IfOk result
            (λ found. found.is_flat ≡ is_some (flat_after (shown memory.old) journal.now)) }
        ensures moved { IfOk result (λ found. found.is_flat ≡ true
            → flat_after (shown memory.old) journal.now ≡ Some (shown memory.new)) }
        ensures kept { IfOk result (λ found. found.is_flat ≡ false → shown memory.new ≡ shown memory.old) }
        ensures unmoved { OnErr result (shown memory.new ≡ shown memory.old) }
        ensures told { IfOk result (λ found. FindsTold journal.now (Some lists.now) found.are_told) }
    {
        let are_told = are_told(alloc, journal, lists)?;
        Ok(Findings {
            audit,
            is_flat: goes_on(alloc, memory, journal)?,
            are_told: Some(are_told),
        })
    }

    /// What they come to.
    pub fn outcome(&self) -> Outcome
        ensures exact { result ≡ outcome_of self.now }
        ensures good { (result ≡ Outcome.Good)
            ↔ ((self.now.audit ≡ Audit.Clean) × (self.now.is_flat ≡ true)
            × (self.now.are_told ≡ Some true)) }
        ensures limit { (result ≡ Outcome.TurnLimit)
            ↔ ((self.now.audit ≢ Audit.Faulted) × (self.now.is_flat ≡ true)
            × (self.now.are_told ≡ None)) }
    {
        match (self.audit, self.is_flat, self.are_told) {
            (Audit::Clean, true, Some(true)) => Outcome::Good,
            (Audit::Clean | Audit::Left { .. } | Audit::Owed { .. }, true, None) => {
                Outcome::TurnLimit
            }
            _ => Outcome::Failed,
        }
    }
}
