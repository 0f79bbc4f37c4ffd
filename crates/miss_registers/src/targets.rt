//! Loads that wait for a register's words.
ghost use Rattle.std.specs.Prelude.{◌≡◌, ◌<◌, ◌≤◌, ◌++◌, [], ◌∷◌, ◌==◌, length, not};
ghost use Rattle.std.specs.List.{list_any, filter};
ghost use Rattle.miss_registers.specs.declared.TheConstants.{MAX_WAITING};
ghost use Rattle.miss_registers.specs.declared.targets.TheConstants.{MAX_TARGETS};
ghost use Rattle.miss_registers.specs.Targets as spec;

use crate::{MAX_WAITING, Owed, OwedList};
use arrayvec::ArrayVec;
use flat_model::MAX_BLOCK_WORDS;
use std::marker::Model;

/// The most loads of a register.
pub const MAX_TARGETS: usize = MAX_WAITING * MAX_BLOCK_WORDS;

/// A waiting load, with its word's number.
#[derive(Clone, Copy, PartialEq, Eq, Debug, Default)]
pub struct Target {
    /// The word's number.
    pub i: u32,
    /// The load.
    pub owed: Owed,
}

/// Waiting loads in the order in which they came.
#[derive(Drop)]
pub struct Targets {
    items: ArrayVec<Target, MAX_TARGETS>,
}

impl Model for Targets {
    ghost use Rattle.std.specs.Prelude.{List};
    ghost use Rattle.miss_registers.specs.declared.targets.Target.{Target};

    ghost Value = { List Target };

    ghost view = { λ a. a.items.items };
}

impl Targets {
    /// No load.
    pub fn new() -> Self
        ensures { result ≡ [] }
    {
        Targets {
            items: ArrayVec::new(),
        }
    }

    /// No load waits any longer.
    pub fn clear(&mut self)
        ensures { self.new ≡ [] }
    {
        self.items.clear();
    }

    /// Adds a load behind all others.
    pub fn push(&mut self, i: u32, owed: Owed)
        requires { length self.old < MAX_TARGETS }
        ensures { self.new ≡ self.old ++ record { i = i; owed = owed } ∷ [] }
    {
        self.items.push(Target { i, owed });
    }

    /// Word `i`'s loads, oldest first.
    pub fn of_word(&self, i: u32) -> OwedList
        requires { length (spec.waiting_for i self.now) ≤ MAX_WAITING }
        ensures { result ≡ spec.waiting_for i self.now }
    {
        targets_of(self.items.as_slice(), i)
    }

    /// Hands on word `i`'s loads, and keeps the others.
    pub fn take(&mut self, i: u32) -> OwedList
        requires { length (spec.waiting_for i self.old) ≤ MAX_WAITING }
        ensures taken { result ≡ spec.waiting_for i self.old }
        ensures left { self.new ≡ filter (λ t. not (spec.is_for i t)) self.old }
    {
        let taken = self.of_word(i);
        keep_others(&mut self.items, i);
        taken
    }

    /// Whether a load has this tag.
    pub fn has_tag(&self, tag: u16) -> bool
        ensures { result ≡ list_any (λ t. t.owed.tag == tag) self.now }
    {
        self.items.iter().any(|target| target.owed.tag == tag)
    }
}

fn targets_of(targets: &[Target], i: u32) -> OwedList
    requires { length (spec.waiting_for i targets.now) ≤ MAX_WAITING }
    ensures { result ≡ spec.waiting_for i targets.now }
{
    let mut found = OwedList::new();
    for target in targets {
        if is_for(i, target) {
            found.push(target.owed);
        }
    }
    found
}

fn keep_others(targets: &mut ArrayVec<Target, MAX_TARGETS>, i: u32)
    ensures { targets.new.items ≡ filter (λ t. not (spec.is_for i t)) targets.old.items }
{
    targets.retain(|target| !is_for(i, target));
}

fn is_for(i: u32, target: &Target) -> bool
    ensures { result ≡ spec.is_for i target.now }
{
    target.i == i
}
