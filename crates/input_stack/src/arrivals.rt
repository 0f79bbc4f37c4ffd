//! The stack, with its places given at run time.

ghost use Rattle.std.specs.Prelude.{◌≡◌, ◌<◌, ◌≤◌, ◌↔◌, ◌++◌, [], ◌∷◌, length, slice_get, IfErr, IsOk, OnOk, OnErr, IfNone, IfSome};
ghost use Rattle.std.specs.List.{remove};
ghost use Rattle.flat_model.specs.declared.limits.TheConstants.{MAX_DEPTH};

use crate::Entry;
use arrayvec::ArrayVec;
use flat_model::{MAX_DEPTH, Word};
use std::marker::Model;

/// Words that came, the first at place 0: at most 64.
#[derive(Drop)]
pub struct ArrivalStack {
    entries: ArrayVec<Entry, MAX_DEPTH>,
}

impl Model for ArrivalStack {
    ghost use Rattle.std.specs.Prelude.{List};
    ghost use Rattle.input_stack.specs.declared.Entry.{Entry};

    ghost Value = { List Entry };

    ghost view = { λ a. a.entries.items };
}

impl ArrivalStack {
    ghost use Rattle.input_stack.specs.Stack.{stack_word};

    /// An empty stack.
    pub fn new() -> Self
        ensures { result ≡ [] }
    {
        ArrivalStack {
            entries: ArrayVec::new(),
        }
    }

    /// How many entries stand in the stack.
    pub fn len(&self) -> u32
        ensures value { result ≡ length self.now }
        ensures small { length self.now ≤ MAX_DEPTH }
    {
        self.entries.len() as u32
    }

    /// Puts an entry last. It comes back if `places` (64 at most) or more stand here.
    pub fn push(&mut self, places: u32, entry: Entry) -> Result<(), Entry>
        requires { places ≤ MAX_DEPTH }
        ensures variant { IsOk result ↔ (length self.old < places) }
        ensures ok { OnOk result (self.new ≡ self.old ++ entry ∷ []) }
        ensures err { OnErr result (self.new ≡ self.old) }
        ensures back { IfErr result (λ e. e ≡ entry) }
    {
        if self.entries.len() < places as usize {
            self.entries.push(entry);
            Ok(())
        } else {
            Err(entry)
        }
    }

    /// The first word here for word `i` of a register.
    #[tactic(auto, unfolding(crate::specs::Stack::stack_word))]
    pub fn find(&self, slot: u32, i: u32) -> Option<Word>
        ensures { result ≡ stack_word self.now slot i }
    {
        self.entries
            .iter()
            .find(|e| e.slot == slot && e.i == i)
            .map(|e| e.word)
    }

    /// The entry at `place`, if any.
    pub fn get(&self, place: u32) -> Option<Entry>
        ensures { result ≡ slice_get self.now place }
    {
        self.entries.get(place as usize).copied()
    }

    /// Takes the entry at `place` out; later ones move up. `None` changes nothing.
    pub fn remove(&mut self, place: u32) -> Option<Entry>
        ensures value { result ≡ slice_get self.old place }
        ensures taken { IfSome result (λ _. self.new ≡ remove self.old place) }
        ensures none { IfNone result (self.new ≡ self.old) }
    {
        if (place as usize) < self.entries.len() {
            Some(self.entries.remove(place as usize))
        } else {
            None
        }
    }
}
