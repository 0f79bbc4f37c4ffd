//! A machine with its text.
ghost use Rattle.std.specs.Prelude.{◌≡◌, Some};
ghost use Rattle.flat_model.specs.Flat.{flat_step};
ghost use Rattle.machine_core.specs.Machine.{MachineState};
ghost use Rattle.machine_core.specs.AnyMachine as any;

use crate::{Machine, ShapedMachine};
use flat_model::{Answer, Event, Word};
use miss_registers::{FieldView, RegisterView};

/// What a text asks of a [`ShapedMachine`], or of one whose numbers stand in its type. Each call is
/// the call of that name.
pub trait AnyMachine {
    // The state that it shows.
    ghost state: { Self → MachineState };

    /// Makes one event, as [`ShapedMachine::apply`].
    fn apply(&mut self, event: Event) -> Answer
        ensures answer { result ≡ any.answered (state self.old) event }
        ensures after { state self.new ≡ any.after_event (state self.old) event }
        ensures flat { flat_step (any.flat (state self.old)) event result
            ≡ Some (any.flat (state self.new)) };

    /// As [`ShapedMachine::settled`].
    fn settled(&self) -> bool
        ensures { result ≡ any.is_settled (state self.now) };

    /// As [`ShapedMachine::bank_word`].
    fn bank_word(&self, at: u32) -> Option<Word>
        ensures { result ≡ any.bank_shown (state self.now) at };

    /// What a register shows, as [`ShapedMachine::register`].
    fn register(&self, slot: u32) -> Option<RegisterView>
        ensures { result ≡ any.register_shown (state self.now) slot };

    /// As [`ShapedMachine::field`].
    fn field(&self, slot: u32, i: u32) -> Option<FieldView>
        ensures { result ≡ any.field_shown (state self.now) slot i };
}

#[tactic(auto, unfolding(crate::specs::AnyMachine::answered, crate::specs::AnyMachine::after_event, crate::specs::AnyMachine::flat, crate::specs::AnyMachine::is_settled, crate::specs::AnyMachine::bank_shown, crate::specs::AnyMachine::register_shown, crate::specs::AnyMachine::field_shown))]
impl AnyMachine for ShapedMachine {
    ghost state = { λ m. m };

    #[inline(always)]
    fn apply(&mut self, event: Event) -> Answer {
        ShapedMachine::apply(self, event)
    }

    fn settled(&self) -> bool {
        ShapedMachine::settled(self)
    }

    fn bank_word(&self, at: u32) -> Option<Word> {
        ShapedMachine::bank_word(self, at)
    }

    fn register(&self, slot: u32) -> Option<RegisterView> {
        ShapedMachine::register(self, slot)
    }

    fn field(&self, slot: u32, i: u32) -> Option<FieldView> {
        ShapedMachine::field(self, slot, i)
    }
}

#[tactic(auto, unfolding(crate::specs::AnyMachine::answered, crate::specs::AnyMachine::after_event, crate::specs::AnyMachine::flat, crate::specs::AnyMachine::is_settled, crate::specs::AnyMachine::bank_shown, crate::specs::AnyMachine::register_shown, crate::specs::AnyMachine::field_shown))]
impl<const WAYS: usize, const WORDS: usize, const REGS: usize, const DEPTH: usize> AnyMachine
    for Machine<WAYS, WORDS, REGS, DEPTH> {
    ghost state = { λ m. m };

    #[inline(always)]
    fn apply(&mut self, event: Event) -> Answer {
        Machine::apply(self, event)
    }

    fn settled(&self) -> bool {
        Machine::settled(self)
    }

    fn bank_word(&self, at: u32) -> Option<Word> {
        Machine::bank_word(self, at)
    }

    fn register(&self, slot: u32) -> Option<RegisterView> {
        Machine::register(self, slot)
    }

    fn field(&self, slot: u32, i: u32) -> Option<FieldView> {
        Machine::field(self, slot, i)
    }
}
