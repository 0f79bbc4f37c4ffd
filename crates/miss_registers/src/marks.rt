//! Marks of a word of a block.
ghost use Rattle.std.specs.Prelude.{◌≡◌, ◌&&◌, not, true};
ghost use Rattle.flat_model.specs.Words.{joined};
ghost use Rattle.miss_registers.specs.Targets as spec;

use flat_model::Lanes;

/// A register's marks for a word; clear while it is to come.
#[derive(Clone, Copy, PartialEq, Eq, Debug, Default)]
pub struct Marks {
    /// It stands in the input stack.
    pub in_stack: bool,
    /// Whether it was processed.
    pub processed: bool,
    /// Lanes of the buffer that it mustn't change.
    pub code: Lanes,
}

impl Marks {
    /// Unprocessed, and not in the stack.
    pub fn is_expected(&self) -> bool
        ensures { result ≡ (not self.now.processed && not self.now.in_stack) }
    {
        !self.processed && !self.in_stack
    }

    /// The lanes join the word's code.
    pub fn note_store(&mut self, lanes: Lanes)
        ensures { self.new ≡ record self.old { code = joined self.old.code lanes } }
    {
        self.code = self.code.joined(lanes);
    }

    /// The word stands in the input stack.
    pub fn mark_in_stack(&mut self)
        ensures { self.new ≡ record self.old { in_stack = true } }
    {
        self.in_stack = true;
    }

    /// Processed: no other mark is left.
    pub fn finish(&mut self)
        ensures { self.new ≡ spec.finished_marks }
    {
        self.in_stack = false;
        self.processed = true;
        self.clear_code();
    }

    /// The word spares no lane of the buffer any more.
    pub fn clear_code(&mut self)
        ensures { self.new ≡ spec.marks_without_code self.old }
    {
        self.code = Lanes::none();
    }

    /// The word's code, where it isn't processed.
    pub fn missing_code(&self) -> Option<Lanes>
        ensures { result ≡ spec.code_of_marks self.now }
    {
        if self.processed {
            None
        } else {
            Some(self.code)
        }
    }
}
