//! Interleaved banks of memory: word `a` lies in bank `a % banks`, at place `a / banks`.
//!
//! - First call: [`Banks::new`], with an image and a shape.
//! - Caller: `machine_core`. A cache unit reaches banks by the trait [`Lines`] alone.
//!
//! A bank serves commands first in, first out ([`Banks::serve`]), and keeps its answers until they
//! are taken, in any order ([`Banks::take_answer`]). Nothing orders two banks. Within a bank a read
//! that follows a write of the same word returns what was written.
#![tactic(auto)]

ghost use Rattle.std.specs.Prelude.{◌≡◌, ◌≢◌, ℕ, ◌+◌, ◌<◌, List, [], ◌∷◌, ◌++◌};
ghost use Rattle.memory_banks.specs.declared.Command.{Command};

mod bank;
mod memory;

pub use bank::MAX_ANSWERS;
#[doc(hidden)]
pub use bank::MemoryBank;
use flat_model::{Lanes, Word};
pub use memory::Banks;

/// What a bank is asked to do.
#[derive(Clone, Copy, PartialEq, Eq, Debug)]
pub enum Command {
    /// The register in `slot` asks for word `i`.
    Read {
        /// The number of the register that asks.
        slot: u32,
        /// Word of the register's block.
        i: u32,
        /// Place in the bank, from 0.
        place: u32,
    },
    /// Writes lanes of a word.
    Write {
        /// Place in the bank, from 0.
        place: u32,
        /// Only bytes in the lanes count.
        word: Word,
        /// The lanes to be written.
        lanes: Lanes,
    },
}

/// The answer to a read.
#[derive(Clone, Copy, PartialEq, Eq, Debug)]
pub struct BankAnswer {
    /// The number of the register that asked.
    pub slot: u32,
    /// Word of the register's block.
    pub i: u32,
    /// As it was when the read was served.
    pub word: Word,
}

/// Where the cache sends commands: banks, each with some room.
pub trait Lines {
    /// Each bank's commands, oldest first.
    ghost sent_to: { Self → ℕ → List Command };

    /// How many more commands each bank takes.
    ghost room_of: { Self → ℕ → ℕ };

    /// The second may be what sends made of the first.
    ghost same: { Self → Self → Type 0 };

    /// Commands that a bank still takes; 0 without it.
    fn room(&self, bank: u32) -> u32
        ensures { result ≡ room_of self.now bank };

    /// Sends a command to a bank with room; no other bank changes.
    fn send(&mut self, bank: u32, command: Command)
        requires { 0 < room_of self.old bank }
        ensures same { same self.old self.new }
        ensures sent { sent_to self.new bank ≡ sent_to self.old bank ++ command ∷ [] }
        ensures room { room_of self.new bank + 1 ≡ room_of self.old bank }
        ensures others { (b : ℕ) → b ≢ bank →
            (sent_to self.new b ≡ sent_to self.old b)
            × (room_of self.new b ≡ room_of self.old b) };

    /// No send leaves all as it was.
    ghost same_self: { (a : Self) → same a a };

    /// So do sends after sends.
    ghost same_steps: { (a b c : Self) → same a b → same b c → same a c };
}
