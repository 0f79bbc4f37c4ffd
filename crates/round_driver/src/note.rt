//! Events of a run as they are reported.

use flat_model::{Answer, Event};
use machine_core::Lookup;

/// An event of a round, with its answer.
#[derive(Clone, Copy, PartialEq, Eq, Debug)]
pub struct Note {
    /// The round, counted from 1.
    pub round: u64,
    /// A request that was asked, or an event that did something.
    pub event: Event,
    /// Its answer.
    pub answer: Answer,
    /// What a request for a word found.
    pub found: Option<Lookup>,
    /// Registers in use behind an accepted miss, else 0.
    pub registers: u32,
}

impl Default for Note {
    fn default() -> Note {
        Note {
            round: 0,
            event: Event::Drain,
            answer: Answer::Nothing,
            found: None,
            registers: 0,
        }
    }
}
