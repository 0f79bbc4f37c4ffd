//! What an open handle keeps.
ghost use Rattle.std.specs.Prelude.{◌≡◌, is_none};

use machine_core::ShapedMachine;
use round_driver::Rounds;

/// A machine, and its rounds if begun.
#[derive(Drop)]
pub struct Kept {
    pub(crate) machine: ShapedMachine,
    pub(crate) rounds: Option<Rounds>,
}

impl Kept {
    /// Whether no rounds make its events.
    pub(crate) fn is_idle(&self) -> bool
        ensures { result ≡ is_none self.now.rounds }
    {
        self.rounds.is_none()
    }
}
