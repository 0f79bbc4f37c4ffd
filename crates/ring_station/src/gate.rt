//! Who may take a turn.

use station_parts::Told;

/// A part that takes turns.
#[derive(Clone, Copy, PartialEq, Eq, Debug)]
pub enum Actor {
    /// By number.
    Port(u32),
    /// The cache side.
    Cache,
    /// By number.
    Bank(u32),
}

/// Allows steps, and hears what the ports are told.
pub trait Gate: Sync {
    ghost use Rattle.std.specs.Prelude.{ℕ, Bool};
    ghost use Rattle.station_journal.specs.declared.asks.Told.{Told};
    ghost use Rattle.ring_station.specs.declared.gate.Actor.{Actor};

    /// What the gate may answer; by it contracts say that it was asked.
    ghost can_answer: { Self → Actor → Bool → Type 0 } = { λ gate actor answer. Unit {0} };

    /// What holds of a telling that it heard.
    ghost has_heard: { Self → ℕ → Told → Type 0 } = { λ gate port told. Unit {0} };

    /// Whether the actor may step in this turn, which counts either way.
    fn may(&self, actor: Actor) -> bool
        ensures { can_answer self.now actor result };

    /// The port has just taken this telling.
    fn told(&self, port: u32, told: &Told)
        ensures { has_heard self.now port told.now };
}
