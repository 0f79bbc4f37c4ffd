//! How far a port is in its script.
ghost use Rattle.std.specs.Prelude.{◌≡◌, ◌<◌, ◌≤◌, ◌+◌, ◌++◌, ◌∷◌, [], List, length, true, if◌then◌else◌};
ghost use Rattle.station_journal.specs.declared.asks.Ask.{Ask};
ghost use Rattle.station_journal.specs.declared.asks.Told.{Told};
ghost use Rattle.station_journal.specs.Conversation.{Converses, is_final, accepted_load};
ghost use Rattle.ring_station.specs.Scripts.{ask_at, HasTalked};

use station_parts::{Ask, Told};

/// A port's next turn.
#[derive(Clone, Copy, PartialEq, Eq)]
pub(crate) enum Phase {
    /// An ask of its script, or Done.
    Offering,
    /// Tellings, until the verdict on its ask.
    Awaiting,
    /// Values still to come, after Done.
    Closing,
    /// Nothing more: it was told what none of its asks calls for. The cache side never does that, but the
    /// port can't know.
    Astray,
}

/// The ask that is offered or awaits its verdict, and how many values are owed.
#[derive(Clone, Copy)]
pub(crate) struct Talk {
    pub(crate) phase: Phase,
    pub(crate) next: usize,
    pub(crate) owed: u64,
}

impl Talk {
    pub(crate) fn new() -> Talk
        ensures talked { (script : List Ask) → HasTalked script result.phase result.next result.owed [] [] }
        ensures phase { result.phase ≡ Phase.Offering }
        ensures owed { result.owed ≡ 0 }
    {
        Talk {
            phase: Phase::Offering,
            next: 0,
            owed: 0,
        }
    }

    pub(crate) fn ask(&self, script: &[Ask]) -> Ask
        ensures { result ≡ ask_at script.now self.now.next }
    {
        script.get(self.next).copied().unwrap_or(Ask::Done)
    }

    pub(crate) fn note_offer(&mut self, script: &[Ask])
        requires { self.old.phase ≡ Phase.Offering }
        ensures talked { (offered : List Ask) (taken : List Told)
            → HasTalked script.now self.old.phase self.old.next self.old.owed offered taken
            → HasTalked script.now self.new.phase self.new.next self.new.owed
            (offered ++ ask_at script.now self.old.next ∷ []) taken }
        ensures owed { self.new.owed ≡ self.old.owed }
        ensures placed { self.new.phase ≡ Phase.Awaiting → self.new.next < length script.now }
    {
        self.phase = if self.next < script.len() {
            Phase::Awaiting
        } else {
            Phase::Closing
        };
    }

    pub(crate) fn note(&mut self, script: &[Ask], told: Told)
        requires owed { self.old.owed < u64.MAX }
        requires placed { self.old.phase ≡ Phase.Awaiting → self.old.next < length script.now }
        ensures talked { (offered : List Ask) (taken : List Told)
            → HasTalked script.now self.old.phase self.old.next self.old.owed offered taken
            → HasTalked script.now self.new.phase self.new.next self.new.owed
            offered (taken ++ told ∷ []) }
        ensures owed { self.new.owed ≤ self.old.owed + 1 }
        ensures placed { self.new.phase ≡ Phase.Awaiting → self.new.next < length script.now }
    {
        match (told, self.phase) {
            (Told::Value { .. }, Phase::Awaiting | Phase::Closing) if self.owed > 0 => {
                self.owed -= 1;
            }
            (Told::Value { .. }, _) => self.phase = Phase::Astray,
            (verdict, Phase::Awaiting) => self.note_verdict(script[self.next], verdict),
            _ => self.phase = Phase::Astray,
        }
    }

    fn note_verdict(&mut self, ask: Ask, verdict: Told)
        requires next { self.old.next < usize.MAX }
        requires owed { self.old.owed < u64.MAX }
        ensures phase { self.new.phase ≡ Phase.Offering }
        ensures next { self.new.next ≡ (if is_final verdict then self.old.next + 1 else self.old.next) }
        ensures owed { self.new.owed ≡ self.old.owed + accepted_load ask verdict }
    {
        self.phase = Phase::Offering;
        if is_final(verdict) {
            self.next += 1;
        }
        if let (Ask::Load { .. }, Told::Accepted) = (ask, verdict) {
            self.owed += 1;
        }
    }

    pub(crate) fn is_over(&self) -> bool
        ensures { result ≡ true → (script offered : List Ask) (taken : List Told)
            → HasTalked script self.now.phase self.now.next self.now.owed offered taken
            → Converses script offered taken }
    {
        self.phase == Phase::Closing && self.owed == 0
    }
}

// Any other verdict is a refusal that may pass.
fn is_final(verdict: Told) -> bool
    ensures { result ≡ is_final verdict }
{
    match verdict {
        Told::Accepted => true,
        Told::Refused(cause) => cause.ends_request(),
        Told::Value { .. } => false,
    }
}
