//! A port.
ghost use Rattle.std.specs.Prelude.{◌≡◌, ◌≤◌, drop, length};
ghost use Rattle.std.specs.List.{list_any};
ghost use Rattle.rtrb.specs.Ring.{sent};
ghost use Rattle.station_parts.specs.Ports.{is_done};

use crate::ends::{Look, count_places, peek_end};
use rtrb::{Consumer, Producer};
use station_journal::{Ask, Told};
use std::snapshot::Snapshot;

/// Asks in a port's ring, at most.
pub const ASK_PLACES: usize = 16;

/// Tellings in a port's ring, at most.
pub const TELLING_PLACES: usize = 64;

/// A requester: it asks over one ring and gets its verdicts and values over another.
#[derive(Drop)]
pub struct Port {
    pub(crate) asks: Producer<Ask>,
    pub(crate) tellings: Consumer<Told>,
    // The ring's end when the port began, or began again.
    pub(crate) begun: Snapshot<Producer<Ask>>,
    pub(crate) ended: bool,
    ghost grown: { length (sent begun.value) ≤ length (sent asks) },
    ghost ended_is: { ended ≡ list_any is_done (drop (length (sent begun.value)) (sent asks)) },
}

impl Port {
    ghost use Rattle.std.specs.Prelude.{◌≡◌, ◌<◌, ◌≤◌, ◌++◌, ◌∷◌, [], false, length, IfSome, IfNone, IsSome, slice_get};
    ghost use mathlib.Core.List.{IsPrefix};
    ghost use Rattle.station_parts.specs.Ids.{port_id};
    ghost use Rattle.station_parts.specs.Offering.{Offers};
    ghost use Rattle.station_parts.specs.Words.{offered, offered_before, taken, has_ended, known_places, known_tellings};

    /// [`Port::offer_with`] with [`Look::All`].
    pub fn offer(&mut self, ask: Ask) -> Result<(), Ask>
        ensures { Offers ask self.old self.new result }
    {
        self.offer_with(ask, Look::All)
    }

    /// Offers an ask to the cache side. It comes back, and nothing was offered, if no free place is known,
    /// or if `Done` was offered since the last renewal.
    pub fn offer_with(&mut self, ask: Ask, look: Look) -> Result<(), Ask>
        ensures { Offers ask self.old self.new result }
    {
        if self.ended || count_places(&mut self.asks, look) == 0 {
            return Err(ask);
        }
        self.asks.push_reserved(ask);
        if let Ask::Done = ask {
            self.ended = true;
        }
        Ok(())
    }

    /// Takes the first known telling, after a look.
    pub fn take(&mut self) -> Option<Told>
        ensures same { port_id self.new ≡ port_id self.old }
        ensures before { offered_before self.new ≡ offered_before self.old }
        ensures taken { IfSome result (λ told. taken self.new ≡ taken self.old ++ told ∷ []) }
        ensures first { IfSome result
            (λ told. IsPrefix (known_tellings self.old) (told ∷ known_tellings self.new)) }
        ensures kept { IfNone result (taken self.new ≡ taken self.old) }
        ensures none { IfNone result (known_tellings self.new ≡ []) }
        ensures comes { 0 < length (known_tellings self.old) → IsSome result }
        ensures offered { offered self.new ≡ offered self.old }
        ensures places { known_places self.new ≡ known_places self.old }
    {
        self.tellings.slots();
        self.tellings.pop().ok()
    }

    /// Places known free for asks, after a look.
    pub fn known_places(&mut self) -> usize
        ensures same { port_id self.new ≡ port_id self.old }
        ensures before { offered_before self.new ≡ offered_before self.old }
        ensures places { result ≡ known_places self.new }
        ensures more { known_places self.old ≤ known_places self.new }
        ensures offered { offered self.new ≡ offered self.old }
        ensures taken { taken self.new ≡ taken self.old }
        ensures tellings { known_tellings self.new ≡ known_tellings self.old }
    {
        self.asks.slots()
    }

    /// Whether the port offered `Done`, and so offers nothing more until its station is renewed.
    pub fn has_ended(&self) -> bool
        ensures { result ≡ has_ended self.now }
    {
        self.ended
    }

    /// Lets the port offer again.
    pub(crate) fn resume(&mut self)
        ensures same { port_id self.new ≡ port_id self.old }
        ensures before { offered_before self.new ≡ offered self.new }
        ensures again { has_ended self.new ≡ false }
        ensures offered { offered self.new ≡ offered self.old }
        ensures taken { taken self.new ≡ taken self.old }
        ensures places { known_places self.new ≡ known_places self.old }
        ensures tellings { known_tellings self.new ≡ known_tellings self.old }
    {
        self.begun = Snapshot::of(&self.asks);
        self.ended = false;
    }

    /// Known tellings that aren't taken, after a look.
    pub fn known_tellings(&mut self) -> usize
        ensures same { port_id self.new ≡ port_id self.old }
        ensures before { offered_before self.new ≡ offered_before self.old }
        ensures tellings { result ≡ length (known_tellings self.new) }
        ensures more { IsPrefix (known_tellings self.old) (known_tellings self.new) }
        ensures offered { offered self.new ≡ offered self.old }
        ensures taken { taken self.new ≡ taken self.old }
        ensures places { known_places self.new ≡ known_places self.old }
    {
        self.tellings.slots()
    }

    /// The telling that `take` gives next, after a look. It stays in the ring.
    pub fn peek(&mut self) -> Option<Told>
        ensures same { port_id self.new ≡ port_id self.old }
        ensures before { offered_before self.new ≡ offered_before self.old }
        ensures first { result ≡ slice_get (known_tellings self.new) 0 }
        ensures more { IsPrefix (known_tellings self.old) (known_tellings self.new) }
        ensures offered { offered self.new ≡ offered self.old }
        ensures taken { taken self.new ≡ taken self.old }
        ensures places { known_places self.new ≡ known_places self.old }
    {
        peek_end(&mut self.tellings)
    }
}
