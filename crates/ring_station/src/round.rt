//! The cache side's round.
ghost use Rattle.std.specs.Prelude.{◌≡◌, ◌<◌, true, false};
ghost use Rattle.station_parts.specs.Ids.{cache_id};
ghost use Rattle.station_parts.specs.SideState.{state_of, OnlyLooks};
ghost use Rattle.ring_station.specs.Round.{first_round, is_at_banks, are_banks_due, source_of, most_places, Seeks, StandsWithin};
ghost use Rattle.ring_station.specs.Round.{place_behind, port_behind, behind_port, round_behind, round_after};

use station_parts::{CacheSide, Source, Stepped};

const OTHER_SOURCES: u64 = 3;

#[derive(Clone, Copy)]
enum Place {
    Ports,
    Bank(u32),
    Stack,
    WriteQueue,
    Replies,
}

/// The ports in turn, and behind each ask, and behind the last port, each bank, the stack, the write queue and
/// the replies. A port has one ask at a time; elsewhere the round stays until a step finds nothing. Behind each
/// word of a bank it processes one of the stack, which has few places.
///
/// The banks come behind each ask, since it is refused and asked again if too much is under way. All ports'
/// rings are looked at together, and all banks': such reads don't wait for one another.
#[derive(Drop)]
pub(crate) struct Round {
    ports: u32,
    banks: u32,
    // Asked next.
    port: u32,
    place: Place,
    // A bank has just given one.
    has_word: bool,
}

impl Round {
    /// At the first port.
    pub(crate) fn new(ports: u32, banks: u32) -> Round
        ensures first { result ≡ first_round ports banks }
        ensures within { 0 < ports → 0 < banks → StandsWithin result }
    {
        Round {
            ports,
            banks,
            port: 0,
            place: Place::Ports,
            has_word: false,
        }
    }

    fn is_at_banks(&self) -> bool
        ensures { result ≡ is_at_banks self.now }
    {
        !self.has_word && matches!(self.place, Place::Bank(0))
    }

    /// Whether the banks beside the cache side have a turn now.
    pub(crate) fn are_banks_due(&self, stepped: Option<Stepped>) -> bool
        ensures { result ≡ are_banks_due self.now stepped }
    {
        self.is_at_banks() || stepped != Some(Stepped::Did)
    }

    pub(crate) fn source(&self) -> Source
        ensures { result ≡ source_of self.now }
    {
        if self.has_word {
            return Source::Stack(0);
        }
        match self.place {
            Place::Ports => Source::Ask(self.port),
            Place::Bank(bank) => Source::Word(bank),
            Place::Stack => Source::Stack(0),
            Place::WriteQueue => Source::Drain,
            Place::Replies => Source::Reply(0),
        }
    }

    /// Goes to the next source with a known item, at most once round.
    pub(crate) fn seek(&mut self, may: bool, cache: &mut CacheSide)
        ensures same { cache_id cache.new ≡ cache_id cache.old }
        ensures looks { OnlyLooks (state_of cache.old) (state_of cache.new) }
        ensures seeks { may ≡ true → Seeks self.old self.new (state_of cache.old) (state_of cache.new) }
        ensures stays { StandsWithin self.old → StandsWithin self.new }
        ensures unmoved { may ≡ false → (cache.new ≡ cache.old) × (self.new ≡ self.old) }
    {
        if !may {
            return;
        }
        for _place in 0..self.most_places() {
            self.look(cache);
            if cache.has_item(self.source()) {
                return;
            }
            self.go_on_behind(false);
        }
    }

    fn most_places(&self) -> u64
        ensures { result ≡ most_places self.now }
    {
        u64::from(self.ports) + 2 * (u64::from(self.banks) + OTHER_SOURCES)
    }

    fn look(&self, cache: &mut CacheSide)
        ensures same { cache_id cache.new ≡ cache_id cache.old }
        ensures looks { OnlyLooks (state_of cache.old) (state_of cache.new) }
    {
        match self.place {
            Place::Ports if self.port == 0 => cache.look_for_asks(),
            Place::Bank(0) => cache.look_for_words(),
            _ => {}
        }
    }

    pub(crate) fn go_on(&mut self, stepped: Option<Stepped>)
        ensures on { self.new ≡ round_after stepped self.old }
        ensures stays { StandsWithin self.old → StandsWithin self.new }
    {
        if let Some(stepped) = stepped {
            self.go_on_behind(stepped == Stepped::Did);
        }
    }

    fn go_on_behind(&mut self, did: bool)
        ensures { self.new ≡ round_behind did self.old }
    {
        if self.has_word {
            self.has_word = false;
            return;
        }
        match self.place {
            Place::Ports => self.leave_port(did),
            Place::Bank(_) if did => self.has_word = true,
            place => {
                if !did {
                    self.place = self.place_behind(place);
                }
            }
        }
    }

    fn leave_port(&mut self, did: bool)
        ensures { self.new ≡ behind_port did (port_behind self.old.ports self.old.port) self.old }
    {
        let next = self.port.saturating_add(1);
        self.port = if next < self.ports { next } else { 0 };
        if did || self.port == 0 {
            self.place = Place::Bank(0);
        }
    }

    fn place_behind(&self, place: Place) -> Place
        ensures { result ≡ place_behind self.now.banks place }
    {
        match place {
            Place::Bank(bank) if bank < self.banks.saturating_sub(1) => Place::Bank(bank + 1),
            Place::Bank(_) => Place::Stack,
            Place::Stack => Place::WriteQueue,
            Place::WriteQueue => Place::Replies,
            Place::Replies | Place::Ports => Place::Ports,
        }
    }
}
