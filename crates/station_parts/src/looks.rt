//! What the cache side may look at. At a port or bank that isn't there nothing is known, and no place is free.
ghost use Rattle.std.specs.Prelude.{◌≡◌, length, slice_get};
ghost use Rattle.station_parts.specs.Ids.{cache_id};
ghost use Rattle.station_parts.specs.SideState.{state_of, OnlyLooks};
ghost use Rattle.station_parts.specs.SideSteps.{has_item};
ghost use Rattle.station_parts.specs.Words.{known_asks, telling_places, known_words, command_places, cache_in, sizes_in};

use crate::ends::{Look, count_at, knows_item, look_at, look_each, peek_at};
use crate::parts::CacheSide;
use cache_unit::ShapedUnit;
use memory_banks::BankAnswer;
use station_journal::{Ask, Source};

impl CacheSide {
    /// Known asks of a port that aren't taken, after a look.
    pub fn known_asks(&mut self, port: u32) -> usize
        ensures looks { OnlyLooks (state_of self.old) (state_of self.new) }
        ensures same { cache_id self.new ≡ cache_id self.old }
        ensures asks { result ≡ length (known_asks self.new port) }
    {
        count_at(&mut self.asks, port)
    }

    /// The ask that a step takes next, after a look. It stays in the ring.
    pub fn peek_ask(&mut self, port: u32) -> Option<Ask>
        ensures looks { OnlyLooks (state_of self.old) (state_of self.new) }
        ensures same { cache_id self.new ≡ cache_id self.old }
        ensures first { result ≡ slice_get (known_asks self.new port) 0 }
    {
        peek_at(&mut self.asks, port)
    }

    /// Places known free for a port's tellings, after a look. With none it is asked nothing, and told no
    /// value.
    pub fn telling_places(&mut self, port: u32) -> usize
        ensures looks { OnlyLooks (state_of self.old) (state_of self.new) }
        ensures same { cache_id self.new ≡ cache_id self.old }
        ensures places { result ≡ telling_places self.new port }
    {
        look_at(&mut self.tellings, port, Look::All)
    }

    /// Known words of a bank that aren't taken, after a look.
    pub fn known_words(&mut self, bank: u32) -> usize
        ensures looks { OnlyLooks (state_of self.old) (state_of self.new) }
        ensures same { cache_id self.new ≡ cache_id self.old }
        ensures words { result ≡ length (known_words self.new bank) }
    {
        count_at(&mut self.answers, bank)
    }

    /// The word that a step takes next, after a look. It stays in the ring.
    pub fn peek_word(&mut self, bank: u32) -> Option<BankAnswer>
        ensures looks { OnlyLooks (state_of self.old) (state_of self.new) }
        ensures same { cache_id self.new ≡ cache_id self.old }
        ensures first { result ≡ slice_get (known_words self.new bank) 0 }
    {
        peek_at(&mut self.answers, bank)
    }

    /// Places known free for a bank's commands, after a look.
    pub fn command_places(&mut self, bank: u32) -> u32
        ensures looks { OnlyLooks (state_of self.old) (state_of self.new) }
        ensures same { cache_id self.new ≡ cache_id self.old }
        ensures places { result ≡ command_places self.new bank }
    {
        self.row.look(bank, Look::All, 1)
    }

    /// The cache unit, to be seen.
    pub fn unit(&self) -> &ShapedUnit
        ensures { result.now ≡ record { sizes = sizes_in self.now; cache = cache_in self.now } }
    {
        &self.unit
    }

    /// Looks at all ports' rings, one right after the other: what they wrote comes together, not at each
    /// step anew.
    pub fn look_for_asks(&mut self)
        ensures looks { OnlyLooks (state_of self.old) (state_of self.new) }
        ensures same { cache_id self.new ≡ cache_id self.old }
    {
        let ports = self.asks.len() as u32;
        look_each(&mut self.asks, ports);
    }

    /// Looks so at all banks' rings of words.
    pub fn look_for_words(&mut self)
        ensures looks { OnlyLooks (state_of self.old) (state_of self.new) }
        ensures same { cache_id self.new ≡ cache_id self.old }
    {
        look_each(&mut self.answers, self.sizes.banks);
    }

    /// Whether an item of the source is known, without a look. There may be no room for what its step
    /// makes.
    pub fn has_item(&self, source: Source) -> bool
        ensures { result ≡ has_item source (state_of self.now) }
    {
        match source {
            Source::Ask(port) => knows_item(&self.asks, port),
            Source::Word(bank) => knows_item(&self.answers, bank),
            Source::Stack(place) => place < self.unit.stack_len(),
            Source::Drain => self.unit.queue_len() > 0,
            Source::Reply(place) => place < self.unit.replies_len(),
        }
    }
}
