//! What the cache side shows.
ghost use Rattle.std.specs.Prelude.{◌≡◌, length, slice_get};
ghost use Rattle.cache_law.specs.Views.{is_clean};
ghost use Rattle.station_parts.specs.Words.{held_of, fault_in, cache_in};

use crate::parts::CacheSide;
use station_journal::{Entry, SideFault};

impl CacheSide {
    /// Entries of the journal since it was begun, or renewed.
    pub fn entries(&self) -> u32
        ensures { result ≡ length (held_of self.now) }
    {
        self.journal.len() as u32
    }

    /// The entry at `place`, oldest first; `None`: no such place.
    pub fn entry(&self, place: u32) -> Option<Entry>
        ensures { result ≡ slice_get (held_of self.now) place }
    {
        self.journal.get(place as usize).copied()
    }

    /// The first fault, which stays; `None` while the side isn't faulted.
    pub fn fault(&self) -> Option<SideFault>
        ensures { result ≡ fault_in self.now }
    {
        self.fault
    }

    /// Whether no register is valid, no lane is dirty, and the write queue is empty. If an audit is `Clean`
    /// too, the banks hold flat memory.
    pub fn settled(&self) -> bool
        ensures { result ≡ is_clean (cache_in self.now) }
    {
        self.unit.clean()
    }
}
