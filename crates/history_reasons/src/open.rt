//! The operations that are open, as a log tells them.

ghost use Rattle.std.specs.Prelude.{◌≡◌, ◌==◌, length, slice_get};
ghost use Rattle.std.specs.List.{find};
ghost use Rattle.std.specs.Option.{option_map};
ghost use Rattle.history_reasons.specs.Open.{load_operation, store_operation, open_loads, open_stores, operation_under};

use crate::loads::OpenLoad;
use crate::log::StoreLog;
use crate::places::StorePlace;

/// An operation without its answer.
#[derive(Clone, Copy, PartialEq, Eq, Debug)]
pub struct OpenOperation {
    /// Its number.
    pub number: u64,
    /// The address of its first byte.
    pub address: u64,
    /// How many bytes it has.
    pub length: usize,
}

impl StoreLog {
    /// How many loads are open.
    #[tactic(auto, using(crate::proofs::OpenLemmas::as_many))]
    pub fn open_load_count(&self) -> usize
        ensures { result ≡ length (open_loads self.now) }
    {
        self.loads.len()
    }

    /// How many stores are open.
    #[tactic(auto, using(crate::proofs::OpenLemmas::as_many))]
    pub fn open_store_count(&self) -> usize
        ensures { result ≡ length (open_stores self.now) }
    {
        self.places.len()
    }

    /// The open load at this place, by requests.
    #[tactic(auto, using(crate::proofs::OpenLemmas::nth))]
    pub fn open_load(&self, place: usize) -> Option<OpenOperation>
        ensures { result ≡ slice_get (open_loads self.now) place }
    {
        load_operation(self.loads.get(place).copied())
    }

    /// The open store at this place, by requests.
    #[tactic(auto, using(crate::proofs::OpenLemmas::nth))]
    pub fn open_store(&self, place: usize) -> Option<OpenOperation>
        ensures { result ≡ slice_get (open_stores self.now) place }
    {
        store_operation(self.places.get(place).copied())
    }

    /// The load that is open under this number.
    pub fn load_under(&self, number: u64) -> Option<OpenOperation>
        ensures { result ≡ operation_under number (open_loads self.now) }
    {
        load_operation(load_under(self.loads.as_slice(), number))
    }
}

fn load_under(loads: &[OpenLoad], number: u64) -> Option<OpenLoad>
    ensures { result ≡ find (λ l. l.number == number) loads.now }
{
    loads.iter().copied().find(|load| load.number == number)
}

fn load_operation(load: Option<OpenLoad>) -> Option<OpenOperation>
    ensures { result ≡ option_map load_operation load }
{
    match load {
        Some(load) => Some(OpenOperation {
            number: load.number,
            address: load.address,
            length: load.length,
        }),
        None => None,
    }
}

fn store_operation(store: Option<StorePlace>) -> Option<OpenOperation>
    ensures { result ≡ option_map store_operation store }
{
    match store {
        Some(store) => Some(OpenOperation {
            number: store.number,
            address: store.address,
            length: store.most,
        }),
        None => None,
    }
}
