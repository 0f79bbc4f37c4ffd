//! The loads that are open at a unit.

ghost use Rattle.std.specs.Prelude.{◌≡◌};
ghost use Rattle.std.specs.List.{find};
ghost use Rattle.atomic_histories.specs.Pasts.{earlier, oldest};
ghost use Rattle.atomic_histories.specs.Followed.{is_under, is_first, loads_without};

use crate::unit::WatchedLoad;

// Whether a load has this number.
pub(crate) fn is_under(load: &WatchedLoad, number: u64) -> bool
    ensures { result ≡ is_under number load.now }
{
    load.number == number
}

// The load that is open under a number.
pub(crate) fn find_load(loads: &[WatchedLoad], number: u64) -> Option<WatchedLoad>
    ensures { result ≡ find (is_under number) loads.now }
{
    loads.iter().copied().find(|load| is_under(load, number))
}

pub(crate) fn end_load(loads: &mut Vec<WatchedLoad>, number: u64)
    ensures { loads.new.items ≡ loads_without number loads.old.items }
{
    loads.retain(|load| !is_under(load, number));
}

fn earlier(oldest: Option<u64>, load: &WatchedLoad) -> Option<u64>
    ensures { result ≡ earlier oldest load.now }
{
    match oldest {
        None => Some(load.since),
        Some(since) => Some(since.min(load.since)),
    }
}

// The oldest request among those but one.
pub(crate) fn oldest_without(loads: &[WatchedLoad], number: u64) -> Option<u64>
    ensures { result ≡ oldest (loads_without number loads.now) }
{
    loads
        .iter()
        .filter(|load| !is_under(load, number))
        .fold(None, |oldest, load| earlier(oldest, load))
}

pub(crate) fn is_first(loads: &[WatchedLoad], number: u64) -> bool
    ensures { result ≡ is_first number loads.now }
{
    match loads.first() {
        None => false,
        Some(load) => is_under(load, number),
    }
}
