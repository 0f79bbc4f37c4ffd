//! Where open stores stand, so that an answer looks at its own alone.

ghost use Rattle.std.specs.Prelude.{◌≡◌, map, not};
ghost use Rattle.std.specs.List.{filter};
ghost use Rattle.history_reasons.specs.Places.{is_place_of, ended_from, ended_at, moved_down};

use crate::stores::{KeptStore, end_store};

/// An open store's place. It may stand there no more: without an enabled byte, or forgotten.
#[derive(Clone, Copy)]
pub struct StorePlace {
    pub(crate) number: u64,
    pub(crate) address: u64,
    pub(crate) first: usize,
    pub(crate) most: usize,
}

fn is_place_of(place: &StorePlace, number: u64) -> bool
    ensures { result ≡ is_place_of number place.now }
{
    place.number == number
}

// Answers the stores that are open under this number, at these places.
#[tactic(auto, using(crate::proofs::Found::ended_at_more))]
pub(crate) fn end_at(stores: &mut [KeptStore], places: &[StorePlace], number: u64, moment: u64)
    ensures { stores.new ≡ ended_at places.now number moment stores.old }
{
    for place in places {
        if is_place_of(place, number) {
            end_from(stores, *place, number, moment);
        }
    }
}

// Answers the store at a place, if it is open under this number.
#[tactic(auto, using(crate::proofs::Found::put_there, crate::proofs::Found::put_past))]
fn end_from(stores: &mut [KeptStore], place: StorePlace, number: u64, moment: u64)
    ensures { stores.new ≡ ended_from place number moment stores.old }
{
    if place.first < stores.len() {
        end_store(&mut stores[place.first], number, moment);
    }
}

pub(crate) fn end_place(places: &mut Vec<StorePlace>, number: u64)
    ensures { places.new.items ≡ filter (λ p. not (is_place_of number p)) places.old.items }
{
    places.retain(|place| !is_place_of(place, number));
}

/// So many stores in front are forgotten.
pub(crate) fn move_down(places: &mut [StorePlace], count: usize)
    ensures { places.new ≡ map (moved_down count) places.old }
{
    for place in places.iter_mut() {
        *place = moved_down(*place, count);
    }
}

fn moved_down(place: StorePlace, count: usize) -> StorePlace
    ensures { result ≡ moved_down count place }
{
    StorePlace {
        first: place.first.saturating_sub(count),
        ..place
    }
}
