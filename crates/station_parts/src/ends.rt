//! Rows of rings' ends, one for each port or bank. Each call first looks at the far end, if a look is due. Of a
//! place that isn't there nothing is known.
ghost use Rattle.std.specs.Prelude.{◌≡◌, ◌<◌, ◌∷◌, [], IfNone, length, nat_lt, slice_get};
ghost use Rattle.rtrb.specs.Ring.{known_free, known_items, ConsumerLooked, ProducerLooked};
ghost use Rattle.station_parts.specs.Rings.{HasPopped};
ghost use Rattle.station_parts.specs.Rows.{known_at, room_at, list_of, PopsAt, LooksAt, PushesAt};

use rtrb::{Consumer, Producer};

/// When an end of a ring looks how far its other end has come. A look takes cache lines from the processor that
/// writes there.
#[derive(Clone, Copy, PartialEq, Eq, Debug)]
pub enum Look {
    /// Before each use.
    All,
    /// If what is known isn't enough.
    IfNeeded,
}

impl Look {
    pub(crate) fn is_due(self, known: usize, needed: usize) -> bool {
        self == Look::All || known < needed
    }
}

/// How many items are then known.
pub(crate) fn count_items<T>(end: &mut Consumer<T>, look: Look) -> usize
    ensures looked { ConsumerLooked end.old end.new }
    ensures value { result ≡ length (known_items end.new) }
{
    let known = end.cached_slots();
    if look.is_due(known, 1) {
        end.slots()
    } else {
        known
    }
}

/// How many places are then known free.
pub(crate) fn count_places<T>(end: &mut Producer<T>, look: Look) -> usize
    ensures looked { ProducerLooked end.old end.new }
    ensures value { result ≡ known_free end.new }
{
    let room = end.cached_slots();
    if look.is_due(room, 1) {
        end.slots()
    } else {
        room
    }
}

pub(crate) fn pop_at<T: Drop>(ends: &mut Vec<Consumer<T>>, place: u32, look: Look) -> Option<T>
    ensures pops { PopsAt ends.old.items ends.new.items place (list_of result) }
    ensures none { IfNone result (known_at ends.new.items place ≡ []) }
{
    if place as usize >= ends.len() {
        return None;
    }
    let end = &mut ends[place as usize];
    pop_one(end, look)
}

fn pop_one<T: Drop>(end: &mut Consumer<T>, look: Look) -> Option<T>
    ensures pops { HasPopped end.old end.new (list_of result) }
    ensures none { IfNone result (known_items end.new ≡ []) }
{
    if count_items(end, look) == 0 {
        return None;
    }
    Some(end.pop_known())
}

pub(crate) fn count_at<T>(ends: &mut Vec<Consumer<T>>, place: u32) -> usize
    ensures looks { PopsAt ends.old.items ends.new.items place [] }
    ensures number { result ≡ length (known_at ends.new.items place) }
{
    if place as usize >= ends.len() {
        return 0;
    }
    let end = &mut ends[place as usize];
    end.slots()
}

/// Without a look.
pub(crate) fn knows_item<T>(ends: &[Consumer<T>], place: u32) -> bool
    ensures { result ≡ nat_lt 0 (length (known_at ends.now place)) }
{
    match ends.get(place as usize) {
        Some(end) => end.cached_slots() > 0,
        None => false,
    }
}

/// One right after the other.
pub(crate) fn look_each<T>(ends: &mut Vec<Consumer<T>>, count: u32)
    ensures { PopsAt ends.old.items ends.new.items 0 [] }
{
    for place in 0..count {
        count_at(ends, place);
    }
}

/// The first known item, which stays.
pub(crate) fn peek_at<T: Copy>(ends: &mut Vec<Consumer<T>>, place: u32) -> Option<T>
    ensures looks { PopsAt ends.old.items ends.new.items place [] }
    ensures first { result ≡ slice_get (known_at ends.new.items place) 0 }
{
    if place as usize >= ends.len() {
        return None;
    }
    let end = &mut ends[place as usize];
    peek_end(end)
}

/// The first known item, which stays.
pub(crate) fn peek_end<T: Copy>(end: &mut Consumer<T>) -> Option<T>
    ensures looks { HasPopped end.old end.new [] }
    ensures first { result ≡ slice_get (known_items end.new) 0 }
{
    if end.slots() == 0 {
        return None;
    }
    Some(*end.peek_known())
}

pub(crate) fn look_at<T>(ends: &mut Vec<Producer<T>>, place: u32, look: Look) -> usize
    ensures looks { LooksAt ends.old.items ends.new.items }
    ensures room { result ≡ room_at ends.new.items place }
{
    if place as usize >= ends.len() {
        return 0;
    }
    let end = &mut ends[place as usize];
    count_places(end, look)
}

pub(crate) fn push_at<T: Drop>(ends: &mut Vec<Producer<T>>, place: u32, item: T)
    requires { 0 < room_at ends.old.items place }
    ensures { PushesAt ends.old.items ends.new.items place (item ∷ []) }
{
    let end = &mut ends[place as usize];
    end.push_reserved(item);
}
