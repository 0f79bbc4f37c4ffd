//! The core on one thread.

ghost use Rattle.std.specs.Prelude.{◌≡◌};
ghost use Rattle.station_tour.specs.Asked.{event_of};

use crate::fault::StationFault;
use flat_model::{Answer, Event, Word};
use machine_core::Machine;
use ring_station::Ask;
use station_checks::{BLOCK_WORDS, DEPTH, REGS, WAYS, WORDS, shape};
use std::alloc::Global;

// More steps than a request or the machine's rest needs.
const TURNS: u32 = 1_000_000;

/// The core of the tour's numbers.
pub(crate) type Core = Machine<WAYS, BLOCK_WORDS, REGS, DEPTH>;

/// Asks each request, and again after each driver's step if its cause passes. Says whether the
/// machine came to rest.
pub(crate) fn ask_core(alloc: Global, requests: &[Ask]) -> Result<bool, StationFault> {
    let mut core = new_core(alloc)?;
    ask_all(&mut core, requests)
}

/// A core whose memory begins with zeros.
pub(crate) fn new_core(alloc: Global) -> Result<Core, StationFault> {
    let image = vec![in alloc; Word::default(); WORDS as usize]?;
    Ok(Core::new(alloc, shape(), &image)?)
}

fn ask_all(core: &mut Core, requests: &[Ask]) -> Result<bool, StationFault> {
    for ask in requests {
        if let Some(event) = event_of(*ask) {
            ask_one(core, event)?;
        }
    }
    Ok(comes_to_rest(core))
}

/// Whether the driver's steps came to an end.
pub(crate) fn comes_to_rest(core: &mut Core) -> bool {
    for _turn in 0..TURNS {
        if core.pump().is_none() {
            return true;
        }
    }
    false
}

pub(crate) fn ask_one(core: &mut Core, event: Event) -> Result<(), StationFault> {
    for _turn in 0..TURNS {
        match core.apply(event) {
            Answer::Refused(cause) if cause.passes() => {
                let _moved = core.pump();
            }
            _ => return Ok(()),
        }
    }
    Err(StationFault::TurnLimit)
}

/// The event of port 0's ask.
pub(crate) fn event_of(ask: Ask) -> Option<Event>
    ensures { result ≡ event_of ask }
{
    match ask {
        Ask::Load { tag, at } => Some(Event::Load {
            tag: u16::from(tag),
            at,
        }),
        Ask::Store { at, word, lanes } => Some(Event::Store { at, word, lanes }),
        Ask::Prefetch { at } => Some(Event::Prefetch { at }),
        Ask::Evict { block } => Some(Event::Evict { block }),
        Ask::Done => None,
    }
}
