//! A station with one port, stepped on one thread.

use crate::fault::StationFault;
use ring_station::{Ask, BankSide, CacheSide, Port, Source, Station, Stepped, Told, station};
use station_checks::{BLOCK_WORDS, DEPTH, ENTRIES, REGS, WAYS, shape};
use std::alloc::Global;

// More steps than an ask or the station's rest needs.
const TURNS: u32 = 1_000_000;

/// Asks each request, and again after each other part's step if its cause passes. Says whether all
/// came to rest.
pub(crate) fn ask_by_hand(alloc: Global, requests: &[Ask]) -> Result<bool, StationFault> {
    let mut station = station::<WAYS, BLOCK_WORDS, REGS, DEPTH>(alloc, shape(), 1, ENTRIES)?;
    let Station {
        cache,
        ports,
        banks,
    } = &mut station;
    match ports.first_mut() {
        Some(port) => ask_all(cache, port, banks, requests),
        None => Ok(false),
    }
}

fn ask_all(
    cache: &mut CacheSide,
    port: &mut Port,
    banks: &mut [BankSide],
    requests: &[Ask],
) -> Result<bool, StationFault> {
    for ask in requests {
        ask_one(cache, port, banks, *ask)?;
    }
    Ok(come_to_rest(cache, port, banks))
}

// Steps to the end; whether the station is at rest then.
fn come_to_rest(cache: &mut CacheSide, port: &mut Port, banks: &mut [BankSide]) -> bool {
    for _turn in 0..TURNS {
        if !move_on(cache, port, banks) {
            return cache.is_at_rest();
        }
    }
    false
}

fn ask_one(
    cache: &mut CacheSide,
    port: &mut Port,
    banks: &mut [BankSide],
    ask: Ask,
) -> Result<(), StationFault> {
    for _turn in 0..TURNS {
        if port.offer(ask).is_err() {
            return Err(StationFault::TurnLimit);
        }
        cache.step(Source::Ask(0));
        match port.take() {
            Some(Told::Refused(cause)) if cause.passes() => {
                move_on(cache, port, banks);
            }
            Some(_) => return Ok(()),
            None => return Err(StationFault::TurnLimit),
        }
    }
    Err(StationFault::TurnLimit)
}

// Makes the first possible step, as the core's driver: tells and takes a value, processes a word,
// brings one, serves a command, drains a word.
fn move_on(cache: &mut CacheSide, port: &mut Port, banks: &mut [BankSide]) -> bool {
    if cache.step(Source::Reply(0)) == Stepped::Did {
        let _value = port.take();
        return true;
    }
    if cache.step(Source::Stack(0)) == Stepped::Did {
        return true;
    }
    if bring_word(cache) || serve_one(banks) {
        return true;
    }
    cache.step(Source::Drain) == Stepped::Did
}

// The first bank's word that there is.
fn bring_word(cache: &mut CacheSide) -> bool {
    for bank in 0..shape().banks {
        if cache.step(Source::Word(bank)) == Stepped::Did {
            return true;
        }
    }
    false
}

// The first bank that can.
fn serve_one(banks: &mut [BankSide]) -> bool {
    for bank in 0..banks.len() {
        if banks[bank].step() == Stepped::Did {
            return true;
        }
    }
    false
}
