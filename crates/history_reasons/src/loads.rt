//! The open loads of a log, each whole: most answers are right, and no byte is looked at.

ghost use Rattle.std.specs.Prelude.{◌≡◌};
ghost use Rattle.std.specs.List.{find};
ghost use Rattle.std.specs.Option.{option_map};
ghost use Rattle.history_reasons.specs.Loads.{asks_for, byte_at, without_load};

use memory_histories::{LoadByte, is_enabled};

/// So many bytes from an address on.
#[derive(Clone, Copy)]
pub struct OpenLoad {
    pub(crate) number: u64,
    pub(crate) address: u64,
    pub(crate) length: usize,
    pub(crate) enables: u64,
    pub(crate) began: u64,
}

// The byte at this address of the load open under this number.
pub(crate) fn load_at(loads: &[OpenLoad], number: u64, address: u64) -> Option<LoadByte>
    ensures { result ≡ option_map (byte_at address) (find (asks_for number address) loads.now) }
{
    match find_load(loads, number, address) {
        Some(load) => Some(byte_at(load, address)),
        None => None,
    }
}

fn find_load(loads: &[OpenLoad], number: u64, address: u64) -> Option<OpenLoad>
    ensures { result ≡ find (asks_for number address) loads.now }
{
    loads
        .iter()
        .copied()
        .find(|load| asks_for(load, number, address))
}

fn asks_for(load: &OpenLoad, number: u64, address: u64) -> bool
    ensures { result ≡ asks_for number address load.now }
{
    load.number == number
        && (load.address <= address && address - load.address < load.length as u64)
}

fn byte_at(load: OpenLoad, address: u64) -> LoadByte
    ensures { result ≡ byte_at address load }
{
    LoadByte {
        number: load.number,
        address,
        began: load.began,
        enabled: is_enabled(load.enables, address.saturating_sub(load.address)),
    }
}

pub(crate) fn end_load(loads: &mut Vec<OpenLoad>, number: u64)
    ensures { loads.new.items ≡ without_load number loads.old.items }
{
    loads.retain(|load| load.number != number);
}
