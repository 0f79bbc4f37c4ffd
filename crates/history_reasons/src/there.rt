//! Reasons and sources by whole stores: of each only the byte at the load's address is looked at.

ghost use Rattle.std.specs.Prelude.{◌≡◌, IfOk};
ghost use Rattle.memory_histories.specs.Regular.{may_return_byte, is_left, is_overwritten, is_covered, overwrites};
ghost use Rattle.history_reasons.specs.Reasons.{stores_byte, covers, last_reason};
ghost use Rattle.history_reasons.specs.Stores.{stored_there, last_there};

use crate::Reason;
use crate::stores::{KeptStore, stored_at};
use memory_histories::{LoadByte, Rest, StoreByte, is_before, is_initial};
use std::alloc::{AllocError, Global};

// The bytes of stores at an address.
pub(crate) fn stored_there(
    alloc: Global,
    stores: &[KeptStore],
    address: u64,
) -> Result<Vec<StoreByte>, AllocError>
    ensures { IfOk result (λ v. v.items ≡ stored_there address stores.now) }
{
    stores
        .iter()
        .filter_map(|store| stored_at(store, address))
        .collect(alloc)
}

// The reason with the last stores.
#[tactic(auto, using(crate::proofs::ThereLemmas::last_turned))]
pub(crate) fn reason_there(
    image: &[u8],
    rest: Rest,
    stores: &[KeptStore],
    load: &LoadByte,
    byte: u8,
) -> Option<Reason>
    ensures { result ≡ last_reason image.now rest (stored_there load.now.address stores.now) load.now byte }
{
    if is_allowed(image, rest, stores, load, byte) {
        return None;
    }
    if let Some(stored) = last_with(stores, load.address, byte) {
        let by = last_overwriting(stores, load.address, &stored, load.began)?;
        return Some(Reason::StoreOverwritten { stored, by });
    }
    if is_initial(image, rest, load.address, byte) {
        let by = last_covering(stores, load)?;
        return Some(Reason::InitialOverwritten { by });
    }
    Some(Reason::NeverThere)
}

// Whether the load may return the byte.
fn is_allowed(image: &[u8], rest: Rest, stores: &[KeptStore], load: &LoadByte, byte: u8) -> bool
    ensures { result ≡ may_return_byte image.now rest (stored_there load.now.address stores.now) load.now byte }
{
    is_left(stores, load, byte)
        || (is_initial(image, rest, load.address, byte) && !is_covered(stores, load))
}

// Whether the load may return it as what a store left.
fn is_left(stores: &[KeptStore], load: &LoadByte, byte: u8) -> bool
    ensures { result ≡ is_left (stored_there load.now.address stores.now) load.now byte }
{
    stores
        .iter()
        .filter_map(|kept| stored_at(kept, load.address))
        .any(|store| {
            store.address == load.address
                && (store.byte == byte && !is_overwritten(stores, load.address, &store, load.began))
        })
}

fn is_overwritten(stores: &[KeptStore], address: u64, store: &StoreByte, moment: u64) -> bool
    ensures { result ≡ is_overwritten (stored_there address stores.now) store.now moment }
{
    stores
        .iter()
        .filter_map(|kept| stored_at(kept, address))
        .any(|other| {
            other.address == store.address
                && (is_before(store.ended, other.began) && is_before(other.ended, moment))
        })
}

fn is_covered(stores: &[KeptStore], load: &LoadByte) -> bool
    ensures { result ≡ is_covered (stored_there load.now.address stores.now) load.now }
{
    stores
        .iter()
        .filter_map(|kept| stored_at(kept, load.address))
        .any(|store| store.address == load.address && is_before(store.ended, load.began))
}

fn last_with(stores: &[KeptStore], address: u64, byte: u8) -> Option<StoreByte>
    ensures { result ≡ last_there (stores_byte address byte) address stores.now }
{
    stores
        .iter()
        .rev()
        .filter_map(|kept| stored_at(kept, address))
        .find(|store| store.address == address && store.byte == byte)
}

fn last_overwriting(
    stores: &[KeptStore],
    address: u64,
    store: &StoreByte,
    moment: u64,
) -> Option<StoreByte>
    ensures { result ≡ last_there (overwrites store.now moment) address stores.now }
{
    stores
        .iter()
        .rev()
        .filter_map(|kept| stored_at(kept, address))
        .find(|other| {
            other.address == store.address
                && (is_before(store.ended, other.began) && is_before(other.ended, moment))
        })
}

fn last_covering(stores: &[KeptStore], load: &LoadByte) -> Option<StoreByte>
    ensures { result ≡ last_there (covers load.now) load.now.address stores.now }
{
    stores
        .iter()
        .rev()
        .filter_map(|kept| stored_at(kept, load.address))
        .find(|store| store.address == load.address && is_before(store.ended, load.began))
}
