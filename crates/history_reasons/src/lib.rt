//! Why a load may not return a byte by the regular law: who stored it, and who overwrote it. And
//! where an allowed byte may come from.
//!
//! - First call: [`StoreLog::new`], then [`StoreLog::note`] for each event.
//! - Caller: `history_text` and `history_handles`, which ask [`StoreLog::why`] when an answer is
//!   refused. [`StoreLog::sources`] says where an allowed byte comes from.
//!
//! [`why`] and [`sources`] say the same over a list of all stores. A log keeps fewer than twice
//! [`KEPT_BYTES`] bytes of stores and forgets the oldest; [`StoreLog::is_whole`] says whether it did.
#![tactic(auto)]

ghost use Rattle.std.specs.Prelude.{◌≡◌, ◌↔◌, None, IfSome};
ghost use Rattle.memory_histories.specs.Regular.{MayReturn, may_return_byte, overwrites};
ghost use Rattle.history_reasons.specs.Reasons.{HasReason, stores_byte, covers, last_that, last_reason};

mod givers;
mod loads;
mod log;
mod open;
mod places;
mod stores;
mod there;
mod units;

pub use givers::{Source, sources};
pub use log::{KEPT_BYTES, StoreLog};
use memory_histories::{LoadByte, Rest, StoreByte, is_before, is_initial, may_return};
pub use open::OpenOperation;
pub use units::FoundReason;

/// Why a load may not return a byte. The last store goes by the order of requests.
#[derive(Clone, Copy, PartialEq, Eq, Debug)]
pub enum Reason {
    /// Neither a store nor memory had it here.
    NeverThere,
    /// Memory had it at first; of the stores here that were answered before the load's request this
    /// was the last.
    InitialOverwritten { by: StoreByte },
    /// `stored` was the last that put it here; `by` the last requested after that one's response
    /// and answered before the load's request.
    StoreOverwritten { stored: StoreByte, by: StoreByte },
}

/// Why a load may not return this byte now; `None` if it may. Memory began with this image, and
/// these are all stores so far, by their requests.
pub fn why(
    image: &[u8],
    rest: Rest,
    stores: &[StoreByte],
    load: &LoadByte,
    byte: u8,
) -> Option<Reason>
    ensures told { result ≡ last_reason image.now rest stores.now load.now byte }
    ensures allowed { (result ≡ None) ↔ MayReturn image.now rest stores.now load.now byte }
    ensures reason { IfSome result (HasReason image.now rest stores.now load.now byte) }
{
    last_reason(image, rest, stores, load, byte)
}

// The reason with the last stores.
pub(crate) fn last_reason(
    image: &[u8],
    rest: Rest,
    stores: &[StoreByte],
    load: &LoadByte,
    byte: u8,
) -> Option<Reason>
    ensures { result ≡ last_reason image.now rest stores.now load.now byte }
{
    if is_allowed(image, rest, stores, load, byte) {
        return None;
    }
    if let Some(stored) = last_with(stores, load.address, byte) {
        let by = last_overwriting(stores, &stored, load.began)?;
        return Some(Reason::StoreOverwritten { stored, by });
    }
    if is_initial(image, rest, load.address, byte) {
        let by = last_covering(stores, load)?;
        return Some(Reason::InitialOverwritten { by });
    }
    Some(Reason::NeverThere)
}

// Whether the load may return the byte.
fn is_allowed(image: &[u8], rest: Rest, stores: &[StoreByte], load: &LoadByte, byte: u8) -> bool
    ensures { result ≡ may_return_byte image.now rest stores.now load.now byte }
{
    may_return(image, rest, stores, load, byte)
}

// The last store that put this byte here.
fn last_with(stores: &[StoreByte], address: u64, byte: u8) -> Option<StoreByte>
    ensures { result ≡ last_that (stores_byte address byte) stores.now }
{
    stores
        .iter()
        .rev()
        .copied()
        .find(|store| store.address == address && store.byte == byte)
}

// The last that overwrote this one before the moment.
fn last_overwriting(stores: &[StoreByte], store: &StoreByte, moment: u64) -> Option<StoreByte>
    ensures { result ≡ last_that (overwrites store.now moment) stores.now }
{
    stores.iter().rev().copied().find(|other| {
        other.address == store.address
            && (is_before(store.ended, other.began) && is_before(other.ended, moment))
    })
}

// The last store to the byte answered before the load's request.
fn last_covering(stores: &[StoreByte], load: &LoadByte) -> Option<StoreByte>
    ensures { result ≡ last_that (covers load.now) stores.now }
{
    stores.iter().rev().copied().find(|store| store.address == load.address
        && is_before(store.ended, load.began))
}
