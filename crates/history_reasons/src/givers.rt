//! Where a load may get a byte from by the regular law.

ghost use Rattle.std.specs.Prelude.{◌≡◌, ◌<◌, ◌&&◌, ◌↔◌, ◌++◌, not, map, length, IfOk, OnOk, slice_get};
ghost use Rattle.std.specs.List.{Contains};
ghost use Rattle.memory_histories.specs.Regular.{MayReturn, is_covered, is_initial};
ghost use Rattle.history_reasons.specs.declared.givers.Source.{Source as Giver};
ghost use Rattle.history_reasons.specs.Sources.{IsSource, gives, givers, initial_source, sources, taken_at_once, at_request};

use memory_histories::{LoadByte, Rest, StoreByte, is_covered, is_initial, is_overwritten};
use std::alloc::{AllocError, Global};

/// Where a byte may come from.
#[derive(Clone, Copy, PartialEq, Eq, Debug)]
pub enum Source {
    /// Memory had it before the first store.
    Initial,
    /// This store put it there.
    Store(StoreByte),
}

/// Where a load may get this byte from now, over all stores so far. Memory before the first store
/// comes first, then stores in their order. There is a source exactly if the law allows the byte.
///
/// `AllocError`: too little memory.
pub fn sources(
    alloc: Global,
    image: &[u8],
    rest: Rest,
    stores: &[StoreByte],
    load: &LoadByte,
    byte: u8,
) -> Result<Vec<Source>, AllocError>
    ensures told { IfOk result (λ v. v.items ≡ sources image.now rest stores.now load.now byte) }
    ensures each { IfOk result (λ v. (x : Giver)
        → Contains v.items x ↔ IsSource image.now rest stores.now load.now byte x) }
    ensures allowed { IfOk result (λ v.
        (0 < length v.items) ↔ MayReturn image.now rest stores.now load.now byte) }
{
    let mut found = initial_sources(alloc, image, rest, stores, load, byte)?;
    add_givers(&mut found, stores, load, byte)?;
    Ok(found)
}

fn initial_sources(
    alloc: Global,
    image: &[u8],
    rest: Rest,
    stores: &[StoreByte],
    load: &LoadByte,
    byte: u8,
) -> Result<Vec<Source>, AllocError>
    ensures { IfOk result (λ v. v.items ≡ initial_source
        (is_initial (slice_get image.now load.now.address) rest byte && not (is_covered stores.now load.now))) }
{
    let mut found = Vec::new(alloc);
    if is_initial(image, rest, load.address, byte) && !is_covered(stores, load) {
        found.push(Source::Initial)?;
    }
    Ok(found)
}

pub(crate) fn add_givers(
    found: &mut Vec<Source>,
    stores: &[StoreByte],
    load: &LoadByte,
    byte: u8,
) -> Result<(), AllocError>
    ensures { OnOk result
        (found.new.items ≡ found.old.items ++ map Source.Store (givers stores.now load.now byte)) }
{
    for store in stores {
        if gives(stores, load, byte, store) {
            found.push(Source::Store(*store))?;
        }
    }
    Ok(())
}

// Whether a store may give the load this byte.
fn gives(stores: &[StoreByte], load: &LoadByte, byte: u8, store: &StoreByte) -> bool
    ensures { result ≡ gives stores.now load.now byte store.now }
{
    store.address == load.address
        && (store.byte == byte && !is_overwritten(stores, store, load.began))
}

// The stores as the flat law has them for a load: each answered at its request, and none requested
// behind the load's.
pub(crate) fn at_request(
    alloc: Global,
    stores: &[StoreByte],
    load: &LoadByte,
) -> Result<Vec<StoreByte>, AllocError>
    ensures { IfOk result (λ v. v.items ≡ at_request load.now stores.now) }
{
    let mut taken = Vec::new(alloc);
    for store in stores {
        if store.began < load.began {
            taken.push(taken_at_once(*store))?;
        }
    }
    Ok(taken)
}

// A store as if it were answered at its request.
fn taken_at_once(store: StoreByte) -> StoreByte
    ensures { result ≡ taken_at_once store }
{
    StoreByte {
        ended: Some(store.began),
        ..store
    }
}
