//! Answered loads leave the memory of their sets for later ones: most loads then allocate nothing.

ghost use Rattle.std.specs.Prelude.{◌≡◌, ◌≤◌, ◌<◌, [], ◌∷◌, ◌++◌, IfOk, vec_len, vec_capacity};

use crate::sets::ByteSet;
use std::alloc::{AllocError, Global};

// The most that are kept.
const MAX_SPARES: usize = 8;

// Room for the sets of a load.
pub(crate) fn take_spare(
    alloc: Global,
    spares: &mut Vec<Vec<ByteSet>>,
    length: usize,
) -> Result<Vec<ByteSet>, AllocError>
    ensures empty { IfOk result (λ v. v.items ≡ []) }
    ensures room { IfOk result (λ v. length ≤ vec_capacity v) }
{
    if let Some(sets) = spares.pop() {
        if length <= sets.capacity() {
            return Ok(emptied(sets));
        }
    }
    new_room(alloc, spares, length)
}

// A spare without what it held.
fn emptied(sets: Vec<ByteSet>) -> Vec<ByteSet>
    ensures empty { result.items ≡ [] }
    ensures room { vec_capacity result ≡ vec_capacity sets }
{
    let mut sets = sets;
    sets.clear();
    sets
}

// New room, also for the spares to come.
#[inline(never)]
fn new_room(
    alloc: Global,
    spares: &mut Vec<Vec<ByteSet>>,
    length: usize,
) -> Result<Vec<ByteSet>, AllocError>
    ensures empty { IfOk result (λ v. v.items ≡ []) }
    ensures room { IfOk result (λ v. length ≤ vec_capacity v) }
{
    if spares.capacity() == 0 {
        spares.reserve(MAX_SPARES)?;
    }
    Vec::with_capacity(alloc, length)
}

pub(crate) fn keep_spare(spares: &mut Vec<Vec<ByteSet>>, sets: Vec<ByteSet>)
    ensures kept { vec_len spares.old < vec_capacity spares.old → spares.new.items ≡ spares.old.items ++ sets ∷ [] }
    ensures full { vec_capacity spares.old ≤ vec_len spares.old → spares.new.items ≡ spares.old.items }
    ensures room { vec_capacity spares.new ≡ vec_capacity spares.old }
{
    if spares.len() < spares.capacity() {
        spares.push_reserved(sets);
    }
}
