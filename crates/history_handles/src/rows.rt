//! Operations, reasons and sets as plain numbers.
ghost use Rattle.std.specs.Prelude.{◌≡◌, ◌+◌, ◌*◌, ◌≤◌, length};
ghost use Rattle.memory_histories.specs.Sets.{has};
ghost use Rattle.std.specs.Option.{option_map};
ghost use Rattle.history_handles.specs.Rows.{row_of, counts_row, weight_in, octet, IsOctets};

use history_reasons::OpenOperation;
use history_sessions::Counts;
use memory_histories::ByteSet;

/// An open operation.
#[repr(C)]
#[derive(Clone, Copy, PartialEq, Eq, Debug)]
pub struct Operation {
    /// Its number.
    pub number: u64,
    /// Its first byte's address.
    pub address: u64,
    /// Its bytes.
    pub length: u64,
}

pub(crate) fn row_of(operation: Option<OpenOperation>) -> Option<Operation>
    ensures { result ≡ option_map row_of operation }
{
    match operation {
        Some(open) => Some(Operation {
            number: open.number,
            address: open.address,
            length: open.length as u64,
        }),
        None => None,
    }
}

/// What was counted of a history. A count stays at 2^64 - 1.
#[repr(C)]
#[derive(Clone, Copy, PartialEq, Eq, Debug)]
pub struct HistoryCounts {
    /// Answered loads.
    pub loads: u64,
    /// Those of which some byte might have been another.
    pub choices: u64,
    /// Those that were open at once with a store to one of their bytes.
    pub beside_store: u64,
    /// Operations answered before an older one with a byte in common.
    pub overtaking: u64,
}

pub(crate) fn counts_row(counts: Counts) -> HistoryCounts
    ensures { result ≡ counts_row counts }
{
    HistoryCounts {
        loads: counts.loads,
        choices: counts.choices,
        beside_store: counts.beside_store,
        overtaking: counts.overtaking,
    }
}

/// Why a load may not return a byte, or a unit's bytes together. A store that isn't told is 0.
#[repr(C)]
#[derive(Clone, Copy, PartialEq, Eq, Debug)]
pub struct ReasonRow {
    /// The place in the answer of the first wrong byte.
    pub wrong_place: u64,
    /// The place of the byte that the reason is of.
    pub place: u64,
    /// The last store that put the byte there.
    pub stored: u64,
    /// How many events were taken before its request.
    pub stored_at: u64,
    /// The last store that overwrote it before the load's request.
    pub overwritten_by: u64,
    /// How many events were taken before its request.
    pub overwritten_at: u64,
    /// 160: none. 161: the byte was never there. 162: it was memory's first, and 163: a store's,
    /// then overwritten. 164: each byte may come, but they never stood together.
    pub reason: u32,
}

/// Bytes of a set: bit `k` of byte `n` is byte `8n + k`.
pub const OCTETS: usize = 32;

fn weight_in(set: ByteSet, byte: u8, weight: u8) -> u8
    ensures weight { result ≡ weight_in (has set) byte weight }
    ensures most { result ≤ weight }
{
    if set.contains(byte) { weight } else { 0 }
}

#[tactic(auto, unfolding(crate::specs::Rows::octet))]
fn octet(set: ByteSet, first: u8) -> u8
    requires { first ≤ 248 }
    ensures { result ≡ octet (has set) first }
{
    let low = weight_in(set, first, 1)
        + weight_in(set, first + 1, 2)
        + weight_in(set, first + 2, 4)
        + weight_in(set, first + 3, 8);
    let high = weight_in(set, first + 4, 16)
        + weight_in(set, first + 5, 32)
        + weight_in(set, first + 6, 64)
        + weight_in(set, first + 7, 128);
    low + high
}

pub(crate) fn write_set(set: ByteSet, row: &mut [u8])
    requires { length row.old ≡ OCTETS }
    ensures { IsOctets row.new (has set) }
{
    for (n, place) in row.iter_mut().enumerate() {
        *place = octet(set, 8 * n as u8);
    }
}
