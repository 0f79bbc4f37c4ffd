//! The reads that a miss sends to the banks.
ghost use Rattle.std.specs.Prelude.{◌≡◌, ℕ, ◌+◌, ◌*◌, ◌%◌, ◌/◌, ◌^◌, ◌<◌, ◌≤◌, ◌==◌, nat_lt, length};
ghost use Rattle.std.specs.List.{list_any, filter, range_with_len};
ghost use Rattle.memory_banks.specs.Banks.{HasSent, commands_for};
ghost use Rattle.cache_law.specs.Reads.{block_reads, is_short};

use memory_banks::{Command, Lines};

fn words_in_bank(first: u32, words: u32, banks: u32, bank: u32) -> u32
    requires some { 0 < banks }
    requires fits { first + words < 2 ^ 32 }
    ensures { result ≡ length (filter (λ at. at % banks == bank) (range_with_len first words)) }
{
    (first..first + words)
        .filter(|at| *at % banks == bank)
        .count() as u32
}

// Whether a bank lacks room for its share. One with room for all words needs no count.
fn is_short(room: u32, first: u32, words: u32, banks: u32, bank: u32) -> bool
    requires some { 0 < banks }
    requires fits { first + words < 2 ^ 32 }
    ensures { result ≡ nat_lt room
        (length (filter (λ at. at % banks == bank) (range_with_len first words))) }
{
    if room >= words {
        return false;
    }
    room < words_in_bank(first, words, banks, bank)
}

pub(crate) fn lacks_room<L: Lines>(lines: &L, first: u32, words: u32, banks: u32) -> bool
    requires some { 0 < banks }
    requires fits { first + words < 2 ^ 32 }
    ensures { result ≡ list_any (is_short (L.room_of lines.now) first words banks)
        (range_with_len 0 banks) }
{
    for bank in 0..banks {
        if is_short(lines.room(bank), first, words, banks, bank) {
            return true;
        }
    }
    false
}

/// Sends a read for each of these words to its bank.
pub(crate) fn send_reads<L: Lines>(lines: &mut L, slot: u32, first: u32, words: u32, banks: u32)
    requires some { 0 < banks }
    requires words { 0 < words }
    requires fits { first + words < 2 ^ 32 }
    requires room { (b : ℕ)
        → length (commands_for b (block_reads slot first words banks words))
        ≤ L.room_of lines.old b }
    ensures { HasSent L.sent_to L.room_of L.same lines.old lines.new
        (block_reads slot first words banks words) }
{
    for k in 0..words {
        let at = first + k;
        lines.send(
            at % banks,
            Command::Read {
                slot,
                i: at % words,
                place: at / banks,
            },
        );
    }
}
