//! Accesses by number.
ghost use Rattle.std.specs.Prelude.{◌≡◌, ◌≤◌, ◌<◌, ◌%◌, ◌/◌, ◌*◌, ◌+◌, ◌^◌, ◌≢◌, ℕ, length};
ghost use Rattle.flat_judge.specs.Traffic.{
  IsOf,
  access_of,
  behind,
  block_of,
  bytes_of,
  chosen_by,
  enables_of,
  length_of,
  mix_of,
  of_access,
  offset_of,
  state_of,
  word,
};
ghost use Rattle.flat_judge.specs.Plan.{used_bytes};

use crate::Traffic;
use rand_core::SeedableRng;
use rand_core::utils::{NextWord, fill_bytes_via_u32, next_u64_via_u32};
use rand_pcg::Pcg32;
use rand_xoshiro::SplitMix64;

/// A load or store of bytes of one block.
#[repr(C)]
#[derive(Clone, Copy, PartialEq, Eq, Debug)]
pub struct Access {
    /// Below the plan's requesters.
    pub requester: u32,
    /// Bytes.
    pub length: u32,
    /// This requester's earlier accesses.
    pub turn: u64,
    /// Its first byte.
    pub address: u64,
    /// A store's bytes, bit `k` for byte `k`; 0: a load.
    pub enables: u64,
}

impl Traffic {
    /// The access of a number. Requesters take turns; a burst keeps to a block. A store without
    /// bytes becomes a load.
    #[tactic(auto, unfolding(crate::specs::Traffic::access_of))]
    pub fn access(&self, seed: u64, number: u64) -> Access
        ensures access { result ≡ access_of self.now.plan seed number }
        ensures within { IsOf self.now.plan result }
    {
        let plan = &self.plan;
        let drawn = Drawn::new(seed, number);
        let requester = (number % u64::from(plan.requesters)) as u32;
        let length = self.length(drawn.pick);
        let block = self.block(seed, number / u64::from(plan.burst));
        let offset = self.offset(requester, length, drawn.place);
        Access {
            requester,
            length,
            turn: number / u64::from(plan.requesters),
            address: plan.base + self.place(block, offset, length),
            enables: self.enables(length, drawn.pick, drawn.chosen),
        }
    }

    #[tactic(auto, using(crate::proofs::Standing::piece_fits))]
    fn place(&self, block: u32, offset: u32, length: u32) -> u64
        requires there { block < self.now.plan.blocks }
        requires some { 1 ≤ length }
        requires fits { offset + length ≤ self.now.plan.block_bytes }
        ensures place { result ≡ block * self.now.plan.block_bytes + offset }
        ensures below { self.now.plan.base + result < 2 ^ 64 }
    {
        u64::from(block) * u64::from(self.plan.block_bytes) + u64::from(offset)
    }

    #[tactic(auto, unfolding(crate::specs::Traffic::block_of, crate::specs::Traffic::of_burst, crate::specs::Traffic::word, crate::specs::Traffic::behind), using(crate::proofs::Standing::picked_below))]
    fn block(&self, seed: u64, burst: u64) -> u32
        ensures block { result ≡ block_of self.now.plan seed burst }
        ensures there { result < self.now.plan.blocks }
    {
        let mut random = Pcg32::new(state(seed, burst), burst);
        let drawn = random.next_word();
        let block = drawn % self.plan.blocks;
        if random.next_word() % 256 < self.plan.conflicts {
            drawn % self.plan.used_blocks() * self.plan.sets
        } else {
            block
        }
    }

    #[tactic(auto, unfolding(crate::specs::Traffic::length_of))]
    fn length(&self, pick: u32) -> u32
        ensures length { result ≡ length_of self.now.plan pick }
        ensures some { 1 ≤ result }
        ensures most { result ≤ self.now.plan.widest }
        ensures single { self.now.plan.apart ≢ 0 → result ≡ 1 }
    {
        if self.plan.apart == 0 {
            (self.plan.widest >> (pick % 4)).max(1)
        } else {
            1
        }
    }

    #[tactic(auto, unfolding(crate::specs::Traffic::offset_of))]
    fn offset(&self, requester: u32, length: u32, place: u32) -> u32
        requires asks { requester < self.now.plan.requesters }
        requires some { 1 ≤ length }
        requires most { length ≤ self.now.plan.widest }
        requires single { self.now.plan.apart ≢ 0 → length ≡ 1 }
        ensures offset { result ≡ offset_of self.now.plan requester length place }
        ensures fits { result + length ≤ self.now.plan.block_bytes }
        ensures used { result + length ≤ used_bytes self.now.plan }
        ensures own { self.now.plan.apart ≢ 0 → result % self.now.plan.requesters ≡ requester }
    {
        let used = self.plan.used_bytes();
        if self.plan.apart == 0 {
            piece(place, used, length)
        } else {
            piece(place, used, self.plan.requesters) + requester
        }
    }

    #[tactic(auto, unfolding(crate::specs::Traffic::enables_of))]
    fn enables(&self, length: u32, pick: u32, chosen: u64) -> u64
        requires some { 1 ≤ length }
        requires most { length ≤ 64 }
        ensures enables { result ≡ enables_of self.now.plan length pick chosen }
        ensures lanes { result < 2 ^ length }
    {
        if pick / 4 % 256 >= self.plan.stores {
            0
        } else if pick / 1024 % 256 < self.plan.partial {
            lowest(chosen, length)
        } else {
            lowest(u64::MAX, length)
        }
    }
}

#[tactic(auto, using(crate::proofs::Standing::piece_below, crate::proofs::Standing::pieces_some))]
fn piece(place: u32, bytes: u32, piece: u32) -> u32
    requires some { 1 ≤ piece }
    requires fits { piece ≤ bytes }
    ensures piece { result ≡ place % (bytes / piece) * piece }
    ensures below { result + piece ≤ bytes }
    ensures even { (n : ℕ) → n < piece → (result + n) % piece ≡ n }
{
    place % (bytes / piece) * piece
}

fn lowest(number: u64, bits: u32) -> u64
    requires some { 1 ≤ bits }
    requires most { bits ≤ 64 }
    ensures lowest { result ≡ number % 2 ^ bits }
    ensures below { result < 2 ^ bits }
{
    if bits == 64 {
        number
    } else {
        number % (1 << bits)
    }
}

#[tactic(auto, unfolding(crate::specs::Traffic::mix_of))]
fn mix(state: u64) -> u64
    ensures { result ≡ mix_of state }
{
    SplitMix64::seed_from_u64(state).next_word()
}

#[tactic(auto, unfolding(crate::specs::Traffic::state_of))]
fn state(seed: u64, number: u64) -> u64
    ensures { result ≡ state_of seed number }
{
    mix(mix(seed) ^ number)
}

#[derive(Drop)]
struct Drawn {
    place: u32,
    pick: u32,
    chosen: u64,
    rest: Pcg32,
}

impl Drawn {
    #[tactic(auto, unfolding(crate::specs::Traffic::of_access, crate::specs::Traffic::word, crate::specs::Traffic::behind, crate::specs::Traffic::chosen_by))]
    fn new(seed: u64, number: u64) -> Drawn
        ensures place { result.place ≡ word (of_access seed number) }
        ensures pick { result.pick ≡ word (behind (of_access seed number)) }
        ensures chosen { result.chosen ≡ (chosen_by (of_access seed number)).0 }
        ensures rest { result.rest ≡ (chosen_by (of_access seed number)).1 }
    {
        let mut rest = Pcg32::new(state(u64::MAX - seed, number), number);
        let place = rest.next_word();
        let pick = rest.next_word();
        let chosen = next_u64_via_u32(&mut rest);
        Drawn {
            place,
            pick,
            chosen,
            rest,
        }
    }
}

/// Writes a store's bytes, as far as there is room.
#[tactic(auto, unfolding(crate::specs::Traffic::bytes_of))]
pub fn fill_bytes(seed: u64, number: u64, bytes: &mut [u8])
    ensures { bytes.new ≡ bytes_of seed number (length bytes.old) }
{
    let mut drawn = Drawn::new(seed, number);
    fill_bytes_via_u32(&mut drawn.rest, bytes);
}
