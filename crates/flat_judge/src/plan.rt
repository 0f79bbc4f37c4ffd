//! A plan of traffic.
ghost use Rattle.std.specs.Prelude.{◌≡◌, ◌≤◌, ◌<◌, ◌-◌, ◌*◌, true, is_some, IfSome};
ghost use Rattle.flat_judge.specs.Plan.{
  Memory,
  Requesters,
  Sets,
  Widths,
  has_memory,
  has_requesters,
  has_sets,
  has_widths,
  is_plan,
  set_blocks,
  used_blocks,
  used_bytes,
};

/// What traffic is like. Shares are in 256ths, 256 and more always.
#[repr(C)]
#[derive(Clone, Copy, PartialEq, Eq, Debug)]
pub struct Plan {
    /// A multiple of `block_bytes`.
    pub base: u64,
    /// 1 or more, none past the last 64-bit address.
    pub blocks: u32,
    /// A multiple of `widest`.
    pub block_bytes: u32,
    /// The widest access: a power of 2 to 64. Others have an eighth or more.
    pub widest: u32,
    /// 1 or more: blocks a multiple apart conflict.
    pub sets: u32,
    /// Share of bursts to set 0.
    pub conflicts: u32,
    /// Accesses in a block: 1 or more.
    pub burst: u32,
    /// 1 or more.
    pub requesters: u32,
    /// Not 0: accesses are of one byte, in each block a requester's own.
    pub apart: u32,
    /// Share of stores.
    pub stores: u32,
    /// Share of stores that may leave bytes out.
    pub partial: u32,
    /// Words of `widest` bytes that are used of a block, the first ones. 0: all.
    pub words: u32,
    /// Blocks of set 0 that conflicting bursts go to, the first ones. 0: all.
    pub blocks_of_set: u32,
}

impl Plan {
    /// `None`: a number is out of its range.
    #[tactic(auto, unfolding(crate::specs::Plan::is_plan))]
    pub fn traffic(&self) -> Option<Traffic>
        ensures plan { is_some result ≡ is_plan self.now }
        ensures same { IfSome result (λ traffic. traffic.plan ≡ self.now) }
    {
        if self.has_memory() && self.has_widths() && self.has_sets() && self.has_requesters() {
            Some(Traffic { plan: *self })
        } else {
            None
        }
    }

    #[tactic(auto, unfolding(crate::specs::Plan::has_memory))]
    fn has_memory(&self) -> bool
        ensures test { result ≡ has_memory self.now }
        ensures bounds { result ≡ true → Memory self.now }
    {
        self.blocks > 0
            && self.block_bytes > 0
            && self.base % u64::from(self.block_bytes) == 0
            && u64::from(self.blocks) * u64::from(self.block_bytes) - 1 <= u64::MAX - self.base
    }

    #[tactic(auto, unfolding(crate::specs::Plan::has_widths), using(crate::proofs::Standing::words_fit))]
    fn has_widths(&self) -> bool
        ensures test { result ≡ has_widths self.now }
        ensures bounds { result ≡ true → Widths self.now }
    {
        self.widest > 0
            && self.widest <= 64
            && 64 % self.widest == 0
            && self.widest <= self.block_bytes
            && self.block_bytes % self.widest == 0
            && self.words <= self.block_bytes / self.widest
    }

    #[tactic(auto, unfolding(crate::specs::Plan::has_sets))]
    fn has_sets(&self) -> bool
        requires memory { Memory self.now }
        ensures test { result ≡ has_sets self.now }
        ensures bounds { result ≡ true → Sets self.now }
    {
        self.sets > 0 && self.blocks_of_set <= self.set_blocks()
    }

    #[tactic(auto, unfolding(crate::specs::Plan::has_requesters))]
    fn has_requesters(&self) -> bool
        requires widths { Widths self.now }
        ensures test { result ≡ has_requesters self.now }
        ensures bounds { result ≡ true → Requesters self.now }
    {
        self.burst > 0
            && self.requesters > 0
            && (self.apart == 0 || self.requesters <= self.used_bytes())
    }

    #[tactic(auto, unfolding(crate::specs::Plan::used_bytes), using(crate::proofs::Standing::words_some))]
    pub(crate) fn used_bytes(&self) -> u32
        requires widths { Widths self.now }
        ensures bytes { result ≡ used_bytes self.now }
        ensures most { result ≤ self.now.block_bytes }
        ensures widest { self.now.widest ≤ result }
    {
        if self.words == 0 {
            self.block_bytes
        } else {
            self.words * self.widest
        }
    }

    #[tactic(auto, unfolding(crate::specs::Plan::set_blocks))]
    fn set_blocks(&self) -> u32
        requires blocks { 1 ≤ self.now.blocks }
        requires sets { 1 ≤ self.now.sets }
        ensures { result ≡ set_blocks self.now }
    {
        (self.blocks - 1) / self.sets + 1
    }

    #[tactic(auto, unfolding(crate::specs::Plan::used_blocks, crate::specs::Plan::set_blocks), using(crate::proofs::Standing::set_block_there))]
    pub(crate) fn used_blocks(&self) -> u32
        requires memory { Memory self.now }
        requires sets { Sets self.now }
        ensures blocks { result ≡ used_blocks self.now }
        ensures some { 1 ≤ result }
        ensures there { (result - 1) * self.now.sets < self.now.blocks }
    {
        if self.blocks_of_set == 0 {
            self.set_blocks()
        } else {
            self.blocks_of_set
        }
    }
}

/// A plan's traffic.
#[derive(Clone, Copy, PartialEq, Eq, Debug)]
pub struct Traffic {
    /// Its plan.
    pub plan: Plan,
    ghost memory: { Memory plan },
    ghost widths: { Widths plan },
    ghost sets: { Sets plan },
    ghost requesters: { Requesters plan },
}
