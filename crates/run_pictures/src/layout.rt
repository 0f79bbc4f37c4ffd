//! Where things lie in a machine that is drawn.
ghost use Rattle.std.specs.Prelude.{◌≡◌, ◌*◌};
ghost use Rattle.machine_core.specs.State.{block_of};
ghost use Rattle.run_pictures.specs.Layouts as layouts;
ghost use Rattle.run_pictures.specs.Layouts.{fitted};

use machine_core::Sizes;

pub(crate) fn frames_in(sizes: &Sizes) -> u32
    ensures { result ≡ layouts.frames_in sizes.now }
{
    sizes.sets.saturating_mul(sizes.ways)
}

// The registers ask for each word of their blocks once.
pub(crate) fn answers_in(sizes: &Sizes) -> u32
    ensures { result ≡ fitted (sizes.now.regs * sizes.now.block_words) }
{
    sizes.regs.saturating_mul(sizes.block_words)
}

#[tactic(auto, using(crate::proofs::Words::quotients))]
pub(crate) fn block_in(sizes: &Sizes, at: u32) -> u32
    ensures { result ≡ block_of sizes.now at }
{
    at.checked_div(sizes.block_words).unwrap_or(0)
}

#[tactic(auto, using(crate::proofs::Words::quotients))]
pub(crate) fn set_in(sizes: &Sizes, block: u32) -> u32
    ensures { result ≡ layouts.set_in sizes.now block }
{
    block.checked_rem(sizes.sets).unwrap_or(block)
}

#[tactic(auto, using(crate::proofs::Words::quotients))]
pub(crate) fn set_of_frame(sizes: &Sizes, frame: u32) -> u32
    ensures { result ≡ layouts.set_of_frame sizes.now frame }
{
    frame.checked_div(sizes.ways).unwrap_or(0)
}

#[tactic(auto, using(crate::proofs::Words::quotients))]
pub(crate) fn bank_in(sizes: &Sizes, at: u64) -> u64
    ensures { result ≡ layouts.bank_in sizes.now at }
{
    at.checked_rem(u64::from(sizes.banks)).unwrap_or(at)
}
