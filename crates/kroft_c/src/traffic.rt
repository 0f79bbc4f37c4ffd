//! Traffic for a test bench.
ghost use Rattle.std.specs.Prelude.{◌≡◌, length};
ghost use Rattle.flat_judge.specs.Traffic.{access_of, bytes_behind, row_behind, status_of};

use flat_judge::{Access, Plan};

/// Writes the access of a number, under a seed, and the bytes of a store.
#[unsafe(no_mangle)]
pub extern "C" fn kroft_traffic_draw(
    plan: &Plan,
    seed: u64,
    number: u64,
    access: &mut Access,
    bytes: &mut [u8],
) -> u32
    ensures status { result ≡ status_of plan.now (length bytes.old) }
    ensures access { access.new ≡ row_behind access.old result (access_of plan.now seed number) }
    ensures bytes { bytes.new
        ≡ bytes_behind bytes.old result seed number (access_of plan.now seed number) }
{
    flat_judge::traffic(plan, seed, number, access, bytes)
}
