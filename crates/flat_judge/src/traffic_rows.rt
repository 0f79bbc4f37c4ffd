//! Traffic for C.
ghost use Rattle.std.specs.Prelude.{◌≡◌, length};
ghost use Rattle.flat_judge.specs.Traffic.{access_of, bytes_behind, row_behind, status_of};

use crate::{Access, Plan, fill_bytes};

const DRAWN: u32 = 0;

const NO_PLAN: u32 = 171;

const NO_ROOM: u32 = 109;

/// Writes an access and a store's bytes. 0: done. 171: the plan is out of range. 109: `bytes` is
/// shorter than the widest access.
pub fn traffic(plan: &Plan, seed: u64, number: u64, access: &mut Access, bytes: &mut [u8]) -> u32
    ensures status { result ≡ status_of plan.now (length bytes.old) }
    ensures access { access.new ≡ row_behind access.old result (access_of plan.now seed number) }
    ensures bytes { bytes.new
        ≡ bytes_behind bytes.old result seed number (access_of plan.now seed number) }
{
    let Some(traffic) = plan.traffic() else {
        return NO_PLAN;
    };
    let drawn = traffic.access(seed, number);
    if bytes.len() < plan.widest as usize {
        return NO_ROOM;
    }
    if drawn.enables != 0 {
        fill_bytes(seed, number, &mut bytes[..drawn.length as usize]);
    }
    *access = drawn;
    DRAWN
}
