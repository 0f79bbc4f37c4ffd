//! Lines in the pieces that a text comes in.
ghost use Rattle.std.specs.Prelude.{◌≡◌, ◌≢◌, ℕ, ◌+◌, ◌-◌, ◌<◌, ◌≤◌, length, take, drop, OnErr, IfOk, IfSome, IfNone, slice_index};
ghost use Rattle.trace_text.specs.Streams.{HasNoEnd};
ghost use Rattle.trace_text.specs.Collecting.{Filled, BegunFault};

use crate::fault::TraceFault;
use crate::lines::LineFault;
use crate::streams::Source;
use memchr::memchr_iter;
use std::io;
use thiserror::Error;

/// A write or flush was refused, or a read failed.
#[derive(Clone, Copy, Debug, Error)]
#[error("a stream failed")]
pub struct Failed;

impl From<io::Error> for Failed {
    ghost from_gives = { λ _error failed. Unit {0} };

    fn from(_error: io::Error) -> Failed {
        Failed
    }
}

// The iterator looks at 32 bytes first, in which most lines end.
pub(crate) fn end_of_line(bytes: &[u8]) -> Option<usize>
    ensures some { IfSome result (λ at. (at < length bytes.now) × (slice_index bytes.now at ≡ 10)
        × ((k : ℕ) → k < at → slice_index bytes.now k ≢ 10)) }
    ensures none { IfNone result (HasNoEnd bytes.now) }
{
    memchr_iter(b'\n', bytes).next()
}

pub(crate) fn begun_fault(lines: u64, left: usize, most: usize, limit: u64) -> Option<TraceFault>
    requires { lines ≤ limit }
    ensures some { IfSome result (BegunFault lines left most limit) }
    ensures short { IfNone result (left ≤ most) }
    ensures room { IfNone result (0 < left → lines < limit) }
{
    if left > 0 && lines == limit {
        return Some(TraceFault::TooManyLines);
    }
    if left > most {
        return Some(TraceFault::Line {
            number: lines + 1,
            fault: LineFault::TooLong,
        });
    }
    None
}

pub(crate) fn keep_end(bytes: &mut [u8], from: usize, to: usize)
    requires from { from ≤ to }
    requires to { to ≤ length bytes.old }
    ensures { take (to - from) bytes.new ≡ drop from (take to bytes.old) }
{
    bytes.copy_within(from..to, 0);
}

pub(crate) fn fill<R: Source>(
    reader: &mut R,
    buffer: &mut [u8],
    filled: usize,
) -> Result<usize, Failed>
    requires { filled < length buffer.old }
    ensures ok { IfOk result (Filled R.gave reader.old reader.new buffer.old buffer.new filled) }
    ensures err { OnErr result (R.failed reader.old reader.new) }
{
    let given = reader.read_some(&mut buffer[filled..])?;
    Ok(given)
}
