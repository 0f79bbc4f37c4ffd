//! How an axis is divided: up to its greatest value, by numbers that are 1, 2 or 5 times a power of
//! ten, or multiples of one.

ghost use Rattle.std.specs.Prelude.{◌≡◌, ◌≤◌, ◌<◌, ◌^◌, ◌++◌, IfSome, OnOk};
ghost use Rattle.result_figures.specs.declared.scale.TheConstants.{MOST_STEPS, TENS};
ghost use Rattle.result_figures.specs.Scales as scales;

use crate::mark::{Mark, Scale};
use std::alloc::AllocError;

/// The most steps of an axis.
pub const MOST_STEPS: u128 = 6;

/// The most if its numbers are long and stand side by side.
pub const FEW_STEPS: u128 = 3;

// The multiples of a step.
pub const STEPS: [u8; 7] = [0, 1, 2, 3, 4, 5, 6];

/// The powers of ten below 2^64.
pub const TENS: [u64; 20] = [
    1,
    10,
    100,
    1_000,
    10_000,
    100_000,
    1_000_000,
    10_000_000,
    100_000_000,
    1_000_000_000,
    10_000_000_000,
    100_000_000_000,
    1_000_000_000_000,
    10_000_000_000_000,
    100_000_000_000_000,
    1_000_000_000_000_000,
    10_000_000_000_000_000,
    100_000_000_000_000_000,
    1_000_000_000_000_000_000,
    10_000_000_000_000_000_000,
];

// The least of 1, 2 or 5 times this power of ten of which so many steps reach the largest value.
fn step_of(ten: u64, most: u64, steps: u128) -> Option<u128>
    requires { steps ≤ MOST_STEPS }
    ensures step { result ≡ scales.step_of ten most steps }
    ensures small { IfSome result (λ step. step < 2 ^ 68) }
{
    let one = u128::from(ten);
    let most = u128::from(most);
    if most <= steps * one {
        Some(one)
    } else if most <= steps * (2 * one) {
        Some(2 * one)
    } else if most <= steps * (5 * one) {
        Some(5 * one)
    } else {
        None
    }
}

// The first of such steps.
fn step_among(tens: &[u64], most: u64, steps: u128) -> u128
    requires { steps ≤ MOST_STEPS }
    ensures step { result ≡ scales.step_among tens.now most steps }
    ensures small { result < 2 ^ 68 }
{
    for ten in tens {
        if let Some(step) = step_of(*ten, most, steps) {
            return step;
        }
    }
    u128::from(most)
}

// Whether a multiple is on the axis: the one before it doesn't reach the greatest value.
fn is_on(count: u8, step: u128, most: u64) -> bool
    requires { step < 2 ^ 68 }
    ensures { result ≡ scales.is_on step most count }
{
    count <= 1 || step * (u128::from(count) - 1) < u128::from(most)
}

fn push_multiples(
    marks: &mut Vec<Mark>,
    step: u128,
    most: u64,
    counts: &[u8],
) -> Result<(), AllocError>
    requires { step < 2 ^ 68 }
    ensures { OnOk result (marks.new.items ≡ marks.old.items ++ scales.multiples step most counts.now) }
{
    for count in counts {
        if is_on(*count, step, most) {
            marks.push(Mark::Tick(step * u128::from(*count)))?;
        }
    }
    Ok(())
}

/// The numbers of a linear axis, of so many steps at most: from 0 to the first one that its
/// greatest value doesn't exceed.
pub(crate) fn push_linear(marks: &mut Vec<Mark>, most: u64, steps: u128) -> Result<(), AllocError>
    requires { steps ≤ MOST_STEPS }
    ensures { OnOk result (marks.new.items ≡ marks.old.items ++ scales.linear most steps) }
{
    push_multiples(marks, step_among(&TENS, most, steps), most, &STEPS)
}

// A number of a logarithmic axis, if it is the last one up to the least value, the first one from
// the greatest on, or between the two.
fn push_between(
    marks: &mut Vec<Mark>,
    ends: (u64, u64),
    before: u128,
    value: u128,
    behind: u128,
) -> Result<(), AllocError>
    ensures { OnOk result
        (marks.new.items ≡ marks.old.items ++ scales.between ends.0 ends.1 before value behind) }
{
    if u128::from(ends.0) < behind && before < u128::from(ends.1) {
        marks.push(Mark::Tick(value))?;
    }
    Ok(())
}

// The numbers from a power of ten to the next one.
fn push_decade(marks: &mut Vec<Mark>, ends: (u64, u64), ten: u64) -> Result<(), AllocError>
    ensures { OnOk result (marks.new.items ≡ marks.old.items ++ scales.decade ends.0 ends.1 ten) }
{
    let one = u128::from(ten);
    if 1_000 * u128::from(ends.0) < u128::from(ends.1) {
        push_between(marks, ends, one / 10, one, 10 * one)
    } else {
        push_between(marks, ends, one / 2, one, 2 * one)?;
        push_between(marks, ends, one, 2 * one, 5 * one)?;
        push_between(marks, ends, 2 * one, 5 * one, 10 * one)
    }
}

fn push_decades(marks: &mut Vec<Mark>, ends: (u64, u64), tens: &[u64]) -> Result<(), AllocError>
    ensures { OnOk result (marks.new.items ≡ marks.old.items ++ scales.decades ends.0 ends.1 tens.now) }
{
    for ten in tens {
        push_decade(marks, ends, *ten)?;
    }
    Ok(())
}

/// The numbers of an axis from a least to a greatest value.
pub(crate) fn push_ticks(
    marks: &mut Vec<Mark>,
    scale: Scale,
    least: u64,
    most: u64,
) -> Result<(), AllocError>
    ensures { OnOk result (marks.new.items ≡ marks.old.items ++ scales.ticks scale least most) }
{
    match scale {
        Scale::Linear => push_linear(marks, most, MOST_STEPS),
        Scale::Logarithmic => push_decades(marks, (least, most), &TENS),
    }
}
