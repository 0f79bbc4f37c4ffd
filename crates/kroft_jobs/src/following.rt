//! Requests in rounds, each followed to its end.

ghost use Rattle.std.specs.Prelude.{◌≡◌, ◌&&◌, ◌==◌, None, IfOk, IfErr};
ghost use Rattle.shape_files.specs.MachineFile.{bad_machine};
ghost use Rattle.register_sweeps.specs.Sweep.{machine_over};
ghost use Rattle.round_driver.specs.Rounds.{is_empty};
ghost use Rattle.result_figures.specs.Turns.{sight_of};
ghost use Rattle.kroft_jobs.specs.Asking.{AsksNothing, room_of};
ghost use Rattle.kroft_jobs.specs.Following as following;
ghost use Rattle.kroft_jobs.specs.Following.{FollowsAll};

use crate::asked::{RequestText, read_asked};
use access_logs::LogFault;
use flat_model::{Answer, Event, Image};
use register_sweeps::{Sizes, new_machine};
use result_figures::Seen;
use round_driver::{MOST_ROUNDS, Note, Rounds, Timing, keeps_whole};
use std::alloc::{AllocError, Global};
use trace_text::Source;

/// The most requests that are followed.
pub const MOST_FOLLOWED: usize = 16;

fn has_ended(asked: Option<Note>) -> bool
    ensures { result ≡ following.has_ended asked }
{
    match asked {
        Some(note) => match note.answer {
            Answer::Accepted => true,
            Answer::Refused(cause) => cause.ends_request(),
            _ => false,
        },
        None => false,
    }
}

fn left_behind<'a>(left: &'a [Event], asked: Option<Note>) -> &'a [Event]
    ensures { result.now ≡ following.left_behind left.now asked }
{
    match left {
        [_, rest @ ..] if has_ended(asked) => rest,
        _ => left,
    }
}

// Whether requests are used up, and nothing is on its way.
fn is_over(weight: u64, left: &[Event]) -> bool
    ensures { result ≡ (is_empty left.now && (weight == 0)) }
{
    left.is_empty() && weight == 0
}

// Drives requests through a new machine until nothing is on its way.
fn follow(
    alloc: Global,
    sizes: &Sizes,
    image: &Image,
    timing: Timing,
    requests: &[Event],
) -> Result<Seen, AllocError>
    requires sizes { bad_machine sizes.now ≡ None }
    ensures { IfOk result
        (λ seen. sight_of seen ≡ following.followed timing (machine_over image.now sizes.now) requests.now) }
{
    let mut machine = new_machine(alloc, sizes, image)?;
    let mut rounds = Rounds::new(alloc, timing)?;
    let mut seen = Seen::new(alloc);
    let mut left = requests;
    for _turn in 0..MOST_ROUNDS {
        if is_over(machine.weight(), left) {
            return Ok(seen);
        }
        keeps_whole(&machine);
        let report = rounds.make(&mut machine, left.first().copied());
        seen.see(&machine, rounds.count(), report)?;
        left = left_behind(left, report.asked);
    }
    Ok(seen)
}

/// What is told of requests that were followed.
#[derive(Drop)]
pub struct FollowedRun {
    /// How many requests there are; the first [`MOST_FOLLOWED`] are followed.
    pub requests: usize,
    /// What was seen of them.
    pub first: Seen,
    /// The same of the other machine.
    pub beside: Option<Seen>,
}

fn follow_beside(
    alloc: Global,
    beside: &Option<Sizes>,
    image: &Image,
    timing: Timing,
    requests: &[Event],
) -> Result<Option<Seen>, AllocError>
    requires { following.IsGood beside.now }
    ensures { IfOk result (following.IsFollowedBeside timing beside.now image.now requests.now) }
{
    match beside {
        Some(sizes) => Ok(Some(follow(alloc, sizes, image, timing, requests)?)),
        None => Ok(None),
    }
}

/// Drives the first requests through a new machine, and through another one if there is one. A log's
/// room is the first machine's memory.
pub fn follow_requests<I: Source>(
    alloc: Global,
    sizes: &Sizes,
    beside: &Option<Sizes>,
    image: &Image,
    timing: Timing,
    from: RequestText,
    input: &mut I,
) -> Result<FollowedRun, LogFault>
    requires sizes { bad_machine sizes.now ≡ None }
    requires beside { following.IsGood beside.now }
    ensures run { IfOk result
        (FollowsAll I.gave from (room_of sizes.now) timing (machine_over image.now sizes.now) beside.now image.now
        input.old input.new) }
    ensures fault { IfErr result
        (AsksNothing I.gave I.failed from (room_of sizes.now) input.old input.new) }
{
    let asked = read_asked(alloc, from, sizes, input)?;
    let all = asked.requests.as_slice();
    let requests = &all[..all.len().min(MOST_FOLLOWED)];
    let first = follow(alloc, sizes, image, timing, requests)?;
    let beside = follow_beside(alloc, beside, image, timing, requests)?;
    Ok(FollowedRun {
        requests: all.len(),
        first,
        beside,
    })
}
