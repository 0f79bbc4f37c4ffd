//! The requests that an input asks for.

ghost use Rattle.std.specs.Prelude.{◌≡◌, ◌/◌, ◌≤◌, true, length, IfOk, IfErr};
ghost use Rattle.std.specs.List.{list_all};
ghost use Rattle.kroft_jobs.specs.Words.{PAGE_WORDS, MAX_WORDS};
ghost use Rattle.access_logs.specs.Reads.{LogSays, LogFails};
ghost use Rattle.round_driver.specs.Rounds.{most_requests};
ghost use Rattle.round_driver.specs.Walks.{is_request};
ghost use Rattle.kroft_jobs.specs.Asking as asking;
ghost use Rattle.kroft_jobs.specs.Asking.{Asks, AsksNothing, room_of};

use access_logs::{
    AccessGroup, Din, Lackey, LogFault, LogFormat, LogRequests, MAX_WORDS, read_log,
};
use register_sweeps::Sizes;
use result_formats::{AccessCounts, count_accesses};
use round_driver::Outcome;
use std::alloc::Global;
use trace_text::{Source, read_requests};

/// What an input says as requests.
#[derive(Clone, Copy, PartialEq, Eq, Debug)]
pub enum RequestText {
    /// The requests of a trace's lines.
    Trace,
    /// A log of valgrind's lackey.
    Lackey,
    /// A log in Dinero's format `din`.
    Din,
}

#[tactic(auto, using(crate::proofs::Driving::all_requests, crate::proofs::Driving::log_few))]
fn log_requests<I: Source, F: LogFormat>(
    alloc: Global,
    format: &F,
    words: u32,
    input: &mut I,
) -> Result<LogRequests, LogFault>
    requires { words ≤ MAX_WORDS }
    ensures said { IfOk result
        (λ log. LogSays I.gave F.access_in (words / PAGE_WORDS) input.old input.new log.requests.items
        log.groups.items) }
    ensures requests { IfOk result (λ log. list_all is_request log.requests.items ≡ true) }
    ensures few { IfOk result (λ log. length log.requests.items ≤ most_requests) }
    ensures fault { IfErr result
        (LogFails I.gave I.failed F.access_in (words / PAGE_WORDS) input.old input.new) }
{
    let log = read_log(alloc, input, format, words)?;
    Ok(log)
}

// The requests of a trace.
#[tactic(auto, using(crate::proofs::Driving::all_requests))]
fn trace_requests<I: Source>(alloc: Global, input: &mut I) -> Result<LogRequests, LogFault>
    ensures said { IfOk result
        (λ asked. Asks I.gave RequestText.Trace 0 input.old input.new asked.requests.items
        asked.groups.items) }
    ensures requests { IfOk result (λ asked. list_all is_request asked.requests.items ≡ true) }
    ensures few { IfOk result (λ asked. length asked.requests.items ≤ most_requests) }
    ensures fault { IfErr result
        (AsksNothing I.gave I.failed RequestText.Trace 0 input.old input.new) }
{
    match read_requests(alloc, input) {
        Ok(requests) => Ok(LogRequests {
            requests,
            groups: Vec::new(alloc),
        }),
        Err(fault) => Err(LogFault::Trace(fault)),
    }
}

/// The requests of a trace, or of a log over the shape's memory. Only a log has groups.
///
/// A trace's faults come as [`LogFault::Trace`].
pub(crate) fn read_asked<I: Source>(
    alloc: Global,
    from: RequestText,
    sizes: &Sizes,
    input: &mut I,
) -> Result<LogRequests, LogFault>
    ensures said { IfOk result
        (λ asked. Asks I.gave from (room_of sizes.now) input.old input.new asked.requests.items
        asked.groups.items) }
    ensures requests { IfOk result (λ asked. list_all is_request asked.requests.items ≡ true) }
    ensures few { IfOk result (λ asked. length asked.requests.items ≤ most_requests) }
    ensures fault { IfErr result
        (AsksNothing I.gave I.failed from (room_of sizes.now) input.old input.new) }
{
    let words = sizes.words.min(MAX_WORDS);
    match from {
        RequestText::Trace => trace_requests(alloc, input),
        RequestText::Lackey => log_requests(alloc, &Lackey, words, input),
        RequestText::Din => log_requests(alloc, &Din, words, input),
    }
}

// Counts accesses by their groups and the requests' outcomes.
pub(crate) fn accesses_of(
    from: RequestText,
    groups: &[AccessGroup],
    outcomes: &[Outcome],
) -> Option<AccessCounts>
    ensures { result ≡ asking.accesses_of from groups.now outcomes.now }
{
    match from {
        RequestText::Trace => None,
        RequestText::Lackey | RequestText::Din => Some(count_accesses(groups, outcomes)),
    }
}
