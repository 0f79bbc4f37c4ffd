//! Options as what they say. Clap has refused the other words.

use crate::commands::Subcommand;
use crate::options::{LATENCY, LOG, REGISTERS};
use clap::ArgMatches;
use kroft_jobs::RequestText;
use named_fields::{Format, VerdictFormat};
use result_figures::Scale;

// How a verdict or an explanation is written.
pub(crate) fn verdict_format_of(rest: &ArgMatches<'_>) -> VerdictFormat {
    match rest.get_str("format") {
        Some("json") => VerdictFormat::Json,
        _ => VerdictFormat::Text,
    }
}

// How counts and grades are written.
pub(crate) fn format_of(rest: &ArgMatches<'_>) -> Format {
    match rest.get_str("format") {
        Some("csv") => Format::Csv,
        Some("json") => Format::Json,
        _ => Format::Text,
    }
}

// The latency at this place, or 0.
pub(crate) fn latency_at(rest: &ArgMatches<'_>, place: usize) -> u64 {
    match rest.get_many::<u64>(LATENCY) {
        Some(mut given) => match given.nth(place) {
            Some(Ok(latency)) => latency,
            _ => 0,
        },
        None => 0,
    }
}

// How many latencies are asked for.
pub(crate) fn latency_count(rest: &ArgMatches<'_>) -> usize {
    match rest.get_raw(LATENCY) {
        Some(given) => given.len(),
        None => 0,
    }
}

// The number at this place, or 0.
pub(crate) fn registers_at(rest: &ArgMatches<'_>, place: usize) -> u32 {
    match rest.get_many::<u32>(REGISTERS) {
        Some(mut given) => match given.nth(place) {
            Some(Ok(registers)) => registers,
            _ => 0,
        },
        None => 0,
    }
}

pub(crate) fn scale_of(rest: &ArgMatches<'_>) -> Scale {
    if rest.get_flag(LOG) {
        Scale::Logarithmic
    } else {
        Scale::Linear
    }
}

pub(crate) fn text_of(rest: &ArgMatches<'_>) -> RequestText {
    match rest.get_str(LOG) {
        Some("lackey") => RequestText::Lackey,
        Some("din") => RequestText::Din,
        _ => RequestText::Trace,
    }
}

// Words with no command were refused, so `run` stands for none.
pub(crate) fn subcommand_of(matches: &ArgMatches<'_>) -> Subcommand {
    match matches.subcommand_name() {
        Some(name) => Subcommand::of(name).unwrap_or(Subcommand::Run),
        None => Subcommand::Run,
    }
}
