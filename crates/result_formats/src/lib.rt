//! What the program counts and finds, for other programs to read: figures with names, as a table
//! (CSV) and as objects (JSON).
//!
//! - First call: [`TableIn`], [`RoundsIn`], [`LatencyIn`] or [`PumpsIn`] with a
//!   [`Format`](named_fields::Format); [`DetailsIn`] has the details of a run.
//! - Caller: `kroft_jobs` and `kroft_command`.
//!
//! The names are those of the text. Among a run's details are its accesses: the run tells what became
//! of each request ([`round_driver::Outcome`]), and a log which requests are of one access
//! ([`access_logs::AccessGroup`]). [`count_accesses`] counts each as its worst word.
//!
//! [`ExplanationIn`] writes why a recorded run is none of flat memory, and [`history_in`] what became
//! of a history, each without its line's end.
#![tactic(auto)]

mod accesses;
mod counts;
mod details;
mod explanations;
mod histories;
mod origins;
mod results;
mod series;

pub use accesses::{AccessCounts, AccessFinds, access_outcome, count_accesses};
pub use counts::{
    LATENCY_FIELDS, PUMPS_FIELDS, ROUNDS_FIELDS, TABLE_FIELDS, latency_fields, pumps_fields,
    rounds_fields, table_fields,
};
pub use details::{
    ACCESS_FIELDS, DETAIL_FIELDS, DETAIL_SERIES, DetailsIn, access_fields, detail_fields,
    detail_series,
};
pub use explanations::ExplanationIn;
pub use histories::history_in;
pub use results::{
    LatencyHead, LatencyIn, PumpsHead, PumpsIn, RoundsHead, RoundsIn, TableHead, TableIn,
};
pub use series::{AllSeries, By, Series};
