//! A station on threads: ports, a cache side and banks, joined by rings alone, without a lock.
//!
//! - First call: [`run_threads`], which audits the journal too; [`run_and_renew`] and
//!   [`run_in_segments`] hand it out.
//! - Caller: who has a list of asks for each port; `station_tour` is the example.
//!
//! A thread serves each port, the cache side and each bank until its part is done, or a limit or a
//! [`Gate`] ends it. A [`Run`] says how each thread ended, what each port took and what the audit
//! found. Time and fairness aren't promised.
#![tactic(auto)]

mod bank_thread;
mod cache_thread;
mod crew;
mod fault;
mod gate;
mod idle;
mod keeper;
pub mod laws;
mod port_thread;
mod report;
mod round;
mod run;
mod segment;
mod segments;
mod talk;
mod thread_end;
mod threads;

pub use cache_unit::{ShapedUnit, Sizes};
pub use crew::Crew;
pub use fault::{FaultText, RunFault, SegmentFault};
pub use flat_model::{Answer, Cause, Event, Lanes, MakeFault, Shape, ShapeField, Word};
pub use gate::{Actor, Gate};
pub use keeper::Keeper;
pub use memory_banks::{BankAnswer, Command};
pub use report::{Run, Stop};
pub use run::{run_and_audit, run_threads};
pub use segment::{Segment, run_and_renew};
pub use segments::run_in_segments;
pub use station_parts::{
    ASK_PLACES, Ask, Audit, BankSide, CacheSide, Entry, Look, MAX_ENTRIES, MAX_NOTED, MAX_PORTS,
    PORT_TAGS, Port, RawBank, RenewFault, Ring, SideFault, Source, Station, Stepped,
    TELLING_PLACES, Told, audit, renew, shaped_station, station,
};
pub use thread_end::{ThreadEnd, ThreadFault};
